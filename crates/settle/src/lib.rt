// The private work after an access, on the lent lists: an item put into the participant's bag, the popped bag freed behind it, the bag
// sealed into a node. Nothing here knows of places.
//
// specs/Settle says what each list is afterwards, and proofs/Laws shows that it is the definition's `settle`.
#![tactic(auto)]

ghost use Rattle.lent.specs.Lists.{lent, Same};
ghost use Rattle.settle.specs.Settle.{Settles, Settled};

use bags::{free_bag, put_item, seal_bag};
use bits::FreeBits;
use definition::Work;
use lent::{BAG_WORDS, ListsMut};

// Does the work of participant `p`, who holds `k` items. Tokens go to the front of `freed`; their number is returned.
pub fn settle(l: &mut ListsMut<'_>, p: usize, k: usize, work: Work, freed: &mut [u64]) -> u64
    requires { Settles l.old.n p k work (lent l.old) freed.old }
    ensures settled { Settled l.old.n p k work (lent l.old) freed.old result (lent l.new) freed.new }
    ensures same { Same l.old l.new }
{
    let (n, m) = (l.n, l.m);
    match work {
        Work::Nothing => 0,
        Work::Put(item) => {
            // The places left, which it answers, are not asked for: a defer has them from its participant (flow, `placed`).
            put_item(&mut l.held[p * BAG_WORDS..], k, item);
            0
        }
        Work::PutThenFree(item, node) => {
            // The retirement is placed before the popped bag is freed.
            put_item(&mut l.held[p * BAG_WORDS..], k, item);
            // Lent before the call: Rattle has no rule for lending a list to be read beside lists of `l` that are changed. So below, `held`.
            let queued = &mut *l.queued;
            free_bag(l.globals, n, m, l.nodes, queued, node.0 as usize, freed)
        }
        Work::Seal(node, e) => {
            let i = node.0 as usize;
            let from = p * BAG_WORDS;
            let held: &[u64] = &mut *l.held;
            seal_bag(&held[from..from + k], l.nodes, l.queued, i, e);
            FreeBits::nodes(n, m).take(l.globals, i);
            0
        }
    }
}
