// A step on the lent lists, once every check is passed: the one access of the place at which the participant stands, and what
// follows it. The definition's `take_marked` (specs/Step of `definition`), whose tables the lists hold afterwards.
//
// The code is a chain of calls; that each of them may be made, and that together they are the definition's step, is proofs/Laws.
#![tactic(auto)]

ghost use Rattle.std.specs.Prelude.{◌≡◌, ◌%◌, length};
ghost use Rattle.definition.specs.Layout.{tables_of};
ghost use Rattle.definition.specs.Links.{index};
ghost use Rattle.definition.specs.Step.{take_marked};
ghost use Rattle.lent.specs.Lists.{lent, Same};
ghost use Rattle.bags.specs.Bags.{bag_seal};
ghost use Rattle.step.specs.Steps.{Steps, Leaves};

use bits::FreeBits;
use definition::{Answer, Node, Slot};
use flow::links::node_at;
use follow::follow;
use internal::{asks_at, follows_at};
use lent::{ListsMut, NODE_WORDS, SEAL, row};
use records::load;
use words::perform;

// Returns the seal of the bag in the node that a word names, of a list of whole rows. Where it names none of them there is no seal to look at: 0.
// (No Option: it is total as `bag_seal` is, since the definition's table of bags, `bag_from` of specs/Layout, has 0 beyond the list.)
fn seal_of(nodes: &[u64], value: u64) -> u64
    requires { length nodes.now % 3 ≡ 0 }
    ensures { result ≡ bag_seal nodes.now (index value) }
{
    let Node(i) = node_at(value);
    let (rows, _) = nodes.as_chunks::<NODE_WORDS>();
    match rows.get(i as usize) {
        Some(row) => row[SEAL],
        None => 0,
    }
}

// Makes the step of participant `p`, marked or not. Freed tokens go to the front of `freed`.
pub fn take_step(l: &mut ListsMut<'_>, p: usize, marked: bool, freed: &mut [u64]) -> Answer
    requires { Steps l.old.n l.old.m p (lent l.old) freed.old }
    ensures leaves { Leaves l.old.n l.old.m (take_marked marked l.old.m p (tables_of l.old.n l.old.m (lent l.old)))
        freed.old result (lent l.new) freed.new }
    ensures same { Same l.old l.new }
{
    let (n, m) = (l.n, l.m);
    let lists = l.read();
    let o = load(row(lists.participants, p));
    let spare = FreeBits::nodes(n, m).first_free(lists.globals);
    let me = Slot(p as u64);
    let ask = asks_at(me, o);
    let seen = perform(l, ask, marked);
    let seal = seal_of(l.read().nodes, seen.value);
    let after = follows_at(me, Node(spare as u64), seal, o, seen);
    follow(l, p, o, after, freed)
}
