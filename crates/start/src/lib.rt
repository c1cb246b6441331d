// A fresh start: five lent lists that hold no participant, an empty queue and no garbage, whatever they held before; and lists of
// zeros, which a program lends.
//
// internal.rs, `Global::new`, and queue.rs, `Queue::new`: a null list head, and a queue of one node, the sentinel, which is node 0. Where
// the Rust takes fresh memory, every slot is free here, and every node but the sentinel. All else is zero: the starting epoch, the null
// pointer, an empty bag and a participant at rest are the number 0.
//
// Each promise gives every word of the list.
#![tactic(auto)]

ghost use Rattle.std.specs.Prelude.{◌≡◌, true, ◌+◌, ◌^◌, ◌≤◌, ◌<◌, length, replicate};
ghost use Rattle.definition.specs.Ranges.{bit_words, fresh};
ghost use Rattle.definition.specs.Layout.{sized, lent_of};
ghost use Rattle.lent.specs.Lists.{lent, Same};
ghost use Rattle.start.specs.Given.{given_from};

use bits::FreeBits;
use lent::{ListsMut, QUEUE_HEAD, QUEUE_TAIL};

// The pointer to node 0. (In digits: a constant cannot call `link`.)
pub const SENTINEL: u64 = 2;

// Returns a list of zeros, as long as its type says: to be lent as one of the five, or for the tokens that a step frees. (Document 01 names the form,
// `[v; n]` with each entry stated.)
pub fn zeros<const K: usize>() -> [u64; K]
    ensures { result ≡ replicate K 0 }
{
    [0; K]
}

// Gives `k` indices back, from `from` on: they are free.
fn give_from(globals: &mut [u64], bits: FreeBits, from: usize, k: usize)
    requires { (from + k < 2 ^ 64) × (bits.at + bit_words (from + k) ≤ length globals.old) }
    ensures { globals.new ≡ given_from globals.old bits.at from k }
{
    for i in from..from + k {
        bits.give(globals, i);
    }
}

// Starts the global words: the queue's ends point to the sentinel, and every slot is free and every node but the sentinel.
fn start_globals(n: usize, m: usize, globals: &mut [u64])
    requires { (1 ≤ m) × (length globals.old ≡ 5 + bit_words n + bit_words m) }
    ensures { globals.new ≡ (lent_of n m (fresh n m)).globals }
{
    globals.fill(0);
    globals[QUEUE_HEAD] = SENTINEL;
    globals[QUEUE_TAIL] = SENTINEL;
    give_from(globals, FreeBits::slots(n), 0, n);
    give_from(globals, FreeBits::nodes(n, m), 1, m - 1);
}

// Starts all five lists.
pub fn start(l: &mut ListsMut<'_>)
    requires has_node { 1 ≤ l.old.m }
    requires sized_lists { sized l.old.n l.old.m (lent l.old) ≡ true }
    ensures started { lent l.new ≡ lent_of l.old.n l.old.m (fresh l.old.n l.old.m) }
    ensures same { Same l.old l.new }
{
    start_globals(l.n, l.m, l.globals);
    l.participants.fill(0);
    l.nodes.fill(0);
    l.held.fill(0);
    l.queued.fill(0);
}
