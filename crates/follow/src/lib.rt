// What follows an access or a call, carried out on the lent lists: the work, the set-aside total, the participant's record. The definition's
// `follow` (specs/Step), whose tables these lists hold afterwards: proofs/Laws.
#![tactic(auto)]

ghost use Rattle.std.specs.Prelude.{◌≡◌, ◌<◌, ◌^◌, ℕ, slice_index};
ghost use Rattle.definition.specs.Step.{answer_of};
ghost use Rattle.lent.specs.Lists.{lent, Same};
ghost use Rattle.follow.specs.Follow.{SetsAside, aside_globals, Follows, Followed};

use definition::{After, Answer, End, Participant};
use lent::{ASIDE, ListsMut};
use records::store;
use settle::settle;

// Returns the answer of an operation that goes on or ends, with the number of tokens freed.
#[tactic(auto, unfolding(definition::specs::Step::answer_of))]
fn answer_of(end: End, freed: u64) -> Answer
    ensures { result ≡ answer_of end freed }
{
    match end {
        End::GoesOn => Answer::More(freed),
        End::EndsWith(value) => Answer::Done(value, freed),
    }
}

// Adds to the set-aside total what the share of an operation gained, and takes off what it lost.
#[tactic(auto, unfolding(crate::specs::Follow::aside_globals))]
fn set_aside(globals: &mut [u64], before: u64, after: u64)
    requires { SetsAside globals.old before after }
    ensures moved { globals.new ≡ aside_globals globals.old before after }
    ensures words { (j : ℕ) → slice_index globals.new j < 2 ^ 64 }
{
    globals[ASIDE] = globals[ASIDE] - before + after;
}

// Carries out what follows for participant `p`, whose record was `before`: the items that it held and its share of nodes are looked at.
pub fn follow(
    l: &mut ListsMut<'_>,
    p: usize,
    before: Participant,
    after: After,
    freed: &mut [u64],
) -> Answer
    requires { Follows l.old.n p before.held before.share after (lent l.old) freed.old }
    ensures followed { Followed l.old.n p before.held before.share after (lent l.old) freed.old result (lent l.new) freed.new }
    ensures same { Same l.old l.new }
{
    let After {
        work,
        end,
        participant,
    } = after;
    let count = settle(l, p, before.held as usize, work, freed);
    set_aside(l.globals, before.share, participant.share);
    store(l.participants, p, participant);
    answer_of(end, count)
}
