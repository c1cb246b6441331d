// Why a public call is refused: document 01's list, and 16 of document 02 (No. 6). A check answers with a `Result` of one of these; the public call
// answers with its number.
#![tactic(auto)]

ghost use Rattle.std.specs.Prelude.{◌≡◌};
ghost use Rattle.definition.specs.Base.{branch};
ghost use Rattle.definition.specs.declared.Answer.{Answer};
ghost use Rattle.refusals.specs.Numbers.{number, refused};

use definition::Answer;

// The refusals, with their numbers.
#[derive(Clone, Copy, Debug, PartialEq, Eq)]
pub enum Refusal {
    // A number is out of its range, a bit beyond N or M is set, or a step finds no node that it must take.
    Damage = 1,
    // N or M is outside its limits, or a lent list has not the length that they give it.
    Sizes = 2,
    // There is no such participant.
    Gone = 3,
    // An operation of the participant runs.
    Busy = 4,
    // None runs, so there is no step to make.
    Idle = 5,
    // The participant has no guard.
    NoGuard = 6,
    // It has no handle.
    NoHandle = 7,
    // A count is at its limit.
    CountFull = 8,
    // A token is above the limit.
    TokenAbove = 9,
    // No slot is free.
    NoSlot = 10,
    // Too few nodes are free.
    NoNode = 11,
    // The list for freed tokens is short.
    ListShort = 12,
    // A record of the schedule program is broken.
    Record = 13,
    // The bag has the token already.
    HeldAlready = 16,
}

impl From<Refusal> for u64 {
    ghost from_gives = { λ r n. n ≡ number r };

    fn from(r: Refusal) -> u64 {
        r as u64
    }
}

// A refusal as the answer of a call.
impl From<Refusal> for Answer {
    ghost from_gives = { λ r a. a ≡ Answer.Refused (number r) };

    fn from(r: Refusal) -> Answer {
        Answer::Refused(u64::from(r))
    }
}

// Refuses if the test is true. A check of document 01 is this for one test after another, by `?`.
#[tactic(auto, unfolding(definition::specs::Base::branch))]
pub fn refuse_if(test: bool, r: Refusal) -> Result<(), Refusal>
    ensures { refused result ≡ branch test (number r) 0 }
{
    if test { Err(r) } else { Ok(()) }
}
