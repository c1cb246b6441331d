// internal.rs, `Local::register` up to its first access, on the lent lists, once every check is passed: the smallest free slot gets a new
// entry, the starting epoch, one handle and an empty bag. The lists then hold the tables of the definition's `enrolled` (specs/Public of
// `definition`), which proofs/Laws shows.
//
// The Rust makes a `Local` in memory of its own, which no other thread can see before its entry is in the list. So these stores are
// private, and none is an access. All words of the slot's row are written: nothing of its last owner stays.
#![tactic(auto)]

ghost use Rattle.std.specs.Prelude.{◌≡◌};
ghost use Rattle.definition.specs.Public.{new_participant};
ghost use Rattle.lent.specs.Lists.{lent, Same};
ghost use Rattle.enroll.specs.Enroll.{Enrolls, Enrolled};

use bits::FreeBits;
use definition::{Answer, Counts, Participant, Place, RegisterAt, Slot, Word};
use epoch::Epoch;
use flow::links::NULL;
use lent::ListsMut;
use records::store;
use words::write_word;

// Returns a participant that begins to register: one handle, no guard, and nothing in its bag.
#[tactic(auto, unfolding(definition::specs::Public::new_participant))]
fn new_participant() -> Participant
    ensures { result ≡ new_participant }
{
    Participant {
        counts: Counts {
            guards: 0,
            handles: 1,
            pins: 0,
        },
        held: 0,
        share: 0,
        place: Place::Register(RegisterAt::Head),
    }
}

// Registers in the smallest free slot.
pub fn enroll(l: &mut ListsMut<'_>) -> Answer
    requires { Enrolls l.old.n (lent l.old) }
    ensures enrolled { Enrolled l.old.n (lent l.old) result (lent l.new) }
    ensures same { Same l.old l.new }
{
    let slots = FreeBits::slots(l.n);
    let p = slots.first_free(l.read().globals);
    let me = Slot(p as u64);
    slots.take(l.globals, p);
    write_word(l, Word::EntryNext(me), NULL); // list.rs, `Entry::default`: the entry is in no list
    write_word(l, Word::ParticipantWord(me), Epoch::starting().0);
    store(l.participants, p, new_participant());
    Answer::More(0)
}
