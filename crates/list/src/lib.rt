// src/sync/list.rs, access by access: the lock-free intrusive linked list of participants, after Michael (High Performance Dynamic
// Lock-Free Hash Tables and List-Based Sets, SPAA 2002).
//
// Insertion is at the head; deletion tags the entry's own next; the iteration unlinks tagged entries and gives up where its predecessor
// is tagged. A place is where the code stands before one access: `.._asks` says which access it makes, `.._follows` what the code does
// once it has seen the answer. Each promise cites the rule of the same name, for all that the rule has besides what the function is given. Each place
// has an `.._asks` of its own, as document 01 has it: "Each place names its access and its next place".
#![tactic(auto)]

ghost use Rattle.std.specs.Prelude.{◌≡◌};
ghost use Rattle.definition.specs.Rule.{asks, follows};
ghost use Rattle.definition.specs.List.{insert, delete, pred_word, iterate};
ghost use Rattle.definition.specs.declared.Participant.{Participant};
ghost use Rattle.definition.specs.declared.Seen.{Seen};
ghost use Rattle.definition.specs.declared.Slot.{Slot};
ghost use Rattle.definition.specs.declared.Try.{Try};
ghost use Rattle.list.specs.Fits.{RegisterFits, WalkFits};

use definition::{
    After, Ask, Cursor, Deferring, Participant, Place, Pred, RegisterAt, Seen, Slot, Try, WalkAt,
    Word,
};
use flow::links::{is_tagged, link, pointee, pointer};

// `List::insert`, of the entry of `me` into the head of the list.
#[tactic(auto, unfolding(definition::specs::Rule::asks, definition::specs::List::insert))]
pub fn insert_asks(me: Slot, at: RegisterAt) -> Ask
    requires { RegisterFits me at }
    ensures { (o : Participant) → result ≡ asks (insert me o at) }
{
    match at {
        // Read the current successor of where we want to insert.
        RegisterAt::Head => Ask::Load(Word::ListHead),
        // Set the entry to point to it.
        RegisterAt::Next(next) => Ask::Store(Word::EntryNext(me), pointer(next)),
        RegisterAt::Link(next) => Ask::ExchangeWeak(Word::ListHead, pointer(next), link(me.0)),
    }
}

#[tactic(auto, unfolding(definition::specs::Base::branch, definition::specs::Rule::follows, definition::specs::List::insert))]
pub fn insert_follows(me: Slot, o: Participant, at: RegisterAt, seen: Seen) -> After
    ensures { result ≡ follows (insert me o at) seen }
{
    match at {
        RegisterAt::Head => flow::on(Place::Register(RegisterAt::Next(pointee(seen.value))), o),
        RegisterAt::Next(next) => flow::on(Place::Register(RegisterAt::Link(next)), o),
        RegisterAt::Link(_) if seen.won => flow::done(me.0, o),
        // We lost the race: update the successor and try again.
        RegisterAt::Link(_) => flow::on(Place::Register(RegisterAt::Next(pointee(seen.value))), o),
    }
}

// `Entry::delete`: marks the entry of `me` as deleted, deferring the actual deallocation to a later iteration.
#[tactic(auto, unfolding(definition::specs::Rule::asks, definition::specs::List::delete))]
pub fn delete_asks(me: Slot) -> Ask
    ensures { (o : Participant) → result ≡ asks (delete me o) }
{
    Ask::FetchOr(Word::EntryNext(me))
}

#[tactic(auto, unfolding(definition::specs::Rule::follows, definition::specs::List::delete))]
pub fn delete_follows(o: Participant) -> After
    ensures { (me : Slot) (seen : Seen) → result ≡ follows (delete me o) seen }
{
    flow::done(0, o)
}

// `Iter::pred`: the word in which the link to the current entry stands.
#[tactic(auto, unfolding(definition::specs::List::pred_word))]
fn pred_word(pred: Pred) -> Word
    ensures { result ≡ pred_word pred }
{
    match pred {
        Pred::Head => Word::ListHead,
        Pred::Entry(s) => Word::EntryNext(s),
    }
}

// `List::iter`, then `Iter::next`, for a `try_advance`.
#[tactic(auto, unfolding(definition::specs::Rule::asks, definition::specs::List::iterate))]
pub fn iterate_asks(at: WalkAt) -> Ask
    requires { WalkFits at }
    ensures { (t : Try) (o : Participant) → result ≡ asks (iterate t o at) }
{
    match at {
        WalkAt::Head => Ask::Load(Word::ListHead),
        WalkAt::Next(Cursor { curr, .. }) => Ask::Load(Word::EntryNext(curr)),
        // Try to unlink `curr` from the list, and get the new value of `pred`.
        WalkAt::Unlink(Cursor { pred, curr }, succ) => {
            Ask::Exchange(pred_word(pred), link(curr.0), pointer(succ))
        }
        WalkAt::Stalled => Ask::Load(Word::ListHead),
    }
}

#[tactic(auto, unfolding(definition::specs::Base::branch, definition::specs::Rule::follows, definition::specs::List::iterate))]
pub fn iterate_follows(t: Try, o: Participant, at: WalkAt, seen: Seen) -> After
    ensures { result ≡ follows (iterate t o at) seen }
{
    match at {
        WalkAt::Head => flow::walk(t, Pred::Head, pointee(seen.value), o),
        // A tagged entry was removed: try unlinking it.
        WalkAt::Next(c) if is_tagged(seen.value) => {
            let succ = pointee(seen.value);
            flow::on(Place::Walk(t, WalkAt::Unlink(c, succ)), o)
        }
        // Any other is returned to `try_advance`, which looks at its epoch.
        WalkAt::Next(Cursor { curr, .. }) => {
            flow::on(Place::AdvanceWord(t, curr, pointee(seen.value)), o)
        }
        // We succeeded in unlinking `curr`, so we have to schedule deallocation.
        WalkAt::Unlink(c, succ) if seen.won => flow::defer(Deferring::Slot(t, c, succ), o),
        // We lost, and the value found is tagged: the predecessor is deleted too, and the iteration stalls.
        WalkAt::Unlink(_, _) if is_tagged(seen.value) => {
            flow::on(Place::Walk(t, WalkAt::Stalled), o)
        }
        // We lost, and the value found is the successor.
        WalkAt::Unlink(Cursor { pred, .. }, _) => flow::walk(t, pred, pointee(seen.value), o),
        // At `Err(Stalled)` `try_advance` gives up, and returns the epoch that it loaded.
        WalkAt::Stalled => flow::advanced(t, o),
    }
}
