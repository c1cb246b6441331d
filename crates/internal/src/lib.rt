// src/internal.rs, access by access: `Local::pin`, `repin`, `unpin`, `finalize` and `Global::try_advance`; then every place, from these
// and from the two files of src/sync.
//
// A place is where the code stands before one access: `.._asks` says which access it makes, `.._follows` what the code does once it has
// seen the answer. Each promise cites the rule of the same name, whatever the rule has besides what the function is given. No `.._follows`
// requires anything; an `.._asks` requires that the indices of which it makes pointers are such as a pointer can name. Places that ask for the same
// access have an `.._asks` each, as document 01 has it: "Each place names its access and its next place".
#![tactic(auto)]

pub mod calls; // calls.rt: what a call begins
pub mod places; // places.rt: what is asked of a place besides

ghost use Rattle.std.specs.Prelude.{◌≡◌, ℕ};
ghost use Rattle.definition.specs.Rule.{asks, follows};
ghost use Rattle.definition.specs.Internal.{collects, pin_counted, pin_epoch, pin_word, unpin_word, repin, final_word, rule};
ghost use Rattle.definition.specs.Internal.{advance_epoch, advance_word, advance_store};
ghost use Rattle.epoch.specs.declared.Epoch.{Epoch};
ghost use Rattle.definition.specs.declared.Node.{Node};
ghost use Rattle.definition.specs.declared.Owner.{Owner};
ghost use Rattle.definition.specs.declared.Participant.{Participant};
ghost use Rattle.definition.specs.declared.Ptr.{Ptr};
ghost use Rattle.definition.specs.declared.Seen.{Seen};
ghost use Rattle.definition.specs.declared.Slot.{Slot};
ghost use Rattle.definition.specs.declared.Try.{Try};
ghost use Rattle.internal.specs.Fits.{PlaceFits};

use counts::{set_handles, set_pins};
use definition::{
    After, Ask, Node, Owner, Participant, Place, Pred, Ptr, RepinAt, Seen, Slot, Try, WalkAt, Word,
};
use epoch::Epoch;
use flow::Local;

// `Local::pin`, the load of the global epoch.
#[tactic(auto, unfolding(definition::specs::Rule::asks, definition::specs::Internal::pin_epoch))]
pub fn pin_epoch_asks() -> Ask
    ensures { (owner : Owner) (o : Participant) → result ≡ asks (pin_epoch owner o) }
{
    Ask::Load(Word::GlobalEpoch)
}

// The epoch is stored in a step of its own: meanwhile the global epoch may advance.
#[tactic(auto, unfolding(definition::specs::Rule::follows, definition::specs::Internal::pin_epoch))]
pub fn pin_epoch_follows(owner: Owner, o: Participant, seen: Seen) -> After
    ensures { result ≡ follows (pin_epoch owner o) seen }
{
    flow::on(Place::PinWord(owner, Epoch(seen.value)), o)
}

// Whether the pin with this old pin count collects.
#[tactic(auto, unfolding(definition::specs::Internal::collects, definition::specs::Internal::pinnings_between_collect))]
fn collects(pins: u64) -> bool
    ensures { result ≡ collects pins }
{
    pins % Local::PINNINGS_BETWEEN_COLLECT == 0
}

// After every `PINNINGS_BETWEEN_COLLECT` try advancing the epoch and collecting some garbage.
#[tactic(auto, unfolding(definition::specs::Base::branch, definition::specs::Internal::pin_counted))]
fn pin_counted(owner: Owner, mut o: Participant) -> After
    ensures { result ≡ pin_counted owner o }
{
    // Increment the pin counter.
    let pins = o.counts.pins;
    set_pins(&mut o.counts, pins.wrapping_add(1));
    if collects(pins) {
        flow::on(Place::AdvanceEpoch(owner), o)
    } else {
        flow::collected(owner, o)
    }
}

// `Local::pin`, the store of the epoch, pinned, into its own word.
#[tactic(auto, unfolding(definition::specs::Rule::asks, definition::specs::Internal::pin_word))]
pub fn pin_word_asks(me: Slot, e: Epoch) -> Ask
    ensures { (owner : Owner) (o : Participant) → result ≡ asks (pin_word me owner e o) }
{
    Ask::Store(Word::ParticipantWord(me), e.pinned().0)
}

#[tactic(auto, unfolding(definition::specs::Rule::follows, definition::specs::Internal::pin_word))]
pub fn pin_word_follows(owner: Owner, o: Participant) -> After
    ensures { (me : Slot) (e : Epoch) (seen : Seen) → result ≡ follows (pin_word me owner e o) seen }
{
    pin_counted(owner, o)
}

// `Local::unpin`, the store of the starting epoch.
#[tactic(auto, unfolding(definition::specs::Rule::asks, definition::specs::Internal::unpin_word))]
pub fn unpin_word_asks(me: Slot) -> Ask
    ensures { (o : Participant) → result ≡ asks (unpin_word me o) }
{
    Ask::Store(Word::ParticipantWord(me), Epoch::starting().0)
}

// Without a handle it goes on to `finalize`.
#[tactic(auto, unfolding(definition::specs::Base::branch, definition::specs::Rule::follows, definition::specs::Internal::unpin_word))]
pub fn unpin_word_follows(o: Participant) -> After
    ensures { (me : Slot) (seen : Seen) → result ≡ follows (unpin_word me o) seen }
{
    if o.counts.handles == 0 {
        flow::finalize(o)
    } else {
        flow::done(0, o)
    }
}

// `Local::repin`, at guard count 1.
#[tactic(auto, unfolding(definition::specs::Rule::asks, definition::specs::Internal::repin))]
pub fn repin_asks(me: Slot, at: RepinAt) -> Ask
    ensures { (o : Participant) → result ≡ asks (repin me o at) }
{
    match at {
        RepinAt::Word => Ask::Load(Word::ParticipantWord(me)),
        RepinAt::Epoch(_) => Ask::Load(Word::GlobalEpoch),
        RepinAt::Store(e) => Ask::Store(Word::ParticipantWord(me), e.0),
    }
}

#[tactic(auto, unfolding(definition::specs::Base::branch, definition::specs::Rule::follows, definition::specs::Internal::repin))]
pub fn repin_follows(o: Participant, at: RepinAt, seen: Seen) -> After
    ensures { (me : Slot) → result ≡ follows (repin me o at) seen }
{
    match at {
        RepinAt::Word => flow::on(Place::Repin(RepinAt::Epoch(Epoch(seen.value))), o),
        // Update the local epoch only if the global epoch, pinned, is another.
        RepinAt::Epoch(e) => {
            let global = Epoch(seen.value).pinned();
            if e == global {
                flow::done(0, o)
            } else {
                flow::on(Place::Repin(RepinAt::Store(global)), o)
            }
        }
        RepinAt::Store(_) => flow::done(0, o),
    }
}

// `Global::try_advance`, the load of the global epoch.
#[tactic(auto, unfolding(definition::specs::Rule::asks, definition::specs::Internal::advance_epoch))]
pub fn advance_epoch_asks() -> Ask
    ensures { (owner : Owner) (o : Participant) → result ≡ asks (advance_epoch owner o) }
{
    Ask::Load(Word::GlobalEpoch)
}

#[tactic(auto, unfolding(definition::specs::Rule::follows, definition::specs::Internal::advance_epoch))]
pub fn advance_epoch_follows(owner: Owner, o: Participant, seen: Seen) -> After
    ensures { result ≡ follows (advance_epoch owner o) seen }
{
    let epoch = Epoch(seen.value);
    flow::on(Place::Walk(Try { owner, epoch }, WalkAt::Head), o)
}

// `Global::try_advance`, the load of a participant's epoch.
#[tactic(auto, unfolding(definition::specs::Rule::asks, definition::specs::Internal::advance_word))]
pub fn advance_word_asks(curr: Slot) -> Ask
    ensures { (t : Try) (succ : Ptr) (o : Participant) → result ≡ asks (advance_word t curr succ o) }
{
    Ask::Load(Word::ParticipantWord(curr))
}

// If the participant was pinned in a different epoch, we cannot advance the global epoch just yet.
#[tactic(auto, unfolding(definition::specs::Base::branch, definition::specs::Rule::follows, definition::specs::Internal::advance_word))]
pub fn advance_word_follows(t: Try, curr: Slot, succ: Ptr, o: Participant, seen: Seen) -> After
    ensures { result ≡ follows (advance_word t curr succ o) seen }
{
    let local = Epoch(seen.value);
    if local.is_pinned() && local.unpinned() != t.epoch {
        flow::advanced(t, o)
    } else {
        flow::walk(t, Pred::Entry(curr), succ, o)
    }
}

// `Global::try_advance`: all pinned participants were pinned in the current global epoch. Now let's advance it.
#[tactic(auto, unfolding(definition::specs::Rule::asks, definition::specs::Internal::advance_store))]
pub fn advance_store_asks(t: Try) -> Ask
    ensures { (o : Participant) → result ≡ asks (advance_store t o) }
{
    Ask::Store(Word::GlobalEpoch, t.epoch.successor().0)
}

#[tactic(auto, unfolding(definition::specs::Rule::follows, definition::specs::Internal::advance_store))]
pub fn advance_store_follows(t: Try, o: Participant) -> After
    ensures { (seen : Seen) → result ≡ follows (advance_store t o) seen }
{
    let epoch = t.epoch.successor();
    flow::advanced(Try { epoch, ..t }, o)
}

// `Local::finalize`, the store in the `unpin` of its guard's drop.
#[tactic(auto, unfolding(definition::specs::Rule::asks, definition::specs::Internal::final_word))]
pub fn final_word_asks(me: Slot) -> Ask
    ensures { (o : Participant) → result ≡ asks (final_word me o) }
{
    Ask::Store(Word::ParticipantWord(me), Epoch::starting().0)
}

// Revert the handle count back to zero.
#[tactic(auto, unfolding(definition::specs::Rule::follows, definition::specs::Internal::final_word))]
pub fn final_word_follows(mut o: Participant) -> After
    ensures { (me : Slot) (seen : Seen) → result ≡ follows (final_word me o) seen }
{
    set_handles(&mut o.counts, 0);
    flow::on(Place::FinalTag, o)
}

// The access of the place at which the participant `me` stands. At rest no step is made, and what stands there is what the definition's rule has. (All
// places, here and below: document 01 names the form, each place names its access and its next place.)
#[tactic(auto, unfolding(definition::specs::Rule::asks, definition::specs::Internal::rule))]
pub fn asks_at(me: Slot, o: Participant) -> Ask
    requires { PlaceFits me o.place }
    ensures { (spare : Node) (sealed : Node → ℕ) → result ≡ asks (rule me spare sealed o o.place) }
{
    match o.place {
        Place::Rest => Ask::Load(Word::GlobalEpoch),
        Place::Register(at) => list::insert_asks(me, at),
        Place::PinEpoch(_) => pin_epoch_asks(),
        Place::PinWord(_, e) => pin_word_asks(me, e),
        Place::Repin(at) => repin_asks(me, at),
        Place::UnpinWord => unpin_word_asks(me),
        Place::AdvanceEpoch(_) => advance_epoch_asks(),
        Place::Walk(_, at) => list::iterate_asks(at),
        Place::AdvanceWord(_, curr, _) => advance_word_asks(curr),
        Place::AdvanceStore(t) => advance_store_asks(t),
        Place::Pop(_, at) => queue::pop_asks(at),
        Place::Push(_, at) => queue::push_asks(at),
        Place::FinalWord => final_word_asks(me),
        Place::FinalTag => list::delete_asks(me),
    }
}

// What follows there once the access has seen `seen`. `spare` is the node that a push takes, and `seal` the seal of the bag in the node
// that the value seen names.
#[tactic(auto, unfolding(definition::specs::Rule::follows, definition::specs::Internal::rule))]
pub fn follows_at(me: Slot, spare: Node, seal: u64, o: Participant, seen: Seen) -> After
    ensures { result ≡ follows (rule me spare (λ n. seal) o o.place) seen }
{
    match o.place {
        Place::Rest => flow::on(Place::Rest, o),
        Place::Register(at) => list::insert_follows(me, o, at, seen),
        Place::PinEpoch(owner) => pin_epoch_follows(owner, o, seen),
        Place::PinWord(owner, _) => pin_word_follows(owner, o),
        Place::Repin(at) => repin_follows(o, at, seen),
        Place::UnpinWord => unpin_word_follows(o),
        Place::AdvanceEpoch(owner) => advance_epoch_follows(owner, o, seen),
        Place::Walk(t, at) => list::iterate_follows(t, o, at, seen),
        Place::AdvanceWord(t, curr, succ) => advance_word_follows(t, curr, succ, o, seen),
        Place::AdvanceStore(t) => advance_store_follows(t, o),
        Place::Pop(p, at) => queue::pop_follows(seal, p, o, at, seen),
        Place::Push(then, at) => queue::push_follows(spare, then, o, at, seen),
        Place::FinalWord => final_word_follows(o),
        Place::FinalTag => list::delete_follows(o),
    }
}
