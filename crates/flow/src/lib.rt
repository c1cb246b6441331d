// What the code does after an access, up to the next one or to the end of the operation: private work only, by the function of the Rust that goes on
// there. It takes a participant by value, and gives back the participant, the work outside its record, and whether the operation ends. `list`, `queue`
// and `internal` say which access each place makes; here is what they share.
//
// Each promise cites the definition of the same name. No function requires anything: what a place carries is passed on, and not used. They are functions,
// and not methods of a participant: its type is the definition's, and a type has methods only in its own crate.
#![tactic(auto)]

pub mod links; // links.rt: pointers as words

ghost use Rattle.std.specs.Prelude.{◌≡◌};
ghost use Rattle.definition.specs.Bags.{places_left, is_expired};
ghost use Rattle.definition.specs.Flow.{on, done, also, finalize, collected, pops, advanced, walk, waiting, placed, defer, pushed};

use counts::{counting, set_guards};
use definition::{
    After, Cursor, Deferring, End, Item, Node, Owner, Participant, Place, PopAt, Pops, Pred, Ptr,
    PushAt, Then, Try, WalkAt, Work,
};
use epoch::Epoch;

// internal.rs, `Bag`: deferred functions, which wait in the lent tables. What is left of the type is its size.
#[derive(Clone, Copy)]
pub struct Bag {}

impl Bag {
    // Maximum number of objects a bag can contain.
    pub const MAX_OBJECTS: u64 = 64;

    // Returns the places left in a bag of this length (document 02, No. 9): what putting an item answers with, and a `defer` is done with.
    #[tactic(auto, unfolding(definition::specs::Bags::max_objects, definition::specs::Bags::places_left))]
    pub fn places_left(len: u64) -> u64
        ensures { result ≡ places_left len }
    {
        Bag::MAX_OBJECTS.saturating_sub(len)
    }
}

// internal.rs, `SealedBag`: a pair of an epoch and a bag, which stays in its node.
#[derive(Clone, Copy)]
pub struct SealedBag {
    pub epoch: Epoch,
}

impl SealedBag {
    // Checks if it is safe to drop the bag w.r.t. the given global epoch.
    pub fn is_expired(self, global: Epoch) -> bool
        ensures { result ≡ is_expired self.epoch.0 global.0 }
    {
        // A pinned participant can witness at most one epoch advancement. Therefore, any bag that is within one epoch of the current one
        // cannot be destroyed yet.
        global.wrapping_sub(self.epoch) >= 2
    }
}

// internal.rs, `Global`: its epoch, list and queue are shared words.
#[derive(Clone, Copy)]
pub struct Global {}

impl Global {
    // Number of bags to destroy.
    pub const COLLECT_STEPS: u64 = 8;
}

// internal.rs, `Local`: a participant.
#[derive(Clone, Copy)]
pub struct Local {}

impl Local {
    // Number of pinnings after which a participant will execute some deferred functions from the global queue.
    pub const PINNINGS_BETWEEN_COLLECT: u64 = 128;

    // Maximum number of guards, and of handles; in the Rust `usize::MAX`, at which a pin panics.
    pub const MAX_COUNT: u64 = 65_535;
}

// deferred.rs, `Deferred`: a deferred function, for which a token stands.
#[derive(Clone, Copy)]
pub struct Deferred {}

impl Deferred {
    // Maximum token.
    pub const MAX_TOKEN: u64 = 2_147_483_647;
}

// The operation stands before its next access.
#[tactic(auto, unfolding(definition::specs::Flow::on))]
pub fn on(place: Place, o: Participant) -> After
    ensures { result ≡ on place o }
{
    After {
        participant: Participant { place, ..o },
        work: Work::Nothing,
        end: End::GoesOn,
    }
}

// The operation ends; what is left of its nodes is given back.
#[tactic(auto, unfolding(definition::specs::Flow::done))]
pub fn done(value: u64, o: Participant) -> After
    ensures { result ≡ done value o }
{
    After {
        participant: Participant {
            share: 0,
            place: Place::Rest,
            ..o
        },
        work: Work::Nothing,
        end: End::EndsWith(value),
    }
}

// What follows, with this work.
#[tactic(auto, unfolding(definition::specs::Flow::also))]
pub fn also(work: Work, a: After) -> After
    ensures { result ≡ also work a }
{
    After { work, ..a }
}

// internal.rs, `Local::finalize` up to its first access. The handle count is 1 meanwhile, so that the `pin` inside does not finalize
// again; that `pin` counts its guard.
#[tactic(auto, unfolding(definition::specs::Flow::finalize))]
pub fn finalize(o: Participant) -> After
    ensures { result ≡ finalize o }
{
    let n = counting(1, 1, o.counts.pins, o);
    on(Place::PinEpoch(Owner::Finalize), n)
}

// internal.rs, `Global::collect` returns: `pin` and `flush` are over; the `pin` of `finalize` goes on with `push_bag`, even when the bag
// is empty.
#[tactic(auto, unfolding(definition::specs::Flow::collected))]
pub fn collected(owner: Owner, o: Participant) -> After
    ensures { result ≡ collected owner o }
{
    match owner {
        Owner::Pin | Owner::Flush => done(0, o),
        Owner::Finalize => on(Place::Push(Then::Finalize, PushAt::Epoch), o),
    }
}

// internal.rs, `Global::collect`, `for _ in 0..steps`: another pop where some are left.
#[tactic(auto, unfolding(definition::specs::Base::branch, definition::specs::Flow::pops))]
pub fn pops(p: Pops, o: Participant) -> After
    ensures { result ≡ pops p.owner p.epoch p.left o }
{
    if p.left == 0 {
        collected(p.owner, o)
    } else {
        on(Place::Pop(p, PopAt::Head), o)
    }
}

// internal.rs, `Global::try_advance` returns an epoch, and the loop of `collect` begins.
#[tactic(auto, unfolding(definition::specs::Flow::advanced, definition::specs::Flow::collect_steps))]
pub fn advanced(t: Try, o: Participant) -> After
    ensures { result ≡ advanced t.owner t.epoch o }
{
    let Try { owner, epoch } = t;
    let left = Global::COLLECT_STEPS;
    pops(Pops { owner, epoch, left }, o)
}

// list.rs, `Iter::next`: the end of the list ends the iteration, and every pinned participant was pinned in the loaded epoch.
#[tactic(auto, unfolding(definition::specs::Flow::walk))]
pub fn walk(t: Try, pred: Pred, curr: Ptr, o: Participant) -> After
    ensures { result ≡ walk t pred curr o }
{
    match curr {
        Ptr::Null => on(Place::AdvanceStore(t), o),
        Ptr::At(curr) => on(Place::Walk(t, WalkAt::Next(Cursor { pred, curr })), o),
    }
}

// The item that waits to be put into the bag.
#[tactic(auto, unfolding(definition::specs::Flow::waiting))]
pub fn waiting(d: Deferring) -> Item
    ensures { result ≡ waiting d }
{
    match d {
        Deferring::Token(token) => Item::Token(token),
        Deferring::Slot(_, Cursor { curr, .. }, _) => Item::Slot(curr),
        Deferring::Node(_, head, _) => Item::Node(head),
    }
}

// The item is in the bag, and who deferred it goes on.
#[tactic(auto, unfolding(definition::specs::Flow::placed))]
pub fn placed(d: Deferring, o: Participant) -> After
    ensures { result ≡ placed d o }
{
    let item = waiting(d);
    match d {
        // A token: `defer` is over, and says how many places are left.
        Deferring::Token(_) => also(Work::Put(item), done(Bag::places_left(o.held), o)),
        // An unlinked slot: list.rs, `Iter::next` moves over it by advancing `curr` alone.
        Deferring::Slot(t, Cursor { pred, .. }, succ) => {
            also(Work::Put(item), walk(t, pred, succ, o))
        }
        // An old head: queue.rs, `pop_if_internal` returns the bag in `next`, which is dropped only now, and one pop fewer is left.
        Deferring::Node(p, _, next) => {
            let left = p.left.saturating_sub(1);
            also(Work::PutThenFree(item, next), pops(Pops { left, ..p }, o))
        }
    }
}

// internal.rs, `Local::defer`, `while let Err(d) = bag.try_push(deferred)`: where the bag is full, `push_bag` comes first.
#[tactic(auto, unfolding(definition::specs::Base::branch, definition::specs::Bags::max_objects, definition::specs::Flow::defer))]
pub fn defer(d: Deferring, o: Participant) -> After
    ensures { result ≡ defer d o }
{
    if o.held < Bag::MAX_OBJECTS {
        let held = o.held + 1;
        placed(d, Participant { held, ..o })
    } else {
        on(Place::Push(Then::Defer(d), PushAt::Epoch), o)
    }
}

// internal.rs, `Global::push_bag` returns: to the loop of `defer`; to `flush`, which collects; to `finalize`, whose guard is dropped, and
// `unpin` counts it.
#[tactic(auto, unfolding(definition::specs::Flow::pushed))]
pub fn pushed(then: Then, mut o: Participant) -> After
    ensures { result ≡ pushed then o }
{
    match then {
        Then::Defer(d) => defer(d, o),
        Then::Flush => on(Place::AdvanceEpoch(Owner::Flush), o),
        Then::Finalize => {
            set_guards(&mut o.counts, 0);
            on(Place::FinalWord, o)
        }
    }
}
