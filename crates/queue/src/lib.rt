// src/sync/queue.rs, access by access: the Michael-Scott lock-free queue (Simple, Fast, and Practical Non-Blocking and Blocking
// Concurrent Queue Algorithms, PODC 1996), here of sealed bags. A sentinel stands at the front, and the tail may lag behind.
//
// A place is where the code stands before one access: `.._asks` says which access it makes, `.._follows` what the code does once it has
// seen the answer. Each promise cites the rule of the same name, whatever the rule has besides what the function is given. The epoch
// load of internal.rs, `Global::push_bag`, stands with the push that it begins.
#![tactic(auto)]

ghost use Rattle.std.specs.Prelude.{◌≡◌, ℕ};
ghost use Rattle.definition.specs.Rule.{asks, follows};
ghost use Rattle.definition.specs.Queue.{seal_bag, push, pop};
ghost use Rattle.definition.specs.declared.Node.{Node};
ghost use Rattle.definition.specs.declared.Participant.{Participant};
ghost use Rattle.definition.specs.declared.PopAt.{PopAt};
ghost use Rattle.definition.specs.declared.Pops.{Pops};
ghost use Rattle.definition.specs.declared.Then.{Then};
ghost use Rattle.queue.specs.Fits.{PushFits, PopFits};

use definition::{
    After, Ask, Deferring, Node, Participant, Place, PopAt, Pops, PushAt, Seen, Then, Word, Work,
};
use epoch::Epoch;
use flow::SealedBag;
use flow::links::{NULL, is_null, link, node_at, points_to};

// internal.rs, `Global::push_bag`: the bag is sealed with the epoch that was loaded, not with the sealer's own word, and moved into
// `spare`, a node set aside for it.
#[tactic(auto, unfolding(definition::specs::Queue::seal_bag))]
fn seal_bag(spare: Node, then: Then, word: u64, o: Participant) -> After
    ensures { result ≡ seal_bag spare then word o }
{
    let share = o.share.saturating_sub(1);
    let n = Participant {
        held: 0,
        share,
        ..o
    };
    let tail = flow::on(Place::Push(then, PushAt::Tail(spare)), n);
    flow::also(Work::Seal(spare, Epoch(word)), tail)
}

// `Queue::push` and `push_internal`.
#[tactic(auto, unfolding(definition::specs::Links::null, definition::specs::Rule::asks, definition::specs::Queue::push))]
pub fn push_asks(at: PushAt) -> Ask
    requires { PushFits at }
    ensures { (spare : Node) (then : Then) (o : Participant) → result ≡ asks (push spare then o at) }
{
    match at {
        PushAt::Epoch => Ask::Load(Word::GlobalEpoch),
        // We push onto the tail, so we'll start optimistically by looking there first.
        PushAt::Tail(_) => Ask::Load(Word::QueueTail),
        // Is `onto` the actual tail?
        PushAt::Next(_, onto) => Ask::Load(Word::NodeNext(onto)),
        // If not, try to "help" by moving the tail pointer forward.
        PushAt::Help(_, onto, next) => {
            Ask::Exchange(Word::QueueTail, link(onto.0), link(next.0))
        }
        // Looks like the actual tail; attempt to link in `new`.
        PushAt::Link(new, onto) => Ask::Exchange(Word::NodeNext(onto), NULL, link(new.0)),
        // Try to move the tail pointer forward.
        PushAt::Move(new, onto) => { Ask::Exchange(Word::QueueTail, link(onto.0), link(new.0)) }
    }
}

// What came of moving the tail does not matter: where it was lost, another moved it.
#[tactic(auto, unfolding(definition::specs::Base::branch, definition::specs::Rule::follows, definition::specs::Queue::push))]
pub fn push_follows(spare: Node, then: Then, o: Participant, at: PushAt, seen: Seen) -> After
    ensures { result ≡ follows (push spare then o at) seen }
{
    match at {
        PushAt::Epoch => seal_bag(spare, then, seen.value, o),
        PushAt::Tail(new) => {
            let onto = node_at(seen.value);
            flow::on(Place::Push(then, PushAt::Next(new, onto)), o)
        }
        PushAt::Next(new, onto) if is_null(seen.value) => {
            flow::on(Place::Push(then, PushAt::Link(new, onto)), o)
        }
        // A next that is set means that the tail lags behind.
        PushAt::Next(new, onto) => {
            let next = node_at(seen.value);
            flow::on(Place::Push(then, PushAt::Help(new, onto, next)), o)
        }
        PushAt::Help(new, _, _) => flow::on(Place::Push(then, PushAt::Tail(new)), o),
        PushAt::Link(new, onto) if seen.won => {
            flow::on(Place::Push(then, PushAt::Move(new, onto)), o)
        }
        // A link that was lost to another begins again from the tail.
        PushAt::Link(new, _) => flow::on(Place::Push(then, PushAt::Tail(new)), o),
        PushAt::Move(_, _) => flow::pushed(then, o),
    }
}

// `Queue::pop_if_internal`, in the loop of `try_pop_if`.
#[tactic(auto, unfolding(definition::specs::Rule::asks, definition::specs::Queue::pop))]
pub fn pop_asks(at: PopAt) -> Ask
    requires { PopFits at }
    ensures { (sealed : Node → ℕ) (p : Pops) (o : Participant) → result ≡ asks (pop sealed p o at) }
{
    match at {
        PopAt::Head => Ask::Load(Word::QueueHead),
        PopAt::Next(head) => Ask::Load(Word::NodeNext(head)),
        PopAt::Exchange(head, next) => {
            Ask::Exchange(Word::QueueHead, link(head.0), link(next.0))
        }
        PopAt::Tail(_, _) => Ask::Load(Word::QueueTail),
        PopAt::TailMove(head, next) => {
            Ask::Exchange(Word::QueueTail, link(head.0), link(next.0))
        }
    }
}

// No next, or one whose bag is not expired: `Ok(None)`, and the collect is over. `seal` is the seal of the bag in the node seen.
#[tactic(auto, unfolding(definition::specs::Base::branch, definition::specs::Rule::follows, definition::specs::Queue::pop))]
fn pop_next(seal: u64, p: Pops, o: Participant, head: Node, seen: Seen) -> After
    ensures { result ≡ follows (pop (λ n. seal) p o (PopAt.Next head)) seen }
{
    let sealed = SealedBag { epoch: Epoch(seal) };
    if !is_null(seen.value) && sealed.is_expired(p.epoch) {
        let next = node_at(seen.value);
        flow::on(Place::Pop(p, PopAt::Exchange(head, next)), o)
    } else {
        flow::collected(p.owner, o)
    }
}

#[tactic(auto, unfolding(definition::specs::Base::branch, definition::specs::Rule::follows, definition::specs::Queue::pop))]
pub fn pop_follows(seal: u64, p: Pops, o: Participant, at: PopAt, seen: Seen) -> After
    ensures { result ≡ follows (pop (λ n. seal) p o at) seen }
{
    match at {
        PopAt::Head => flow::on(Place::Pop(p, PopAt::Next(node_at(seen.value))), o),
        PopAt::Next(head) => pop_next(seal, p, o, head, seen),
        PopAt::Exchange(head, next) if seen.won => {
            flow::on(Place::Pop(p, PopAt::Tail(head, next)), o)
        }
        // A lost exchange: `Err(())`, and `try_pop_if` tries again, still the same pop.
        PopAt::Exchange(_, _) => flow::on(Place::Pop(p, PopAt::Head), o),
        // Advance the tail so that we don't retire a pointer to a reachable node.
        PopAt::Tail(head, next) if points_to(seen.value, head) => {
            flow::on(Place::Pop(p, PopAt::TailMove(head, next)), o)
        }
        // The tail is not on the old head; or it has left it, whatever came of moving it.
        PopAt::Tail(head, next) | PopAt::TailMove(head, next) => {
            flow::defer(Deferring::Node(p, head, next), o)
        }
    }
}
