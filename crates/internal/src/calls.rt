// src/internal.rs, the functions of `Local` that a participant calls: what each asks first, the nodes that it needs, and what it begins,
// up to its first access. An operation without an access is over at once. Refusals and needs are our own, with the numbers that
// document 01 gives them. Each promise cites the definition of the same name, or what `begins` gives for the call. Bounds of the counts are asked by
// `requires`, and not said by a type: each function asks for the count that it raises, or that the sum that it reckons fits, and a type that bounds
// them all would ask more.
ghost use Rattle.std.specs.Prelude.{◌≡◌, ◌+◌, ◌^◌, ◌<◌, nat_le};
ghost use Rattle.definition.specs.Base.{branch};
ghost use Rattle.definition.specs.Calls.{lacks, count_full, token_above, finalizes, overflow, pin_needs, needs, begins, opens};
ghost use Rattle.definition.specs.declared.Call.{Call};
ghost use Rattle.refusals.specs.Numbers.{refused};

use counts::{set_guards, set_handles};
use definition::{After, Call, Deferring, Owner, Participant, Place, PushAt, RepinAt, Then};
use flow::{Bag, Deferred, Global, Local};
use refusals::{Refusal, refuse_if};

// Refusals 7 and 6: the count that the call needs is 0.
#[tactic(auto, unfolding(definition::specs::Calls::lacks))]
pub fn lacks(call: Call, o: Participant) -> Result<(), Refusal>
    ensures { refused result ≡ lacks call o }
{
    match call {
        Call::Acquire | Call::Release | Call::Pin => {
            refuse_if(o.counts.handles == 0, Refusal::NoHandle)
        }
        Call::Unpin | Call::Repin | Call::Defer(_) | Call::Flush => {
            refuse_if(o.counts.guards == 0, Refusal::NoGuard)
        }
    }
}

// Refusal 8: the count that the call raises is at its limit.
#[tactic(auto, unfolding(definition::specs::Base::branch, definition::specs::Calls::max_count, definition::specs::Calls::count_full))]
pub fn count_full(call: Call, o: Participant) -> Result<(), Refusal>
    ensures { refused result ≡ branch (count_full call o) 8 0 }
{
    match call {
        Call::Acquire => refuse_if(Local::MAX_COUNT <= o.counts.handles, Refusal::CountFull),
        Call::Pin => refuse_if(Local::MAX_COUNT <= o.counts.guards, Refusal::CountFull),
        _ => Ok(()),
    }
}

// Refusal 9: a token above the limit.
#[tactic(auto, unfolding(definition::specs::Base::branch, definition::specs::Calls::max_token, definition::specs::Calls::token_above))]
pub fn token_above(call: Call) -> Result<(), Refusal>
    ensures { refused result ≡ branch (token_above call) 9 0 }
{
    match call {
        Call::Defer(token) => refuse_if(Deferred::MAX_TOKEN < token, Refusal::TokenAbove),
        _ => Ok(()),
    }
}

// Whether the call goes on to `finalize`: it gives up the last handle of a participant that is not pinned, or the last guard of one
// that has no handle.
#[tactic(auto, unfolding(definition::specs::Calls::finalizes))]
pub fn finalizes(call: Call, o: Participant) -> bool
    ensures { result ≡ finalizes call o }
{
    match call {
        Call::Release => o.counts.handles == 1 && o.counts.guards == 0,
        Call::Unpin => o.counts.guards == 1 && o.counts.handles == 0,
        _ => false,
    }
}

// The nodes that `held` items can fill together with what a collect may add: at most `n` slots, one for each participant, and
// `COLLECT_STEPS` old heads.
#[tactic(auto, unfolding(definition::specs::Bags::max_objects, definition::specs::Flow::collect_steps, definition::specs::Calls::overflow))]
pub fn overflow(n: u64, held: u64) -> u64
    requires { held + n + 8 < 2 ^ 64 }
    ensures { result ≡ overflow n held }
{
    (held + (n + Global::COLLECT_STEPS - 1)) / Bag::MAX_OBJECTS
}

// What an outermost pin needs.
#[tactic(auto, unfolding(definition::specs::Base::branch, definition::specs::Calls::pin_needs))]
pub fn pin_needs(n: u64, o: Participant) -> u64
    requires { o.held + n + 8 < 2 ^ 64 }
    ensures { result ≡ pin_needs n o }
{
    if crate::collects(o.counts.pins) {
        overflow(n, o.held)
    } else {
        0
    }
}

// What a flush needs: the node of its bag, if that is not empty, and what its collect needs.
#[tactic(auto, using(crate::proofs::Inner::overflow_small), unfolding(definition::specs::Base::branch))]
fn flush_needs(n: u64, held: u64) -> u64
    requires { n + 8 < 2 ^ 64 }
    ensures { result ≡ branch (nat_le 1 held) 1 0 + overflow n 0 }
{
    let bag = if 1 <= held { 1 } else { 0 };
    bag + overflow(n, 0)
}

// The nodes set aside when the call begins, with `n` participants.
#[tactic(auto, unfolding(definition::specs::Base::branch, definition::specs::Bags::max_objects, definition::specs::Calls::needs))]
pub fn needs(n: u64, call: Call, o: Participant) -> u64
    requires { o.held + n + 8 < 2 ^ 64 }
    ensures { result ≡ needs n call o }
{
    match call {
        // The node of its bag, even when that is empty, and what its pin needs.
        #[tactic(auto, using(crate::proofs::Inner::pin_needs_small))]
        Call::Release | Call::Unpin if finalizes(call, o) => 1 + pin_needs(n, o),
        Call::Pin if o.counts.guards == 0 => pin_needs(n, o),
        Call::Defer(_) if o.held == Bag::MAX_OBJECTS => 1,
        Call::Flush => flush_needs(n, o.held),
        _ => 0,
    }
}

// Increments the handle count.
#[tactic(auto, unfolding(definition::specs::Calls::begins))]
fn acquire_handle(mut o: Participant) -> After
    requires { o.counts.handles + 1 < 2 ^ 64 }
    ensures { result ≡ begins Call.Acquire o }
{
    let handles = o.counts.handles;
    set_handles(&mut o.counts, handles + 1);
    flow::done(0, o)
}

// Decrements the handle count.
#[tactic(auto, unfolding(definition::specs::Base::branch, definition::specs::Calls::begins))]
fn release_handle(mut o: Participant) -> After
    ensures { result ≡ begins Call.Release o }
{
    if finalizes(Call::Release, o) {
        flow::finalize(o)
    } else {
        let handles = o.counts.handles;
        set_handles(&mut o.counts, handles.saturating_sub(1));
        flow::done(0, o)
    }
}

// Pins the participant: only the outermost guard makes accesses.
#[tactic(auto, unfolding(definition::specs::Base::branch, definition::specs::Calls::begins))]
fn pin(mut o: Participant) -> After
    requires { o.counts.guards + 1 < 2 ^ 64 }
    ensures { result ≡ begins Call.Pin o }
{
    let guards = o.counts.guards;
    set_guards(&mut o.counts, guards + 1);
    if guards == 0 {
        flow::on(Place::PinEpoch(Owner::Pin), o)
    } else {
        flow::done(0, o)
    }
}

// Unpins the participant: only the outermost guard makes accesses.
#[tactic(auto, unfolding(definition::specs::Base::branch, definition::specs::Calls::begins))]
fn unpin(mut o: Participant) -> After
    ensures { result ≡ begins Call.Unpin o }
{
    let guards = o.counts.guards;
    set_guards(&mut o.counts, guards.saturating_sub(1));
    if guards == 1 {
        flow::on(Place::UnpinWord, o)
    } else {
        flow::done(0, o)
    }
}

// Unpins and then pins the participant: only if there's only one guard.
#[tactic(auto, unfolding(definition::specs::Base::branch, definition::specs::Calls::begins))]
fn repin(o: Participant) -> After
    ensures { result ≡ begins Call.Repin o }
{
    if o.counts.guards == 1 {
        flow::on(Place::Repin(RepinAt::Word), o)
    } else {
        flow::done(0, o)
    }
}

// Pushes the bag if it is not empty, then collects.
#[tactic(auto, unfolding(definition::specs::Base::branch, definition::specs::Calls::begins))]
fn flush(o: Participant) -> After
    ensures { result ≡ begins Call.Flush o }
{
    if 1 <= o.held {
        flow::on(Place::Push(Then::Flush, PushAt::Epoch), o)
    } else {
        flow::on(Place::AdvanceEpoch(Owner::Flush), o)
    }
}

// What the call begins.
#[tactic(auto, unfolding(definition::specs::Calls::begins))]
pub fn begins(call: Call, o: Participant) -> After
    requires { (o.counts.guards + 1 < 2 ^ 64) × (o.counts.handles + 1 < 2 ^ 64) }
    ensures { result ≡ begins call o }
{
    match call {
        Call::Acquire => acquire_handle(o),
        Call::Release => release_handle(o),
        Call::Pin => pin(o),
        Call::Unpin => unpin(o),
        Call::Repin => repin(o),
        Call::Defer(token) => flow::defer(Deferring::Token(token), o),
        Call::Flush => flush(o),
    }
}

// What the call begins, with the nodes that it needs set aside.
#[tactic(auto, unfolding(definition::specs::Calls::opens))]
pub fn opens(n: u64, call: Call, o: Participant) -> After
    requires guards_bound { (o.counts.guards + 1 < 2 ^ 64) × (o.counts.handles + 1 < 2 ^ 64) }
    requires n_bound { o.held + n + 8 < 2 ^ 64 }
    ensures { result ≡ opens n call o }
{
    let share = needs(n, call, o);
    begins(call, Participant { share, ..o })
}
