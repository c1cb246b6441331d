// internal.rs, the counts of a `Local`: three `Cell`s there, one small record here, changed where it stands.
//
// `set_guards`, `set_handles` and `set_pins` are `guard_count.set(..)`, `handle_count.set(..)` and `pin_count.set(..)`. Each is lent the
// record and promises all three fields at exit. (Functions, and not methods: document 01 names the form, a struct of counts lent by `&mut` to
// two or three thin functions.) `counting` lends them the record of a participant, in its place.
#![tactic(auto)]

ghost use Rattle.std.specs.Prelude.{◌≡◌};
ghost use Rattle.definition.specs.Flow.{counting};
ghost use Rattle.counts.specs.Counts.{with_guards, with_handles, with_pins};

use definition::{Counts, Participant};

// `guard_count.set(guards)`: the number of guards that keep the participant pinned.
pub fn set_guards(counts: &mut Counts, guards: u64)
    ensures { counts.new ≡ with_guards guards counts.old }
{
    counts.guards = guards;
}

// `handle_count.set(handles)`: the number of active handles.
pub fn set_handles(counts: &mut Counts, handles: u64)
    ensures { counts.new ≡ with_handles handles counts.old }
{
    counts.handles = handles;
}

// `pin_count.set(pins)`: the number of pinnings performed.
pub fn set_pins(counts: &mut Counts, pins: u64)
    ensures { counts.new ≡ with_pins pins counts.old }
{
    counts.pins = pins;
}

// The participant with other counts: each is set where it stands.
pub fn counting(guards: u64, handles: u64, pins: u64, mut o: Participant) -> Participant
    ensures { result ≡ counting guards handles pins o }
{
    set_guards(&mut o.counts, guards);
    set_handles(&mut o.counts, handles);
    set_pins(&mut o.counts, pins);
    o
}
