// The public calls of document 01. None asks anything of its caller: each checks first, and a call that is refused leaves every lent word as it was.
//
// A call is lent the five lists and their sizes as one value (crate `lent`). It promises that its answer and the lists afterwards are the outcome
// that the definition gives for its input (specs/Public of `definition`), so that two outcomes which meet the promise are equal (proofs/One); and
// that the value lends the same lists as before.
//
// A check's answer is opened by `let .. else`, and a refusal is returned at once: the form that document 01 names.
#![tactic(auto)]

ghost use Rattle.std.specs.Prelude.{◌≡◌, []};
ghost use Rattle.definition.specs.Public.{start_lent, register_lent, call_lent, step_lent};
ghost use Rattle.definition.specs.Survey.{survey_lent};
ghost use Rattle.definition.specs.declared.Call.{Call};
ghost use Rattle.lent.specs.Lists.{read, lent, Same};
ghost use Rattle.reclaimer.specs.Outcomes.{outcome_of, surveyed_as, refused_as};

use call::take_call;
use checks::{check_call, check_register, check_step};
use definition::{Answer, Call, Report};
use enroll::enroll;
use lent::{Lists, ListsMut};
use ranges::Measured;
use refusals::Refusal;
use step::take_step;
use survey::{check_survey, fill_reports};

// Returns the refusal of a check as an answer. It takes the whole `Result`, since the `else` of a `let .. else` is not given the error. No caller comes
// with `Ok`; for that the answer has 0, the definition's number of no refusal.
fn refused<T: Copy>(checked: Result<T, Refusal>) -> Answer
    ensures { result ≡ refused_as checked }
{
    match checked {
        Ok(_) => Answer::Refused(0),
        Err(refusal) => Answer::from(refusal),
    }
}

// Starts afresh, whatever the lists held.
pub fn start(l: &mut ListsMut<'_>) -> Answer
    ensures outcome { outcome_of result (lent l.new) [] ≡ start_lent l.old.n l.old.m (lent l.old) }
    ensures same { Same l.old l.new }
{
    let measured = Measured::of(l.read());
    let Ok(_) = measured else {
        return refused(measured);
    };
    start::start(l);
    Answer::Done(0, 0)
}

// internal.rs, `Local::register`: begins it in the smallest free slot.
pub fn register(l: &mut ListsMut<'_>) -> Answer
    ensures outcome { outcome_of result (lent l.new) [] ≡ register_lent l.old.n l.old.m (lent l.old) }
    ensures same { Same l.old l.new }
{
    let checked = check_register(l.read());
    let Ok(()) = checked else {
        return refused(checked);
    };
    enroll(l)
}

// Makes the call `c` of participant `p`, up to its first access: a call that has none is over at once, and the others go on by steps.
pub fn call(l: &mut ListsMut<'_>, p: usize, c: Call) -> Answer
    ensures outcome { outcome_of result (lent l.new) [] ≡ call_lent l.old.n l.old.m (lent l.old) p c }
    ensures same { Same l.old l.new }
{
    let checked = check_call(l.read(), p, c);
    let Ok(()) = checked else {
        return refused(checked);
    };
    take_call(l, p, c)
}

// The seven calls of a participant by their names, as document 01 lists them; `call` makes any of them.

// internal.rs, `Local::acquire_handle`: one handle more.
pub fn acquire(l: &mut ListsMut<'_>, p: usize) -> Answer
    ensures outcome { outcome_of result (lent l.new) [] ≡ call_lent l.old.n l.old.m (lent l.old) p Call.Acquire }
    ensures same { Same l.old l.new }
{
    call(l, p, Call::Acquire)
}

// internal.rs, `Local::release_handle`: one handle fewer; the last one finalizes.
pub fn release(l: &mut ListsMut<'_>, p: usize) -> Answer
    ensures outcome { outcome_of result (lent l.new) [] ≡ call_lent l.old.n l.old.m (lent l.old) p Call.Release }
    ensures same { Same l.old l.new }
{
    call(l, p, Call::Release)
}

// internal.rs, `Local::pin`: one guard more.
pub fn pin(l: &mut ListsMut<'_>, p: usize) -> Answer
    ensures outcome { outcome_of result (lent l.new) [] ≡ call_lent l.old.n l.old.m (lent l.old) p Call.Pin }
    ensures same { Same l.old l.new }
{
    call(l, p, Call::Pin)
}

// internal.rs, `Local::unpin`: one guard fewer.
pub fn unpin(l: &mut ListsMut<'_>, p: usize) -> Answer
    ensures outcome { outcome_of result (lent l.new) [] ≡ call_lent l.old.n l.old.m (lent l.old) p Call.Unpin }
    ensures same { Same l.old l.new }
{
    call(l, p, Call::Unpin)
}

// internal.rs, `Local::repin`: the only guard moves on to the global epoch.
pub fn repin(l: &mut ListsMut<'_>, p: usize) -> Answer
    ensures outcome { outcome_of result (lent l.new) [] ≡ call_lent l.old.n l.old.m (lent l.old) p Call.Repin }
    ensures same { Same l.old l.new }
{
    call(l, p, Call::Repin)
}

// internal.rs, `Local::defer`: retires `token`, which stands for a closure. Refused where the own bag has it already (document 02, No. 6). Done with
// the places left in that bag (No. 9): in this call, or in its last step where the bag was full and is pushed first.
pub fn defer(l: &mut ListsMut<'_>, p: usize, token: u64) -> Answer
    ensures outcome { outcome_of result (lent l.new) [] ≡ call_lent l.old.n l.old.m (lent l.old) p (Call.Defer token) }
    ensures same { Same l.old l.new }
{
    call(l, p, Call::Defer(token))
}

// internal.rs, `Local::flush`: pushes the bag and collects.
pub fn flush(l: &mut ListsMut<'_>, p: usize) -> Answer
    ensures outcome { outcome_of result (lent l.new) [] ≡ call_lent l.old.n l.old.m (lent l.old) p Call.Flush }
    ensures same { Same l.old l.new }
{
    call(l, p, Call::Flush)
}

// Makes one step of participant `p`: one access. Where the step is marked, a `compare_exchange_weak` fails although the value agrees; no other access
// looks at the mark. Freed tokens go to the front of `freed`.
pub fn step(l: &mut ListsMut<'_>, p: usize, marked: bool, freed: &mut [u64]) -> Answer
    ensures outcome { outcome_of result (lent l.new) freed.new ≡ step_lent l.old.n l.old.m (lent l.old) p marked freed.old }
    ensures same { Same l.old l.new }
{
    let places = freed.len();
    let checked = check_step(l.read(), p, places);
    let Ok(()) = checked else {
        return refused(checked);
    };
    take_step(l, p, marked, freed)
}

// Fills the list with one report for each participant. Nothing else changes.
pub fn survey(l: Lists<'_>, reports: &mut [Report]) -> Answer
    ensures { surveyed_as result reports.new ≡ survey_lent l.entry.n l.entry.m (read l.entry) reports.old }
{
    let places = reports.len();
    let checked = check_survey(l, places);
    let Ok(whole) = checked else {
        return refused(checked);
    };
    fill_reports(whole.lists, reports);
    Answer::Done(0, 0)
}
