// The survey: one report for each participant. Added by design: the Rust has nothing like it.
//
// The numbers are decided by `report_of`, from the lists; a report is a struct, so that no count is taken for another. `fill_reports` only stores
// them, one after another. The public call, which joins the check and the reports, is in `reclaimer`.
#![tactic(auto)]

ghost use Rattle.std.specs.Prelude.{◌≡◌, ◌++◌, ◌+◌, ◌-◌, ◌*◌, ◌/◌, ◌≤◌, ◌<◌, length, drop, MatchResult};
ghost use Rattle.definition.specs.Base.{branch};
ghost use Rattle.definition.specs.Ranges.{bit_words};
ghost use Rattle.lent.specs.Lists.{read};
ghost use Rattle.refusals.specs.Numbers.{number};
ghost use Rattle.survey.specs.States.{state_number};
ghost use Rattle.survey.specs.Surveys.{blank, tabulate, report_in, survey_refusal};

use bits::FreeBits;
use checks::Whole;
use definition::Report;
use epoch::Epoch;
use flow::links::is_tagged;
use internal::places::is_register;
use lent::{ENTRY_NEXT, GLOBAL_EPOCH, Lists, row};
use records::load;
use refusals::{Refusal, refuse_if};

// The states of a slot, with document 01's numbers.
#[derive(Clone, Copy, Debug, PartialEq, Eq)]
pub enum State {
    Free = 0,
    Registering = 1,
    Registered = 2,
    Deleted = 3,
}

// A state as a report has it: its number. (The list of reports is the caller's, and may hold any word before.)
#[tactic(auto, unfolding(crate::specs::States::state_number))]
impl From<State> for u64 {
    ghost from_gives = { λ s n. n ≡ state_number s };

    fn from(s: State) -> u64 {
        s as u64
    }
}

// Returns the state.
#[tactic(auto, unfolding(definition::specs::Base::branch, crate::specs::States::state_number))]
fn state_of(free: bool, deleted: bool, registering: bool) -> State
    ensures { state_number result ≡ branch free 0 (branch deleted 3 (branch registering 1 2)) }
{
    if free {
        State::Free
    } else if deleted {
        State::Deleted
    } else if registering {
        State::Registering
    } else {
        State::Registered
    }
}

// Returns a report of which the state is all that is said.
fn blank(state: State) -> Report
    ensures { result ≡ blank (state_number state) }
{
    Report {
        state: u64::from(state),
        ..Report::default()
    }
}

// Returns the report of participant `p`, in which a slot that is free or deleted has its state alone. (It takes the two lists that it reads:
// `report_in` is the same for every number of participants and nodes.)
#[tactic(auto, unfolding(definition::specs::Ranges::bit_words, definition::specs::Layout::global_words))]
pub fn report_of(globals: &[u64], participants: &[u64], p: usize) -> Report
    requires { (5 + p / 64 < length globals.now) × (p * 21 + 21 ≤ length participants.now) }
    ensures { result ≡ report_in globals.now participants.now p }
{
    // `FreeBits::slots` wants a number of slots of which `p` is one; any such number gives the same answer
    let free = FreeBits::slots(p + 1).is_free(globals, p);
    let row = row(participants, p);
    let o = load(row);
    let state = state_of(free, is_tagged(row[ENTRY_NEXT]), is_register(o.place));
    let global = Epoch(globals[GLOBAL_EPOCH]);
    let word = Epoch(row[0]);
    match state {
        State::Free | State::Deleted => blank(state),
        State::Registering | State::Registered => Report {
            state: u64::from(state),
            guards: o.counts.guards,
            handles: o.counts.handles,
            held: o.held,
            distance: global.wrapping_sub(word),
        },
    }
}

// Fills the places of the first participants with their reports, one for each. (It asks for the words that it reads, not for lists that are whole.)
#[tactic(auto, unfolding(definition::specs::Ranges::bit_words))]
pub fn fill_reports(l: Lists<'_>, list: &mut [Report])
    requires { (l.n ≤ length list.old) × ((bit_words l.n ≤ length l.globals.now - 5) × (l.n * 21 ≤ length l.participants.now)) }
    ensures { list.new ≡ tabulate (report_in l.entry.globals.now l.entry.participants.now) l.entry.n ++ drop l.entry.n list.old }
{
    for (p, report) in list[..l.n].iter_mut().enumerate() {
        *report = report_of(l.globals, l.participants, p);
    }
}

// Checks a survey into a list of so many places: 2, also where these are not `n`, then 1.
#[tactic(auto, unfolding(crate::specs::Surveys::survey_refusal, definition::specs::Base::branch))]
pub fn check_survey(l: Lists<'_>, places: usize) -> Result<Whole<'_>, Refusal>
    ensures { MatchResult result
        (λ w. ((w.lists ≡ l.entry) × (places ≡ l.entry.n)) × (survey_refusal l.entry.n l.entry.m (read l.entry) places ≡ 0))
        (λ r. number r ≡ survey_refusal l.entry.n l.entry.m (read l.entry) places) }
{
    refuse_if(places != l.n, Refusal::Sizes)?;
    Whole::of(l)
}
