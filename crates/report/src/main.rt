// Prints a survey: it reads records from standard input to its end, plays each from a fresh start with 32 participants and 128 nodes, as the
// schedule program does but without its lines, and then surveys. One line for each slot that is not free: its number, state, guards, handles,
// items held and distance, in decimal. `./play` makes the table of its `survey` lines from them.
#![tactic(auto)]

ghost use Rattle.std.specs.Prelude.{◌≡◌, replicate, OnOk, Some};
ghost use Rattle.std.specs.Io.KnownBytes.{Appends};
ghost use Rattle.definition.specs.Survey.{survey_lent};
ghost use Rattle.player.specs.Owned.{owned};
ghost use Rattle.report.specs.Lines.{line_of, lines_of, survey_text};
ghost use Rattle.report.specs.Surveys.{surveyed};
ghost use Rattle.survey.specs.Surveys.{blank};

use definition::{Answer, Report};
use player::{N, Tables};
use std::fmt;
use std::io::{self, Write};
use survey::State;

// Surveys the tables, or returns the number of its refusal, as the public call answers it and as it is printed. The list of reports is lent here and
// nowhere else.
fn survey(tables: &Tables) -> Result<[Report; N], u64>
    ensures { surveyed (replicate 32 (blank 0)) result ≡ survey_lent 32 128 (owned tables.now) (replicate 32 (blank 0)) }
{
    let mut reports = [Report::default(); N];
    match reclaimer::survey(tables.read(), &mut reports) {
        Answer::Refused(r) => Err(r),
        _ => Ok(reports),
    }
}

// The line of a slot, by its number and its report: none where it is free.
#[derive(Clone, Copy)]
struct Line(usize, Report);

impl fmt::Display for Line {
    ghost output = { λ l. Some (line_of l.0 l.1) };

    #[tactic(auto, unfolding(crate::specs::Lines::line_of, definition::specs::Base::branch, survey::specs::States::state_number))]
    fn fmt<W: fmt::Write>(&self, f: &mut fmt::Formatter<W>) -> fmt::Result {
        let Line(p, report) = *self;
        let Report {
            state,
            guards,
            handles,
            held,
            distance,
        } = report;
        if state == u64::from(State::Free) {
            return Ok(());
        }
        writeln!(f, "{p} {state} {guards} {handles} {held} {distance}")
    }
}

// Writes the lines of reports.
fn say_reports<W: Write>(writer: &mut W, reports: &[Report]) -> io::Result<()>
    ensures { OnOk result (Appends (W.contents writer.old) (W.contents writer.new) (lines_of 0 reports.now)) }
{
    for (p, report) in reports.iter().enumerate() {
        write!(writer, "{}", Line(p, *report))?;
    }
    Ok(())
}

// Writes the lines of a survey, or of its refusal.
#[tactic(auto, unfolding(crate::specs::Lines::survey_text))]
fn say_survey<W: Write>(writer: &mut W, s: Result<[Report; N], u64>) -> io::Result<()>
    ensures { OnOk result (Appends (W.contents writer.old) (W.contents writer.new) (survey_text s)) }
{
    match s {
        Ok(reports) => say_reports(writer, &reports),
        Err(r) => writeln!(writer, "refused {r}"),
    }
}

fn main(rt: HostRuntime) -> io::Result<()> {
    let mut tables = Tables::new();
    tables.start();
    let mut block = [0u8; stream::BLOCK];
    let mut reader = rt.stdin();
    stream::for_each_block(&mut reader, &mut block, |bytes| {
        tables.act_all(bytes);
        Ok(())
    })?;
    let mut writer = rt.stdout();
    say_survey(&mut writer, survey(&tables))
}
