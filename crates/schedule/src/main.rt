// The schedule program: it reads records from standard input to its end, plays each on tables for 32 participants and 128 nodes, from a
// fresh start, and writes a line for each (document 01, "Schedule program").
//
// What a record asks for and what a line says is decided in `script`, and what an action does in `player` and `reclaimer`. Here are the
// buffers, and the loop over the records of a block. A block is a whole number of records and is read full, so only the last record of the
// input can be short.
#![tactic(auto)]

ghost use Rattle.std.specs.Prelude.{◌≡◌, [], ◌++◌, ◌+◌, ◌*◌, ◌≤◌, length, take, IfOk, OnOk};
ghost use Rattle.std.specs.Io.KnownBytes.{Appends};
ghost use Rattle.definition.specs.Layout.{tables_of};
ghost use Rattle.definition.specs.Schedule.{played, line};
ghost use Rattle.player.specs.Owned.{owned};
ghost use Rattle.player.specs.Records.{reached, reached_as, records_in};
ghost use Rattle.script.specs.Script.{action_in, line_of};
ghost use Rattle.script.specs.Played.{acts, line_from, lines_on};
ghost use Rattle.schedule.specs.Written.{Wrote};

use definition::Answer;
use lent::BAG_WORDS;
use player::Tables;
use script::{ANSWER_BYTES, TOKEN_BYTES};
use std::io::{self, Write};
use stream::BLOCK;

// The bytes that the longest line takes: an answer, and as many tokens as a step frees at most (`line_most` of `script`).
const LINE: usize = ANSWER_BYTES + TOKEN_BYTES * BAG_WORDS;

// The lines that are put and not yet written: what stands before `end`. No `Vec` and no `BufWriter`: these allocate, and the program allocates nothing.
#[derive(Drop)]
struct Lines {
    bytes: [u8; BLOCK],
    end: usize,
    ghost within: { end ≤ 65536 },
}

impl Lines {
    // No lines.
    fn new() -> Lines
        ensures { take result.end result.bytes ≡ [] }
    {
        Lines {
            bytes: [0; BLOCK],
            end: 0,
        }
    }

    // Puts the line of an answer, with the freed tokens.
    #[tactic(auto, using(crate::proofs::Laws::written_front))]
    fn put(&mut self, answer: Answer, freed: &[u64])
        requires { self.old.end + 29 + 22 * length freed.now ≤ 65536 }
        ensures { take self.new.end self.new.bytes ≡ take self.old.end self.old.bytes ++ line_of answer freed.now }
    {
        self.end = script::put_line(&mut self.bytes, self.end, answer, freed);
    }

    // Writes the lines, where there is no room for the longest. Fails where they cannot be written.
    fn make_room<W: Write>(&mut self, writer: &mut W) -> io::Result<()>
        ensures fits { IfOk result (λ _. self.new.end + 1437 ≤ 65536) }
        ensures lines { IfOk result (λ _. Wrote (W.contents writer.old) (W.contents writer.new)
            (take self.old.end self.old.bytes) (take self.new.end self.new.bytes)) }
    {
        if self.end > BLOCK - LINE {
            self.write(writer)?;
        }
        Ok(())
    }

    // Writes the lines, and then there are none. Fails where they cannot be written.
    fn write<W: Write>(&mut self, writer: &mut W) -> io::Result<()>
        ensures lines { OnOk result (Appends (W.contents writer.old) (W.contents writer.new) (take self.old.end self.old.bytes)) }
        ensures none { IfOk result (λ _. self.new.end ≡ 0) }
    {
        writer.write_all(&self.bytes[..self.end])?;
        self.end = 0;
        Ok(())
    }
}

// Plays a record and puts its line.
fn play_record(tables: &mut Tables, bytes: &[u8], lines: &mut Lines)
    requires { lines.old.end + 1437 ≤ 65536 }
    ensures puts { take lines.new.end lines.new.bytes ≡ take lines.old.end lines.old.bytes ++ line (played bytes.now (tables_of 32 128 (owned tables.old))) }
    ensures same_line { take lines.new.end lines.new.bytes
        ≡ take lines.old.end lines.old.bytes ++ line_from (acts 32 128 (owned tables.old) tables.old.freed (action_in bytes.now)) }
    ensures lists_after { owned tables.new ≡ (acts 32 128 (owned tables.old) tables.old.freed (action_in bytes.now)).lent }
    ensures freed_after { tables.new.freed ≡ (acts 32 128 (owned tables.old) tables.old.freed (action_in bytes.now)).freed }
{
    let answer = tables.act(script::action_of(bytes));
    let k = (script::freed_count(answer) as usize).min(tables.freed.len());
    lines.put(answer, &tables.freed[..k]);
}

// Plays the records of a block and writes their lines. Fails where they cannot be written.
fn answer_block<W: Write>(writer: &mut W, tables: &mut Tables, block: &[u8]) -> io::Result<()>
    ensures lines { OnOk result (Appends (W.contents writer.old) (W.contents writer.new)
        (lines_on (length block.now) block.now (owned tables.old) tables.old.freed)) }
    ensures lists { OnOk result (reached_as (owned tables.new) tables.new.freed
        ≡ reached 32 128 block.now (owned tables.old) tables.old.freed (records_in block.now)) }
{
    let mut lines = Lines::new();
    for record in block.chunks(8) {
        lines.make_room(writer)?;
        play_record(tables, record, &mut lines);
    }
    lines.write(writer)
}

fn main(rt: HostRuntime) -> io::Result<()> {
    let mut tables = Tables::new();
    tables.start();
    let mut block = [0u8; BLOCK];
    let mut reader = rt.stdin();
    let mut writer = rt.stdout();
    stream::for_each_block(&mut reader, &mut block, |bytes| {
        answer_block(&mut writer, &mut tables, bytes)
    })
}
