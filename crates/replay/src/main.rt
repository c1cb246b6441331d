// Plays recorded answers of the Rust and compares: it reads the form of oracle/recorded/answers.txt from standard input, makes each record's
// call on the reclaimer, and holds what comes out to what the line says: the answer, the freed tokens, and, after every record, every
// shared word, every count, every free bit and every held item, so that a word that changed unasked is found too.
//
// The words that the Rust has are kept as the numbered cells of that form (oracle/README.md), brought up to date by the changes that a
// line lists. A row of cells and a row of a lent list have the same order, so one function compares them all. At the end it says how many
// schedules, records and words it compared, and how many differ.
#![tactic(auto)]

ghost use Rattle.std.specs.Prelude.{◌+◌, ◌*◌, ◌<◌, ◌≤◌, length, decimal, IfSome, Some};
ghost use Rattle.definition.specs.Ranges.{bit_words};
ghost use Rattle.replay.specs.Lines.{course_text, difference_text, number_of};

use bits::{FreeBits, bit_words};
use definition::Answer;
use lent::{
    ASIDE, BAG_WORDS, GLOBAL_WORDS, ListsMut, NODE_WORDS, PARTICIPANT_WORDS, QUEUE_HEAD, QUEUE_TAIL,
};
use player::{M, N, Tables};
use script::Action;
use std::cmp::min;
use std::fmt;
use std::io::{self, Write};

// ---- lines

// What a line is.
#[derive(Clone, Copy, PartialEq)]
enum Kind {
    Numbers,
    Comment,
    Fresh,
    Odd,
}

// How many numbers a line may have.
const NUMBERS: usize = 1024;

// A line, as far as it is read: what it is, how many numbers it has, those, and the one that is being read. Their number stands beside them, since
// the memory is fixed: no heap.
#[derive(Drop)]
struct Line {
    kind: Kind,
    fields: usize,
    numbers: [u64; NUMBERS],
    number: Option<u64>,
    ghost within: { fields ≤ 1024 },
}

impl Line {
    // Begins the next line.
    fn clear(&mut self) {
        self.kind = Kind::Numbers;
        self.fields = 0;
        self.number = None;
    }

    // Reads a byte within a line.
    fn read(&mut self, byte: u8) {
        if self.kind == Kind::Comment {
            return;
        }
        match byte {
            b' ' => self.put_number(),
            b'=' => self.kind = Kind::Fresh,
            b'#' => self.kind = Kind::Comment,
            b'0'..=b'9' => self.digit(byte - b'0'),
            _ => self.kind = Kind::Odd,
        }
    }

    // Reads a digit. A number that does not fit makes the line odd, and so do the last six that would: what is printed does not change, so it
    // is no `checked_mul`.
    fn digit(&mut self, d: u8)
        requires { d ≤ 9 }
    {
        let v = self.number.unwrap_or(0);
        if v < u64::MAX / 10 {
            self.number = Some(10 * v + u64::from(d));
        } else {
            self.kind = Kind::Odd;
        }
    }

    // Puts the number that was read, if there is one, behind the others. A line with more numbers than places is odd.
    fn put_number(&mut self) {
        let Some(v) = self.number else {
            return;
        };
        if self.fields < self.numbers.len() {
            self.numbers[self.fields] = v;
            self.fields += 1;
            self.number = None;
        } else {
            self.kind = Kind::Odd;
        }
    }
}

// An answer as a line says it: with no number of freed tokens, since it lists these.
#[derive(Clone, Copy, PartialEq)]
enum Said {
    More,
    Done(u64),
    Refused(u64),
}

impl Said {
    // Returns the answer of those numbers: 0 is more, which has the value 0, 1 is done, and 2 is refused. (Here and in `Record` no `TryFrom`: there is no
    // error to tell.)
    fn new(number: u64, value: u64) -> Option<Said> {
        match (number, value) {
            (0, 0) => Some(Said::More),
            (1, v) => Some(Said::Done(v)),
            (2, r) => Some(Said::Refused(r)),
            _ => None,
        }
    }
}

impl From<Answer> for Said {
    fn from(answer: Answer) -> Said {
        match answer {
            Answer::More(_) => Said::More,
            Answer::Done(v, _) => Said::Done(v),
            Answer::Refused(r) => Said::Refused(r),
        }
    }
}

// What the numbers of a line say: what was asked, which may be a broken record, what came of it, which may be no answer, which tokens were
// freed, and which cells changed, each with its value.
#[derive(Clone, Copy)]
struct Record<'a> {
    action: Option<Action>,
    answer: Option<Said>,
    freed: &'a [u64],
    changes: &'a [u64],
}

impl<'a> Record<'a> {
    // Returns the record that the numbers make, if there are as many as they say: what was asked, the answer, at most 64 tokens, the access,
    // and at most 512 changes.
    fn new(numbers: &'a [u64]) -> Option<Record<'a>>
        ensures { IfSome result (λ r. length r.freed.now ≤ BAG_WORDS) }
    {
        let [action, p, token, answer, value, k, rest @ ..] = numbers else {
            return None;
        };
        let (freed, rest) = rest.split_at_checked(*k as usize)?;
        let [_, _, _, _, _, k, changes @ ..] = rest else {
            return None;
        };
        if freed.len() > BAG_WORDS || *k > 512 || changes.len() as u64 != 2 * *k {
            return None;
        }
        Some(Record {
            action: action_of(*action, *p, *token),
            answer: Said::new(*answer, *value),
            freed,
            changes,
        })
    }
}

// Returns what a line's record asks for, by the rules of the schedule program: it is one of 8 bytes there, and may be broken.
fn action_of(action: u64, p: u64, token: u64) -> Option<Action> {
    let [action, ..] = action.to_le_bytes();
    let [p, ..] = p.to_le_bytes();
    let [a, b, c, d, ..] = token.to_le_bytes();
    script::action_of(&[action, p, 0, 0, a, b, c, d])
}

// ---- the reclaimer

// The sizes of a schedule.
#[derive(Clone, Copy)]
struct Sizes {
    n: usize,
    m: usize,
    ghost taken: { (n ≤ 32) × (m ≤ 128) },
}

// Makes a call on the first parts of the lists, as long as they are for those sizes. (`lend` of `Tables` is for its own sizes alone, and promises what the
// lists are afterwards; of parts of them that would be a longer promise, and nothing here asks for it.)
#[tactic(auto, unfolding(definition::specs::Ranges::bit_words))]
fn ask<F: FnOnce(&mut ListsMut<'_>, &mut [u64]) -> Answer>(
    t: &mut Tables,
    sizes: Sizes,
    call: F,
) -> Answer
    requires { F.IsAlwaysCallable call }
{
    let Sizes { n, m } = sizes;
    let Tables {
        globals,
        participants,
        nodes,
        held,
        queued,
        freed,
    } = t;
    let mut l = ListsMut {
        n,
        m,
        globals: &mut globals[..GLOBAL_WORDS + bit_words(n) + bit_words(m)],
        participants: &mut participants[..PARTICIPANT_WORDS * n],
        nodes: &mut nodes[..NODE_WORDS * m],
        held: &mut held[..BAG_WORDS * n],
        queued: &mut queued[..BAG_WORDS * m],
    };
    call(&mut l, freed)
}

// ---- comparing

// The first cell of the slots and of the nodes, how many each has, where its items begin, and how many cells there are.
const SLOTS: usize = 16;

const NODES: usize = SLOTS + EACH * N;

const EACH: usize = 128;

const ITEMS: usize = 8;

const CELLS: usize = NODES + EACH * M;

// How many words of a row are compared at most: all of a node's, and of a participant's its two shared words, its counts, and how many items its
// bag has.
const COUNTED: usize = 6;

// What differs: the word of a cell, the answer, or the freed tokens.
#[derive(Clone, Copy)]
enum Where {
    Cell(usize),
    Answer,
    Freed,
}

// Shown by its number: a cell's own is below `CELLS`.
impl fmt::Display for Where {
    ghost output = { λ w. Some (decimal (number_of w)) };

    fn fmt<W: fmt::Write>(&self, f: &mut fmt::Formatter<W>) -> fmt::Result {
        let number = match *self {
            Where::Cell(cell) => cell,
            Where::Answer => CELLS,
            Where::Freed => CELLS + 1,
        };
        write!(f, "{number}")
    }
}

// What was compared: the words, how many differences there are, and the last of them.
#[derive(Clone, Copy, Default)]
struct Seen {
    words: u64,
    differ: u64,
    last: Option<Where>,
}

impl Seen {
    // Compares two words, the first of which has that number.
    fn word(&mut self, expected: u64, found: u64, cell: usize) {
        self.words = self.words.wrapping_add(1);
        if expected != found {
            self.miss(Where::Cell(cell));
        }
    }

    // Counts a difference.
    fn miss(&mut self, at: Where) {
        self.differ = self.differ.wrapping_add(1);
        self.last = Some(at);
    }

    // Compares the cells from `at` on with the words of a row.
    fn row(&mut self, cells: &[u64], at: usize, row: &[u64])
        requires { at + length row.now ≤ length cells.now }
    {
        for (i, (expected, found)) in cells[at..].iter().zip(row).enumerate() {
            self.word(*expected, *found, at + i);
        }
    }
}

// Returns `true` if a cell is the first of a slot's or of a node's.
fn is_first(at: usize) -> bool {
    at >= SLOTS && (at - SLOTS) % EACH == 0
}

// ---- the course

// A difference: its line, and what differs there.
#[derive(Clone, Copy)]
struct Difference {
    line: u64,
    at: Where,
}

// Its two lines, with the numbers that stand for an answer and for freed tokens. A text of its own: with all seven writes in that of the course its proof
// did not close.
impl fmt::Display for Difference {
    ghost output = { λ d. Some (difference_text d) };

    fn fmt<W: fmt::Write>(&self, f: &mut fmt::Formatter<W>) -> fmt::Result {
        let Difference { line, at } = *self;
        let (answer, freed) = (Where::Answer, Where::Freed);
        writeln!(f, "{line} is the line of the first")?;
        writeln!(
            f,
            "{at} is its cell, {answer} the answer, {freed} the freed tokens"
        )
    }
}

// What was counted, and a difference of the first record that has one: its last.
#[derive(Clone, Copy, Default)]
struct Course {
    lines: u64,
    schedules: u64,
    records: u64,
    words: u64,
    differ: u64,
    odd: u64,
    first: Option<Difference>,
}

impl Course {
    // Counts a line that is not understood.
    fn odd(&mut self) {
        self.odd = self.odd.wrapping_add(1);
    }

    // Counts a record that was compared.
    fn record(&mut self, seen: Seen) {
        self.records = self.records.wrapping_add(1);
        self.words = self.words.wrapping_add(seen.words);
        self.differ = self.differ.wrapping_add(seen.differ);
        let line = self.lines;
        self.first = self.first.or(seen.last.map(|at| Difference { line, at }));
    }
}

// What was compared, how many differ, and where that difference is.
impl fmt::Display for Course {
    ghost output = { λ c. Some (course_text c) };

    fn fmt<W: fmt::Write>(&self, f: &mut fmt::Formatter<W>) -> fmt::Result {
        writeln!(f, "{} schedules", self.schedules)?;
        writeln!(f, "{} records", self.records)?;
        writeln!(f, "{} words", self.words)?;
        writeln!(f, "{} lines not understood", self.odd)?;
        writeln!(f, "{} differences", self.differ)?;
        match self.first {
            Some(difference) => write!(f, "{difference}"),
            None => Ok(()),
        }
    }
}

// ---- the run

// The cells as the Rust has them, the lists, the sizes of the schedule, and what was counted.
#[derive(Drop)]
struct Replay {
    cells: [u64; CELLS],
    tables: Tables,
    sizes: Sizes,
    course: Course,
}

impl Replay {
    // Reads a byte: the end of a line, or one within it.
    fn feed(&mut self, line: &mut Line, byte: u8) {
        if byte != b'\n' {
            line.read(byte);
            return;
        }
        line.put_number();
        self.end_line(line);
        line.clear();
    }

    // Does what a whole line says.
    fn end_line(&mut self, line: &Line) {
        self.course.lines = self.course.lines.wrapping_add(1);
        let numbers = &line.numbers[..line.fields];
        match line.kind {
            Kind::Comment => {}
            Kind::Fresh => self.start(numbers),
            Kind::Numbers if numbers.is_empty() => {}
            Kind::Numbers => match Record::new(numbers) {
                Some(record) => self.play(record),
                None => self.course.odd(),
            },
            Kind::Odd => self.course.odd(),
        }
    }

    // Starts a schedule afresh, with the sizes that its line says, or with the most. In the cells node 0 is the sentinel then.
    fn start(&mut self, numbers: &[u64]) {
        let (n, m) = match *numbers {
            [n, m] => (n as usize, m as usize),
            _ => (N, M),
        };
        let sizes = Sizes {
            n: min(n, N),
            m: min(m, M),
        };
        let answer = ask(&mut self.tables, sizes, |l, _| reclaimer::start(l));
        self.cells.fill(0);
        self.cells[QUEUE_HEAD] = start::SENTINEL;
        self.cells[QUEUE_TAIL] = start::SENTINEL;
        self.cells[NODES] = 1;
        if Said::from(answer) == Said::Done(0) {
            self.sizes = sizes;
            self.course.schedules = self.course.schedules.wrapping_add(1);
        } else {
            self.course.odd();
        }
    }

    // Plays a record and compares what comes of it with what its line says: an answer that differs is a difference, and tokens that do are
    // another.
    fn play(&mut self, record: Record<'_>)
        requires { length «record».freed.now ≤ BAG_WORDS }
    {
        let answer = ask(&mut self.tables, self.sizes, |l, freed| {
            player::act(l, freed, record.action)
        });
        for [cell, value] in record.changes.as_chunks::<2>().0 {
            self.change(*cell, *value);
        }
        let mut seen = self.compare();
        let k = record.freed.len();
        if script::freed_count(answer) != k as u64 || &self.tables.freed[..k] != record.freed {
            seen.miss(Where::Freed);
        }
        if record.answer != Some(Said::from(answer)) {
            seen.miss(Where::Answer);
        }
        self.course.record(seen);
    }

    // Makes one change. A slot or a node that is given back is forgotten: all its cells are 0.
    fn change(&mut self, cell: u64, value: u64) {
        let at = cell as usize;
        if at >= self.cells.len() {
            return;
        }
        if value == 0 && is_first(at) {
            let end = min(at + EACH, self.cells.len());
            self.cells[at..end].fill(0);
        } else {
            self.cells[at] = value;
        }
    }

    // Compares all words: the four global ones, the slots and the nodes.
    #[tactic(auto, unfolding(definition::specs::Layout::global_words, definition::specs::Ranges::bit_words))]
    fn compare(&self) -> Seen {
        let mut seen = Seen::default();
        seen.row(&self.cells, 0, &self.tables.globals[..ASIDE]);
        let slots = &self.tables.participants.as_chunks::<PARTICIPANT_WORDS>().0[..self.sizes.n];
        let nodes = &self.tables.nodes.as_chunks::<NODE_WORDS>().0[..self.sizes.m];
        let (slot_bits, node_bits) = (FreeBits::slots(N), FreeBits::nodes(N, M));
        self.compare_rows(&mut seen, SLOTS, slot_bits, slots, &self.tables.held);
        self.compare_rows(&mut seen, NODES, node_bits, nodes, &self.tables.queued);
        seen
    }

    // Compares slots, or nodes: their cells begin at `at`, and their free bits are `bits`. Cells go by their numbers and not by chunks, since the
    // number of one that differs is printed.
    fn compare_rows<const K: usize>(
        &self,
        seen: &mut Seen,
        at: usize,
        bits: FreeBits,
        rows: &[[u64; K]],
        bags: &[u64],
    )
        requires bits { (length rows.now ≤ bits.size) × (bits.at + bit_words bits.size ≤ 8) }
        requires within { at + EACH * length rows.now ≤ CELLS }
    {
        let bags = bags.as_chunks::<BAG_WORDS>().0;
        for (i, (row, bag)) in rows.iter().zip(bags).enumerate() {
            let taken = !bits.is_free(&self.tables.globals, i);
            self.compare_block(seen, at + EACH * i, taken, &row[..min(K, COUNTED)], bag);
        }
    }

    // Compares a slot or a node, whose cells begin at `at`: whether it is taken, and where it is the words of its row, the last of which is how many
    // items its bag has, and these.
    fn compare_block(
        &self,
        seen: &mut Seen,
        at: usize,
        taken: bool,
        row: &[u64],
        bag: &[u64; BAG_WORDS],
    )
        requires within { at + EACH ≤ CELLS }
        requires row { length row.now < ITEMS }
    {
        seen.word(self.cells[at], u64::from(taken), at);
        if self.cells[at] != 0 {
            let k = min(self.cells[at + row.len()] as usize, BAG_WORDS);
            seen.row(&self.cells, at + 1, row);
            seen.row(&self.cells, at + ITEMS, &bag[..k]);
        }
    }
}

fn main(rt: HostRuntime) -> io::Result<()> {
    let mut line = Line {
        kind: Kind::Numbers,
        fields: 0,
        numbers: [0; NUMBERS],
        number: None,
    };
    let mut replay = Replay {
        cells: [0; CELLS],
        tables: Tables::new(),
        sizes: Sizes { n: N, m: M },
        course: Course::default(),
    };
    let mut block = [0u8; stream::BLOCK];
    stream::for_each_block(&mut rt.stdin(), &mut block, |bytes| {
        for byte in bytes {
            replay.feed(&mut line, *byte);
        }
        Ok(())
    })?;
    replay.feed(&mut line, b'\n');
    write!(rt.stdout(), "{}", replay.course)
}
