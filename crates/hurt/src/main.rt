// Bad input, tried for real: lists of 3 participants and 4 nodes, at a few hundred moments of some runs, with every single word changed in
// turn, four ways. Each is refused with 1, or answered as the definition says. Then made-up bags: every place of every bag, those beyond its
// length too, holds the token 2, the node 2 and the slot 2 in turn, and whose bag it is retires the token 2.
//
// The runs are read from standard input, as the schedule program's records; a broken record starts afresh. What must be written is made
// by a second implementation (oracle/hurt.py), not by this code. For each moment: how many cases were refused with 1, refused otherwise, done
// and more, and a checksum over the answers and, where something was done, over every word of the lists afterwards. That a refusal
// changed no word is looked at here, word by word.
#![tactic(auto)]

ghost use Rattle.std.specs.Prelude.{◌+◌, ◌<◌, ◌≤◌, length, Some};
ghost use Rattle.hurt.specs.Lines.{line_of};

use definition::{Answer, Call};
use lent::{BAG_WORDS, GLOBAL_WORDS, ListsMut, NODE_WORDS, PARTICIPANT_WORDS};
use script::Action;
use std::fmt;
use std::io::{self, Write};

// The sizes of the tables.
const N: usize = 3;

const M: usize = 4;

// Where each list begins among the words of all five, one list after another, and how many words there are. The free bits take two words; in digits,
// since a constant cannot call `bit_words`.
const PARTICIPANTS: usize = GLOBAL_WORDS + 2;

const NODES: usize = PARTICIPANTS + N * PARTICIPANT_WORDS;

const HELD: usize = NODES + M * NODE_WORDS;

const QUEUED: usize = HELD + N * BAG_WORDS;

const WORDS: usize = QUEUED + M * BAG_WORDS;

// The cases of a moment: each word is changed four ways, and then each word of `held` three.
const CHANGED: usize = 4 * WORDS;

const CASES: usize = CHANGED + 3 * N * BAG_WORDS;

// A moment of a run is looked at after so many records.
const EVERY: usize = 6;

// The lists, and the list for freed tokens. Of its own: `Tables` of crates/player is for 32 participants and 128 nodes alone.
#[derive(Drop)]
struct Tables {
    globals: [u64; PARTICIPANTS],
    participants: [u64; N * PARTICIPANT_WORDS],
    nodes: [u64; M * NODE_WORDS],
    held: [u64; N * BAG_WORDS],
    queued: [u64; M * BAG_WORDS],
    freed: [u64; BAG_WORDS],
}

impl Tables {
    // Puts words into the lists, one list after another.
    fn fill(&mut self, words: &[u64; WORDS]) {
        self.globals.copy_from_slice(&words[..PARTICIPANTS]);
        self.participants
            .copy_from_slice(&words[PARTICIPANTS..NODES]);
        self.nodes.copy_from_slice(&words[NODES..HELD]);
        self.held.copy_from_slice(&words[HELD..QUEUED]);
        self.queued.copy_from_slice(&words[QUEUED..]);
    }

    // Returns the words of the lists, one list after another.
    fn words(&self) -> [u64; WORDS] {
        let mut words = [0; WORDS];
        keep(&mut words, 0, &self.globals);
        keep(&mut words, PARTICIPANTS, &self.participants);
        keep(&mut words, NODES, &self.nodes);
        keep(&mut words, HELD, &self.held);
        keep(&mut words, QUEUED, &self.queued);
        words
    }

    // Puts words into the lists and plays an action; a broken record starts afresh.
    fn play(&mut self, words: &[u64; WORDS], action: Option<Action>) -> Answer {
        self.fill(words);
        self.freed.fill(0);
        let mut l = ListsMut {
            n: N,
            m: M,
            globals: &mut self.globals,
            participants: &mut self.participants,
            nodes: &mut self.nodes,
            held: &mut self.held,
            queued: &mut self.queued,
        };
        match action {
            Some(action) => player::act(&mut l, &mut self.freed, Some(action)),
            None => reclaimer::start(&mut l),
        }
    }
}

// Keeps the words of a list, from `from` on. A function of its own: with five such lines in `Tables::words`, the bounds of the last three
// did not close.
fn keep(words: &mut [u64], from: usize, l: &[u64])
    requires { from + length l.now ≤ length words.old }
{
    words[from..from + l.len()].copy_from_slice(l);
}

// ---- a case

// A case: the word `at` is `value`, and then the action is tried.
#[derive(Clone, Copy)]
struct Case {
    at: usize,
    value: u64,
    action: Action,
}

impl Case {
    // Returns case `i` of a moment: a changed word, or a bag that is made up. In that stands the token 2, the node 2 or the slot 2, and whose
    // bag it is retires the token 2.
    fn new(kept: &[u64; WORDS], i: usize, turn: u64) -> Case
        requires { i < CASES }
        ensures { result.at < WORDS }
    {
        if i < CHANGED {
            let at = i / 4;
            return Case {
                at,
                value: value(kept[at], turn),
                action: tried(turn),
            };
        }
        let k = i - CHANGED;
        Case {
            at: HELD + k / 3,
            // 4v + 1, 2 or 3: by hand, and not by `item_word` of bags, since oracle/hurt.py makes the three words so.
            value: 4 * 2 + 1 + (k % 3) as u64,
            action: Action::Call((k / (3 * BAG_WORDS)) as u64, Call::Defer(2)),
        }
    }
}

// Returns what a word is changed to: one more, one less, two more, or a small number.
fn value(w: u64, turn: u64) -> u64 {
    match turn % 4 {
        0 => w.wrapping_add(1),
        1 => w.wrapping_sub(1),
        2 => w.wrapping_add(2),
        _ => turn % 70,
    }
}

// Returns what is tried with a changed word. Of nineteen turns ten are steps, every other one marked; one is a marked step of participant 3, who is
// beyond the last; the others are the calls. (By number: the order is that of oracle/hurt.py, which makes the same cases.)
fn tried(turn: u64) -> Action {
    let p = turn / 19 % 3;
    let k = turn % 19;
    match k {
        10 => Action::Register,
        11 => Action::Call(p, Call::Acquire),
        12 => Action::Call(p, Call::Release),
        13 => Action::Call(p, Call::Pin),
        14 => Action::Call(p, Call::Unpin),
        15 => Action::Call(p, Call::Repin),
        16 => Action::Call(p, Call::Defer(5)),
        17 => Action::Call(p, Call::Flush),
        18 => Action::Step(3, true),
        _ => Action::Step(p, k % 2 == 1),
    }
}

// ---- a moment

// What came of the cases of a moment; `wrong` counts words that a refusal changed.
#[derive(Clone, Copy, Default)]
struct Tally {
    damaged: u64,
    refused: u64,
    done: u64,
    more: u64,
    wrong: u64,
    sum: u64,
}

impl Tally {
    // Counts an answer: `words` stood in the lists before.
    fn count(&mut self, answer: Answer, words: &[u64; WORDS], t: &Tables) {
        let after = t.words();
        match answer {
            Answer::Done(v, k) => {
                self.done = self.done.wrapping_add(1);
                self.sum_lists(&after, &t.freed);
                self.sum = mix(mix(self.sum, v), k);
            }
            Answer::More(k) => {
                self.more = self.more.wrapping_add(1);
                self.sum_lists(&after, &t.freed);
                self.sum = mix(self.sum, k);
            }
            Answer::Refused(r) => {
                // By number, as an answer has it and oracle/hurt.py counts it.
                if r == 1 {
                    self.damaged = self.damaged.wrapping_add(1);
                } else {
                    self.refused = self.refused.wrapping_add(1);
                }
                let changed = after.iter().zip(words).filter(|(a, b)| a != b).count();
                self.wrong = self.wrong.wrapping_add(changed as u64);
                self.sum = mix(self.sum, r);
            }
        }
    }

    // Adds the words of the lists to the checksum, and the freed tokens.
    fn sum_lists(&mut self, words: &[u64], freed: &[u64]) {
        self.sum = words.iter().chain(freed).fold(self.sum, |s, w| mix(s, *w));
    }
}

// The line of a moment, with its end.
impl fmt::Display for Tally {
    ghost output = { λ t. Some (line_of t) };

    fn fmt<W: fmt::Write>(&self, f: &mut fmt::Formatter<W>) -> fmt::Result {
        writeln!(
            f,
            "{} damaged, {} refused, {} done, {} more, sum {}, changed by a refusal {}",
            self.damaged, self.refused, self.done, self.more, self.sum, self.wrong
        )
    }
}

// What the checksum stays below, 2^31 - 1.
const MODULUS: u64 = 2147483647;

// Returns a checksum with a word added.
fn mix(sum: u64, w: u64) -> u64 {
    ((sum % MODULUS) * 257 + w % MODULUS) % MODULUS
}

// Tries every case of a moment. `first` numbers the first.
fn try_moment(kept: &[u64; WORDS], first: u64, t: &mut Tables) -> Tally {
    let mut tally = Tally::default();
    for i in 0..CASES {
        let Case { at, value, action } = Case::new(kept, i, first.wrapping_add(i as u64));
        let mut words = *kept;
        words[at] = value;
        let answer = t.play(&words, Some(action));
        tally.count(answer, &words, t);
    }
    tally
}

// Plays the records of a block, and tries every word after each `EVERY` of them.
fn run<W: Write>(writer: &mut W, block: &[u8], t: &mut Tables) -> io::Result<()> {
    let mut kept = [0; WORDS];
    for (i, bytes) in block.chunks_exact(8).enumerate() {
        t.play(&kept, script::action_of(bytes));
        kept = t.words();
        if i % EVERY == 0 {
            write!(writer, "{}", try_moment(&kept, i as u64, t))?;
        }
    }
    Ok(())
}

fn main(rt: HostRuntime) -> io::Result<()> {
    let mut t = Tables {
        globals: [0; PARTICIPANTS],
        participants: [0; N * PARTICIPANT_WORDS],
        nodes: [0; M * NODE_WORDS],
        held: [0; N * BAG_WORDS],
        queued: [0; M * BAG_WORDS],
        freed: [0; BAG_WORDS],
    };
    let mut block = [0u8; stream::BLOCK];
    let n = stream::read_full(&mut rt.stdin(), &mut block)?;
    run(&mut rt.stdout(), &block[..n], &mut t)
}
