// Sizes, tried for real: N and M at and beyond each limit, each of the five lists one word too short and one too long, and lists for freed
// tokens of 63, 64 and 65 places; for each, a fresh start, a registering, a pin and a step. What must be written is made by a second
// implementation (oracle/limits.py), not by this code.
#![tactic(auto)]

ghost use Rattle.std.specs.Prelude.{◌≡◌, ◌+◌, ◌*◌, ◌≤◌, Some};
ghost use Rattle.limits.specs.Lines.{answer_text, line_of};

use bits::bit_words;
use definition::{Answer, Call};
use lent::{BAG_WORDS, GLOBAL_WORDS, ListsMut, NODE_WORDS, PARTICIPANT_WORDS};
use ranges::{MAX_NODES, MAX_PARTICIPANTS};
use std::fmt;
use std::io::{self, Write};

// One participant more than may be, and one node more.
const N: usize = MAX_PARTICIPANTS + 1;

const M: usize = MAX_NODES + 1;

// The numbers of participants and of nodes that are tried: none or one, the least, the most, and one more.
const PARTICIPANTS_TRIED: [usize; 4] = [0, 1, MAX_PARTICIPANTS, N];

const NODES_TRIED: [usize; 4] = [1, 2, MAX_NODES, M];

// Lists that every case finds its lengths in: for `N` participants, whose free bits take one word, and `M` nodes, whose bits take three, and each
// one word too long. (In digits: a constant cannot call `bit_words`.)
#[derive(Drop)]
struct Buffers {
    globals: [u64; GLOBAL_WORDS + 5],
    participants: [u64; N * PARTICIPANT_WORDS + 1],
    nodes: [u64; M * NODE_WORDS + 1],
    held: [u64; N * BAG_WORDS + 1],
    queued: [u64; M * BAG_WORDS + 1],
    freed: [u64; BAG_WORDS + 1],
}

// Returns the length to lend of list `list`, which is right with `k` words: in the first ten of thirteen cases one list after another is one
// word short, then one word long. (By number: a case is printed so, and oracle/limits.py has the same.)
fn lent_length(k: usize, case: usize, list: usize) -> usize
    requires { (k ≤ M * BAG_WORDS) × (list ≤ 4) }
    ensures { result ≤ k + 1 }
{
    if case == 2 * list {
        k.saturating_sub(1)
    } else if case == 2 * list + 1 {
        k + 1
    } else {
        k
    }
}

// Returns the length of the list for freed tokens: 63, 64 and 65 places in the last three cases of thirteen.
fn places(case: usize) -> usize
    ensures { result ≤ 65 }
{
    match case {
        10 => 63,
        12 => 65,
        _ => 64,
    }
}

// Makes the four calls on lists as they are lent: a fresh start, a registering, a pin and a step.
fn ask(l: &mut ListsMut<'_>, freed: &mut [u64]) -> [Answer; 4] {
    [
        reclaimer::start(l),
        reclaimer::register(l),
        reclaimer::call(l, 0, Call::Pin),
        reclaimer::step(l, 0, false, freed),
    ]
}

// Tries a case and returns its line. No type says the lengths of the lists that it lends: the cases are about wrong ones.
#[tactic(auto, unfolding(definition::specs::Ranges::bit_words))]
fn try_case(b: &mut Buffers, n: usize, m: usize, case: usize) -> Line
    requires { (n ≤ N) × (m ≤ M) }
    ensures n { result.n ≡ n }
    ensures m { result.m ≡ m }
    ensures case { result.case ≡ case }
{
    let Buffers {
        globals,
        participants,
        nodes,
        held,
        queued,
        freed,
    } = b;
    // A slice: the check does not follow a part of an array behind a reference into a call.
    let freed: &mut [u64] = freed;
    let bits = bit_words(n) + bit_words(m);
    let mut l = ListsMut {
        n,
        m,
        globals: &mut globals[..lent_length(GLOBAL_WORDS + bits, case, 0)],
        participants: &mut participants[..lent_length(n * PARTICIPANT_WORDS, case, 1)],
        nodes: &mut nodes[..lent_length(m * NODE_WORDS, case, 2)],
        held: &mut held[..lent_length(n * BAG_WORDS, case, 3)],
        queued: &mut queued[..lent_length(m * BAG_WORDS, case, 4)],
    };
    let [start, register, pin, step] = ask(&mut l, &mut freed[..places(case)]);
    Line {
        n,
        m,
        case,
        start: Said(start),
        register: Said(register),
        pin: Said(pin),
        step: Said(step),
    }
}

// An answer as a line says it. A type of its own, since `Answer` is the definition's.
#[derive(Drop)]
struct Said(Answer);

impl fmt::Display for Said {
    ghost output = { λ s. Some (answer_text s.0) };

    fn fmt<W: fmt::Write>(&self, f: &mut fmt::Formatter<W>) -> fmt::Result {
        match self.0 {
            Answer::Done(v, _) => write!(f, "done {v}"),
            Answer::More(_) => write!(f, "more"),
            Answer::Refused(r) => write!(f, "refused {r}"),
        }
    }
}

// What a line says: the sizes, the case and its four answers. One value, so that the text of the whole line is one promise.
#[derive(Drop)]
struct Line {
    n: usize,
    m: usize,
    case: usize,
    start: Said,
    register: Said,
    pin: Said,
    step: Said,
}

impl fmt::Display for Line {
    ghost output = { λ l. Some (line_of l) };

    fn fmt<W: fmt::Write>(&self, f: &mut fmt::Formatter<W>) -> fmt::Result {
        writeln!(
            f,
            "N {}, M {}, case {}, {}, {}, {}, {}",
            self.n, self.m, self.case, self.start, self.register, self.pin, self.step
        )
    }
}

// Tries all cases: each number of participants with each of nodes, and thirteen sets of lengths for each pair.
fn try_all<W: Write>(writer: &mut W, b: &mut Buffers) -> io::Result<()> {
    for n in PARTICIPANTS_TRIED {
        for m in NODES_TRIED {
            for case in 0..13 {
                write!(writer, "{}", try_case(b, n, m, case))?;
            }
        }
    }
    Ok(())
}

fn main(rt: HostRuntime) -> io::Result<()> {
    let mut b = Buffers {
        globals: [0; GLOBAL_WORDS + 5],
        participants: [0; N * PARTICIPANT_WORDS + 1],
        nodes: [0; M * NODE_WORDS + 1],
        held: [0; N * BAG_WORDS + 1],
        queued: [0; M * BAG_WORDS + 1],
        freed: [0; BAG_WORDS + 1],
    };
    try_all(&mut rt.stdout(), &mut b)
}
