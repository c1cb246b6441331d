// The shared words, and the accesses to them. A step makes one access, and makes it here, by `perform`. What touches a shared word elsewhere is
// no access: a fresh start, the private stores of a registering (by `write_word`) and of a bag sealed into a node, the checks and the survey.
//
// The Rust's atomics are words of three lent lists: the global epoch, the head of the list of participants and both ends of the queue
// in `globals`; a participant's epoch and its entry's next in its row of `participants`; a node's next in its row of `nodes`.
//
// A step may be marked (document 02, No. 2): then its `compare_exchange_weak` fails although the value agrees. No other access looks at the mark.
//
// Each promise says what the access sees, as specs/Rule of `definition` has it, and all the lists afterwards, as specs/Words has
// them. What is required is only that the word named lies in the lists; by `requires`, since a type with a `&mut` in it can hold no fact about what
// is lent.
#![tactic(auto)]

ghost use Rattle.std.specs.Prelude.{◌≡◌, false};
ghost use Rattle.lent.specs.Lists.{read, lent, Same};
ghost use Rattle.words.specs.Words.{home_of, named, word_in, word_of, write_lent, Made};

use definition::{Ask, Seen, Word};
use lent::{
    ENTRY_NEXT, GLOBAL_EPOCH, LIST_HEAD, Lists, ListsMut, NODE_WORDS, PARTICIPANT_WORDS,
    QUEUE_HEAD, QUEUE_TAIL,
};

// Where a shared word stands.
#[derive(Clone, Copy)]
enum Home {
    // At this index of `globals`.
    Globals(usize),
    // In this row of `participants`, in this column.
    Participants(usize, usize),
    // First in this row of `nodes`.
    Nodes(usize),
}

// Returns where a shared word stands.
fn home_of(w: Word) -> Home
    ensures { result ≡ home_of w }
{
    match w {
        Word::GlobalEpoch => Home::Globals(GLOBAL_EPOCH),
        Word::ListHead => Home::Globals(LIST_HEAD),
        Word::EntryNext(s) => Home::Participants(s.0 as usize, ENTRY_NEXT),
        Word::ParticipantWord(s) => Home::Participants(s.0 as usize, 0),
        Word::QueueHead => Home::Globals(QUEUE_HEAD),
        Word::QueueTail => Home::Globals(QUEUE_TAIL),
        Word::NodeNext(n) => Home::Nodes(n.0 as usize),
    }
}

// Returns the value of a shared word.
#[tactic(auto, using(crate::proofs::Homes::stands))]
pub fn read_word(l: Lists<'_>, w: Word) -> u64
    requires { word_in w (read l) }
    ensures { result ≡ word_of w (read l.entry) }
{
    match home_of(w) {
        Home::Globals(i) => l.globals[i],
        Home::Participants(p, i) => l.participants[p * PARTICIPANT_WORDS + i],
        Home::Nodes(k) => l.nodes[k * NODE_WORDS],
    }
}

// Stores `v` to a shared word.
#[tactic(auto, using(crate::proofs::Homes::stores))]
pub fn write_word(l: &mut ListsMut<'_>, w: Word, v: u64)
    requires { word_in w (lent l.old) }
    ensures written { lent l.new ≡ write_lent w v (lent l.old) }
    ensures same { Same l.old l.new }
{
    match home_of(w) {
        Home::Globals(i) => l.globals[i] = v,
        Home::Participants(p, i) => l.participants[p * PARTICIPANT_WORDS + i] = v,
        Home::Nodes(k) => l.nodes[k * NODE_WORDS] = v,
    }
}

// Exchanges `expected` for `new`, which is done only where the word has the expected value. Returns the value found.
fn compare_exchange(l: &mut ListsMut<'_>, w: Word, expected: u64, new: u64) -> Seen
    requires { word_in w (lent l.old) }
    ensures made { Made false (Ask.Exchange w expected new) (lent l.old) result (lent l.new) }
    ensures same { Same l.old l.new }
{
    let value = read_word(l.read(), w);
    let won = value == expected;
    if won {
        write_word(l, w, new);
    }
    Seen { value, won }
}

// The same by the Rust's `compare_exchange_weak`, which may fail although the word has the expected value: so it does where it is marked.
fn compare_exchange_weak(
    l: &mut ListsMut<'_>,
    w: Word,
    expected: u64,
    new: u64,
    marked: bool,
) -> Seen
    requires { word_in w (lent l.old) }
    ensures made { Made marked (Ask.ExchangeWeak w expected new) (lent l.old) result (lent l.new) }
    ensures same { Same l.old l.new }
{
    if marked {
        let value = read_word(l.read(), w);
        return Seen { value, won: false };
    }
    compare_exchange(l, w, expected, new)
}

// Sets the tag of a word. Returns the value found.
fn fetch_or(l: &mut ListsMut<'_>, w: Word) -> Seen
    requires { word_in w (lent l.old) }
    ensures made { Made false (Ask.FetchOr w) (lent l.old) result (lent l.new) }
    ensures same { Same l.old l.new }
{
    let value = read_word(l.read(), w);
    write_word(l, w, value | 1);
    Seen { value, won: true }
}

// Makes the access that a place asks for, in a step that is marked or not. Returns what it saw.
pub fn perform(l: &mut ListsMut<'_>, ask: Ask, marked: bool) -> Seen
    requires { word_in (named ask) (lent l.old) }
    ensures made { Made marked ask (lent l.old) result (lent l.new) }
    ensures same { Same l.old l.new }
{
    match ask {
        Ask::Load(w) => {
            let value = read_word(l.read(), w);
            Seen { value, won: true }
        }
        Ask::Store(w, v) => {
            write_word(l, w, v);
            Seen {
                value: 0,
                won: true,
            }
        }
        Ask::Exchange(w, e, v) => compare_exchange(l, w, e, v),
        Ask::ExchangeWeak(w, e, v) => compare_exchange_weak(l, w, e, v, marked),
        Ask::FetchOr(w) => fetch_or(l, w),
    }
}
