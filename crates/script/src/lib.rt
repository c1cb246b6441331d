// The schedule program's records and lines, on lent bytes: which action the bytes of a record ask for, and the line of an answer put
// into a buffer. Document 01, "Schedule program".
//
// What comes from outside and goes there is no matter of this crate: the program above reads blocks, calls this and writes blocks, and all
// that decides what a record means and what a line says is here. The promises cite specs/Schedule of `definition`, which gives both as
// lists of bytes: a record is whole or it is broken, and a text is put where the one before it ends.
#![tactic(auto)]

ghost use Rattle.std.specs.Prelude.{◌≡◌, ◌+◌, ◌*◌, ◌≤◌, ◌<◌, length};
ghost use Rattle.definition.specs.Schedule.{decimal, answer_text, freed_text};
ghost use Rattle.script.specs.Script.{named, action_in, freed_count, Puts, line_of};
ghost use Rattle.script.specs.Putting.{Adds};

use definition::{Answer, Call};

// What a record asks for: a step of a participant, marked or not, a registering, or a call on a participant.
#[derive(Clone, Copy)]
pub enum Action {
    Step(u64, bool),
    Register,
    Call(u64, Call),
}

// The actions that have rules of their own: a register has participant 0, and only a defer has a token.
const REGISTER: u8 = 1;

const DEFER: u8 = 7;

// Returns what the bytes of a record ask for, or `None` where it is broken: it has not 8 bytes, a byte that should be zero is not, a token
// stands where none is taken, a register has a participant, or there is no such action.
#[tactic(auto, unfolding(crate::specs::Script::action_in, definition::specs::Base::branch, definition::specs::Schedule::token_in, definition::specs::Schedule::whole))]
pub fn action_of(bytes: &[u8]) -> Option<Action>
    ensures { result ≡ action_in bytes.now }
{
    let [action, participant, 0, 0, a, b, c, d] = *bytes else {
        return None;
    };
    let token = u32::from_le_bytes([a, b, c, d]);
    if (token != 0 && action != DEFER) || (participant != 0 && action == REGISTER) {
        return None;
    }
    name(action, u64::from(participant), u64::from(token))
}

// Returns the action of that number, on that participant and with that token: document 01's nine, and 9, a marked step (document 02, No. 2). By number:
// document 01 names the form.
#[tactic(auto, unfolding(crate::specs::Script::action_for, definition::specs::Base::branch, definition::specs::Schedule::action_of))]
fn name(action: u8, participant: u64, token: u64) -> Option<Action>
    ensures { result ≡ named action participant token }
{
    let named = match action {
        0 => Action::Step(participant, false),
        REGISTER => Action::Register,
        2 => Action::Call(participant, Call::Acquire),
        3 => Action::Call(participant, Call::Release),
        4 => Action::Call(participant, Call::Pin),
        5 => Action::Call(participant, Call::Unpin),
        6 => Action::Call(participant, Call::Repin),
        DEFER => Action::Call(participant, Call::Defer(token)),
        8 => Action::Call(participant, Call::Flush),
        9 => Action::Step(participant, true),
        _ => return None,
    };
    Some(named)
}

// The most bytes that an answer takes in its line, with the line's end: `refused ` and 20 digits. And a token: ` +` and 20 digits.
pub const ANSWER_BYTES: usize = 29;

pub const TOKEN_BYTES: usize = 22;

// Puts the line of an answer, with the freed tokens, at `at`, and returns the place after it. Every answer and every token fits. (The whole list is
// lent and not its rest, since the promise says that what stands before the line stays.)
pub fn put_line(out: &mut [u8], at: usize, answer: Answer, freed: &[u64]) -> usize
    requires { at + 29 + 22 * length freed.now ≤ length out.old }
    ensures puts { Puts out.old at (line_of answer freed.now) out.new result }
    ensures upper_bound { result ≤ at + 29 + 22 * length freed.now }
{
    let mut line = Line { out, at };
    line.put_answer(answer);
    line.put_freed(freed);
    line.put_text(b"\n");
    line.at
}

// A line that is put: the bytes that it is put in, lent, and the place after what stands there. That there is room is asked by `requires`: a type with
// a `&mut` in it can hold no fact about what is lent.
#[derive(Drop)]
struct Line<'a> {
    out: &'a mut [u8],
    at: usize,
}

impl Line<'_> {
    // Puts the answer's words: `more`, `done V` or `refused R`.
    fn put_answer(&mut self, answer: Answer)
        requires { self.old.at + 28 ≤ length self.old.out.now }
        ensures { Adds self.old (answer_text answer) self.new }
    {
        match answer {
            Answer::More(_) => self.put_text(b"more"),
            Answer::Done(v, _) => {
                self.put_text(b"done ");
                self.put_decimal(v);
            }
            Answer::Refused(r) => {
                self.put_text(b"refused ");
                self.put_decimal(r);
            }
        }
    }

    // Puts ` +T` for each token.
    fn put_freed(&mut self, freed: &[u64])
        requires { self.old.at + 22 * length freed.now ≤ length self.old.out.now }
        ensures { Adds self.old (freed_text freed.now) self.new }
    {
        for token in freed {
            self.put_text(b" +");
            self.put_decimal(*token);
        }
    }

    // Puts a number in decimal: what its tenth leaves, and then its last digit, so that no digit is moved. By hand, and not `write!`: std's `Write` of a
    // slice promises nothing of the bytes, and it answers with a `Result` where what has room always fits.
    fn put_decimal(&mut self, v: u64)
        requires { self.old.at + 20 ≤ length self.old.out.now }
        ensures { Adds self.old (decimal v) self.new }
    {
        if v < 10 {
            self.put_text(&[digit(v)])
        } else {
            self.put_decimal(v / 10);
            self.put_text(&[digit(v % 10)])
        }
    }

    // Puts the bytes of a text.
    fn put_text(&mut self, text: &[u8])
        requires { self.old.at + length text.now ≤ length self.old.out.now }
        ensures { Adds self.old text.now self.new }
    {
        self.out[self.at..self.at + text.len()].copy_from_slice(text);
        self.at += text.len();
    }
}

// Returns the letter of a digit, `0` to `9`.
fn digit(d: u64) -> u8
    requires { d < 10 }
    ensures { result ≡ 48 + d }
{
    b'0' + d as u8
}

// Returns the number of tokens that an answer says were freed.
#[tactic(auto, unfolding(crate::specs::Script::freed_count))]
pub fn freed_count(answer: Answer) -> u64
    ensures { result ≡ freed_count answer }
{
    match answer {
        Answer::Done(_, k) | Answer::More(k) => k,
        Answer::Refused(_) => 0,
    }
}
