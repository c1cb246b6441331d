// An action of the schedule program, played on lent lists: the public call that it names. And the lists of a program, owned: as long as its
// sizes make them, which their type says.
#![tactic(auto)]

ghost use Rattle.std.specs.Prelude.{◌≡◌, [], length};
ghost use Rattle.definition.specs.Public.{start_lent};
ghost use Rattle.lent.specs.Lists.{lent, read, Same};
ghost use Rattle.script.specs.Played.{acts};
ghost use Rattle.reclaimer.specs.Outcomes.{outcome_of};
ghost use Rattle.player.specs.Records.{reached, reached_as, records_in};
ghost use Rattle.player.specs.Owned.{owned, AreZeros, KeepsLent, IsLentTo};

use definition::Answer;
use lent::{BAG_WORDS, GLOBAL_WORDS, Lists, ListsMut, NODE_WORDS, PARTICIPANT_WORDS};
use refusals::Refusal;
use script::Action;
use start::zeros;

// Plays an action. A broken record, which asks for none, changes nothing.
#[tactic(auto, unfolding(script::specs::Played::acts))]
pub fn act(l: &mut ListsMut<'_>, freed: &mut [u64], action: Option<Action>) -> Answer
    ensures played { outcome_of result (lent l.new) freed.new ≡ acts l.old.n l.old.m (lent l.old) freed.old action }
    ensures same { Same l.old l.new }
{
    match action {
        Some(Action::Step(p, marked)) => reclaimer::step(l, p as usize, marked, freed),
        Some(Action::Register) => reclaimer::register(l),
        Some(Action::Call(p, c)) => reclaimer::call(l, p as usize, c),
        None => Answer::from(Refusal::Record),
    }
}

// Plays the records that stand one after another in `bytes`; the last may be short.
pub fn act_all(l: &mut ListsMut<'_>, freed: &mut [u64], bytes: &[u8])
    ensures reached { reached_as (lent l.new) freed.new ≡ reached l.old.n l.old.m bytes.now (lent l.old) freed.old (records_in bytes.now) }
    ensures same { Same l.old l.new }
{
    for record in bytes.chunks(8) {
        act(l, freed, script::action_of(record));
    }
}

// The participants and nodes of the programs' tables: those of document 01, "Schedule program", and not the limits of crate `ranges`, which
// are the same today. Document 02, No. 5, raises the limits and leaves these.
pub const N: usize = 32;

pub const M: usize = 128;

// The lists of a program for so many participants and nodes, and its list for freed tokens, owned: as long as the calls want them, which
// the type says. Not for any sizes: a `&mut` to an array whose length is a parameter, put into `ListsMut`, is lost to the proof. The free bits take three
// words, one and two; in digits, since a constant cannot call `bit_words`.
#[derive(Drop)]
pub struct Tables {
    pub globals: [u64; GLOBAL_WORDS + 3],
    pub participants: [u64; N * PARTICIPANT_WORDS],
    pub nodes: [u64; M * NODE_WORDS],
    pub held: [u64; N * BAG_WORDS],
    pub queued: [u64; M * BAG_WORDS],
    pub freed: [u64; BAG_WORDS],
}

impl Tables {
    // Lists of zeros: they hold no tables until they are started.
    pub fn new() -> Tables
        ensures { AreZeros result }
    {
        Tables {
            globals: zeros(),
            participants: zeros(),
            nodes: zeros(),
            held: zeros(),
            queued: zeros(),
            freed: zeros(),
        }
    }

    // The lists, to be read.
    pub fn read(&self) -> Lists<'_>
        ensures n { result.n ≡ 32 }
        ensures m { result.m ≡ 128 }
        ensures lists { read result ≡ owned self.now }
    {
        Lists {
            n: N,
            m: M,
            globals: &self.globals,
            participants: &self.participants,
            nodes: &self.nodes,
            held: &self.held,
            queued: &self.queued,
        }
    }

    // Lends the lists, and the list for freed tokens, to a call that leaves them lent.
    fn lend<R, F: FnOnce(&mut ListsMut<'_>, &mut [u64]) -> R>(&mut self, call: F) -> R
        requires callable { F.IsAlwaysCallable call }
        requires lends { KeepsLent F.FnOnce call }
        ensures lent { IsLentTo F.FnOnce call self.old result self.new }
        ensures freed { length self.new.freed ≡ 64 }
    {
        let mut l = ListsMut {
            n: N,
            m: M,
            globals: &mut self.globals,
            participants: &mut self.participants,
            nodes: &mut self.nodes,
            held: &mut self.held,
            queued: &mut self.queued,
        };
        call(&mut l, &mut self.freed)
    }

    // Starts afresh, whatever the lists held.
    pub fn start(&mut self) -> Answer
        ensures started { outcome_of result (owned self.new) [] ≡ start_lent 32 128 (owned self.old) }
        ensures freed { self.new.freed ≡ self.old.freed }
    {
        self.lend(|l, _| reclaimer::start(l))
    }

    // Plays an action, as `act` does.
    pub fn act(&mut self, action: Option<Action>) -> Answer
        ensures played { outcome_of result (owned self.new) self.new.freed ≡ acts 32 128 (owned self.old) self.old.freed action }
        ensures freed { length self.new.freed ≡ 64 }
    {
        self.lend(|l, freed| act(l, freed, action))
    }

    // Plays the records that stand one after another in `bytes`, as `act_all` does.
    pub fn act_all(&mut self, bytes: &[u8])
        ensures { reached_as (owned self.new) self.new.freed ≡ reached 32 128 bytes.now (owned self.old) self.old.freed (records_in bytes.now) }
    {
        self.lend(|l, freed| act_all(l, freed, bytes));
    }
}
