// The refusals of register, the seven calls and step, in document 01's order, with document 02's 16 (No. 6): sizes (2) and ranges (1) first, then what the call
// itself asks.
//
// The Rust asks nothing of this: its types and its borrow checker see to it that a handle names a participant that is there, and its
// counts panic or wrap where they overflow. Here every call may come with anything, so each is checked whole before it changes a word. A check
// only reads. The numbers are those of `refusal` over the definition's lists of checks (specs/Public), and 0 where none holds. A number fixes
// the answer (`refused_one` of refusals, proofs/Numbers), and proofs/Laws says what a caller knows where none holds.
#![tactic(auto)]

ghost use Rattle.std.specs.Prelude.{◌≡◌, true, ◌+◌, ltb, MatchResult};
ghost use Rattle.definition.specs.Base.{count};
ghost use Rattle.definition.specs.Calls.{lacks};
ghost use Rattle.definition.specs.Layout.{slot_bits, node_bits};
ghost use Rattle.definition.specs.Public.{absent, missing, twice};
ghost use Rattle.lent.specs.Lists.{read};
ghost use Rattle.refusals.specs.Numbers.{number, refused};
ghost use Rattle.checks.specs.Passed.{Passed, Present, tables};
ghost use Rattle.checks.specs.Refusals.{damage_of, step_refusal, call_refusal, register_refusal};

use bags::holds_token;
use bits::FreeBits;
use definition::{Call, Participant};
use flow::links::is_tagged;
use internal::calls::{count_full, lacks, needs, token_above};
use internal::places::{is_rest, takes_node};
use lent::{ASIDE, BAG_WORDS, ENTRY_NEXT, Lists, row};
use ranges::Measured;
use records::load;
use refusals::{Refusal, refuse_if};

// ---- what stands in the lists

// Returns whether the free nodes minus those set aside are below the need. No sum is made, so none can wrap.
fn no_node(free: u64, aside: u64, need: u64) -> bool
    ensures { result ≡ ltb free (aside + need) }
{
    let Some(left) = free.checked_sub(aside) else {
        return true;
    };
    left < need
}

// Lists that were looked at: their sizes are right, and every number in them is in range.
#[derive(Clone, Copy)]
pub struct Whole<'a> {
    pub lists: Lists<'a>,
    ghost passed: { Passed lists.n lists.m (read lists) },
}

impl<'a> Whole<'a> {
    // Looks at the lists: 2 for sizes, 1 for ranges.
    #[tactic(auto, unfolding(crate::specs::Refusals::damage_of, definition::specs::Base::branch))]
    pub fn of(lists: Lists<'a>) -> Result<Whole<'a>, Refusal>
        ensures { MatchResult result
            (λ w. (w.lists ≡ lists.entry) × (damage_of lists.entry.n lists.entry.m (read lists.entry) ≡ 0))
            (λ r. number r ≡ damage_of lists.entry.n lists.entry.m (read lists.entry)) }
    {
        let measured = Measured::of(lists)?;
        refuse_if(!measured.in_range(), Refusal::Damage)?;
        Ok(Whole { lists })
    }

    // Returns how many slots are free.
    #[tactic(auto, unfolding(definition::specs::Layout::global_words, definition::specs::Layout::slot_bits))]
    fn free_slots(self) -> u64
        ensures { result ≡ count self.entry.lists.n (slot_bits self.entry.lists.n self.entry.lists.globals.now) }
    {
        FreeBits::slots(self.lists.n).count_free(self.lists.globals)
    }

    // Returns how many nodes are free.
    #[tactic(auto, unfolding(definition::specs::Layout::global_words, definition::specs::Layout::node_bits))]
    fn free_nodes(self) -> u64
        ensures { result ≡ count self.entry.lists.m (node_bits self.entry.lists.n self.entry.lists.m self.entry.lists.globals.now) }
    {
        let l = self.lists;
        FreeBits::nodes(l.n, l.m).count_free(l.globals)
    }

    // Returns participant `p`, if it is there: its index is below `n`, its slot is not free, and it is not both deleted and at rest. (Inlined: else all of
    // the participant and of the lists is copied out, or cleared where it is refused.)
    #[inline(always)]
    #[tactic(auto, using(crate::proofs::Laws::absent_words), unfolding(definition::specs::Layout::global_words, definition::specs::Layout::slot_bits))]
    fn present(self, p: usize) -> Result<Standing<'a>, Refusal>
        ensures { MatchResult result
            (λ s. (s.whole.lists ≡ self.entry.lists) × (s.p ≡ p))
            (λ r. (absent self.entry.lists.n self.entry.lists.m p (tables self.entry.lists) ≡ true) × (number r ≡ 3)) }
    {
        let l = self.lists;
        if l.n <= p || FreeBits::slots(l.n).is_free(l.globals, p) {
            return Err(Refusal::Gone);
        }
        let row = row(l.participants, p);
        let o = load(row);
        if is_tagged(row[ENTRY_NEXT]) && is_rest(o.place) {
            return Err(Refusal::Gone);
        }
        Ok(Standing { whole: self, p, o })
    }
}

// A participant that is there: `o` is participant `p` of whole lists. Made by `Whole::present` alone.
#[derive(Clone, Copy)]
struct Standing<'a> {
    whole: Whole<'a>,
    p: usize,
    o: Participant,
    ghost present: { Present whole.lists.n whole.lists.m (read whole.lists) p o },
}

impl Standing<'_> {
    // Returns whether a step of the participant must take a node, and finds none free, or none of its own set aside.
    #[tactic(auto, unfolding(definition::specs::Public::missing, definition::specs::Layout::tables_of))]
    fn lacks_node(self) -> bool
        ensures { result ≡ missing self.entry.whole.lists.n self.entry.whole.lists.m self.entry.p (tables self.entry.whole.lists) }
    {
        takes_node(self.o.place) && (self.whole.free_nodes() == 0 || self.o.share == 0)
    }

    // Returns whether a call would retire a token that the participant's bag has already. For any other call the bag is not read.
    fn held_already(self, c: Call) -> bool
        ensures { result ≡ twice self.entry.p c (tables self.entry.whole.lists) }
    {
        if let Call::Defer(token) = c {
            let at = self.p * BAG_WORDS;
            holds_token(&self.whole.lists.held[at..at + self.o.held as usize], token)
        } else {
            false
        }
    }
}

// ---- the checks

// Checks a registration: 2, 1, 10.
#[tactic(auto, using(crate::proofs::Laws::register_numbers), unfolding(definition::specs::Base::branch))]
pub fn check_register(l: Lists<'_>) -> Result<(), Refusal>
    ensures { refused result ≡ register_refusal l.entry.n l.entry.m (read l.entry) }
{
    let whole = Whole::of(l)?;
    refuse_if(whole.free_slots() == 0, Refusal::NoSlot)
}

// Checks a call on participant `p`: 2, 1, 3, 4, 7 or 6, 8, 9, 16, 11.
#[tactic(auto, using(crate::proofs::Laws::call_numbers), unfolding(definition::specs::Base::branch))]
pub fn check_call(l: Lists<'_>, p: usize, c: Call) -> Result<(), Refusal>
    ensures { refused result ≡ call_refusal l.entry.n l.entry.m (read l.entry) p c }
{
    let whole = Whole::of(l)?;
    let standing = whole.present(p)?;
    let o = standing.o;
    refuse_if(!is_rest(o.place), Refusal::Busy)?;
    lacks(c, o)?;
    count_full(c, o)?;
    token_above(c)?;
    refuse_if(standing.held_already(c), Refusal::HeldAlready)?;
    let need = needs(l.n as u64, c, o);
    let short = no_node(whole.free_nodes(), l.globals[ASIDE], need);
    refuse_if(short, Refusal::NoNode)
}

// Checks a step of participant `p`, with `places` places for the tokens that it frees, one bag of them at most: 2, 1, 12, 3, 5, then 1 for the missing
// node.
#[tactic(auto, using(crate::proofs::Laws::step_numbers), unfolding(definition::specs::Base::branch))]
pub fn check_step(l: Lists<'_>, p: usize, places: usize) -> Result<(), Refusal>
    ensures { refused result ≡ step_refusal l.entry.n l.entry.m (read l.entry) places p }
{
    let whole = Whole::of(l)?;
    refuse_if(places < BAG_WORDS, Refusal::ListShort)?;
    let standing = whole.present(p)?;
    refuse_if(is_rest(standing.o.place), Refusal::Idle)?;
    refuse_if(standing.lacks_node(), Refusal::Damage)
}
