// Sizes and ranges: whether the lent lists have the lengths that N participants and M nodes take (refusal 2 where they have not), and
// whether every number in them is one that may stand there (refusal 1). The first makes a `Measured` of them, and the second is asked of that.
//
// The Rust has neither: its memory is typed, and only its own code writes to it. Here the tables come from the caller with every call, so
// all of them is looked at before anything in them is used as an index, a length or a place.
//
// Each promise cites the definition that has the function's name, in specs/Ranges of `definition`, or a part of it, in specs/Rows and Sizes. What
// reads only the number of participants takes only that, and promises its answer for every number of nodes; and the other way round. So N and M go
// as two numbers: a struct of both would give what reads one of them the other too. One in the place of the other breaks a promise
// (must-fail/node-as-slot.edit).
#![tactic(auto)]

ghost use Rattle.std.specs.Prelude.{◌≡◌, ◌&&◌, true, false, ℕ, ◌^◌, ◌<◌, get_or, MatchResult};
ghost use Rattle.std.specs.List.{list_all};
ghost use Rattle.definition.specs.Ranges.{slot_in, node_in, ptr_in, cursor_in, pops_in, then_in, register_in, walk_in, pop_in, push_in};
ghost use Rattle.definition.specs.Ranges.{place_in, entry_pointer_in, head_pointer_in, node_pointer_in, end_pointer_in, item_in, bag_in};
ghost use Rattle.definition.specs.Ranges.{within_limits, bit_words, code_in, record_in, in_range};
ghost use Rattle.definition.specs.Codec.{place_of};
ghost use Rattle.definition.specs.Layout.{sized, slot_bits, node_bits, tables_of};
ghost use Rattle.bits.specs.Bits.{within, words_of};
ghost use Rattle.lent.specs.Lists.{read};
ghost use Rattle.ranges.specs.Rows.{participant_in, participants_in, node_row_in, nodes_in, globals_in};
ghost use Rattle.ranges.specs.Sizes.{sizes};
ghost use Rattle.refusals.specs.Numbers.{number};

use bits::{FreeBits, bit_words};
use definition::{
    Code, Cursor, Deferring, Node, Place, PopAt, Pops, Ptr, PushAt, Record, RegisterAt, Slot, Then,
    WalkAt,
};
use flow::{Bag, Deferred, Global, Local};
use internal::places::is_rest;
use lent::{
    ASIDE, BAG_WORDS, ENTRY_NEXT, GLOBAL_WORDS, LIST_HEAD, Lists, NODE_WORDS, PARTICIPANT_WORDS,
    QUEUE_HEAD, QUEUE_TAIL,
};
use records::{decode, encode, load_record};
use refusals::Refusal;

// The most participants and the most nodes that are taken. Only `within_limits` reads them, and of what it answers the proofs know no more
// than `limits-small` of proofs/Laws says. (`N` and `M` of `player` are the same numbers for another reason: they are the schedule program's
// sizes, which stay where document 02, No. 5, raises these.)
pub const MAX_PARTICIPANTS: usize = 32;

pub const MAX_NODES: usize = 128;

// ---- what a place carries

// Returns whether a slot is one of `n`.
#[tactic(auto, unfolding(definition::specs::Ranges::slot_in))]
fn slot_in(n: u64, s: Slot) -> bool
    ensures { (m : ℕ) → result ≡ slot_in n m s }
{
    s.0 < n
}

// Returns whether a node is one of `m`. (A twin of `slot_in`, for a `Node` is no `Slot`: one function of both would be a trait and two impls.)
#[tactic(auto, unfolding(definition::specs::Ranges::node_in))]
fn node_in(m: u64, k: Node) -> bool
    ensures { (n : ℕ) → result ≡ node_in n m k }
{
    k.0 < m
}

// Returns whether a pointer is null, or to one of `n` entries.
#[tactic(auto, unfolding(definition::specs::Ranges::ptr_in))]
fn ptr_in(n: u64, q: Ptr) -> bool
    ensures { (m : ℕ) → result ≡ ptr_in n m q }
{
    match q {
        Ptr::Null => true,
        Ptr::At(s) => slot_in(n, s),
    }
}

// Returns whether an iteration stands at entries that are there.
#[tactic(auto, using(definition::proofs::Preds::pred_range), unfolding(definition::specs::Ranges::cursor_in))]
fn cursor_in(n: u64, at: Cursor) -> bool
    ensures { (m : ℕ) → result ≡ cursor_in n m at }
{
    let Cursor { pred, curr } = at;
    ptr_in(n, Ptr::from(pred)) && slot_in(n, curr)
}

// Returns whether the pops left are 1 to 8.
#[tactic(auto, unfolding(definition::specs::Ranges::pops_in, definition::specs::Flow::collect_steps))]
fn pops_in(p: Pops) -> bool
    ensures { (n m : ℕ) → result ≡ pops_in n m p }
{
    (1..=Global::COLLECT_STEPS).contains(&p.left)
}

// Returns whether an item that waits, and what its caller holds, are in range.
#[tactic(auto, unfolding(definition::specs::Ranges::then_in, definition::specs::Calls::max_token))]
fn deferring_in(n: u64, m: u64, d: Deferring) -> bool
    ensures { result ≡ then_in n m (Then.Defer d) }
{
    match d {
        Deferring::Token(token) => token <= Deferred::MAX_TOKEN,
        Deferring::Slot(_, at, succ) => cursor_in(n, at) && ptr_in(n, succ),
        Deferring::Node(p, old, popped) => pops_in(p) && node_in(m, old) && node_in(m, popped),
    }
}

// Returns whether what a push goes on with is in range.
#[tactic(auto, unfolding(definition::specs::Ranges::then_in))]
fn then_in(n: u64, m: u64, f: Then) -> bool
    ensures { result ≡ then_in n m f }
{
    match f {
        Then::Defer(d) => deferring_in(n, m, d),
        Then::Flush | Then::Finalize => true,
    }
}

// Returns whether what a registration carries is in range.
#[tactic(auto, unfolding(definition::specs::Ranges::register_in))]
fn register_in(n: u64, a: RegisterAt) -> bool
    ensures { (m : ℕ) → result ≡ register_in n m a }
{
    match a {
        RegisterAt::Head => true,
        RegisterAt::Next(next) | RegisterAt::Link(next) => ptr_in(n, next),
    }
}

// Returns whether what a walk carries is in range.
#[tactic(auto, unfolding(definition::specs::Ranges::walk_in))]
fn walk_in(n: u64, a: WalkAt) -> bool
    ensures { (m : ℕ) → result ≡ walk_in n m a }
{
    match a {
        WalkAt::Next(at) => cursor_in(n, at),
        WalkAt::Unlink(at, succ) => cursor_in(n, at) && ptr_in(n, succ),
        WalkAt::Head | WalkAt::Stalled => true,
    }
}

// Returns whether what a pop carries is in range.
#[tactic(auto, unfolding(definition::specs::Ranges::pop_in))]
fn pop_in(m: u64, a: PopAt) -> bool
    ensures { (n : ℕ) → result ≡ pop_in n m a }
{
    match a {
        PopAt::Head => true,
        PopAt::Next(head) => node_in(m, head),
        PopAt::Exchange(head, next) | PopAt::Tail(head, next) | PopAt::TailMove(head, next) => {
            node_in(m, head) && node_in(m, next)
        }
    }
}

// Returns whether what a push carries is in range.
#[tactic(auto, unfolding(definition::specs::Ranges::push_in))]
fn push_in(m: u64, a: PushAt) -> bool
    ensures { (n : ℕ) → result ≡ push_in n m a }
{
    match a {
        PushAt::Epoch => true,
        PushAt::Tail(new) => node_in(m, new),
        PushAt::Next(new, onto) | PushAt::Link(new, onto) | PushAt::Move(new, onto) => {
            node_in(m, new) && node_in(m, onto)
        }
        PushAt::Help(new, onto, next) => node_in(m, new) && node_in(m, onto) && node_in(m, next),
    }
}

// Returns whether what a place carries is in range.
#[tactic(auto, unfolding(definition::specs::Ranges::place_in))]
pub fn place_in(n: u64, m: u64, place: Place) -> bool
    ensures { result ≡ place_in n m place }
{
    match place {
        Place::Register(a) => register_in(n, a),
        Place::Walk(_, a) => walk_in(n, a),
        Place::AdvanceWord(_, curr, succ) => slot_in(n, curr) && ptr_in(n, succ),
        Place::Pop(p, a) => pops_in(p) && pop_in(m, a),
        Place::Push(then, a) => then_in(n, m, then) && push_in(m, a),
        _ => true,
    }
}

// ---- a participant's record

// Returns whether a code is one that a place has, with nothing in the columns that the place leaves empty, and what it carries is in range.
#[tactic(auto, using(records::proofs::Same::same_where), unfolding(definition::specs::Ranges::code_in))]
fn code_in(n: u64, m: u64, code: Code, place: Place) -> bool
    requires { place ≡ place_of code }
    ensures { result ≡ code_in n m code }
{
    let whole = encode(place);
    whole == code && place_in(n, m, place)
}

// ---- words of the tables

// Returns whether a word is a pointer to one of `n` entries, or null; its tag may be set, or not.
#[tactic(auto, unfolding(definition::specs::Ranges::entry_pointer_in))]
fn entry_pointer_in(n: u64, w: u64) -> bool
    ensures { (m : ℕ) → result ≡ entry_pointer_in n m w }
{
    w / 2 <= n
}

// Returns whether a word is a pointer to one of `k`, or null, without a tag: to an entry where the list's head is asked, to a node elsewhere.
#[tactic(auto, unfolding(definition::specs::Ranges::head_pointer_in, definition::specs::Ranges::node_pointer_in))]
fn untagged_in(k: u64, w: u64) -> bool
    ensures head { (m : ℕ) → result ≡ head_pointer_in k m w }
    ensures node { (n : ℕ) → result ≡ node_pointer_in n k w }
{
    w % 2 == 0 && w / 2 <= k
}

// Returns whether a word is a pointer to one of `m` nodes, without a tag: the queue's head and tail are never null.
#[tactic(auto, unfolding(definition::specs::Ranges::end_pointer_in))]
fn end_pointer_in(m: u64, w: u64) -> bool
    ensures { (n : ℕ) → result ≡ end_pointer_in n m w }
{
    untagged_in(m, w) && 1 <= w / 2
}

// Returns whether a word is an item: a token, a node or a slot, below its kind's limit. (Not by `item_of` of bags, which reads every word as one. The
// limit is looked up and no kind is matched: every call asks this of every item that is held, and a jump by the kind cannot be foreseen.)
#[tactic(auto, unfolding(definition::specs::Ranges::item_in, definition::specs::Calls::max_token, definition::specs::Base::branch))]
fn item_in(n: u64, m: u64, w: u64) -> bool
    ensures { result ≡ item_in n m w }
{
    let limits = [0, Deferred::MAX_TOKEN + 1, m, n];
    w / 4 < limits[(w % 4) as usize]
}

// Returns whether the words are items.
fn items_in(n: u64, m: u64, items: &[u64]) -> bool
    ensures { result ≡ list_all (item_in n m) items.now }
{
    items.iter().all(|w| item_in(n, m, *w))
}

// Returns whether a bag of `k` items is in range: at most 64 are held, and each of those is an item. Beyond its length a bag holds nothing,
// whatever stands there.
#[tactic(auto, using(crate::proofs::Laws::bag_words), unfolding(definition::specs::Ranges::bag_in, definition::specs::Bags::max_objects))]
fn bag_in(n: u64, m: u64, k: u64, bag: &[u64; BAG_WORDS]) -> bool
    ensures { result ≡ bag_in n m k (words_of bag.now) }
{
    k <= Bag::MAX_OBJECTS && items_in(n, m, &bag[..k as usize])
}

// ---- sizes

// Returns whether so many participants and so many nodes are taken.
#[tactic(auto, unfolding(definition::specs::Ranges::within_limits, definition::specs::Ranges::max_participants, definition::specs::Ranges::max_nodes))]
fn within_limits(n: usize, m: usize) -> bool
    ensures { result ≡ within_limits n m }
{
    (1..=MAX_PARTICIPANTS).contains(&n) && (2..=MAX_NODES).contains(&m)
}

// Returns whether each list has its length.
#[tactic(auto, unfolding(definition::specs::Layout::global_words, definition::specs::Ranges::bit_words))]
fn lengths(l: Lists<'_>) -> bool
    requires { (l.n < 2 ^ 32) × (l.m < 2 ^ 32) }
    ensures { result ≡ sized l.entry.n l.entry.m (read l.entry) }
{
    l.globals.len() == GLOBAL_WORDS + bit_words(l.n) + bit_words(l.m)
        && l.participants.len() == l.n * PARTICIPANT_WORDS
        && l.nodes.len() == l.m * NODE_WORDS
        && l.held.len() == l.n * BAG_WORDS
        && l.queued.len() == l.m * BAG_WORDS
}

// Returns whether the sizes are taken and each list has its length. The limits come first, so that no product wraps.
#[tactic(auto, using(crate::proofs::Laws::limits))]
pub fn sizes(l: Lists<'_>) -> bool
    ensures { result ≡ sizes l.entry.n l.entry.m (read l.entry) }
{
    within_limits(l.n, l.m) && lengths(l)
}

// ---- all lists

// Lists that were measured: each has the length that N and M give it.
#[derive(Clone, Copy)]
pub struct Measured<'a> {
    pub lists: Lists<'a>,
    ghost sized: { sized lists.n lists.m (read lists) ≡ true },
}

impl<'a> Measured<'a> {
    // Measures the lists: 2 where N or M is beyond its limits, or a list has not its length.
    pub fn of(lists: Lists<'a>) -> Result<Measured<'a>, Refusal>
        ensures { MatchResult result
            (λ s. (s.lists ≡ lists.entry) × (sizes lists.entry.n lists.entry.m (read lists.entry) ≡ true))
            (λ r. (number r ≡ 2) × (sizes lists.entry.n lists.entry.m (read lists.entry) ≡ false)) }
    {
        if sizes(lists) {
            Ok(Measured { lists })
        } else {
            Err(Refusal::Sizes)
        }
    }

    // Returns the set-aside total.
    #[tactic(auto, using(definition::proofs::Lists::sized_is))]
    fn aside(self) -> u64
        ensures { result ≡ get_or self.entry.lists.globals.now 4 0 }
    {
        self.lists.globals[ASIDE]
    }

    // Returns whether a record is in range: a share is a running operation's, and part of the set-aside total.
    #[tactic(auto, unfolding(definition::specs::Ranges::record_in, definition::specs::Calls::max_count, definition::specs::Base::branch))]
    fn record_in(self, r: Record) -> bool
        ensures { result ≡ record_in self.entry.lists.n self.entry.lists.m (get_or self.entry.lists.globals.now 4 0) r }
    {
        let Record {
            counts,
            share,
            code,
            ..
        } = r;
        let l = self.lists;
        let place = decode(code);
        counts.guards <= Local::MAX_COUNT
            && counts.handles <= Local::MAX_COUNT
            && share <= self.aside()
            && code_in(l.n as u64, l.m as u64, code, place)
            && (!is_rest(place) || share == 0)
    }

    // Returns whether a participant's row, its link and its record, and its bag are in range.
    #[tactic(auto, using(crate::proofs::Laws::row_record), unfolding(crate::specs::Rows::participant_in))]
    fn participant_in(self, row: &[u64; PARTICIPANT_WORDS], bag: &[u64; BAG_WORDS]) -> bool
        ensures { result ≡ participant_in self.entry.lists.n self.entry.lists.m (get_or self.entry.lists.globals.now 4 0)
            (words_of row.now) (words_of bag.now) }
    {
        let n = self.lists.n as u64;
        let m = self.lists.m as u64;
        let r = load_record(row);
        entry_pointer_in(n, row[ENTRY_NEXT]) && self.record_in(r) && bag_in(n, m, r.held, bag)
    }

    // Returns whether every participant is in range, with its bag.
    fn participants_in(self) -> bool
        ensures { result ≡ participants_in self.entry.lists.n self.entry.lists.m (read self.entry.lists) }
    {
        let rows = self.lists.participants.as_chunks::<PARTICIPANT_WORDS>().0;
        let bags = self.lists.held.as_chunks::<BAG_WORDS>().0;
        rows.iter()
            .zip(bags)
            .all(|(row, bag)| self.participant_in(row, bag))
    }

    // Returns whether a node's row and its bag are in range.
    #[tactic(auto, unfolding(crate::specs::Rows::node_row_in))]
    fn node_row_in(self, row: &[u64; NODE_WORDS], bag: &[u64; BAG_WORDS]) -> bool
        ensures { result ≡ node_row_in self.entry.lists.n self.entry.lists.m (words_of row.now) (words_of bag.now) }
    {
        let n = self.lists.n as u64;
        let m = self.lists.m as u64;
        let [next, _, len] = *row;
        untagged_in(m, next) && bag_in(n, m, len, bag)
    }

    // Returns whether every node is in range, with its bag. (A twin of `participants_in`: one function of both would take the test of a row as a closure, and
    // its contract would have to say what that answers for each. Not inlined: among the other looks its loop, the longest of a call, runs out of registers.)
    #[inline(never)]
    fn nodes_in(self) -> bool
        ensures { result ≡ nodes_in self.entry.lists.n self.entry.lists.m (read self.entry.lists) }
    {
        let rows = self.lists.nodes.as_chunks::<NODE_WORDS>().0;
        let bags = self.lists.queued.as_chunks::<BAG_WORDS>().0;
        rows.iter()
            .zip(bags)
            .all(|(row, bag)| self.node_row_in(row, bag))
    }

    // Returns whether the words before the free bits are in range: the list's head, the queue's ends, and the set-aside total.
    #[tactic(auto, using(definition::proofs::Lists::sized_is), unfolding(crate::specs::Rows::globals_in))]
    fn globals_in(self) -> bool
        ensures { result ≡ globals_in self.entry.lists.n self.entry.lists.m self.entry.lists.globals.now }
    {
        let n = self.lists.n as u64;
        let m = self.lists.m as u64;
        let globals = self.lists.globals;
        untagged_in(n, globals[LIST_HEAD])
            && end_pointer_in(m, globals[QUEUE_HEAD])
            && end_pointer_in(m, globals[QUEUE_TAIL])
            && self.aside() <= m
    }

    // Returns whether no bit is set that stands for no slot or no node.
    #[tactic(auto, using(definition::proofs::Lists::sized_is), unfolding(definition::specs::Ranges::bit_words, definition::specs::Layout::global_words))]
    fn free_bits_in(self) -> bool
        ensures { result ≡ (within (bit_words self.entry.lists.n) self.entry.lists.n (slot_bits self.entry.lists.n self.entry.lists.globals.now)
            && within (bit_words self.entry.lists.m) self.entry.lists.m
            (node_bits self.entry.lists.n self.entry.lists.m self.entry.lists.globals.now)) }
    {
        let l = self.lists;
        FreeBits::slots(l.n).in_range(l.globals) && FreeBits::nodes(l.n, l.m).in_range(l.globals)
    }

    // Returns whether every number of the lists is in range: refusal 1 where not.
    pub fn in_range(self) -> bool
        ensures { result ≡ in_range self.entry.lists.n self.entry.lists.m
            (tables_of self.entry.lists.n self.entry.lists.m (read self.entry.lists)) }
    {
        self.globals_in() && self.free_bits_in() && self.participants_in() && self.nodes_in()
    }
}
