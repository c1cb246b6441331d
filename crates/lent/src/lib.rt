// The lent lists, with the sizes that they are lent for, as one value: for N participants and M nodes the words that are nobody's, a row
// for each participant, a row for each node, and a row of items for each participant's bag and for each node's.
//
// They always go together, so a function takes them together. A caller may lend lists of any length with any sizes: nothing is asked of
// them here, and what must hold of them is looked at by the public calls (crate `ranges`). Beside them stands where a word is found, each
// number once; the definition says the same in specs/Layout. Rows of one participant stand in two lists, and those of one node: five lists are what
// callers lend and what the definition's `Lent` is. Promises say these numbers in digits, here and above: one that named the constant
// would follow it where that is wrong.
#![tactic(auto)]

ghost use Rattle.std.specs.Prelude.{◌≡◌, ◌+◌, ◌*◌, ◌≤◌, ◌<◌, length, take, drop};
ghost use Rattle.lent.specs.Lists.{read, lent};

use flow::Bag;

// Words of `globals` before the free bits: the global epoch, the head of the list, both ends of the queue, the set-aside total. (The number is of `bits`,
// which has no use for the rest of this and stands below it.)
pub use bits::GLOBAL_WORDS;

pub const GLOBAL_EPOCH: usize = 0;

pub const LIST_HEAD: usize = 1;

pub const QUEUE_HEAD: usize = 2;

pub const QUEUE_TAIL: usize = 3;

pub const ASIDE: usize = 4;

// Words of a participant's row: its epoch, its entry's next, and then its record.
pub const PARTICIPANT_WORDS: usize = 21;

pub const ENTRY_NEXT: usize = 1;

// Words of a node's row: its next, the seal of its bag, and the length of that.
pub const NODE_WORDS: usize = 3;

pub const SEAL: usize = 1;

pub const BAG_LEN: usize = 2;

// Words of a bag's row: one for each item that it has room for.
pub const BAG_WORDS: usize = Bag::MAX_OBJECTS as usize;

// Returns row `i` of a list that is read as rows of W words.
#[tactic(auto, using(crate::proofs::Laws::row_part))]
pub fn row<const W: usize>(list: &[u64], i: usize) -> &[u64; W]
    requires wide { 0 < W }
    requires in_bounds { i * W + W ≤ length list.now }
    ensures { result.now ≡ take W (drop (i * W) list.now) }
{
    &list.as_chunks().0[i]
}

// The lists, lent to be read.
#[derive(Clone, Copy)]
pub struct Lists<'a> {
    pub n: usize,
    pub m: usize,
    pub globals: &'a [u64],
    pub participants: &'a [u64],
    pub nodes: &'a [u64],
    pub held: &'a [u64],
    pub queued: &'a [u64],
}

// The lists, lent to be changed.
#[derive(Drop)]
pub struct ListsMut<'a> {
    pub n: usize,
    pub m: usize,
    pub globals: &'a mut [u64],
    pub participants: &'a mut [u64],
    pub nodes: &'a mut [u64],
    pub held: &'a mut [u64],
    pub queued: &'a mut [u64],
}

impl ListsMut<'_> {
    // The same lists, to be read: each is lent anew, field by field, since the two types have no field of one type but the sizes.
    pub fn read(&self) -> Lists<'_>
        ensures n { result.n ≡ self.now.n }
        ensures m { result.m ≡ self.now.m }
        ensures lists { read result ≡ lent self.now }
    {
        Lists {
            n: self.n,
            m: self.m,
            globals: self.globals,
            participants: self.participants,
            nodes: self.nodes,
            held: self.held,
            queued: self.queued,
        }
    }
}
