// Free bits: which slots and which nodes are free, as bits of 64-bit words in a lent list.
//
// In the Rust the allocator knows what is free; here a set bit says so. The bits of a table stand in some words of the list, side by side:
// `FreeBits` says which, so slots and nodes share what reads and writes them. It has no list of its own, since whoever writes a bit is lent
// the list to change; so that the words are there is asked with each list. Each promise is over the bits that the list has there, `free_in`
// of specs/Bits: the definition's `slot_bits` or `node_bits`. Taking and giving are total: taking what is taken, and giving what is free,
// changes nothing.
#![tactic(auto)]

ghost use Rattle.std.specs.Prelude.{◌≡◌, true, ◌+◌, ◌/◌, ◌^◌, ◌≤◌, ◌<◌, ℕ, length, slice_index};
ghost use Rattle.definition.specs.Base.{count, least};
ghost use Rattle.definition.specs.Ranges.{bit_words};
ghost use Rattle.bits.specs.Bits.{bits_of, slots, nodes, free_in, within, taken, given};

// Words of the list before the free bits: those of the global words that are no bits (crate `lent` names them, and hands this number on).
pub const GLOBAL_WORDS: usize = 5;

// Returns how many words `n` bits take.
#[tactic(auto, unfolding(definition::specs::Ranges::bit_words))]
pub fn bit_words(n: usize) -> usize
    ensures { result ≡ bit_words n }
{
    n.div_ceil(64)
}

// Returns whether no bit at `n` or beyond is set. Only the word that has bit `n`, from that bit on, and those after it are looked at. (It takes any
// words; of as many as `n` bits take, the word that has bit `n` is the last.)
pub fn bits_in(words: &[u64], n: usize) -> bool
    ensures { result ≡ within (length words.now) n (bits_of words.now) }
{
    let j = n / 64;
    if j >= words.len() {
        return true;
    }
    words[j] >> (n % 64) == 0 && words[j + 1..].iter().all(|w| *w == 0)
}

// Returns the smallest free index, or `n` where none is free, as the definition's `least` does (so it is no `Option`): the lowest set bit of the first
// word that has one. (It takes any few words, for any `n`, as `bits_in` does.)
pub fn first_free(words: &[u64], n: usize) -> usize
    requires few { length words.now ≤ 64 }
    requires none_beyond { within (length words.now) n (bits_of words.now) ≡ true }
    ensures { result ≡ least n (bits_of words.now) }
{
    match words.iter().position(|w| *w != 0) {
        Some(j) => 64 * j + words[j].trailing_zeros() as usize,
        None => n,
    }
}

// Returns how many of the indices below `n` are free. (Of any few words, for any `n`.)
pub fn count_free(words: &[u64], n: usize) -> u64
    requires few { length words.now ≤ 64 }
    requires none_beyond { within (length words.now) n (bits_of words.now) ≡ true }
    ensures { result ≡ count n (bits_of words.now) }
{
    words.iter().map(|w| u64::from(w.count_ones())).sum()
}

// The free bits of a table of `size` indices: in the words of the list from `at` on.
#[derive(Clone, Copy)]
pub struct FreeBits {
    pub at: usize,
    pub size: usize,
}

impl FreeBits {
    // Returns where the bits of `n` slots stand: after the words that are no bits.
    #[tactic(auto, unfolding(definition::specs::Layout::global_words))]
    pub fn slots(n: usize) -> FreeBits
        ensures { result ≡ slots n }
    {
        FreeBits {
            at: GLOBAL_WORDS,
            size: n,
        }
    }

    // Returns where the bits of `m` nodes stand, for `n` participants: after those of the slots.
    #[tactic(auto, using(crate::proofs::Laws::bit_words_least), unfolding(definition::specs::Layout::global_words))]
    pub fn nodes(n: usize, m: usize) -> FreeBits
        ensures { result ≡ nodes n m }
    {
        FreeBits {
            at: GLOBAL_WORDS + bit_words(n),
            size: m,
        }
    }

    // Returns the words that have the bits.
    #[tactic(auto, using(crate::proofs::Laws::length_slice, crate::proofs::Laws::bits_slice))]
    fn words(self, globals: &[u64]) -> &[u64]
        requires { self.at + bit_words self.size ≤ length globals.now }
        ensures words { length result.now ≡ bit_words self.size }
        ensures bits { bits_of result.now ≡ free_in self globals.now }
        ensures fit { (j : ℕ) → slice_index result.now j < 2 ^ 64 }
    {
        &globals[self.at..self.at + bit_words(self.size)]
    }

    // Returns whether index `i` is free.
    pub fn is_free(self, globals: &[u64], i: usize) -> bool
        requires { (i < self.size) × (self.at + bit_words self.size ≤ length globals.now) }
        ensures { result ≡ free_in self globals.now i }
    {
        (globals[self.at + i / 64] >> (i % 64)) % 2 == 1
    }

    // Returns the smallest free index, or `size` where none is free. (This, `count_free` and `in_range` are the functions above on the words of the table;
    // what is asked of the list, and promised of the table, is said here.)
    #[tactic(auto, using(crate::proofs::Laws::within_words), unfolding(definition::specs::Ranges::bit_words))]
    pub fn first_free(self, globals: &[u64]) -> usize
        requires few { self.size ≤ 4096 }
        requires there { self.at + bit_words self.size ≤ length globals.now }
        requires none_beyond { within (bit_words self.size) self.size (free_in self globals.now) ≡ true }
        ensures { result ≡ least self.size (free_in self globals.now) }
    {
        first_free(self.words(globals), self.size)
    }

    // Returns how many indices are free.
    #[tactic(auto, using(crate::proofs::Laws::within_words), unfolding(definition::specs::Ranges::bit_words))]
    pub fn count_free(self, globals: &[u64]) -> u64
        requires few { self.size ≤ 4096 }
        requires there { self.at + bit_words self.size ≤ length globals.now }
        requires none_beyond { within (bit_words self.size) self.size (free_in self globals.now) ≡ true }
        ensures { result ≡ count self.size (free_in self globals.now) }
    {
        count_free(self.words(globals), self.size)
    }

    // Returns whether no bit at `size` or beyond is set.
    pub fn in_range(self, globals: &[u64]) -> bool
        requires { self.at + bit_words self.size ≤ length globals.now }
        ensures { result ≡ within (bit_words self.size) self.size (free_in self globals.now) }
    {
        bits_in(self.words(globals), self.size)
    }

    // Takes index `i`: it is no longer free. (That the list still has words it says for `enroll`, which is lent more than this list, and then does
    // not know it by itself.)
    #[tactic(auto, using(crate::proofs::Laws::taken_is))]
    pub fn take(self, globals: &mut [u64], i: usize)
        requires { self.at + i / 64 < length globals.old }
        ensures taken { globals.new ≡ taken globals.old self.at i }
        ensures fit { (j : ℕ) → slice_index globals.new j < 2 ^ 64 }
    {
        globals[self.at + i / 64] &= !(1 << (i % 64));
    }

    // Gives index `i` back: it is free.
    #[tactic(auto, using(crate::proofs::Laws::given_is))]
    pub fn give(self, globals: &mut [u64], i: usize)
        requires { self.at + i / 64 < length globals.old }
        ensures { globals.new ≡ given globals.old self.at i }
    {
        globals[self.at + i / 64] |= 1 << (i % 64);
    }
}
