// Epoch words, the port of crossbeam-epoch's src/epoch.rs (its `AtomicEpoch` is a word of the lent tables).
//
// The lowest bit of a word is set where a participant is pinned; the rest is the epoch, so the next epoch is the word plus 2. Garbage
// of one epoch may be freed two advances later: everything that decides this reads the distance of two words, `wrapping_sub`. Words
// wrap around at 2^64, and a word may be behind another, so the distance is a signed number.
//
// Each promise cites the definition of specs/Epoch.antt that has the function's name. No function requires anything: every word is
// an epoch word.
#![tactic(auto)]

ghost use Rattle.std.specs.Prelude.{◌≡◌};
ghost use Rattle.epoch.specs.Epoch.{starting, wrapping_sub, is_pinned, pinned, unpinned, successor};

// An epoch that can be marked as pinned or unpinned. A type of its own, so that a word is not taken for an index of a table.
#[derive(Clone, Copy, PartialEq, Eq)]
pub struct Epoch(pub u64);

impl Epoch {
    // The word of the starting epoch: epoch 0, unpinned.
    pub const STARTING: u64 = 0;

    // Returns the starting epoch in unpinned state.
    pub fn starting() -> Self
        ensures { result.0 ≡ starting }
    {
        Epoch(Epoch::STARTING)
    }

    // Returns the number of epochs `self` is ahead of `rhs`, from -2^62 to 2^62 - 1: below zero where it is behind.
    pub fn wrapping_sub(self, rhs: Self) -> i64
        ensures { result ≡ wrapping_sub self.0 rhs.0 }
    {
        // The lowest bit of `self` need not be cleared: the shift drops it. That of `rhs` must be, or it would borrow from the epoch.
        self.0.wrapping_sub(rhs.0 & !1).cast_signed() >> 1
    }

    // Returns `true` if the epoch is marked as pinned.
    pub fn is_pinned(self) -> bool
        ensures { result ≡ is_pinned self.0 }
    {
        (self.0 & 1) == 1
    }

    // Returns the same epoch, but marked as pinned.
    pub fn pinned(self) -> Epoch
        ensures { result.0 ≡ pinned self.0 }
    {
        Epoch(self.0 | 1)
    }

    // Returns the same epoch, but marked as unpinned.
    pub fn unpinned(self) -> Epoch
        ensures { result.0 ≡ unpinned self.0 }
    {
        Epoch(self.0 & !1)
    }

    // Returns the successor epoch, marked as pinned only if this one is.
    pub fn successor(self) -> Epoch
        ensures { result.0 ≡ successor self.0 }
    {
        Epoch(self.0.wrapping_add(2))
    }
}
