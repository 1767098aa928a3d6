//! Where the search for a key starts.
ghost use Rattle.std.specs.Prelude.{◌≡◌, ℕ, ◌<◌};

/// A rule that gives every key its home, one of the slots.
pub trait Home: Copy {
    /// The rule for so many slots. A value made for another number answers the same, and slower.
    fn new(slots: usize) -> Self;

    // of so many slots, that of a key
    ghost home: { ℕ → ℕ → ℕ };

    /// The slot where the search for a key starts, of so many; 0 where there is none.
    fn home(&self, key: u64, slots: usize) -> usize
        ensures { result ≡ home slots key };

    ghost inside: { (n k : ℕ) → 0 < n → home n k < n };
}
