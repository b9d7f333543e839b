ghost use Rattle.std.specs.Prelude.{◌≡◌, ℕ, List, length};

/// A value that tells two things in contracts: a list of entries, each from a caller that has a
/// number, and a pair of numbers that stays as it was when the lock was opened.
pub trait Told {
    /// What the list is made of.
    type Entry;

    // The entries, from the first on.
    ghost list: { Self → List Self.Entry };

    // The number of the caller that an entry is from.
    ghost caller: { Self.Entry → ℕ };

    // What every value of one lock has in common.
    ghost pair: { Self → ℕ × ℕ };

    /// How many entries the list has.
    fn length(&self) -> u64
        ensures { result ≡ length (list self.now) };
}
