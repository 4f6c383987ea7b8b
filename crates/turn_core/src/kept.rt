//! The state that a turn lends.

ghost use Rattle.std.specs.Prelude.{ℕ, List};

/// A state that represents a list of entries.
pub trait Kept: Drop {
    /// The type of the entries that callers add.
    type Entry;

    // The entries, oldest first.
    ghost entries: { Self → List Self.Entry };

    // The number of the caller that added an entry.
    ghost by: { Self.Entry → ℕ };

    // The greatest number of a caller.
    ghost mark: { Self → ℕ };
}
