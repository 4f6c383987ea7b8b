//! Measures of a tally.

/// The value that an aggregate takes from a tally.
#[derive(Clone, Copy)]
pub enum Measure {
    /// The number of items.
    Count,
    /// The sum of their amounts.
    Sum,
    /// The least amount.
    Min,
    /// The greatest amount.
    Max,
}
