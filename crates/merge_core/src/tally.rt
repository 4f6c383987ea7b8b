//! Tallies.

/// The count, sum, minimum and maximum over one or more items.
#[derive(Clone, Copy, Debug, PartialEq, Eq)]
pub struct Tally {
    /// The number of items.
    pub count: u64,
    /// The sum of their amounts.
    pub sum: i128,
    /// The least amount.
    pub min: i64,
    /// The greatest amount.
    pub max: i64,
}
