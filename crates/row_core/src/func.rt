//! The functions of an aggregate.

use crate::name::Name;

/// What an aggregate computes of the rows that hold at an instant.
#[derive(Clone, Copy, Debug)]
pub enum Func {
    /// The number of rows.
    Count,
    /// The sum of the numbers in a column.
    Sum(Name),
    /// The least of the numbers in a column.
    Min(Name),
    /// The greatest of the numbers in a column.
    Max(Name),
}
