//! Why a call of a store, of a shelf or of a snapshot is refused.

use book_core::BookRefused;
use thiserror::Error;

/// The numbers aren't 1 to 16 passes and 1 to 2^40 calls for each.
#[derive(Clone, Copy, Debug, PartialEq, Eq, Error)]
#[error("not 1 to 16 passes of 1 to 2^40 calls each")]
pub struct BadCount;

/// The pass has no call left.
#[derive(Clone, Copy, Debug, PartialEq, Eq, Error)]
#[error("the pass has no call left")]
pub struct PassSpent;

/// There are fewer commits.
#[derive(Clone, Copy, Debug, PartialEq, Eq, Error)]
#[error("there are fewer commits")]
pub struct Future;

/// Why a store refuses a change, in the order of the tests.
#[derive(Clone, Copy, Debug, PartialEq, Eq, Error)]
pub enum StoreRefused {
    /// The pass has no call left.
    #[error("the pass has no call left")]
    PassSpent,
    /// The book refuses it.
    #[error("{0}")]
    Book(BookRefused),
}

/// Why a store refuses a snapshot, in the order of the tests.
#[derive(Clone, Copy, Debug, PartialEq, Eq, Error)]
pub enum SnapshotRefused {
    /// The pass has no call left.
    #[error("the pass has no call left")]
    PassSpent,
    /// There are fewer commits.
    #[error("there are fewer commits")]
    Future,
}

/// Why a snapshot refuses the versions of a range of commits, in the order of the tests.
#[derive(Clone, Copy, Debug, PartialEq, Eq, Error)]
pub enum RangeRefused {
    /// The two commits are not in order.
    #[error("the two commits are not in order")]
    BadPeriod,
    /// No table has that name.
    #[error("no table of that name is there")]
    NoTable,
}
