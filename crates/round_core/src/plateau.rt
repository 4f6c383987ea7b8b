//! Constant intervals.

use list_core::ChunkedList;
use period_core::Period;

/// A class, and a maximal period in which it always has an item and its measured value is constant.
#[derive(Clone, Copy)]
pub struct Plateau {
    /// The class.
    pub class: u64,
    /// The period with this value.
    pub period: Period,
    /// The measured value of the class's items at each instant of the period.
    pub value: i128,
}

/// Constant intervals, in chunks that were found separately.
pub type Plateaus = ChunkedList<Plateau>;
