//! Steps.

use crate::Tally;
use period_core::Period;

/// A period with the same tally at each instant.
#[derive(Clone, Copy, PartialEq, Eq)]
pub struct Step {
    /// The period.
    pub period: Period,
    /// The tally of the items that hold an instant of the period.
    pub tally: Tally,
}
