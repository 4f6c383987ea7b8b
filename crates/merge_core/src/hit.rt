//! Hits.

use dip_core::Item;
use period_core::Period;

/// A left and a right item of equal class, and the period of the instants that both hold.
#[derive(Clone, Copy, Debug, PartialEq, Eq)]
pub struct Hit {
    /// The left item.
    pub left: Item,
    /// The right item.
    pub right: Item,
    /// The period that both share.
    pub period: Period,
}
