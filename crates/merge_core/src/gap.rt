//! Gaps.

use dip_core::Item;
use period_core::Period;

/// A left item, and a maximal period of it in which no right item of its class holds.
#[derive(Clone, Copy, Debug, PartialEq, Eq)]
pub struct Gap {
    /// The left item.
    pub left: Item,
    /// The part of its period that no right item of its class holds.
    pub period: Period,
}
