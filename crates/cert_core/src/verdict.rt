//! Certificates and verdicts.

use period_core::Point;

/// What somebody claims about a division: its number of parts, and an instant that equally many items hold. Such an
/// instant shows that no division has fewer parts.
#[derive(Clone, Copy, Debug, PartialEq, Eq)]
pub struct Certificate {
    /// The number of parts.
    pub parts: u64,
    /// An instant whose overlap count is the number of parts; `None` without items.
    pub instant: Option<Point>,
}

/// The first fault of a claim and its certificate, in this order, or `Yes`.
#[derive(Clone, Copy, Debug, PartialEq, Eq)]
pub enum Verdict {
    /// The claim's number of parts; the certificate states another one.
    WrongCount(u64),
    /// The number of the first part without ids, counted from 0.
    EmptyPart(u64),
    /// The claim's first id that no item has.
    Unknown(u64),
    /// The claim's first id that occurs earlier in it.
    Twice(u64),
    /// The least item id that the claim leaves out.
    Missing(u64),
    /// Two ids from the first part with an overlap, whose items are sorted by start, end and id. The first item that
    /// overlaps the item just before it has the second id; the item before it has the first id.
    Overlap(u64, u64),
    /// The number of items that hold the certificate's instant, if it isn't the certificate's number of parts. It is 0
    /// if there are items and no instant, or an instant and no items.
    NotCrowded { holds: u64 },
    /// The claim is a division of the items, and no division has fewer parts.
    Yes,
}
