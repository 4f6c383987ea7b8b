//! Comparisons of points, and of periods by their ends.

ghost use Rattle.std.specs.Prelude.{◌≡◌, ◌≤ℤ◌, ◌<ℤ◌, MatchBool};
ghost use Rattle.std.specs.Int.{int_max, int_min};
ghost use Rattle.period_core.specs.Period.{holds_at};
ghost use Rattle.merge_core.specs.Sweep.{has_ended};

use dip_core::Item;
use period_core::{Period, Point};

/// Returns the later of two points.
pub(crate) fn later(a: Point, b: Point) -> Point
    ensures { result ≡ int_max a b }
{
    if a < b { b } else { a }
}

/// Returns whether `x` ends no later than `y`.
pub(crate) fn ends_first(x: &Period, y: &Period) -> bool
    ensures { MatchBool result (x.now.to ≤ℤ y.now.to) (y.now.to <ℤ x.now.to) }
{
    x.to <= y.to
}

/// Returns whether `x` ends earlier than `y`.
pub(crate) fn ends_before(x: &Period, y: &Period) -> bool
    ensures { MatchBool result (x.now.to <ℤ y.now.to) (y.now.to ≤ℤ x.now.to) }
{
    x.to < y.to
}

/// Returns whether `y` starts no earlier than the end of `x`.
pub(crate) fn follows(y: &Period, x: &Period) -> bool
    ensures { MatchBool result (x.now.to ≤ℤ y.now.from) (y.now.from <ℤ x.now.to) }
{
    x.to <= y.from
}

/// Returns the earlier of two points.
pub(crate) fn earlier(a: Point, b: Point) -> Point
    ensures { result ≡ int_min a b }
{
    if a < b { a } else { b }
}

/// Returns whether the first point is before the second.
pub(crate) fn is_before(a: Point, b: Point) -> bool
    ensures { MatchBool result (a <ℤ b) (b ≤ℤ a) }
{
    a < b
}

/// Returns whether the period holds the point.
pub(crate) fn holds(period: Period, point: Point) -> bool
    ensures { result ≡ holds_at point period }
{
    period.holds(point)
}

/// Returns whether the item ends at or before the point.
pub(crate) fn has_ended(item: &Item, point: Point) -> bool
    ensures { result ≡ has_ended point item.now }
{
    item.period.to <= point
}
