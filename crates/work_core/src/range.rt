//! Half-open ranges, and the part of a list that a range of indexes selects.

ghost use Rattle.std.specs.Prelude.{◌≡◌, ◌≤◌, min, unwrap_or};
ghost use Rattle.work_core.specs.Pieces.{items_within};
ghost use Rattle.work_core.specs.Ranges.{has, is_from};

use std::cmp::Ordering;

/// The values from one value on and before another; either end may be open.
#[derive(Clone, Copy, Debug, PartialEq, Eq)]
pub struct Range<T> {
    /// The first value, or `None` if the range has no lower end.
    pub from: Option<T>,
    /// The first value after the range, or `None` if the range has no upper end.
    pub before: Option<T>,
}

impl<T: Ord> Range<T> {
    /// Returns whether the range contains the value.
    pub fn has(&self, value: &T) -> bool
        ensures { result ≡ has T.cmp self.now value.now }
    {
        let started = match &self.from {
            None => true,
            Some(first) => is_from(first, value),
        };
        let ended = match &self.before {
            None => false,
            Some(end) => is_from(end, value),
        };
        started && !ended
    }
}

/// Returns whether `value` is `first` or comes after it.
fn is_from<T: Ord>(first: &T, value: &T) -> bool
    ensures { result ≡ is_from T.cmp first.now value.now }
{
    value.cmp(first) != Ordering::Less
}

/// Returns the first index of the range and the index after its last, both limited to `count`.
pub fn places_within(range: Range<usize>, count: usize) -> (usize, usize)
    ensures ordered { result.0 ≤ result.1 }
    ensures within { result.1 ≤ count }
    ensures from { result.0 ≡ min (unwrap_or range.from 0) result.1 }
    ensures before { result.1 ≡ min (unwrap_or range.before count) count }
{
    let to = range.before.unwrap_or(count).min(count);
    let from = range.from.unwrap_or(0).min(to);
    (from, to)
}

/// Returns the items at the indexes of the range.
pub fn items_within<T>(range: Range<usize>, items: &[T]) -> &[T]
    ensures { result.now ≡ items_within range items.now }
{
    let (from, to) = places_within(range, items.len());
    &items[from..to]
}
