//! The capacity that lists are created with.

ghost use Rattle.std.specs.Prelude.{◌≤◌};

/// Returns a capacity for about half of `items`, if they are split at the median of a small sample: five eighths, so
/// that the larger half mostly fits too.
pub fn room_for_half(items: usize) -> usize
    ensures { result ≤ items }
{
    items / 8 * 5
}
