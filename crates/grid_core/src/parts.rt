//! Names and numbers of the pairs of two divisions, and comparison of parts.

ghost use Rattle.std.specs.Prelude.{◌≡◌, ◌↔◌, ◌*◌, ◌<◌, length, IsTrue};
ghost use Rattle.dip_core.specs.Division.{part_at};
ghost use Rattle.grid_core.specs.Grid.{grid_name, grid_place};

use dip_core::{Division, Item};
use work_core::PairName;

/// Returns the pair with that number: the numbers of its left and its right part.
pub fn name_in(left: &Division, right: &Division, number: u64) -> PairName
    requires { number < length left.now * length right.now }
    ensures { result ≡ grid_name (length right.now) number }
{
    let rights = right.parts() as u64;
    let _ = left.parts();
    PairName {
        left: (number / rights) as u32,
        right: (number % rights) as u32,
    }
}

/// Returns the number of the pair with that name, or `None` if a division has no part with that number.
pub fn place_in(left: &Division, right: &Division, pair: PairName) -> Option<u64>
    ensures { result ≡ grid_place (length left.now) (length right.now) pair }
{
    let rights = right.parts();
    if pair.left < left.parts() && pair.right < rights {
        Some(pair.left as u64 * rights as u64 + pair.right as u64)
    } else {
        None
    }
}

/// Returns whether the parts with that number have the same items in both divisions.
pub fn same_part(some: &Division, others: &Division, number: u32) -> bool
    requires some { number < length some.now }
    requires others { number < length others.now }
    ensures { IsTrue result ↔ (part_at some.now number ≡ part_at others.now number) }
{
    are_same(some.part(number).items(), others.part(number).items())
}

/// Returns whether both lists have the same items in the same order.
fn are_same(some: &[Item], others: &[Item]) -> bool
    ensures { IsTrue result ↔ (some.now ≡ others.now) }
{
    some == others
}
