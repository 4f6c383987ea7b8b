//! The division of rows.

ghost use Rattle.std.specs.Prelude.{◌≡◌, ◌≢◌, ℕ, ◌<◌, ◌≤◌, length, All, IfOk, IfErr, slice_index_or};
ghost use Rattle.std.specs.List.{HoldsAt};
ghost use Rattle.dip_core.specs.Item.{HasDistinctIds, item_limit};
ghost use Rattle.dip_core.specs.Division.{all_of, IsLeastDivision};
ghost use Rattle.ruzgalt_c.specs.Dip.{AreNumbersOf, IsDipOfRows};
ghost use Rattle.ruzgalt_c.specs.Rows.{SomeRowHasNoPeriod};
ghost use Rattle.ruzgalt_c.specs.declared.rows.Fault.TheVariants.{NoPeriod};

use crate::rows::{Fault, items_of};
use dip_core::{Division, Item, NoMemory, divide_sorted};
use period_core::Point;
use std::alloc::Global;

/// Divides the rows: writes each row's part at the row's index, and returns the number of parts and the instant.
pub(crate) fn divide(
    alloc: Global,
    from: &[i64],
    to: &[i64],
    numbers: &mut [u32],
) -> Result<(u32, Option<Point>), Fault>
    requires ends { length to.now ≡ length from.now }
    requires room { length numbers.old ≡ length from.now }
    requires few { length from.now ≤ item_limit }
    ensures dip { IfOk result (λ d. IsDipOfRows from.now to.now numbers.new d.0 d.1) }
    ensures fault { IfErr result (λ f. f ≡ NoPeriod → SomeRowHasNoPeriod from.now to.now) }
{
    let mut items = items_of(alloc, &[], from, to, &[])?;
    items.sort_unstable();
    let Ok(division) = divide_sorted(alloc, &items) else {
        return Err(Fault::NoMemory);
    };
    number_rows(&division, numbers);
    Ok((division.parts(), division.instant()))
}

/// Returns a division of a copy of the items.
pub(crate) fn divided(alloc: Global, items: &[Item]) -> Result<Division, NoMemory>
    requires { length items.now ≤ item_limit }
    ensures { IfOk result (IsLeastDivision items.now) }
{
    let mut sorted = Vec::from_slice(alloc, items)?;
    sorted.sort_unstable();
    divide_sorted(alloc, &sorted)
}

/// Writes the number of each item's part at the index that is the item's id.
fn number_rows(division: &Division, numbers: &mut [u32])
    requires distinct { HasDistinctIds (all_of division.now) }
    requires room { All (λ x. x.id < length numbers.old) (all_of division.now) }
    ensures len { length numbers.new ≡ length numbers.old }
    ensures are { (k : ℕ) → k < length division.now → AreNumbersOf division.now numbers.new k }
{
    for k in 0..division.parts() {
        number_part(k, division.part(k).items(), numbers);
    }
}

/// Writes the number `k` at the index that is each item's id, and nowhere else.
fn number_part(k: u32, items: &[Item], numbers: &mut [u32])
    requires room { All (λ x. x.id < length numbers.old) items.now }
    ensures len { length numbers.new ≡ length numbers.old }
    ensures set { All (λ x. HoldsAt (λ n. n ≡ k) numbers.new x.id) items.now }
    ensures others { (n e : ℕ) → All (λ x. x.id ≢ n) items.now
        → slice_index_or numbers.new n e ≡ slice_index_or numbers.old n e }
{
    for item in items {
        numbers[item.id as usize] = k;
    }
}
