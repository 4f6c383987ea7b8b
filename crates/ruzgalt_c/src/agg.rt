//! The constant intervals of items: the maximal periods in which the aggregate of a class's items has one value.

ghost use Rattle.std.specs.Prelude.{◌≡◌, ◌+◌, ◌<◌, ◌≤◌, ◌^◌, ◌+ℤ◌, ◌*ℤ◌, pos, length, take, drop, IfOk, MatchOption};
ghost use Rattle.dip_core.specs.Division.{all_of};
ghost use Rattle.dip_core.specs.Item.{item_limit};
ghost use Rattle.grid_core.specs.Bundles.{ClassesRise};
ghost use Rattle.merge_core.specs.Steps.{IsStepListOf};
ghost use Rattle.round_core.specs.Plateaus.{ArePlateaus};
ghost use Rattle.ruzgalt_c.specs.Agg.{ArePlateausWritten, AreValuesWritten, IsFunction, IsNoFunction};

use crate::dip::divided;
use dip_core::{Division, Item, NoMemory, Part};
use grid_core::parted_behind;
use merge_core::{Steps, combine};
use round_core::{Measure, Plateau, add_plateaus};
use std::alloc::Global;

/// The divisor that splits a value into two words: 2^64.
const WORD: i128 = 18_446_744_073_709_551_616;

/// Returns the function with this number.
pub(crate) fn measure_of(function: u32) -> Option<Measure>
    ensures { MatchOption result (IsNoFunction function) (IsFunction function) }
{
    match function {
        0 => Some(Measure::Count),
        1 => Some(Measure::Sum),
        2 => Some(Measure::Min),
        3 => Some(Measure::Max),
        _ => None,
    }
}

/// Returns the steps of the items in the parts `first..first + count`. Halves are combined recursively, so each item is
/// visited about log2(`count`) times.
fn steps_of_parts(
    alloc: Global,
    division: &Division,
    first: u32,
    count: u32,
) -> Result<Steps, NoMemory>
    requires some { 0 < count }
    requires inside { first + count ≤ length division.now }
    ensures { IfOk result (IsStepListOf (all_of (take count (drop first division.now)))) }
{
    // The numbers of parts and items bound the indices and the weights.
    let _ = division.parts();
    if count == 1 {
        return Steps::of_part(alloc, division.part(first));
    }
    let half = count / 2;
    let front = steps_of_parts(alloc, division, first, half)?;
    let back = steps_of_parts(alloc, division, first + half, count - half)?;
    combine(alloc, &front, &back)
}

/// Returns the steps of some items. The items are divided, unless they already are one part.
fn steps_of_class(alloc: Global, items: &[Item]) -> Result<Steps, NoMemory>
    requires some { 0 < length items.now }
    requires few { length items.now ≤ item_limit }
    ensures { IfOk result (IsStepListOf items.now) }
{
    if let Some(part) = Part::new(items) {
        return Steps::of_part(alloc, part);
    }
    let division = divided(alloc, items)?;
    steps_of_parts(alloc, &division, 0, division.parts())
}

/// Returns the constant intervals of items with ascending classes, by class and start.
pub(crate) fn plateaus_of_items(
    alloc: Global,
    measure: Measure,
    items: &[Item],
) -> Result<Vec<Plateau>, NoMemory>
    requires few { length items.now ≤ item_limit }
    requires rise { ClassesRise items.now }
    ensures { IfOk result (λ plateaus. ArePlateaus measure items.now plateaus.items) }
{
    let mut plateaus = Vec::new(alloc);
    let mut left = items;
    'classes: while let Some(first) = left.first() {
        let class = first.class;
        let (own, later) = parted_behind(class, left);
        let steps = steps_of_class(alloc, own)?;
        add_plateaus(measure, class, steps.steps(), &mut plateaus)?;
        left = later;
    }
    Ok(plateaus)
}

/// Returns the low and the high word of a value.
fn words_of(value: i128) -> (u64, i64)
    ensures { value ≡ (result.1 *ℤ pos (2 ^ 64)) +ℤ pos result.0 }
{
    let low = value.rem_euclid(WORD);
    let high = value.div_euclid(WORD);
    (low as u64, high as i64)
}

/// Writes the intervals' classes, starts and ends.
pub(crate) fn write_plateaus(
    plateaus: &[Plateau],
    group: &mut [u64],
    from: &mut [i64],
    to: &mut [i64],
)
    requires group { length plateaus.now ≤ length group.old }
    requires from { length plateaus.now ≤ length from.old }
    requires to { length plateaus.now ≤ length to.old }
    ensures { ArePlateausWritten plateaus.now (length plateaus.now) group.new from.new to.new }
{
    for k in 0..plateaus.len() {
        let plateau = plateaus[k];
        group[k] = plateau.class;
        from[k] = plateau.period.from.number();
        to[k] = plateau.period.to.number();
    }
}

/// Writes the two words of the intervals' values.
pub(crate) fn write_values(plateaus: &[Plateau], low: &mut [u64], high: &mut [i64])
    requires low { length plateaus.now ≤ length low.old }
    requires high { length plateaus.now ≤ length high.old }
    ensures { AreValuesWritten plateaus.now (length plateaus.now) low.new high.new }
{
    for k in 0..plateaus.len() {
        let (low_word, high_word) = words_of(plateaus[k].value);
        low[k] = low_word;
        high[k] = high_word;
    }
}
