//! The rows of both sides by class. Some of the workers take each range of classes, and select its rows before they
//! make items of them.

ghost use Rattle.std.specs.Prelude.{◌+◌, ◌<◌, ◌≤◌, length, IfOk};
ghost use Rattle.std.specs.Thread.{IsSync};
ghost use Rattle.dip_core.specs.Item.{HasDistinctIds};
ghost use Rattle.list_core.specs.Chunks.{all_in};
ghost use Rattle.match_core.specs.Items.{items_in_range, items_with};
ghost use Rattle.work_core.specs.Limits.{worker_limit};
ghost use Rattle.anti_core.specs.ItemAnti.{AreItemsRows, IsItemsAnti};

use crate::bundle_gaps::rows_by_class;
use crate::classed_rows::ClassedRows;
use crate::ordering::ordered;
use crate::rows::{AntiRow, AntiRows};
use crate::side_items::items_of_sides;
use period_core::NoMemory;
use std::thread::Threads;
use work_core::{Crew, Gate, Range, Shares, shared_out};

/// Returns the anti-join of two sides, whose rows match if their classes are equal. The right items are coalesced
/// before they are divided. So at any instant each class has at most one of them, however many rows hold.
pub(crate) fn anti_sides<R: Threads + Sync, G: Gate>(
    crew: &Crew<'_, R, G>,
    left: &ClassedRows<'_>,
    right: &ClassedRows<'_>,
) -> Result<AntiRows, NoMemory>
    requires ids { HasDistinctIds (items_with left.now.rows.now left.now.classes.now) }
    ensures { IfOk result (IsItemsAnti (items_with left.now.rows.now left.now.classes.now)
        (items_with right.now.rows.now right.now.classes.now)) }
{
    let lists = rows_of_sides(crew, left, right)?;
    ordered(crew, lists, left.rows)
}

/// Returns the rows of all left items, in one list per range of classes. The ranges are cut so that each worker has
/// about the same number of rows of both sides.
fn rows_of_sides<R: Threads + Sync, G: Gate>(
    crew: &Crew<'_, R, G>,
    left: &ClassedRows<'_>,
    right: &ClassedRows<'_>,
) -> Result<Vec<Vec<AntiRow>>, NoMemory>
    requires ids { HasDistinctIds (items_with left.now.rows.now left.now.classes.now) }
    ensures { IfOk result (λ lists. AreItemsRows (items_with left.now.rows.now left.now.classes.now)
        (items_with right.now.rows.now right.now.classes.now) (all_in lists.items)) }
{
    let (rt, alloc, gate) = (crew.rt, crew.alloc, crew.gate);
    let count = left.rows.len() + right.rows.len();
    let shares = Shares::of(
        alloc,
        count,
        crew.workers,
        &|i: usize| class_at(left, right, i),
    )?;
    shared_out(
        rt,
        alloc,
        &shares,
        &|range: Range<u64>, workers: u32| -> Result<Vec<AntiRow>, NoMemory>
            requires { IsSync R.row × IsSync G.row × (0 < workers) × (workers ≤ worker_limit)
                × HasDistinctIds (items_with left.now.rows.now left.now.classes.now) }
            ensures { IfOk result (λ rows. AreItemsRows
                (items_in_range range left.entry.now.rows.now left.entry.now.classes.now)
                (items_in_range range right.entry.now.rows.now right.entry.now.classes.now)
                rows.items) }
        {
            let crew = Crew::new(rt, alloc, workers, gate);
            rows_of_range(&crew, left, right, range)
        },
    )
}

/// Returns the class of row `i`, counting the left rows first.
fn class_at(left: &ClassedRows<'_>, right: &ClassedRows<'_>, i: usize) -> u64
    requires { i < length left.now.rows.now + length right.now.rows.now }
{
    let lefts = left.rows.len();
    if i < lefts {
        left.classes[i]
    } else {
        right.classes[i - lefts]
    }
}

/// Returns the rows of the left items whose classes are within a range.
fn rows_of_range<R: Threads + Sync, G: Gate>(
    crew: &Crew<'_, R, G>,
    left: &ClassedRows<'_>,
    right: &ClassedRows<'_>,
    range: Range<u64>,
) -> Result<Vec<AntiRow>, NoMemory>
    requires ids { HasDistinctIds (items_with left.now.rows.now left.now.classes.now) }
    ensures { IfOk result (λ rows. AreItemsRows
        (items_in_range range left.now.rows.now left.now.classes.now)
        (items_in_range range right.now.rows.now right.now.classes.now) rows.items) }
{
    let (lefts, united) = items_of_sides(crew, left, right, range)?;
    rows_by_class(crew, &lefts, &united)
}
