//! The items of both sides whose classes are within a range.

ghost use Rattle.std.specs.Prelude.{◌<◌, ◌≤◌, length, IfOk, IsPermutation};
ghost use Rattle.std.specs.Thread.{IsSync};
ghost use Rattle.dip_core.specs.Item.{item_limit};
ghost use Rattle.grid_core.specs.Bundles.{ClassesRise};
ghost use Rattle.match_core.specs.Items.{items_in_range};
ghost use Rattle.anti_core.specs.United.{IsUnion};

use crate::classed_rows::ClassedRows;
use crate::united::united_rows;
use dip_core::Item;
use grid_core::order_by_class;
use match_core::items_in_range;
use period_core::NoMemory;
use std::alloc::Global;
use std::thread::{Threads, join};
use table_core::SharedRows;
use work_core::tuning::ROWS_FOR_THREAD;
use work_core::{Crew, Range};

/// Returns the left items by class, and the right items coalesced. With many rows, one worker makes the left items,
/// and all others the right items, which take longer.
pub(crate) fn items_of_sides<R: Threads + Sync, G>(
    crew: &Crew<'_, R, G>,
    left: &ClassedRows<'_>,
    right: &ClassedRows<'_>,
    range: Range<u64>,
) -> Result<(Vec<Item>, Vec<Item>), NoMemory>
    ensures permutation { IfOk result (λ both.
        IsPermutation (items_in_range range left.now.rows.now left.now.classes.now) both.0.items) }
    ensures sorted { IfOk result (λ both. ClassesRise both.0.items) }
    ensures union { IfOk result (λ both.
        IsUnion (items_in_range range right.now.rows.now right.now.classes.now) both.1.items) }
{
    let (rt, alloc, workers) = (crew.rt, crew.alloc, crew.workers);
    if workers < 2 || left.rows.len().min(right.rows.len()) < ROWS_FOR_THREAD {
        let lefts = left_items(rt, alloc, left.rows, left.classes, range)?;
        let united = united_rows(rt, alloc, right, range, workers)?;
        return Ok((lefts, united));
    }
    let others = workers - 1;
    let (left_rows, left_classes) = (left.rows, left.classes);
    let (rows, classes) = (right.rows, right.classes);
    let (united, lefts) = join(
        rt,
        || -> Result<Vec<Item>, NoMemory>
            requires { IsSync R.row × (0 < others) × (length rows.now ≤ length classes.now)
                × (length rows.now ≤ item_limit) }
            ensures { IfOk result (λ united.
                IsUnion (items_in_range range rows.entry.now classes.entry.now) united.items) }
        { united_rows(rt, alloc, &ClassedRows { rows, classes }, range, others) },
        || -> Result<Vec<Item>, NoMemory>
            requires { IsSync R.row × (length left_rows.now ≤ length left_classes.now) }
            ensures { IfOk result (λ items.
                IsPermutation (items_in_range range left_rows.entry.now left_classes.entry.now)
                items.items
                × ClassesRise items.items) }
        { left_items(rt, alloc, left_rows, left_classes, range) },
    );
    let united = united?;
    let lefts = lefts?;
    Ok((lefts, united))
}

/// Returns the left items by class. One worker sorts them.
fn left_items<R: Threads + Sync>(
    rt: &R,
    alloc: Global,
    rows: &SharedRows,
    classes: &[u64],
    range: Range<u64>,
) -> Result<Vec<Item>, NoMemory>
    requires { length rows.now ≤ length classes.now }
    ensures permutation { IfOk result (λ items.
        IsPermutation (items_in_range range rows.now classes.now) items.items) }
    ensures sorted { IfOk result (λ items. ClassesRise items.items) }
{
    let mut items = items_in_range(alloc, rows, classes, range)?;
    order_by_class(rt, &mut items, 1);
    Ok(items)
}
