//! The right items of each class, coalesced before they are divided: it only matters which instants they hold.

ghost use Rattle.std.specs.Prelude.{◌<◌, ◌≤◌, length, IfOk, MatchOption};
ghost use Rattle.list_core.specs.Chunks.{all_in};
ghost use Rattle.match_core.specs.Items.{items_in_range};
ghost use Rattle.work_core.specs.Pieces.{items_within};
ghost use Rattle.anti_core.specs.United.{RunsInto, IsMerged, IsPlain, IsUnion, StandByClass};

use crate::classed_rows::ClassedRows;
use dip_core::Item;
use list_core::in_one_list;
use match_core::{items_in_piece, items_in_range};
use period_core::{NoMemory, Period};
use std::alloc::Global;
use std::thread::Threads;
use table_core::SharedRows;
use work_core::{Range, Shares, shared_out};

/// Returns the maximal periods in which some row of each class within a range holds, as items of that class, by class
/// and start. They have id 0 and amount 0. With many rows, each worker coalesces a part of the rows, and the results
/// are coalesced again: the more the rows overlap, the fewer results there are.
pub(crate) fn united_rows<R: Threads + Sync>(
    rt: &R,
    alloc: Global,
    side: &ClassedRows<'_>,
    range: Range<u64>,
    workers: u32,
) -> Result<Vec<Item>, NoMemory>
    requires { 0 < workers }
    ensures { IfOk result (λ united.
        IsUnion (items_in_range range side.now.rows.now side.now.classes.now) united.items) }
{
    let ClassedRows { rows, classes, .. } = *side;
    let shares = Shares::of(alloc, rows.len(), workers, &|i: usize| i)?;
    if shares.len() == 1 {
        return Ok(united_items(items_in_range(alloc, rows, classes, range)?));
    }
    let unions = shared_out(
        rt,
        alloc,
        &shares,
        &|places: Range<usize>, _workers: u32| -> Result<Vec<Item>, NoMemory>
            requires { length rows.now ≤ length classes.now }
            ensures { IfOk result (λ united. IsUnion (items_in_range range
                (items_within places rows.entry.now) (items_within places classes.entry.now)) united.items) }
        { united_piece(alloc, rows, classes, range, places) },
    )?;
    united_again(alloc, unions)
}

/// Returns the coalesced items of the rows at the given indices whose classes are within a range.
fn united_piece(
    alloc: Global,
    rows: &SharedRows,
    classes: &[u64],
    range: Range<u64>,
    places: Range<usize>,
) -> Result<Vec<Item>, NoMemory>
    requires { length rows.now ≤ length classes.now }
    ensures { IfOk result (λ united. IsUnion (items_in_range range
        (items_within places rows.now) (items_within places classes.now)) united.items) }
{
    let items = items_in_piece(alloc, rows, classes, range, places)?;
    Ok(united_items(items))
}

/// Returns the maximal periods in which some item of each class holds, as items of that class with id 0 and amount 0,
/// by class and start. It reuses the items' list and allocates nothing.
pub fn united_items(mut items: Vec<Item>) -> Vec<Item>
    ensures { IsUnion items.items result.items }
{
    items.sort_unstable_by_key(|item| (item.class, item.period.from));
    unite(&mut items);
    items
}

/// Coalesces lists that are coalesced already. Each list is in order, so the sort detects that and only merges them.
fn united_again(alloc: Global, unions: Vec<Vec<Item>>) -> Result<Vec<Item>, NoMemory>
    ensures { IfOk result (λ united. IsUnion (all_in unions.items) united.items) }
{
    let mut items = in_one_list(alloc, unions)?;
    items.sort_by_key(|item| (item.class, item.period.from))?;
    unite(&mut items);
    Ok(items)
}

/// Coalesces each item with the following ones that continue it. Ids and amounts are removed.
fn unite(items: &mut Vec<Item>)
    requires { StandByClass items.old.items }
    ensures { IsUnion items.old.items items.new.items }
{
    let Some(first) = items.first() else {
        return;
    };
    let mut last = plain(first);
    // The first `count` items are coalesced.
    let mut count = 0;
    for i in 1..items.len() {
        let item = items[i];
        if let Some(both) = merged(&last, &item) {
            last = both;
        } else {
            items[count] = last;
            count += 1;
            last = plain(&item);
        }
    }
    items[count] = last;
    items.truncate(count + 1);
}

/// Returns an item with only the class and period of `item`.
fn plain(item: &Item) -> Item
    ensures { IsPlain item.now result }
{
    Item {
        period: item.period,
        id: 0,
        class: item.class,
        amount: 0,
    }
}

/// Returns both items as one if the second has the first one's class and starts no later than the first one ends. It
/// may end earlier.
fn merged(last: &Item, next: &Item) -> Option<Item>
    ensures { MatchOption result (RunsInto last.now next.now → ⊥)
        (λ both. RunsInto last.now next.now × IsMerged last.now next.now both) }
{
    if last.class == next.class && next.period.from <= last.period.to {
        let from = last.period.from;
        let to = last.period.to.max(next.period.to);
        return Some(Item {
            period: Period { from, to },
            id: 0,
            class: last.class,
            amount: 0,
        });
    }
    None
}
