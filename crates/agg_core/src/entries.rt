//! Rows sorted by the values that they are grouped by.

ghost use Rattle.std.specs.Prelude.{IfOk, IsPermutation, IsSortedByKey, OnOk, Some};
ghost use Rattle.std.specs.List.Sorted.{IsStableByKey};
ghost use Rattle.row_core.specs.ValueOrder.{value_cmp};
ghost use Rattle.agg_core.specs.Entries.{
  AreEntries,
  AreEntriesSorted,
  entry_value,
  value_at_place,
};
ghost use Rattle.agg_core.specs.KeyRanges.{rows_in_range};

use crate::keys::{GroupColumn, has_key};
use list_core::room_for_half;
use period_core::NoMemory;
use std::alloc::Global;
use std::thread::Threads;
use work_core::{Range, sort_by_key};

/// The index of a row, with the sort key of the value by which it is grouped.
#[derive(Clone, Copy)]
pub(crate) struct Entry<K> {
    pub key: K,
    pub row: usize,
}

/// Returns a capacity for the entries of a range: all rows if it has no ends, otherwise somewhat more than half of
/// them.
fn room_for<K>(range: &Range<K>, rows: usize) -> usize {
    if range.from.is_none() && range.before.is_none() {
        rows
    } else {
        room_for_half(rows)
    }
}

/// Returns an entry for each row whose value is within the range, in order.
pub(crate) fn entries_of<K: Ord + Copy, S: GroupColumn<K>>(
    alloc: Global,
    column: S,
    range: &Range<K>,
) -> Result<Vec<Entry<K>>, NoMemory>
    ensures { IfOk result (λ entries. AreEntries S.value_of (S.rows column) (S.place column)
        (rows_in_range S.value_of (value_at_place (Some (S.place column))) range.now
        (S.rows column)) entries.items) }
{
    let count = column.rows().len();
    let mut entries = Vec::with_capacity(alloc, room_for(range, count))?;
    for row in 0..count {
        let key = column.key_at(row);
        if has_key::<K, S>(range, &key) {
            entries.push(Entry { key, row })?;
        }
    }
    Ok(entries)
}

/// Sorts the entries by value. The sort is stable.
fn sort_entries<R: Threads + Sync, K: Ord + Copy + Send, S: GroupColumn<K>>(
    rt: &R,
    alloc: Global,
    entries: &mut Vec<Entry<K>>,
    workers: u32,
) -> Result<(), NoMemory>
    ensures permutation { IsPermutation entries.old.items entries.new.items }
    ensures sorted { OnOk result
        (IsSortedByKey (entry_value S.value_of) value_cmp entries.new.items) }
    ensures stable { IsStableByKey (entry_value S.value_of) value_cmp entries.old.items
        entries.new.items }
{
    sort_by_key(rt, alloc, entries, |entry| entry.key, workers)
}

/// Returns the entries sorted by value. The sort is stable.
pub(crate) fn sorted<R: Threads + Sync, K: Ord + Copy + Send, S: GroupColumn<K>>(
    rt: &R,
    alloc: Global,
    mut entries: Vec<Entry<K>>,
    workers: u32,
) -> Result<Vec<Entry<K>>, NoMemory>
    ensures { IfOk result (λ sorted. AreEntriesSorted S.value_of entries.items sorted.items) }
{
    sort_entries::<R, K, S>(rt, alloc, &mut entries, workers)?;
    Ok(entries)
}
