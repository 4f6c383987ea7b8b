//! The aggregate of a table's rows by groups. The workers partition the rows by ranges of the values that they are
//! grouped by. So each group is in one partition, and each partition is listed and sorted separately.

ghost use Rattle.std.specs.Prelude.{◌<◌, ◌≤◌, IfOk, Some, length};
ghost use Rattle.std.specs.Thread.{IsSync};
ghost use Rattle.dip_core.specs.Item.{item_limit};
ghost use Rattle.work_core.specs.Limits.{worker_limit};
ghost use Rattle.agg_core.specs.Agg.{AreAggRows};
ghost use Rattle.agg_core.specs.Entries.{amount_at, value_at_place};
ghost use Rattle.agg_core.specs.KeyRanges.{rows_in_range};
ghost use Rattle.agg_core.specs.Shares.{rows_in};

use crate::entries::{entries_of, sorted};
use crate::func::Asked;
use crate::groups::group_entries;
use crate::keys::GroupColumn;
use crate::rows::{AggRows, AggShare, share_of_groups};
use period_core::NoMemory;
use std::thread::Threads;
use work_core::{Crew, Gate, Range, Shares, shared_out};

/// Returns the answer for the groups whose values are within one range.
fn share_of_range<R: Threads + Sync, G: Gate, K: Ord + Copy + Send + Sync, S: GroupColumn<K>>(
    crew: &Crew<'_, R, G>,
    asked: Asked,
    column: S,
    range: &Range<K>,
) -> Result<AggShare, NoMemory>
    requires few { length (S.rows column) ≤ item_limit }
    ensures { IfOk result (λ share.
        AreAggRows asked.measure (amount_at asked.amount) (value_at_place (Some (S.place column)))
        (rows_in_range S.value_of (value_at_place (Some (S.place column))) range.now
        (S.rows column)) (rows_in share)) }
{
    let entries = entries_of::<K, S>(crew.alloc, column, range)?;
    let entries = sorted::<R, K, S>(crew.rt, crew.alloc, entries, crew.workers)?;
    let grouped = group_entries::<K, S>(crew.alloc, column, &entries, asked.amount)?;
    share_of_groups(crew, asked.measure, grouped)
}

/// Returns the aggregate of the rows, grouped by their values in the column.
pub(crate) fn rows_by_group<
    R: Threads + Sync,
    G: Gate,
    K: Ord + Copy + Send + Sync,
    S: GroupColumn<K>,
>(crew: &Crew<'_, R, G>, asked: Asked, column: S) -> Result<AggRows, NoMemory>
    requires few { length (S.rows column) ≤ item_limit }
    ensures { IfOk result (λ answer.
        AreAggRows asked.measure (amount_at asked.amount) (value_at_place (Some (S.place column)))
        (S.rows column) answer) }
{
    let Crew {
        rt,
        alloc,
        gate,
        ..
    } = *crew;
    let shares = Shares::of(
        alloc,
        column.rows().len(),
        crew.workers,
        &|i: usize| -> K
            requires { i < length (S.rows column) }
        { column.key_at(i) },
    )?;
    let found = shared_out(
        rt,
        alloc,
        &shares,
        &|range: Range<K>, workers: u32| -> Result<AggShare, NoMemory>
            requires { IsSync R.row × IsSync G.row × (0 < workers) × (workers ≤ worker_limit)
                × (length (S.rows column) ≤ item_limit) }
            ensures { IfOk result (λ share.
                AreAggRows asked.measure (amount_at asked.amount)
                (value_at_place (Some (S.place column)))
                (rows_in_range S.value_of (value_at_place (Some (S.place column))) range
                (S.rows column))
                (rows_in share)) }
        {
            let crew = Crew::new(rt, alloc, workers, gate);
            share_of_range::<R, G, K, S>(&crew, asked, column, &range)
        },
    )?;
    AggRows::of_shares(found)
}
