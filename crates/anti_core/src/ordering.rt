//! Sorting the rows of an anti-join: each worker collects the rows of some left ids from all lists, and sorts them.

ghost use Rattle.std.specs.Prelude.{◌≡◌, ◌≢◌, ◌++◌, AllPairs, Contains, IfOk, OnOk, filter};
ghost use Rattle.std.specs.Ordering.{nat_cmp};
ghost use Rattle.list_core.specs.Chunks.{all_in};
ghost use Rattle.list_core.specs.Wanted.{IsListOf};
ghost use Rattle.work_core.specs.Ranges.{has};
ghost use Rattle.anti_core.specs.Anti.{AntiRowBefore};
ghost use Rattle.anti_core.specs.Ordering.{IsRowOf};

use crate::rows::{AntiRow, AntiRows};
use list_core::in_one_list;
use period_core::NoMemory;
use std::alloc::Global;
use std::thread::Threads;
use table_core::SharedRows;
use work_core::{Crew, Range, Shares, shared_out};

/// Returns the rows of some lists, in order. The left rows determine at which ids the work is split.
pub(crate) fn ordered<R: Threads + Sync, G>(
    crew: &Crew<'_, R, G>,
    lists: Vec<Vec<AntiRow>>,
    left: &SharedRows,
) -> Result<AntiRows, NoMemory>
    requires { AllPairs (λ a b. a ≢ b) (all_in lists.items) }
    ensures { IfOk result (λ rows. IsListOf AntiRowBefore (Contains (all_in lists.items)) rows) }
{
    let (rt, alloc) = (crew.rt, crew.alloc);
    let shares = Shares::of(alloc, left.len(), crew.workers, &|i: usize| left.at(i).id())?;
    if shares.len() == 1 {
        let rows = in_one_list(alloc, lists)?;
        return in_order(alloc, rows);
    }
    rows_by_id(rt, alloc, &lists, &shares, left.len() / shares.len())
}

/// Returns the rows in order, as one chunk.
fn in_order(alloc: Global, mut rows: Vec<AntiRow>) -> Result<AntiRows, NoMemory>
    requires { AllPairs (λ a b. a ≢ b) rows.items }
    ensures { IfOk result (λ sorted. IsListOf AntiRowBefore (Contains rows.items) sorted) }
{
    rows.sort_unstable();
    AntiRows::of(alloc, rows)
}

/// Returns the rows of all ids, in order. A worker takes each range of ids, with an initial capacity of `room` rows.
fn rows_by_id<R: Threads + Sync>(
    rt: &R,
    alloc: Global,
    lists: &[Vec<AntiRow>],
    shares: &Shares<u64>,
    room: usize,
) -> Result<AntiRows, NoMemory>
    requires { AllPairs (λ a b. a ≢ b) (all_in lists.now) }
    ensures { IfOk result (λ rows. IsListOf AntiRowBefore (Contains (all_in lists.now)) rows) }
{
    let sorted = shared_out(
        rt,
        alloc,
        shares,
        &|ids: Range<u64>, _workers: u32| -> Result<AntiRows, NoMemory>
            requires { AllPairs (λ a b. a ≢ b) (all_in lists.now) }
            ensures { IfOk result (λ rows.
                IsListOf AntiRowBefore (IsRowOf (all_in lists.entry.now) ids) rows) }
        { sorted_rows(alloc, lists, ids, room) },
    )?;
    AntiRows::of_all(alloc, sorted)
}

/// Returns the rows of some ids, in order, with an initial capacity of `room` rows.
fn sorted_rows(
    alloc: Global,
    lists: &[Vec<AntiRow>],
    ids: Range<u64>,
    room: usize,
) -> Result<AntiRows, NoMemory>
    requires { AllPairs (λ a b. a ≢ b) (all_in lists.now) }
    ensures { IfOk result (λ rows. IsListOf AntiRowBefore (IsRowOf (all_in lists.now) ids) rows) }
{
    let rows = rows_of_ids(alloc, lists, ids, room)?;
    in_order(alloc, rows)
}

/// Returns the rows of some ids, list by list, with an initial capacity of `room` rows.
fn rows_of_ids(
    alloc: Global,
    lists: &[Vec<AntiRow>],
    ids: Range<u64>,
    room: usize,
) -> Result<Vec<AntiRow>, NoMemory>
    ensures { IfOk result (λ rows.
        rows.items ≡ filter (λ row. has nat_cmp ids row.id) (all_in lists.now)) }
{
    let mut rows = Vec::with_capacity(alloc, room)?;
    for list in lists {
        add_rows_of_ids(list, ids, &mut rows)?;
    }
    Ok(rows)
}

/// Adds a list's rows of some ids.
fn add_rows_of_ids(
    list: &[AntiRow],
    ids: Range<u64>,
    rows: &mut Vec<AntiRow>,
) -> Result<(), NoMemory>
    ensures { OnOk result
        (rows.new.items ≡ rows.old.items ++ filter (λ row. has nat_cmp ids row.id) list.now) }
{
    for row in list {
        if ids.has(&row.id) {
            rows.push(*row)?;
        }
    }
    Ok(())
}
