//! The sort keys ("cells") of one side's rows: a row's class and its value in the compared column.

ghost use Rattle.std.specs.Prelude.{◌≡◌, ◌<◌, ◌++◌, IfOk, OnOk, length};
ghost use Rattle.std.specs.Thread.{IsSync};
ghost use Rattle.list_core.specs.Chunks.{all_in};
ghost use Rattle.work_core.specs.Pieces.{items_within};
ghost use Rattle.work_core.specs.Ranges.{has};
ghost use Rattle.match_core.specs.ClassedPlaces.{placed_from};
ghost use Rattle.match_core.specs.Cells.{
  AreCellsAt,
  AreInOrder,
  AreSorted,
  cell_cmp,
  cells_in,
  is_before,
};

use crate::NoMemory;
use crate::comparable::Comparable;
use list_core::in_one_list;
use std::alloc::Global;
use std::thread::Threads;
use work_core::{Range, Shares, places_within, shared_out, sort_unstable};

/// A row's sort key: its current class, and a value made from its value in the column. So sorting looks up and copies
/// no values. The row's index isn't compared, because equal keys need no order.
#[derive(Clone, Copy)]
#[derive_where(PartialEq, Eq, PartialOrd, Ord; V)]
pub(crate) struct Cell<V> {
    pub(crate) class: u64,
    pub(crate) value: V,
    #[derive_where(skip(EqHashOrd))]
    pub(crate) place: usize,
}

/// Returns a sort key for each row of a side, as lists that are in ascending order if they are read one after another.
/// With many rows, each worker first makes the keys of a part of the rows, so each value is read once. Then the values
/// are cut into ranges, and each range is sorted by some of the workers.
pub(crate) fn sorted_cells<R: Threads + Sync, V: Ord + Copy + Send + Sync, S: Comparable<V>>(
    rt: &R,
    alloc: Global,
    side: S,
    workers: u32,
) -> Result<Vec<Vec<Cell<V>>>, NoMemory>
    ensures { IfOk result (λ lists. AreSorted V.cmp S.IsOf (S.classes side) (S.column side)
        (all_in lists.items)) }
{
    let workers = workers.max(1);
    let made = made_cells::<R, V, S>(rt, alloc, side, workers)?;
    let shares = Shares::of(
        alloc,
        side.len(),
        workers,
        &|i: usize| -> Cell<V>
            requires { i < length (S.column side) }
        { side.cell_at(i) },
    )?;
    if shares.len() == 1 {
        sorted_as_one(rt, alloc, made, workers)
    } else {
        sorted_by_range(rt, alloc, &made, &shares)
    }
}

/// Returns a sort key for each row of a side, in the order of the rows, as one list for each partition of the rows.
fn made_cells<R: Threads + Sync, V: Ord + Copy + Send + Sync, S: Comparable<V>>(
    rt: &R,
    alloc: Global,
    side: S,
    workers: u32,
) -> Result<Vec<Vec<Cell<V>>>, NoMemory>
    requires { 0 < workers }
    ensures { IfOk result (λ lists. AreCellsAt S.IsOf (S.classes side) (S.column side)
        (placed_from 0 (S.classes side)) (all_in lists.items)) }
{
    let shares = Shares::of(alloc, side.len(), workers, &|i: usize| i)?;
    shared_out(
        rt,
        alloc,
        &shares,
        &|places: Range<usize>, _workers: u32| -> Result<Vec<Cell<V>>, NoMemory>
            ensures { IfOk result (λ cells. AreCellsAt S.IsOf (S.classes side) (S.column side)
                (items_within places (placed_from 0 (S.classes side))) cells.items) }
        { cells_of(alloc, side, places) },
    )
}

/// Returns the sort keys of the rows at the given indices, in order.
fn cells_of<V: Ord + Copy, S: Comparable<V>>(
    alloc: Global,
    side: S,
    places: Range<usize>,
) -> Result<Vec<Cell<V>>, NoMemory>
    ensures { IfOk result (λ cells. AreCellsAt S.IsOf (S.classes side) (S.column side)
        (items_within places (placed_from 0 (S.classes side))) cells.items) }
{
    let (start, end) = places_within(places, side.len());
    let mut cells = Vec::with_capacity(alloc, end - start)?;
    for i in start..end {
        cells.push(side.cell_at(i))?;
    }
    Ok(cells)
}

/// Returns the sort keys of some lists as one list in ascending order.
fn sorted_as_one<R: Threads + Sync, V: Ord + Copy + Send>(
    rt: &R,
    alloc: Global,
    made: Vec<Vec<Cell<V>>>,
    workers: u32,
) -> Result<Vec<Vec<Cell<V>>>, NoMemory>
    ensures { IfOk result
        (λ lists. AreInOrder V.cmp (all_in made.items) (all_in lists.items)) }
{
    let cells = in_order(rt, in_one_list(alloc, made)?, workers);
    let mut lists = Vec::with_capacity(alloc, 1)?;
    lists.push(cells)?;
    Ok(lists)
}

/// Returns the sort keys of some lists as one list per range. The lists are in ascending order if they are read one
/// after another.
fn sorted_by_range<R: Threads + Sync, V: Ord + Copy + Send + Sync>(
    rt: &R,
    alloc: Global,
    made: &[Vec<Cell<V>>],
    shares: &Shares<Cell<V>>,
) -> Result<Vec<Vec<Cell<V>>>, NoMemory>
    ensures { IfOk result (λ lists. AreInOrder V.cmp (all_in made.now) (all_in lists.items)) }
{
    shared_out(
        rt,
        alloc,
        shares,
        &|range: Range<Cell<V>>, workers: u32| -> Result<Vec<Cell<V>>, NoMemory>
            requires { IsSync R.row }
            ensures { IfOk result (λ cells.
                AreInOrder V.cmp (cells_in V.cmp range (all_in made.entry.now)) cells.items) }
        { sorted_in(rt, alloc, made, &range, workers) },
    )
}

/// Returns the sort keys of some lists that are within a range, in ascending order.
fn sorted_in<R: Threads + Sync, V: Ord + Copy + Send>(
    rt: &R,
    alloc: Global,
    made: &[Vec<Cell<V>>],
    range: &Range<Cell<V>>,
    workers: u32,
) -> Result<Vec<Cell<V>>, NoMemory>
    ensures { IfOk result
        (λ cells. AreInOrder V.cmp (cells_in V.cmp range.now (all_in made.now)) cells.items) }
{
    let mut cells = Vec::with_capacity(alloc, room_for_cells(made))?;
    for list in made {
        add_cells_in(range, list, &mut cells)?;
    }
    Ok(in_order(rt, cells, workers))
}

/// Returns the same sort keys in ascending order.
fn in_order<R: Threads + Sync, V: Ord + Copy + Send>(
    rt: &R,
    mut cells: Vec<Cell<V>>,
    workers: u32,
) -> Vec<Cell<V>>
    ensures { AreInOrder V.cmp cells.items result.items }
{
    sort_unstable(rt, &mut cells, workers);
    cells
}

/// Returns a capacity for the sort keys of one range if there is one range per list: a quarter more than the first
/// list has.
fn room_for_cells<V>(made: &[Vec<Cell<V>>]) -> usize {
    match made.first() {
        Some(list) => list.len().saturating_add(list.len() / 4),
        None => 0,
    }
}

/// Adds the sort keys that are within a range.
fn add_cells_in<V: Ord + Copy>(
    range: &Range<Cell<V>>,
    cells: &[Cell<V>],
    found: &mut Vec<Cell<V>>,
) -> Result<(), NoMemory>
    ensures { OnOk result
        (found.new.items ≡ found.old.items ++ cells_in V.cmp range.now cells.now) }
{
    for cell in cells {
        if has_cell(range, cell) {
            found.push(*cell)?;
        }
    }
    Ok(())
}

/// Returns whether the sort key is within a range.
fn has_cell<V: Ord>(range: &Range<Cell<V>>, cell: &Cell<V>) -> bool
    ensures { result ≡ has (cell_cmp V.cmp) range.now cell.now }
{
    range.has(cell)
}

/// Returns whether one sort key comes before the other.
pub(crate) fn is_before<V: Ord>(a: &Cell<V>, b: &Cell<V>) -> bool
    ensures { result ≡ is_before V.cmp a.now b.now }
{
    a < b
}
