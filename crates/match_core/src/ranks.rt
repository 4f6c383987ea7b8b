//! Ranks the rows of one side: rows with the same current class and the same value have the same rank.

ghost use Rattle.std.specs.Prelude.{◌≡◌, ◌+◌, ◌<◌, [], All, IfOk, IsSorted, MatchBool, length, map};
ghost use Rattle.list_core.specs.Chunks.{all_in};
ghost use Rattle.match_core.specs.ClassedPlaces.{classed_by};
ghost use Rattle.match_core.specs.Cells.{
  AgreeOnPlaces,
  AreRankedAndPlaced,
  AreRankedUpto,
  AreRanksOf,
  AreRising,
  AreSorted,
  HasLast,
  IsEntered,
  IsFromLast,
  cell_cmp,
  count_before,
  same_cell,
  spot_of,
};

use crate::NoMemory;
use crate::cells::{Cell, sorted_cells};
use crate::comparable::Comparable;
use crate::row_items::ClassedPlace;
use std::alloc::Global;
use std::thread::Threads;

/// The ranks of a side's rows.
#[derive(Drop)]
pub(crate) struct Ranked<V> {
    /// The rank of each row.
    pub ranks: Vec<u64>,
    /// For each rank the sort key of its rows, in strictly ascending order.
    pub firsts: Vec<Cell<V>>,
    /// The indices of the rows with their ranks, in the order of the sort keys.
    pub places: Vec<ClassedPlace>,
}

/// Returns the ranks of a side's rows.
pub(crate) fn rank_side<R: Threads + Sync, V: Ord + Copy + Send + Sync, S: Comparable<V>>(
    rt: &R,
    alloc: Global,
    side: S,
    workers: u32,
) -> Result<Ranked<V>, NoMemory>
    ensures { IfOk result (λ ranked. AreRankedAndPlaced V.cmp S.IsOf (S.classes side)
        (S.column side) ranked.ranks.items ranked.firsts.items ranked.places.items) }
{
    let lists = sorted_cells(rt, alloc, side, workers)?;
    let mut ranks = vec![in alloc; 0; side.len()]?;
    let mut places = Vec::with_capacity(alloc, side.len())?;
    let firsts = rank_cells(alloc, &lists, &mut ranks, &mut places)?;
    Ok(Ranked {
        ranks,
        firsts,
        places,
    })
}

/// Writes each row's rank: the number of different sort keys before its own. Adds the row indices with these ranks, in
/// the order of the keys. Returns the different keys.
fn rank_cells<V: Ord + Copy>(
    alloc: Global,
    lists: &[Vec<Cell<V>>],
    ranks: &mut [u64],
    places: &mut Vec<ClassedPlace>,
) -> Result<Vec<Cell<V>>, NoMemory>
    requires within { All (λ cell. cell.place < length ranks.old) (all_in lists.now) }
    requires agree { AgreeOnPlaces V.cmp (all_in lists.now) }
    requires rise { IsSorted (cell_cmp V.cmp) (all_in lists.now) }
    requires none { places.old.items ≡ [] }
    ensures ranks { IfOk result
        (λ firsts. AreRanksOf V.cmp (all_in lists.now) ranks.new firsts.items) }
    ensures rise { IfOk result (λ firsts. AreRising V.cmp firsts.items) }
    ensures places { IfOk result (λ _.
        places.new.items ≡ map (classed_by ranks.new) (map spot_of (all_in lists.now))) }
{
    let mut firsts = Vec::new(alloc);
    for number in 0..lists.len() {
        rank_list(lists, number, &mut firsts, ranks, places)?;
    }
    Ok(firsts)
}

/// Writes the ranks of one list's rows, and adds its different keys and its rows' indices. The lists before it must be
/// ranked already.
fn rank_list<V: Ord + Copy>(
    lists: &[Vec<Cell<V>>],
    number: usize,
    firsts: &mut Vec<Cell<V>>,
    ranks: &mut [u64],
    places: &mut Vec<ClassedPlace>,
) -> Result<(), NoMemory>
    requires number { number < length lists.now }
    requires within { All (λ cell. cell.place < length ranks.old) (all_in lists.now) }
    requires agree { AgreeOnPlaces V.cmp (all_in lists.now) }
    requires rise { IsSorted (cell_cmp V.cmp) (all_in lists.now) }
    requires before { AreRankedUpto V.cmp (all_in lists.now) (count_before number lists.now)
        firsts.old.items ranks.old places.old.items }
    ensures { IfOk result
        (λ _. AreRankedUpto V.cmp (all_in lists.now) (count_before (number + 1) lists.now)
        firsts.new.items ranks.new places.new.items) }
{
    let cells = lists[number].as_slice();
    for i in 0..cells.len() {
        let cell = &cells[i];
        let rank = enter_cell(firsts, cell)?;
        ranks[cell.place] = rank;
        places.push(ClassedPlace {
            class: rank,
            place: cell.place,
        })?;
    }
    Ok(())
}

/// Returns the rank of the sort key: the last rank if the last key is equal, or a new one with the key appended.
fn enter_cell<V: Ord + Copy>(firsts: &mut Vec<Cell<V>>, cell: &Cell<V>) -> Result<u64, NoMemory>
    requires rise { AreRising V.cmp firsts.old.items }
    requires upto { IsFromLast V.cmp firsts.old.items cell.now }
    ensures { IfOk result (IsEntered V.cmp firsts.old.items cell.now firsts.new.items) }
{
    if !is_last(firsts, cell) {
        firsts.push(*cell)?;
    }
    Ok(firsts.len() as u64 - 1)
}

/// Returns whether the last sort key equals this one.
fn is_last<V: Ord>(firsts: &[Cell<V>], cell: &Cell<V>) -> bool
    ensures { MatchBool result (HasLast V.cmp firsts.now cell.now)
        (HasLast V.cmp firsts.now cell.now → ⊥) }
{
    match firsts.last() {
        Some(last) => is_same_cell(last, cell),
        None => false,
    }
}

/// Returns whether two sort keys have the same current class and the same value.
pub(crate) fn is_same_cell<V: Ord>(a: &Cell<V>, b: &Cell<V>) -> bool
    ensures { result ≡ same_cell V.cmp a.now b.now }
{
    a == b
}
