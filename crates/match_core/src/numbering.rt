//! Numbers the classes of both sides by their ranks.

ghost use Rattle.std.specs.Prelude.{◌≡◌, ◌+◌, ◌<◌, ◌≤◌, All, IfOk, IfSome, length, map, slice_get, take, true, false};
ghost use Rattle.match_core.specs.ClassedPlaces.{numbered_by};
ghost use Rattle.match_core.specs.Cells.{AreMatched, AreNumbered, AreRising, IsNextTo, IsNumberOf, is_before};

use crate::NoMemory;
use crate::cells::{Cell, is_before};
use crate::ranks::is_same_cell;
use crate::row_items::ClassedPlace;
use std::alloc::Global;

/// Returns a number for each right sort key: the index of the equal left key, or a number past all left indices if no
/// left key is equal.
pub(crate) fn numbers_of<V: Ord>(
    alloc: Global,
    lefts: &[Cell<V>],
    rights: &[Cell<V>],
) -> Result<Vec<u64>, NoMemory>
    requires left { AreRising V.cmp lefts.now }
    requires right { AreRising V.cmp rights.now }
    ensures { IfOk result (λ numbers. AreMatched V.cmp lefts.now rights.now numbers.items) }
{
    let mut numbers = Vec::with_capacity(alloc, rights.len())?;
    let mut left = 0;
    for right in 0..rights.len() {
        left = first_from(lefts, left, &rights[right]);
        numbers.push(number_of(lefts, left, rights, right))?;
    }
    Ok(numbers)
}

/// Returns the first index, from `from` on, whose left sort key doesn't come before `cell`.
fn first_from<V: Ord>(lefts: &[Cell<V>], from: usize, cell: &Cell<V>) -> usize
    requires from { from ≤ length lefts.now }
    requires before { All (λ x. is_before V.cmp x cell.now ≡ true) (take from lefts.now) }
    ensures within { result ≤ length lefts.now }
    ensures before { All (λ x. is_before V.cmp x cell.now ≡ true) (take result lefts.now) }
    ensures next { IfSome (slice_get lefts.now result) (λ x. is_before V.cmp x cell.now ≡ false) }
{
    for at in from..lefts.len() {
        if !is_before(&lefts[at], cell) {
            return at;
        }
    }
    lefts.len()
}

/// Returns the number of the right sort key at index `right`. `left` must be the first left index whose key doesn't
/// come before it.
fn number_of<V: Ord>(lefts: &[Cell<V>], left: usize, rights: &[Cell<V>], right: usize) -> u64
    requires right { right < length rights.now }
    requires within { left ≤ length lefts.now }
    requires rise { AreRising V.cmp lefts.now }
    requires before { IsNextTo V.cmp lefts.now rights.now right left }
    ensures { IsNumberOf V.cmp lefts.now rights.now right result }
{
    if left < lefts.len() && is_same_cell(&lefts[left], &rights[right]) {
        left as u64
    } else {
        (lefts.len() + right) as u64
    }
}

/// Replaces each right row's rank by that rank's number, which is the row's class.
pub(crate) fn number_rows(ranks: &mut [u64], numbers: &[u64])
    requires { All (λ rank. rank < length numbers.now) ranks.old }
    ensures { AreNumbered ranks.old numbers.now ranks.new }
{
    for i in 0..ranks.len() {
        ranks[i] = numbers[ranks[i] as usize];
    }
}

/// Replaces the rank at each index by that rank's number.
pub(crate) fn number_places(places: &mut [ClassedPlace], numbers: &[u64])
    requires { All (λ at. at.class < length numbers.now) places.old }
    ensures { places.new ≡ map (numbered_by numbers.now) places.old }
{
    for i in 0..places.len() {
        let at = places[i];
        places[i] = ClassedPlace {
            class: numbers[at.class as usize],
            place: at.place,
        };
    }
}
