//! The placement of one item. Last ends form a binary heap; its root is the end of the part that ends first.

ghost use Rattle.std.specs.Prelude.{◌≡◌, ℕ, ◌+◌, ◌-◌, ◌*◌, ◌^◌, ◌<◌, ◌≤◌, ◌<ℤ◌, min, MatchOption, IfOk, OnErr, OnOk, All, length, IsPermutation};
ghost use Rattle.std.specs.List.{HoldsAt};
ghost use Rattle.dip_core.specs.Placing.{IsPlaceFor, added};
ghost use Rattle.dip_core.specs.Heap.{ComesFirstBelow, CountsEachLook, GetsEnd, HoldLastEnds, IsFirstOver, IsHeap, IsHeapButAbove, IsHeapButBelow, IsNewOrFirst, IsPlaceByEnds};

use crate::last_ends::LastEnds;
use crate::parts::Parts;
use crate::{Item, NoMemory};
use period_core::Point;
use std::alloc::Global;

/// Adds the item to the part that the placing rule names, and returns that part's number. On `NoMemory` only the
/// number of looks may have changed, because the looks that were made still count.
pub(crate) fn place_item(
    alloc: Global,
    parts: &mut Parts,
    ends: &mut LastEnds,
    item: &Item,
) -> Result<usize, NoMemory>
    requires heap { IsHeap ends.old.ends }
    requires last_ends { HoldLastEnds parts.old ends.old.ends }
    requires room { ends.old.looks + 2 * length parts.old + 2 < 2 ^ 64 }
    ensures place { IfOk result (IsPlaceFor parts.old item.now.period.from) }
    ensures added { IfOk result (λ k. parts.new ≡ added parts.old k item.now) }
    ensures heap { OnOk result (IsHeap ends.new.ends) }
    ensures last_ends { OnOk result (HoldLastEnds parts.new ends.new.ends) }
    ensures looked { OnOk result (0 < length parts.old → ends.old.looks < ends.new.looks) }
    ensures few { OnOk result ((digits : ℕ) → length parts.old < 2 ^ digits
        → ends.new.looks ≤ ends.old.looks + 2 * digits) }
    ensures parts_err { OnErr result (parts.new ≡ parts.old) }
    ensures ends_err { OnErr result (ends.new.ends ≡ ends.old.ends) }
    ensures more { ends.old.looks ≤ ends.new.looks }
    ensures honest { CountsEachLook ends.old ends.new }
    ensures once { OnErr result (ends.new.looks ≤ ends.old.looks + 1) }
{
    let number = part_for(ends, item.period.from);
    parts.push(alloc, number, item)?;
    if let Err(refused) = set_end(ends, number, item.period.to) {
        parts.pop();
        return Err(refused);
    }
    Ok(number)
}

/// Returns the number of the part for an item that starts at `start`: the part that ends first, if it has ended by
/// then, and otherwise a new one.
pub(crate) fn part_for(ends: &mut LastEnds, start: Point) -> usize
    requires heap { IsHeap ends.old.ends }
    requires room { ends.old.looks + 1 < 2 ^ 64 }
    ensures place { IsPlaceByEnds ends.old.ends start result }
    ensures next { IsNewOrFirst ends.old.ends result }
    ensures same { ends.new.ends ≡ ends.old.ends }
    ensures looked { ends.new.looks ≡ ends.old.looks + min 1 (length ends.old.ends) }
    ensures honest { CountsEachLook ends.old ends.new }
{
    match first_over(ends, start) {
        Some(number) => number,
        None => ends.len(),
    }
}

/// Returns the number of the part that ends first, if that part has ended by `start`. If it hasn't, no part has. Only
/// the root is compared, so an empty heap costs no look.
fn first_over(ends: &mut LastEnds, start: Point) -> Option<usize>
    requires heap { IsHeap ends.old.ends }
    requires room { ends.old.looks + 1 < 2 ^ 64 }
    ensures first { MatchOption result (All (λ e. start <ℤ e.end) ends.old.ends)
        (IsFirstOver ends.old.ends start) }
    ensures same { ends.new.ends ≡ ends.old.ends }
    ensures looked { 0 < length ends.old.ends → ends.new.looks ≡ ends.old.looks + 1 }
    ensures none { length ends.old.ends ≡ 0 → ends.new.looks ≡ ends.old.looks }
    ensures honest { CountsEachLook ends.old ends.new }
{
    if ends.len() == 0 {
        return None;
    }
    if ends.is_over(0, start) {
        Some(ends.number(0))
    } else {
        None
    }
}

/// Sets the last end of the part with that number, which is a new part or the one that ends first. On `NoMemory`, which
/// only a new part can meet, nothing is changed.
pub(crate) fn set_end(ends: &mut LastEnds, number: usize, end: Point) -> Result<(), NoMemory>
    requires heap { IsHeap ends.old.ends }
    requires next { IsNewOrFirst ends.old.ends number }
    requires room { ends.old.looks + 2 * length ends.old.ends + 1 < 2 ^ 64 }
    ensures heap { OnOk result (IsHeap ends.new.ends) }
    ensures last_ends { OnOk result (GetsEnd ends.old.ends ends.new.ends number end) }
    ensures more { OnOk result (ends.old.looks ≤ ends.new.looks) }
    ensures few { OnOk result ((digits : ℕ) → length ends.old.ends < 2 ^ digits
        → ends.new.looks + min 1 (length ends.old.ends) ≤ ends.old.looks + 2 * digits) }
    ensures honest { OnOk result (CountsEachLook ends.old ends.new) }
    ensures err { OnErr result (ends.new ≡ ends.old) }
    ensures new { OnErr result (number ≡ length ends.old.ends) }
{
    if number == ends.len() {
        ends.push(end, number)?;
        sift_up(ends);
    } else {
        ends.replace_first(end, number);
        sift_down(ends);
    }
    Ok(())
}

/// Returns the child of index `place` that comes first. Costs at most one look.
fn first_below(ends: &mut LastEnds, place: usize) -> usize
    requires within { place * 2 + 1 < length ends.old.ends }
    requires room { ends.old.looks + 1 < 2 ^ 64 }
    ensures from { place * 2 + 1 ≤ result }
    ensures to { result ≤ place * 2 + 2 }
    ensures within { result < length ends.old.ends }
    ensures first { ComesFirstBelow ends.old.ends place result }
    ensures same { ends.new.ends ≡ ends.old.ends }
    ensures more { ends.old.looks ≤ ends.new.looks }
    ensures few { ends.new.looks ≤ ends.old.looks + 1 }
    ensures honest { CountsEachLook ends.old ends.new }
{
    let many = ends.len();
    let left = place * 2 + 1;
    let right = left + 1;
    if right == many {
        return left;
    }
    if ends.comes_first(right, left) {
        right
    } else {
        left
    }
}

/// Restores the heap if its first end may come after others: moves it down, with two looks per level.
fn sift_down(ends: &mut LastEnds)
    requires some { 0 < length ends.old.ends }
    requires heap { IsHeapButBelow ends.old.ends 0 }
    requires room { ends.old.looks + 2 * length ends.old.ends < 2 ^ 64 }
    ensures heap { IsHeap ends.new.ends }
    ensures same { IsPermutation ends.old.ends ends.new.ends }
    ensures more { ends.old.looks ≤ ends.new.looks }
    ensures few { (digits : ℕ) → length ends.old.ends < 2 ^ digits
        → ends.new.looks + 2 ≤ ends.old.looks + 2 * digits }
    ensures honest { CountsEachLook ends.old ends.new }
{
    let mut place = 0;
    while place < ends.len() / 2 {
        let below = first_below(ends, place);
        if ends.comes_first(place, below) {
            return;
        }
        ends.swap(place, below);
        place = below;
    }
}

/// Restores the heap if its last end may come before others: moves it up, with one look per level.
fn sift_up(ends: &mut LastEnds)
    requires some { 0 < length ends.old.ends }
    requires heap { IsHeapButAbove ends.old.ends (length ends.old.ends - 1) }
    requires room { ends.old.looks + length ends.old.ends < 2 ^ 64 }
    ensures heap { IsHeap ends.new.ends }
    ensures same { IsPermutation ends.old.ends ends.new.ends }
    ensures more { ends.old.looks ≤ ends.new.looks }
    ensures few { (digits : ℕ) → length ends.old.ends ≤ 2 ^ digits
        → ends.new.looks ≤ ends.old.looks + digits }
    ensures honest { CountsEachLook ends.old ends.new }
{
    let mut place = ends.len() - 1;
    while place > 0 {
        let above = (place - 1) / 2;
        if ends.comes_first(above, place) {
            return;
        }
        ends.swap(above, place);
        place = above;
    }
}
