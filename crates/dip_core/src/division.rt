//! Divisions: items in the least number of parts without overlaps.

ghost use Rattle.std.specs.Prelude.{◌≡◌, ◌<◌, ◌≤◌, ◌↔◌, List, [], length, All, IsNone, IfSome, IfOk, IsSorted};
ghost use Rattle.dip_core.specs.declared.item.Item.{Item};
ghost use Rattle.dip_core.specs.Item.{IsChain, IsRising, HasDistinctIds, item_cmp, item_limit};
ghost use Rattle.dip_core.specs.Division.{all_of, part_at, IsDip, IsDivision, IsInstant, IsInstantOf, IsLeast, IsLeastDivision};
ghost use Rattle.dip_core.specs.Invariants.{ArePlaced, IsDivided};

use crate::numbers::{numbers_of, parts_by_two, parts_from};
use crate::part_items::PartItems;
use crate::{Item, NoMemory, Part};
use period_core::Point;
use std::alloc::Global;
use std::marker::Model;
use std::thread::Threads;
use work_core::sort_unstable;
use work_core::tuning::ITEMS_FOR_THREADS;

/// A division of at most 1,000,000 items into the least number of parts without overlaps. Contracts see it as the list
/// of its parts.
#[derive(Drop)]
pub struct Division {
    parts: Vec<PartItems>,
}

impl Model for Division {
    ghost use Rattle.std.specs.Prelude.{List};
    ghost use Rattle.dip_core.specs.declared.item.Item.{Item};
    ghost use Rattle.dip_core.specs.Invariants.{IsDivided};

    ghost Value = { List (List Item) };

    ghost view = { λ d. d.parts.items };

    ghost invariant = { λ d. IsDivided d.parts.items };
}

impl Division {
    /// Makes a division of the placer's parts. No other function makes one.
    pub(crate) fn from_parts(parts: Vec<PartItems>) -> Division
        requires { IsDivided parts.items }
        ensures { result ≡ parts.items }
    {
        Division { parts }
    }

    /// Returns the number of parts, at most 1,000,000. The parts divide their items, each part's items are in
    /// ascending order, and no division of those items has fewer parts.
    pub fn parts(&self) -> u32
        ensures value { result ≡ length self.now }
        ensures few { length self.now ≤ item_limit }
        ensures small { length (all_of self.now) ≤ item_limit }

        // The invariant of the type.
        ensures division { IsDivision (all_of self.now) self.now }
        ensures chained { All IsChain self.now }
        ensures rising { All IsRising self.now }
        ensures least { (items : List Item) → IsDivision items self.now
            → IsLeast items (length self.now) }
    {
        self.parts.len() as u32
    }

    /// Returns the part with that number, which must be below `parts`.
    pub fn part(&self, number: u32) -> Part<'_>
        requires { number < length self.now }
        ensures { result.items.now ≡ part_at self.now number }
    {
        let part = &self.parts[number as usize];
        Part {
            items: part.items(),
        }
    }

    /// Returns the earliest instant whose overlap count equals the number of parts, or `None` without parts.
    pub fn instant(&self) -> Option<Point>
        ensures { IsInstantOf self.now result }
    {
        instant_of(&self.parts)
    }
}

/// Returns the start of the last part's first item. That part was opened because every other part still had an item at
/// that instant.
fn instant_of(parts: &[PartItems]) -> Option<Point>
    requires { ArePlaced parts.now }
    ensures none { IsNone result ↔ (parts.now ≡ []) }
    ensures value { IfSome result (IsInstant (all_of parts.now) (length parts.now)) }
{
    if parts.is_empty() {
        return None;
    }
    let last = parts.len() - 1;
    let items = parts[last].items();
    Some(items[0].period.from)
}

/// Divides at most 1,000,000 items, which must be sorted, into the least number of parts without overlaps. If ids are
/// distinct, the division is the items' dip: each item is in the part that `Placer::place` chooses for it.
///
/// # Errors
///
/// `NoMemory` if an allocation is refused.
pub fn divide_sorted(alloc: Global, sorted: &[Item]) -> Result<Division, NoMemory>
    requires sorted { IsSorted item_cmp sorted.now }
    requires few { length sorted.now ≤ item_limit }
    ensures least { IfOk result (IsLeastDivision sorted.now) }
    ensures dip { IfOk result (λ division. HasDistinctIds sorted.now
        → IsDip sorted.now division) }
    ensures empty { IfOk result (λ division. (division ≡ []) ↔ (sorted.now ≡ [])) }
{
    let numbers = numbers_of(alloc, sorted)?;
    let parts = parts_from(alloc, sorted, &numbers.of_items, 0, &numbers.sizes)?;
    Ok(Division::from_parts(parts))
}

/// Divides at most 1,000,000 items into the least number of parts without overlaps. If ids are distinct, the division
/// is the items' dip: each item is in the part that `Placer::place` chooses for it, if items are placed by start, end
/// and id. A long list is sorted on several threads, and its parts are made by two, if `workers` is more than 1.
///
/// # Errors
///
/// `NoMemory` if an allocation is refused.
pub fn create_dip<R: Threads + Sync>(
    rt: &R,
    alloc: Global,
    mut items: Vec<Item>,
    workers: u32,
) -> Result<Division, NoMemory>
    requires { length items.items ≤ item_limit }
    ensures least { IfOk result (IsLeastDivision items.items) }
    ensures dip { IfOk result (λ division. HasDistinctIds items.items
        → IsDip items.items division) }
    ensures empty { IfOk result (λ division. (division ≡ []) ↔ (items.items ≡ [])) }
{
    sort_unstable(rt, &mut items, workers);
    if workers < 2 || items.len() < ITEMS_FOR_THREADS {
        return divide_sorted(alloc, &items);
    }
    let numbers = numbers_of(alloc, &items)?;
    let parts = parts_by_two(rt, alloc, &items, &numbers)?;
    Ok(Division::from_parts(parts))
}
