//! Items by class, one bundle at a time. A bundle is all items of some consecutive classes. Items of other classes
//! don't match them, so only parts of the same bundle are paired. A bundle of several classes has few items, and so
//! few parts.

ghost use Rattle.std.specs.Prelude.{◌≡◌, ◌+◌, ◌<◌, ◌≤◌, not, length, filter, IfOk, IsPermutation};
ghost use Rattle.std.specs.Ordering.{nat_cmp};
ghost use Rattle.dip_core.specs.Item.{item_limit};
ghost use Rattle.dip_core.specs.Division.{IsLeastDivision};
ghost use Rattle.work_core.specs.Ranges.{has_begun, has_ended};
ghost use Rattle.grid_core.specs.Bundles.{AreFromClass, ArePartedAt, ClassesRise, items_in};

use dip_core::{Division, Item, create_dip};
use period_core::NoMemory;
use std::alloc::Global;
use std::thread::Threads;
use work_core::tuning::BUNDLE_ITEMS;
use work_core::{Crew, Range, Shares, sort_unstable_by_key};

/// Sorts the items by class, on several threads if there are many items and several workers.
pub fn order_by_class<R: Threads + Sync>(rt: &R, items: &mut Vec<Item>, workers: u32)
    ensures permutation { IsPermutation items.old.items items.new.items }
    ensures sorted { ClassesRise items.new.items }
{
    sort_unstable_by_key(rt, items, |item| item.class, workers);
}

/// Returns the last class of the bundle that begins with `first`. If that is a later class than `first`'s, each side
/// has at most `BUNDLE_ITEMS` items up to it. So a class with more items isn't bundled with later ones.
pub fn last_class(first: &Item, lefts: &[Item], rights: &[Item]) -> u64
    ensures { first.now.class ≤ result }
{
    let class = class_of_enough(lefts).min(class_of_enough(rights));
    class.max(first.class)
}

/// Returns the last class up to which there are at most `BUNDLE_ITEMS` items, or the greatest `u64` if there aren't
/// more items.
fn class_of_enough(items: &[Item]) -> u64 {
    match items.get(BUNDLE_ITEMS) {
        Some(item) => item.class.saturating_sub(1),
        None => u64::MAX,
    }
}

/// Returns the items of classes up to `class`, and the items of higher classes.
pub fn parted_behind(class: u64, items: &[Item]) -> (&[Item], &[Item])
    requires { ClassesRise items.now }
    ensures { ArePartedAt (class + 1) items.now result.0.now result.1.now }
{
    let low = items.partition_point(|item| item.class <= class);
    items.split_at(low)
}

/// Returns the items of class `class` and of higher classes.
pub fn items_from(class: u64, items: &[Item]) -> &[Item]
    requires { ClassesRise items.now }
    ensures { AreFromClass class items.now result.now }
{
    let lower = items.partition_point(|item| item.class < class);
    &items[lower..]
}

/// Returns the items whose classes are within the range.
pub fn items_in(range: Range<u64>, items: &[Item]) -> &[Item]
    requires { ClassesRise items.now }
    ensures { result.now ≡ items_in range items.now }
{
    items_before(range.before, items_behind(range.from, items))
}

/// Returns the items from class `first` on, or all items for `None`.
fn items_behind(first: Option<u64>, items: &[Item]) -> &[Item]
    requires { ClassesRise items.now }
    ensures { result.now ≡ filter (λ x. has_begun nat_cmp first x.class) items.now }
{
    match first {
        None => items,
        Some(class) => items_from(class, items),
    }
}

/// Returns the items of classes lower than `end`, or all items for `None`.
fn items_before(end: Option<u64>, items: &[Item]) -> &[Item]
    requires { ClassesRise items.now }
    ensures { result.now ≡ filter (λ x. not (has_ended nat_cmp end x.class)) items.now }
{
    match end {
        None => items,
        Some(class) => &items[..items.partition_point(|item| item.class < class)],
    }
}

/// Returns ranges of classes, each with some of the workers. They are cut so that each worker has about the same
/// number of items of the larger side.
///
/// # Errors
///
/// `NoMemory` if an allocation is refused.
pub fn class_shares(
    alloc: Global,
    left: &[Item],
    right: &[Item],
    workers: u32,
) -> Result<Shares<u64>, NoMemory>
    requires { 0 < workers }
    ensures { IfOk result (λ shares. shares.workers ≡ workers) }
{
    let more = if left.len() < right.len() {
        right
    } else {
        left
    };
    Shares::of(
        alloc,
        more.len(),
        workers,
        &|i: usize| -> u64
            requires { i < length more.now }
        { more[i].class },
    )
}

/// Returns a division of a copy of the items.
pub fn divided<R: Threads + Sync, G>(
    crew: &Crew<'_, R, G>,
    items: &[Item],
) -> Result<Division, NoMemory>
    requires { length items.now ≤ item_limit }
    ensures { IfOk result (IsLeastDivision items.now) }
{
    let own = Vec::from_slice(crew.alloc, items)?;
    create_dip(crew.rt, crew.alloc, own, crew.workers)
}
