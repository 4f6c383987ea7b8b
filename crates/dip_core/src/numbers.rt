//! The number of each item's part, and the parts by these numbers.

ghost use Rattle.std.specs.Prelude.{◌≡◌, ℕ, ◌≤◌, ◌<◌, ◌==◌, [], All, IfOk, IsSorted, count_by, length};
ghost use Rattle.std.specs.List.{HoldsAt};
ghost use Rattle.dip_core.specs.Item.{item_cmp, item_limit};
ghost use Rattle.dip_core.specs.Numbers.{DivideByNumbers, parts_numbered};

use crate::last_ends::LastEnds;
use crate::part_items::PartItems;
use crate::placement::{part_for, set_end};
use crate::{Item, NoMemory};
use std::alloc::Global;
use std::thread::{Threads, join};

/// The number of each item's part, in the order of the items, and the number of items of each part.
#[derive(Drop)]
pub(crate) struct Numbers {
    pub of_items: Vec<u32>,
    pub sizes: Vec<usize>,
}

/// Returns the numbers of the parts that the placing rule names for the items, which must be sorted.
pub(crate) fn numbers_of(alloc: Global, sorted: &[Item]) -> Result<Numbers, NoMemory>
    requires sorted { IsSorted item_cmp sorted.now }
    requires few { length sorted.now ≤ item_limit }
    ensures { IfOk result (λ numbers.
        DivideByNumbers sorted.now numbers.of_items.items (length numbers.sizes.items)) }
{
    let mut ends = LastEnds::new(alloc);
    let of_items = place_all(alloc, &mut ends, sorted)?;
    let sizes = sizes_of(alloc, &of_items, ends.len())?;
    Ok(Numbers { of_items, sizes })
}

/// Returns the number of each item's part. The ends, empty at first, are then the last ends of these parts.
fn place_all(alloc: Global, ends: &mut LastEnds, sorted: &[Item]) -> Result<Vec<u32>, NoMemory>
    requires sorted { IsSorted item_cmp sorted.now }
    requires few { length sorted.now ≤ item_limit }
    requires new { ends.old ≡ record { ends = []; looks = 0; all_looks = 0 } }
    ensures { IfOk result (λ numbers.
        DivideByNumbers sorted.now numbers.items (length ends.new.ends)) }
{
    let mut numbers = Vec::with_capacity(alloc, sorted.len())?;
    for item in sorted {
        let number = part_for(ends, item.period.from);
        set_end(ends, number, item.period.to)?;
        numbers.push(number as u32)?;
    }
    Ok(numbers)
}

/// Returns how often each number below `count` occurs.
fn sizes_of(alloc: Global, numbers: &[u32], count: usize) -> Result<Vec<usize>, NoMemory>
    requires { All (λ n. n < count) numbers.now }
    ensures len { IfOk result (λ sizes. length sizes.items ≡ count) }
    ensures counts { IfOk result (λ sizes. (k : ℕ) → k < count
        → HoldsAt (λ size. size ≡ count_by (λ n. n == k) numbers.now) sizes.items k) }
{
    let mut sizes = vec![in alloc; 0; count]?;
    for number in numbers {
        sizes[*number as usize] += 1;
    }
    Ok(sizes)
}

/// Returns the parts with the numbers from `from` on, one for each size. A size is the number of items for which the
/// part's list gets memory at first.
pub(crate) fn parts_from(
    alloc: Global,
    items: &[Item],
    numbers: &[u32],
    from: usize,
    sizes: &[usize],
) -> Result<Vec<PartItems>, NoMemory>
    requires { length numbers.now ≡ length items.now }
    ensures { IfOk result (λ parts.
        parts.items ≡ parts_numbered items.now numbers.now from (length sizes.now)) }
{
    let mut parts = empty_parts(alloc, sizes)?;
    for i in 0..items.len() {
        let number = numbers[i] as usize;
        if from <= number && number - from < parts.len() {
            parts[number - from].push(&items[i])?;
        }
    }
    Ok(parts)
}

/// Returns parts without items, each with memory for that many.
fn empty_parts(alloc: Global, sizes: &[usize]) -> Result<Vec<PartItems>, NoMemory>
    ensures { IfOk result (λ parts. parts.items ≡ parts_numbered [] [] 0 (length sizes.now)) }
{
    let mut parts = Vec::with_capacity(alloc, sizes.len())?;
    for size in sizes {
        parts.push(PartItems::with_capacity(alloc, *size)?)?;
    }
    Ok(parts)
}

/// Returns all parts. One thread makes the first half of them, and another the others.
pub(crate) fn parts_by_two<R: Threads + Sync>(
    rt: &R,
    alloc: Global,
    items: &[Item],
    numbers: &Numbers,
) -> Result<Vec<PartItems>, NoMemory>
    requires { length numbers.now.of_items.items ≡ length items.now }
    ensures { IfOk result (λ parts. parts.items
        ≡ parts_numbered items.now numbers.now.of_items.items 0 (length numbers.now.sizes.items)) }
{
    let of_items = numbers.of_items.as_slice();
    let half = numbers.sizes.len() / 2;
    let (first, others) = numbers.sizes.as_slice().split_at(half);
    let (low, high) = join(
        rt,
        || -> Result<Vec<PartItems>, NoMemory>
            requires { length of_items.now ≡ length items.now }
            ensures { IfOk result (λ parts. parts.items
                ≡ parts_numbered items.entry.now of_items.entry.now 0 (length first.entry.now)) }
        { parts_from(alloc, items, of_items, 0, first) },
        || -> Result<Vec<PartItems>, NoMemory>
            requires { length of_items.now ≡ length items.now }
            ensures { IfOk result (λ parts. parts.items
                ≡ parts_numbered items.entry.now of_items.entry.now half (length others.entry.now)) }
        { parts_from(alloc, items, of_items, half, others) },
    );
    let mut parts = low?;
    let mut high = high?;
    parts.append(&mut high)?;
    Ok(parts)
}
