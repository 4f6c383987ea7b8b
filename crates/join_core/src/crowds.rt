//! The highest overlap count of some items, which is the least number of parts they can be divided into.

ghost use Rattle.std.specs.Prelude.{◌≡◌, ◌≤◌, length, map, IfOk, IsSorted};
ghost use Rattle.std.specs.Ordering.{int_cmp};
ghost use Rattle.dip_core.specs.Division.{IsLeast};
ghost use Rattle.dip_core.specs.Item.{item_limit, HasDistinctIds};
ghost use Rattle.match_core.specs.Items.{unclassed};
ghost use Rattle.join_core.specs.Crowds.{AreOrdered, IsMostAtOnce, ends_of, starts_of};

use dip_core::Item;
use period_core::{NoMemory, Point};
use std::alloc::Global;
use std::thread::Threads;
use work_core::{Crew, sort_unstable};

/// Returns the starts of the items.
fn starts_of(alloc: Global, items: &[Item]) -> Result<Vec<Point>, NoMemory>
    ensures { IfOk result (λ starts. starts.items ≡ starts_of items.now) }
{
    items.iter().map(|item| item.period.from).collect(alloc)
}

/// Returns the ends of the items.
fn ends_of(alloc: Global, items: &[Item]) -> Result<Vec<Point>, NoMemory>
    ensures { IfOk result (λ ends. ends.items ≡ ends_of items.now) }
{
    items.iter().map(|item| item.period.to).collect(alloc)
}

/// Returns the points in ascending order.
fn in_order<R: Threads + Sync, G>(crew: &Crew<'_, R, G>, mut points: Vec<Point>) -> Vec<Point>
    ensures { AreOrdered points.items result.items }
{
    sort_unstable(crew.rt, &mut points, crew.workers);
    points
}

/// Returns the highest number of periods that hold at once, given all starts and all ends in order. Each start takes
/// over from the earliest end that no other start has taken over. If that end is still to come, the maximum grows by
/// one.
fn most_at_once(starts: &[Point], ends: &[Point]) -> usize
    requires len { length starts.now ≡ length ends.now }
    requires starts_rise { IsSorted int_cmp starts.now }
    requires ends_rise { IsSorted int_cmp ends.now }
    ensures most { IsMostAtOnce starts.now ends.now result }
    ensures few { result ≤ length starts.now }
{
    let mut most = 0;
    for i in 0..starts.len() {
        if starts[i] < ends[i - most] {
            most += 1;
        }
    }
    most
}

/// Returns the least number of parts of some items, whatever their classes: their highest overlap count.
pub(crate) fn least_parts<R: Threads + Sync, G>(
    crew: &Crew<'_, R, G>,
    items: &[Item],
) -> Result<u64, NoMemory>
    requires few { length items.now ≤ item_limit }
    requires ids { HasDistinctIds items.now }
    ensures least { IfOk result (IsLeast (map unclassed items.now)) }
    ensures few { IfOk result (λ parts. parts ≤ item_limit) }
{
    let starts = in_order(crew, starts_of(crew.alloc, items)?);
    let ends = in_order(crew, ends_of(crew.alloc, items)?);
    Ok(most_at_once(&starts, &ends) as u64)
}
