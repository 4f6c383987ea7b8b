//! Items clipped to a span of instants.

ghost use Rattle.std.specs.Prelude.{◌↔◌, ℤ, ◌<ℤ◌, ◌≤ℤ◌, IfOk, MatchOption};
ghost use Rattle.round_core.specs.Spans.{AreWithin, IsBefore, IsFrom, IsPartWithin, IsWithin, Misses};

use dip_core::Item;
use list_core::room_for_half;
use period_core::{NoMemory, Period, Point};
use std::alloc::Global;
use work_core::Range;

/// Returns the start of a period clipped to a span.
fn start_within(period: &Period, span: &Range<Point>) -> Point
    ensures { (t : ℤ) → (result ≤ℤ t) ↔ ((period.now.from ≤ℤ t) × IsFrom span.now t) }
{
    match span.from {
        None => period.from,
        Some(first) => period.from.max(first),
    }
}

/// Returns the end of a period clipped to a span.
fn end_within(period: &Period, span: &Range<Point>) -> Point
    ensures { (t : ℤ) → (t <ℤ result) ↔ ((t <ℤ period.now.to) × IsBefore span.now t) }
{
    match span.before {
        None => period.to,
        Some(end) => period.to.min(end),
    }
}

/// Returns a period clipped to a span, or `None` if they share no instant.
fn period_within(period: &Period, span: &Range<Point>) -> Option<Period>
    ensures { MatchOption result (Misses span.now period.now) (IsPartWithin span.now period.now) }
{
    let from = start_within(period, span);
    let to = end_within(period, span);
    if to <= from {
        return None;
    }
    Some(Period { from, to })
}

/// Returns an item clipped to a span, or `None` if they share no instant.
fn item_within(item: &Item, span: &Range<Point>) -> Option<Item>
    ensures { MatchOption result (Misses span.now item.now.period) (IsWithin span.now item.now) }
{
    let period = period_within(&item.period, span)?;
    Some(Item { period, ..*item })
}

/// Returns the items clipped to a span. The capacity assumes that about half of them remain.
pub(crate) fn items_within(
    alloc: Global,
    items: &[Item],
    span: &Range<Point>,
) -> Result<Vec<Item>, NoMemory>
    ensures { IfOk result (λ cut. AreWithin span.now items.now cut.items) }
{
    let mut cut = Vec::with_capacity(alloc, room_for_half(items.len()))?;
    for item in items {
        if let Some(part) = item_within(item, span) {
            cut.push(part)?;
        }
    }
    Ok(cut)
}
