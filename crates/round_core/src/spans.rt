//! Items of one class, cut at an instant. Half of the workers find the constant intervals before the instant, and the
//! others find the rest. A single worker also cuts many items, and finds one side after the other.

ghost use Rattle.std.specs.Prelude.{◌<◌, ◌≤◌, IfOk, IfSome, None, Some, length};
ghost use Rattle.std.specs.Thread.{IsSync};
ghost use Rattle.dip_core.specs.Item.{item_limit};
ghost use Rattle.grid_core.specs.Bundles.{ClassesRise};
ghost use Rattle.work_core.specs.Ranges.{range};
ghost use Rattle.work_core.specs.Limits.{worker_limit};
ghost use Rattle.round_core.specs.Plateaus.{ArePlateaus};
ghost use Rattle.round_core.specs.Spans.{AreOfOneClass, ArePlateausWithin};

use crate::measure::Measure;
use crate::parting::parting_instant;
use crate::plateau::Plateaus;
use crate::plateaus::plateaus_by_rounds;
use crate::splicing::both_spliced;
use crate::within::items_within;
use dip_core::Item;
use period_core::{NoMemory, Period, Point};
use std::alloc::Global;
use std::thread::{Threads, join};
use work_core::tuning::{ITEMS_FOR_THREADS, ITEMS_OF_SPAN, SAMPLE};
use work_core::{Crew, Gate, Range};

/// Returns the least number of items that are cut.
fn least_to_cut(workers: u32) -> usize {
    if workers < 2 {
        ITEMS_OF_SPAN
    } else {
        ITEMS_FOR_THREADS
    }
}

/// Returns the periods of `SAMPLE` items at even distances.
fn sample_of(alloc: Global, items: &[Item]) -> Result<Vec<Period>, NoMemory> {
    let step = items.len() / SAMPLE;
    let mut sample = Vec::with_capacity(alloc, SAMPLE)?;
    for i in 0..SAMPLE {
        if let Some(item) = items.get(i * step) {
            sample.push(item.period)?;
        }
    }
    Ok(sample)
}

/// Returns the instant at which to cut items, if `cuts` more cuts are allowed. Returns `None` for few items, items of
/// several classes, or if most items would be on both sides.
fn middle_instant(
    alloc: Global,
    items: &[Item],
    cuts: u32,
    workers: u32,
) -> Result<Option<Point>, NoMemory>
    requires { ClassesRise items.now }
    ensures { IfOk result (λ middle. IfSome middle (λ _. (0 < cuts) × AreOfOneClass items.now)) }
{
    let (Some((first, _)), Some((last, _))) = (items.split_first(), items.split_last()) else {
        return Ok(None);
    };
    if cuts == 0 || items.len() < least_to_cut(workers) || first.class < last.class {
        return Ok(None);
    }
    let sample = sample_of(alloc, items)?;
    parting_instant(alloc, &sample)
}

/// Returns the constant intervals of items of one class, clipped to a span.
#[cycle(spans)]
fn plateaus_within<R: Threads + Sync, G: Gate>(
    crew: &Crew<'_, R, G>,
    measure: Measure,
    items: &[Item],
    span: &Range<Point>,
    cuts: u32,
) -> Result<Plateaus, NoMemory>
    requires few { length items.now ≤ item_limit }
    requires class { AreOfOneClass items.now }
    ensures { IfOk result (λ plateaus. ArePlateausWithin span.now measure items.now plateaus) }
{
    let cut = items_within(crew.alloc, items, span)?;
    plateaus_of_spans(crew, measure, &cut, cuts)
}

/// Returns the constant intervals of all classes. Many items of one class are cut at an instant, up to `cuts` times.
#[cycle(spans)]
pub(crate) fn plateaus_of_spans<R: Threads + Sync, G: Gate>(
    crew: &Crew<'_, R, G>,
    measure: Measure,
    items: &[Item],
    cuts: u32,
) -> Result<Plateaus, NoMemory>
    requires few { length items.now ≤ item_limit }
    requires rise { ClassesRise items.now }
    ensures { IfOk result (λ plateaus. ArePlateaus measure items.now plateaus) }
{
    match middle_instant(crew.alloc, items, cuts, crew.workers)? {
        Some(at) => plateaus_cut_at(crew, measure, items, at, cuts - 1),
        None => plateaus_by_rounds(crew, measure, items),
    }
}

/// Returns the constant intervals of items of one class before an instant.
#[cycle(spans)]
fn plateaus_before<R: Threads + Sync, G: Gate>(
    crew: &Crew<'_, R, G>,
    measure: Measure,
    items: &[Item],
    at: Point,
    cuts: u32,
) -> Result<Plateaus, NoMemory>
    requires few { length items.now ≤ item_limit }
    requires class { AreOfOneClass items.now }
    ensures { IfOk result
        (λ plateaus. ArePlateausWithin (range None (Some at)) measure items.now plateaus) }
{
    let span = Range {
        from: None,
        before: Some(at),
    };
    plateaus_within(crew, measure, items, &span, cuts)
}

/// Returns the constant intervals of items of one class from an instant on.
#[cycle(spans)]
fn plateaus_from<R: Threads + Sync, G: Gate>(
    crew: &Crew<'_, R, G>,
    measure: Measure,
    items: &[Item],
    at: Point,
    cuts: u32,
) -> Result<Plateaus, NoMemory>
    requires few { length items.now ≤ item_limit }
    requires class { AreOfOneClass items.now }
    ensures { IfOk result
        (λ plateaus. ArePlateausWithin (range (Some at) None) measure items.now plateaus) }
{
    let span = Range {
        from: Some(at),
        before: None,
    };
    plateaus_within(crew, measure, items, &span, cuts)
}

/// Returns the constant intervals of items of one class, cut at an instant. With several workers, half of them take
/// the side before it, the others the side from it on. Each side may be cut `cuts` times again.
#[cycle(spans)]
fn plateaus_cut_at<R: Threads + Sync, G: Gate>(
    crew: &Crew<'_, R, G>,
    measure: Measure,
    items: &[Item],
    at: Point,
    cuts: u32,
) -> Result<Plateaus, NoMemory>
    requires few { length items.now ≤ item_limit }
    requires class { AreOfOneClass items.now }
    ensures { IfOk result (λ plateaus. ArePlateaus measure items.now plateaus) }
{
    if crew.workers >= 2 {
        return plateaus_of_halves(crew, measure, items, at, cuts);
    }
    let early = plateaus_before(crew, measure, items, at, cuts);
    let late = plateaus_from(crew, measure, items, at, cuts);
    both_spliced(early, late)
}

/// Returns the constant intervals of items of one class, cut at an instant, with half of the workers on each side of
/// it.
#[cycle(spans)]
fn plateaus_of_halves<R: Threads + Sync, G: Gate>(
    crew: &Crew<'_, R, G>,
    measure: Measure,
    items: &[Item],
    at: Point,
    cuts: u32,
) -> Result<Plateaus, NoMemory>
    requires workers { 2 ≤ crew.now.workers }
    requires few { length items.now ≤ item_limit }
    requires class { AreOfOneClass items.now }
    ensures { IfOk result (λ plateaus. ArePlateaus measure items.now plateaus) }
{
    let (rt, alloc, gate) = (crew.rt, crew.alloc, crew.gate);
    let few = crew.workers / 2;
    let others = crew.workers - few;
    let (early, late) = join(
        rt,
        || -> Result<Plateaus, NoMemory>
            requires { IsSync R.row × IsSync G.row × (0 < few) × (few ≤ worker_limit)
                × (length items.now ≤ item_limit) × AreOfOneClass items.now }
            ensures { IfOk result (λ plateaus.
                ArePlateausWithin (range None (Some at)) measure items.entry.now plateaus) }
        { plateaus_before(&Crew::new(rt, alloc, few, gate), measure, items, at, cuts) },
        || -> Result<Plateaus, NoMemory>
            requires { IsSync R.row × IsSync G.row × (0 < others) × (others ≤ worker_limit)
                × (length items.now ≤ item_limit) × AreOfOneClass items.now }
            ensures { IfOk result (λ plateaus.
                ArePlateausWithin (range (Some at) None) measure items.entry.now plateaus) }
        {
            plateaus_from(
                &Crew::new(rt, alloc, others, gate),
                measure,
                items,
                at,
                cuts,
            )
        },
    );
    both_spliced(early, late)
}
