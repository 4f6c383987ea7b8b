//! The instant at which periods are cut in two.

ghost use Rattle.std.specs.Prelude.{◌≡◌, Contains, IfOk, IfSome, map};

use period_core::{NoMemory, Period, Point};
use std::alloc::Global;

/// Returns the starts of the periods.
fn starts_of(alloc: Global, periods: &[Period]) -> Result<Vec<Point>, NoMemory>
    ensures { IfOk result (λ starts. starts.items ≡ map (λ p. p.from) periods.now) }
{
    periods.iter().map(|period| period.from).collect(alloc)
}

/// Returns the median start of the periods, or `None` without periods.
fn middle_start(alloc: Global, periods: &[Period]) -> Result<Option<Point>, NoMemory>
    ensures { IfOk result (λ middle.
        IfSome middle (λ at. Contains (map (λ p. p.from) periods.now) at)) }
{
    let mut starts = starts_of(alloc, periods)?;
    starts.sort_unstable();
    match starts.get(starts.len() / 2) {
        Some(at) => Ok(Some(*at)),
        None => Ok(None),
    }
}

/// Returns whether each side of a cut has at most about three quarters of the periods. A period with instants on both
/// sides counts on both.
fn parts_well(periods: &[Period], at: Point) -> bool {
    let early = periods.iter().filter(|period| period.from < at).count();
    let late = periods.iter().filter(|period| at < period.to).count();
    early.max(late) <= periods.len() / 4 * 3
}

/// Returns the median start of the periods as the instant to cut at. Returns `None` without periods, or if one side
/// would have more than about three quarters of them.
pub(crate) fn parting_instant(alloc: Global, periods: &[Period]) -> Result<Option<Point>, NoMemory>
    ensures { IfOk result (λ parting.
        IfSome parting (λ at. Contains (map (λ p. p.from) periods.now) at)) }
{
    match middle_start(alloc, periods)? {
        Some(at) if parts_well(periods, at) => Ok(Some(at)),
        _ => Ok(None),
    }
}
