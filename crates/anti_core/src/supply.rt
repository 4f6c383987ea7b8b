//! The gaps of pairs of parts, found one stretch of pairs at a time and before they are used.

ghost use Rattle.std.specs.Prelude.{◌<◌, ◌≤◌, ◌+◌, ◌*◌, length, IfOk};
ghost use Rattle.std.specs.Option.{ForSome};
ghost use Rattle.anti_core.specs.PairGaps.{AreGapsFrom};

use crate::gap_pairs::GapPairs;
use grid_core::stretch_len;
use merge_core::Gaps;
use period_core::NoMemory;
use std::thread::Threads;
use work_core::{Crew, Gate, Outs, run_stretch};

/// The gaps of pairs with consecutive numbers.
#[derive(Drop)]
pub(crate) struct Supply {
    /// The number of the first pair.
    pub first: u64,
    /// The gaps of each pair.
    pub values: Outs<Gaps>,
}

/// Returns the gaps of consecutive pairs, among them pair `number`: the given ones if they contain it, otherwise those
/// of a new stretch from that pair on. The given ones are freed before the stretch runs.
pub(crate) fn supply_at<R: Threads + Sync, G: Gate>(
    crew: &Crew<'_, R, G>,
    pairs: &GapPairs<'_>,
    supply: Option<Supply>,
    number: u64,
) -> Result<Supply, NoMemory>
    requires inside { number < length pairs.now.left.now * length pairs.now.right.now }
    requires supply { ForSome supply
        (λ s. AreGapsFrom pairs.now.left.now pairs.now.right.now s.first s.values) }
    ensures values { IfOk result
        (λ s. AreGapsFrom pairs.now.left.now pairs.now.right.now s.first s.values) }
    ensures there { IfOk result (λ s. (s.first ≤ number) × (number < s.first + length s.values)) }
{
    if let Some(supply) = supply {
        if supply.first <= number && number - supply.first < supply.values.len() as u64 {
            return Ok(supply);
        }
    }
    run_from(crew, pairs, number)
}

/// Returns the gaps of a stretch of pairs from number `first` on.
fn run_from<R: Threads + Sync, G: Gate>(
    crew: &Crew<'_, R, G>,
    pairs: &GapPairs<'_>,
    first: u64,
) -> Result<Supply, NoMemory>
    requires inside { first < length pairs.now.left.now * length pairs.now.right.now }
    ensures values { IfOk result
        (λ s. AreGapsFrom pairs.now.left.now pairs.now.right.now s.first s.values) }
    ensures there { IfOk result (λ s. (s.first ≤ first) × (first < s.first + length s.values)) }
{
    let count = stretch_len(pairs.left, pairs.right, first);
    let values = run_stretch(crew, pairs, first, count)?;
    Ok(Supply { first, values })
}
