//! The pairs of a join, run one stretch of pairs at a time.

ghost use Rattle.std.specs.Prelude.{◌≡◌, ◌<◌, ◌≤◌, ◌*◌, length, IfOk};
ghost use Rattle.join_core.specs.PairValues.{AddsFirstPairs};

use crate::join_pairs::RowPairs;
use crate::rows::{JoinRow, add_rows, turns_of};
use grid_core::stretch_len;
use period_core::NoMemory;
use std::thread::Threads;
use work_core::{Crew, Gate, PairWork, run_stretch};

/// Adds the rows of all pairs, pair by pair, and returns the advances for them.
pub(crate) fn add_rows_of_pairs<R: Threads + Sync, G: Gate>(
    crew: &Crew<'_, R, G>,
    pairs: &RowPairs<'_>,
    rows: &mut Vec<JoinRow>,
) -> Result<u64, NoMemory>
    ensures { IfOk result (λ turns. AddsFirstPairs pairs.now.left.now pairs.now.right.now
        (length pairs.now.left.now * length pairs.now.right.now) rows.old.items
        rows.new.items turns) }
{
    let count = pairs.count();
    let mut turns = 0;
    let mut first = 0;
    while first < count {
        let len = stretch_len(pairs.left, pairs.right, first);
        let outs = run_stretch(crew, pairs, first, len)?;
        add_rows(&outs, rows)?;
        turns += turns_of(&outs);
        first += len;
    }
    Ok(turns)
}
