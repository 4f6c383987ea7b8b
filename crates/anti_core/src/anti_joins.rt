//! The anti-join of the rows of two tables.

ghost use Rattle.std.specs.Prelude.{◌≡◌, ◌<◌, ◌≤◌, None, IfOk};
ghost use Rattle.row_core.specs.Refusals.{AnswersOr};
ghost use Rattle.match_core.specs.Columns.{MatchesOn, columns_refusal};
ghost use Rattle.work_core.specs.Limits.{worker_limit};
ghost use Rattle.anti_core.specs.Anti.{IsAnti};

use crate::class_rows::anti_sides;
use crate::classed_rows::ClassedRows;
use crate::rows::AntiRows;
use match_core::{Classes, QueryRefused, Side, classes_of, refusal_of_pairs};
use period_core::NoMemory;
use row_core::{Failure, Name};
use std::alloc::Global;
use std::thread::Threads;
use work_core::{Crew, Gate};

/// Returns when each left row holds and no matching right row does: the row's id with each maximal such period, by id
/// and start. Rows match if they are equal in each named pair of columns; without names each right row matches. The
/// rows are the same for every number of workers. The periods of right rows that are equal in the named columns are
/// coalesced. Then both sides are divided, one bundle of column values at a time. The gate is called before and after
/// each pair of parts, as tests show. Pairs are numbered from 0 in each bundle.
///
/// # Errors
///
/// Why the columns are refused; otherwise `NoMemory` if an allocation is refused.
pub fn anti<R: Threads + Sync, G: Gate>(
    rt: &R,
    alloc: Global,
    left: Side<'_>,
    right: Side<'_>,
    on: &[(Name, Name)],
    workers: u32,
    gate: &G,
) -> Result<AntiRows, Failure<QueryRefused>>
    requires workers { (0 < workers) × (workers ≤ worker_limit) }
    ensures { AnswersOr (columns_refusal left.entry.schema.now right.entry.schema.now on.now)
        (IsAnti (MatchesOn left.entry.schema.now right.entry.schema.now on.now) left.entry.rows.now
        right.entry.rows.now) result }
{
    if let Some(refused) = refusal_of_pairs(left.schema, right.schema, on) {
        return Err(Failure::Refused(refused));
    }
    let crew = Crew::new(rt, alloc, workers, gate);
    let rows = anti_rows(&crew, left, right, on)?;
    Ok(rows)
}

/// Returns the anti-join by columns that can be compared.
fn anti_rows<R: Threads + Sync, G: Gate>(
    crew: &Crew<'_, R, G>,
    left: Side<'_>,
    right: Side<'_>,
    on: &[(Name, Name)],
) -> Result<AntiRows, NoMemory>
    requires allowed { columns_refusal left.schema.now right.schema.now on.now ≡ None }
    ensures { IfOk result (IsAnti (MatchesOn left.entry.schema.now right.entry.schema.now on.now)
        left.entry.rows.now right.entry.rows.now) }
{
    let Classes {
        left: ones,
        right: others,
        ..
    } = classes_of(crew, left, right, on)?;
    let lefts = ClassedRows {
        rows: left.rows,
        classes: &ones,
    };
    let rights = ClassedRows {
        rows: right.rows,
        classes: &others,
    };
    anti_sides(crew, &lefts, &rights)
}
