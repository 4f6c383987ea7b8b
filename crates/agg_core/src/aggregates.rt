//! The aggregate of the rows of a table.

ghost use Rattle.std.specs.Prelude.{◌≡◌, ◌<◌, ◌≤◌, IfOk, IfSome, length};
ghost use Rattle.row_core.specs.Refusals.{AnswersOr};
ghost use Rattle.work_core.specs.Limits.{worker_limit};
ghost use Rattle.agg_core.specs.Agg.{AreAggRows, IsAgg, agg_refusal};
ghost use Rattle.agg_core.specs.Entries.{amount_at, place_in, value_at_place};

use crate::func::{Asked, agg_refusal, measure_of, number_column};
use crate::group_rows::rows_by_group;
use crate::keys::{Numbers, Texts};
use crate::one_group::rows_of_one_group;
use crate::rows::AggRows;
use match_core::{QueryRefused, Side};
use period_core::NoMemory;
use row_core::{Failure, Func, Kind, Name, Schema};
use std::alloc::Global;
use std::thread::Threads;
use work_core::{Crew, Gate};

/// Returns, for each group of rows, the maximal periods in which some of its rows hold and their measured value is
/// constant, with that value, by group and start. A group is all rows with the same value in the named column; without
/// a name all rows are one group. Numbers are ordered by value, texts by their bytes. The rows are the same for every
/// number of workers.
///
/// Rows are sorted once, by group, so many small groups cost no more than one large group. The workers partition the
/// rows by ranges of values. The gate is called before and after each addition of two lists of steps, as by
/// `plateaus_of`.
///
/// # Errors
///
/// The first of these that applies: `NoColumn` if the column with the numbers is missing, `WrongKind` if its values
/// are texts, `NoColumn` if the groups' column is missing. After these, `NoMemory` if an allocation is refused, or if
/// the answer had 2^64 rows, which no table's answer has.
pub fn agg<R: Threads + Sync, G: Gate>(
    rt: &R,
    alloc: Global,
    side: Side<'_>,
    func: Func,
    group: Option<Name>,
    workers: u32,
    gate: &G,
) -> Result<AggRows, Failure<QueryRefused>>
    requires workers { (0 < workers) × (workers ≤ worker_limit) }
    ensures { AnswersOr (agg_refusal side.entry.schema.now func group)
        (λ rows. IsAgg side.entry.schema.now func group side.entry.rows.now rows) result }
{
    if let Some(refused) = agg_refusal(side.schema, &func, &group) {
        return Err(Failure::Refused(refused));
    }
    let amount = place_in(side.schema, number_column(&func));
    let by = place_in(side.schema, group);
    let measure = measure_of(&func);
    let crew = Crew::new(rt, alloc, workers, gate);
    Ok(agg_rows(&crew, Asked { measure, amount }, side, by)?)
}

/// Returns the aggregate of a side's rows by the values in the column at index `by`, or as one group for `None`. The
/// column's kind is checked only once, so each comparison of the sort does only what that kind needs.
fn agg_rows<R: Threads + Sync, G: Gate>(
    crew: &Crew<'_, R, G>,
    asked: Asked,
    side: Side<'_>,
    by: Option<u32>,
) -> Result<AggRows, NoMemory>
    requires there { IfSome by (λ place. place < length side.schema.now) }
    ensures { IfOk result (λ answer.
        AreAggRows asked.measure (amount_at asked.amount) (value_at_place by)
        side.entry.rows.now answer) }
{
    let Some(place) = by else {
        return rows_of_one_group(crew, asked, side.rows);
    };
    let rows = side.rows;
    match side.schema.kind(place) {
        Kind::Int => rows_by_group::<R, G, i64, Numbers>(crew, asked, Numbers { rows, place }),
        Kind::Text => rows_by_group::<R, G, &str, Texts>(crew, asked, Texts { rows, place }),
    }
}

/// Returns the index of a column, if one is named.
fn place_in(schema: &Schema, name: Option<Name>) -> Option<u32>
    ensures { result ≡ place_in schema.now name }
{
    match name {
        None => None,
        Some(name) => schema.column(name),
    }
}
