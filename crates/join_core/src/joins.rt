//! The join of the rows of two tables.

ghost use Rattle.std.specs.Prelude.{◌≡◌, ◌<◌, ◌≤◌, ℕ, None, length, map, IfOk};
ghost use Rattle.row_core.specs.Refusals.{AnswersOr};
ghost use Rattle.dip_core.specs.Division.{IsLeast};
ghost use Rattle.dip_core.specs.Item.{item_limit, HasDistinctIds};
ghost use Rattle.grid_core.specs.Bundles.{ClassesRise};
ghost use Rattle.match_core.specs.Columns.{MatchesOn, columns_refusal};
ghost use Rattle.match_core.specs.Items.{items_of};
ghost use Rattle.work_core.specs.Limits.{worker_limit};
ghost use Rattle.join_core.specs.Found.{AreMade};
ghost use Rattle.join_core.specs.ItemJoin.{IsItemsJoin};
ghost use Rattle.join_core.specs.Join.{IsJoin, IsWithin};
ghost use Rattle.join_core.specs.JoinSides.{AreSidesOf};

use crate::advances::{Advances, turns_answered};
use crate::bundle_joins::rows_of_classes;
use crate::found::FoundRows;
use crate::rows::JoinRows;
use dip_core::Item;
use match_core::{QueryRefused, Side, classes_of, items_of_sides, refusal_of_pairs};
use period_core::NoMemory;
use row_core::{Failure, Name};
use std::alloc::Global;
use std::thread::Threads;
use work_core::{Crew, Gate, sort_unstable};

/// The answer of a join.
#[derive(Debug, Drop)]
pub struct JoinAnswer {
    /// The rows, by start, end, left id and right id.
    pub rows: JoinRows,
    /// The number of advances: at least the number of pairs of parts if each side were divided as a whole. If the
    /// cursors advanced more often, it is that number, as a test shows.
    pub turns: u64,
}

/// Returns the pairs of a left and a right row that are equal in each named pair of columns and share an instant, each
/// with all instants that both hold, by start, end, left id and right id. The rows are the same for every number of
/// workers. Both sides are divided, one bundle of column values at a time. The gate is called before and after each
/// pair of parts, as tests show.
///
/// Let k and m be the least numbers of parts of all left and all right rows, with a left rows and b right rows. The
/// reported number of advances is at least k * m and at most m * a + k * b. If the cursors advanced more often than
/// the lower bound, their number is reported, as a test shows.
///
/// # Errors
///
/// Why the columns are refused; otherwise `NoMemory` if an allocation is refused.
pub fn join<R: Threads + Sync, G: Gate>(
    rt: &R,
    alloc: Global,
    left: Side<'_>,
    right: Side<'_>,
    on: &[(Name, Name)],
    workers: u32,
    gate: &G,
) -> Result<JoinAnswer, Failure<QueryRefused>>
    requires workers { (0 < workers) × (workers ≤ worker_limit) }
    ensures answer { AnswersOr (columns_refusal left.entry.schema.now right.entry.schema.now on.now)
        (λ answer. IsJoin
        (MatchesOn left.entry.schema.now right.entry.schema.now on.now) left.entry.rows.now
        right.entry.rows.now answer.rows) result }
    ensures turns { IfOk result (λ answer. (k m : ℕ) → IsLeast (items_of left.entry.rows.now) k
        → IsLeast (items_of right.entry.rows.now) m
        → IsWithin k m (length left.entry.rows.now) (length right.entry.rows.now) answer.turns) }
{
    let crew = Crew::new(rt, alloc, workers, gate);
    let (lefts, rights) = items_by_class(&crew, left, right, on)?;
    let (rows, advances) = join_items(&crew, &lefts, &rights)?;
    let turns = turns_answered(&crew, &lefts, &rights, advances)?;
    Ok(JoinAnswer { rows, turns })
}

/// Returns the rows of `join` without the number of advances, for which both sides would be sorted once more.
///
/// # Errors
///
/// The same as those of `join`.
pub fn join_rows<R: Threads + Sync, G: Gate>(
    rt: &R,
    alloc: Global,
    left: Side<'_>,
    right: Side<'_>,
    on: &[(Name, Name)],
    workers: u32,
    gate: &G,
) -> Result<JoinRows, Failure<QueryRefused>>
    requires workers { (0 < workers) × (workers ≤ worker_limit) }
    ensures { AnswersOr (columns_refusal left.entry.schema.now right.entry.schema.now on.now)
        (IsJoin (MatchesOn left.entry.schema.now right.entry.schema.now on.now) left.entry.rows.now
        right.entry.rows.now) result }
{
    let crew = Crew::new(rt, alloc, workers, gate);
    let (lefts, rights) = items_by_class(&crew, left, right, on)?;
    let (rows, _) = join_items(&crew, &lefts, &rights)?;
    Ok(rows)
}

/// Returns the rows of both sides as items in ascending order of class.
fn items_by_class<R: Threads + Sync, G>(
    crew: &Crew<'_, R, G>,
    left: Side<'_>,
    right: Side<'_>,
    on: &[(Name, Name)],
) -> Result<(Vec<Item>, Vec<Item>), Failure<QueryRefused>>
    ensures { AnswersOr (columns_refusal left.entry.schema.now right.entry.schema.now on.now)
        (λ both. AreSidesOf
        (MatchesOn left.entry.schema.now right.entry.schema.now on.now) left.entry.rows.now
        right.entry.rows.now both.0.items both.1.items) result }
{
    if let Some(refused) = refusal_of_pairs(left.schema, right.schema, on) {
        return Err(Failure::Refused(refused));
    }
    let classes = classes_of(crew, left, right, on)?;
    let both = items_of_sides(crew, left.rows, right.rows, classes)?;
    Ok(both)
}

/// Returns the join of two lists of items in ascending order of class, and the advances made. Items match if their
/// classes are equal.
fn join_items<R: Threads + Sync, G: Gate>(
    crew: &Crew<'_, R, G>,
    left: &[Item],
    right: &[Item],
) -> Result<(JoinRows, Advances), NoMemory>
    requires left_few { length left.now ≤ item_limit }
    requires right_few { length right.now ≤ item_limit }
    requires left_rise { ClassesRise left.now }
    requires right_rise { ClassesRise right.now }
    requires left_ids { HasDistinctIds left.now }
    requires right_ids { HasDistinctIds right.now }
    ensures rows { IfOk result (λ found. IsItemsJoin left.now right.now found.0) }
    ensures advances { IfOk result (λ found. AreMade left.now right.now found.1) }
{
    let FoundRows { mut rows, advances } = rows_of_classes(crew, left, right)?;
    sort_unstable(crew.rt, &mut rows, crew.workers);
    Ok((JoinRows::from(rows), advances))
}
