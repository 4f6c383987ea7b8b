//! Answers queries from a snapshot.
ghost use Rattle.std.specs.Prelude.{◌≡◌, ◌+◌, ◌<◌, ◌^◌, All, IfErr, IfOk, IsTrue, Ok, length, nat_le, nat_lt, if◌then◌else◌};
ghost use Rattle.book_core.specs.Versions.{AreBetween, AreFromTo};
ghost use Rattle.command_core.specs.Fields.{both_ok};
ghost use Rattle.command_core.specs.Lines.{lines_in};
ghost use Rattle.command_core.specs.PairsIn.{compared_in, name_pairs_in};
ghost use Rattle.version_core.specs.Limits.{version_limit};
ghost use Rattle.work_core.specs.Limits.{worker_limit};
ghost use Rattle.match_core.specs.Items.{items_of};
ghost use Rattle.row_core.specs.Rows.{RowsRise};
ghost use Rattle.row_core.specs.Schema.{fits};
ghost use Rattle.script_core.specs.Answer.{IsAggOf, IsAntiOf, IsDipOf, IsJoinOf, IsVerdictOn, IsVersions};
ghost use Rattle.script_core.specs.Ledgers.{commit_shown, ShowsAll};
ghost use Rattle.script_core.specs.Performing.{FailsToCompare, Gives, IsShown};
ghost use Rattle.store_core.specs.Snapshots.{history};
ghost use Rattle.agg_core.specs.Agg.{rows_on};
ghost use Rattle.script_core.specs.Effects.{aggregated_or_fault, claim_of, columns_or_fault, rows_or_fault, sides_or_fault, versions_or_fault};
ghost use Rattle.answer_core.specs.declared.answer.Answer.TheVariants.{Rows};

use crate::claims::read_claim;
use crate::failure::{Failure, failure_at, refused};
use crate::pairs::name_pairs;
use answer_core::{Answer, Joined, Unmatched};
use book_core::SharedRows;
use cert_core::{Certificate, Claim, check_division};
use command_core::{Aggregate, Lines, Refusal, TwoTables};
use period_core::{NoMemory, Point};
use query_core::{Side, agg, anti, dip, items, join_rows};
use row_core::{Name, Schema};
use std::alloc::Global;
use std::thread::Threads;
use store_core::Snapshot;
use work_core::tuning::ITEMS_FOR_THREADS;
use work_core::{Crew, OpenGate};

/// A table as a snapshot shows it: its columns and its rows.
type Shown<'a> = (&'a Schema, SharedRows);

/// Returns a table's columns, and its rows that a snapshot shows. `number` is the number of the command.
fn shown_table(snapshot: &Snapshot, number: u64, table: Name) -> Result<Shown<'_>, Failure>
    ensures { IsShown number (history snapshot.now) (commit_shown snapshot.now) table result }
{
    let rows = match snapshot.rows(table) {
        Ok(rows) => rows,
        Err(why) => return Err(failure_at(number, why)),
    };
    match snapshot.schema(table) {
        Ok(schema) => Ok((schema, rows)),
        Err(_) => Err(refused(number, Refusal::NoTable)),
    }
}

/// Two tables as a snapshot shows them: the columns and the rows of each.
#[derive(Drop)]
struct BothTables<'a> {
    left_columns: &'a Schema,
    left: SharedRows,
    right_columns: &'a Schema,
    right: SharedRows,
}

/// Returns both tables that the command of this number compares.
fn both_tables(
    snapshot: &Snapshot,
    number: u64,
    left: Name,
    right: Name,
) -> Result<BothTables<'_>, Failure>
    ensures left { IfOk result
        (λ both. IsShown number (history snapshot.now) (commit_shown snapshot.now) left
        (Ok (both.left_columns, both.left))) }
    ensures right { IfOk result
        (λ both. IsShown number (history snapshot.now) (commit_shown snapshot.now) right
        (Ok (both.right_columns, both.right))) }
    ensures fails { IfErr result
        (FailsToCompare number (history snapshot.now) (commit_shown snapshot.now) left right) }
{
    let (left_columns, left_rows) = shown_table(snapshot, number, left)?;
    let (right_columns, right_rows) = shown_table(snapshot, number, right)?;
    Ok(BothTables {
        left_columns,
        left: left_rows,
        right_columns,
        right: right_rows,
    })
}

/// Returns the workers for a query that reads `rows` rows: one worker for few rows, otherwise all.
fn crew_for<'a, T>(crew: &Crew<'a, T, OpenGate>, rows: usize) -> Crew<'a, T, OpenGate>
    ensures { result.workers ≡ (if nat_lt rows ITEMS_FOR_THREADS then 1 else crew.now.workers) }
{
    let workers = if rows < ITEMS_FOR_THREADS {
        1
    } else {
        crew.workers
    };
    Crew::new(crew.rt, crew.alloc, workers, crew.gate)
}

/// Returns all rows of a table.
pub(crate) fn rows(snapshot: &Snapshot, number: u64, table: Name) -> Result<Answer, Failure>
    ensures { Gives (rows_or_fault number (history snapshot.now) (commit_shown snapshot.now) table)
        (λ rows answer. answer ≡ Rows rows) result }
{
    let (_, rows) = shown_table(snapshot, number, table)?;
    Ok(Answer::Rows(rows))
}

/// Returns the rows of a table that hold at a point.
pub(crate) fn rows_on(
    snapshot: &Snapshot,
    number: u64,
    table: Name,
    point: Point,
) -> Result<Answer, Failure>
    ensures { Gives (rows_or_fault number (history snapshot.now) (commit_shown snapshot.now) table)
        (λ rows answer. answer ≡ Rows (rows_on point rows)) result }
{
    match snapshot.rows_holding(table, point) {
        Ok(rows) => Ok(Answer::Rows(rows)),
        Err(why) => Err(failure_at(number, why)),
    }
}

/// Returns the division of a table's rows.
pub(crate) fn divide<T: Threads + Sync>(
    crew: &Crew<'_, T, OpenGate>,
    snapshot: &Snapshot,
    number: u64,
    table: Name,
) -> Result<Answer, Failure>
    ensures { Gives (rows_or_fault number (history snapshot.now) (commit_shown snapshot.now) table)
        (λ rows answer. IsDipOf (items_of rows) answer) result }
{
    let (schema, rows) = shown_table(snapshot, number, table)?;
    let side = Side {
        schema,
        rows: &rows,
    };
    let crew = crew_for(crew, rows.len());
    Ok(Answer::Division {
        rows: rows.len(),
        division: dip(crew.rt, crew.alloc, side, crew.workers)?,
    })
}

/// Returns the pairs of rows of two tables that are equal in each pair of columns, with the period in which both hold.
pub(crate) fn join_tables<T: Threads + Sync>(
    crew: &Crew<'_, T, OpenGate>,
    snapshot: &Snapshot,
    number: u64,
    tables: TwoTables<'_>,
) -> Result<Answer, Failure>
    ensures { Gives (sides_or_fault number (history snapshot.now) (commit_shown snapshot.now)
        (compared_in tables.entry))
        (λ sides. IsJoinOf sides.0 sides.1 (name_pairs_in tables.entry.on)) result }
{
    let on = name_pairs(crew.alloc, tables.on)?;
    let BothTables {
        left_columns,
        left,
        right_columns,
        right,
    } = both_tables(snapshot, number, tables.left, tables.right)?;
    let left_side = Side {
        schema: left_columns,
        rows: &left,
    };
    let right_side = Side {
        schema: right_columns,
        rows: &right,
    };
    let Crew {
        rt,
        alloc,
        workers,
        gate,
    } = crew_for(crew, left.len().saturating_add(right.len()));
    match join_rows(rt, alloc, left_side, right_side, &on, workers, gate) {
        Ok(rows) => Ok(Answer::Join(Joined::new(left, right, rows))),
        Err(why) => Err(failure_at(number, why)),
    }
}

/// Returns the left table's rows, with the periods in which no right row holds that is equal in each pair of columns.
pub(crate) fn anti_tables<T: Threads + Sync>(
    crew: &Crew<'_, T, OpenGate>,
    snapshot: &Snapshot,
    number: u64,
    tables: TwoTables<'_>,
) -> Result<Answer, Failure>
    ensures { Gives (sides_or_fault number (history snapshot.now) (commit_shown snapshot.now)
        (compared_in tables.entry))
        (λ sides. IsAntiOf sides.0 sides.1 (name_pairs_in tables.entry.on)) result }
{
    let on = name_pairs(crew.alloc, tables.on)?;
    let BothTables {
        left_columns,
        left,
        right_columns,
        right,
    } = both_tables(snapshot, number, tables.left, tables.right)?;
    let left_side = Side {
        schema: left_columns,
        rows: &left,
    };
    let right_side = Side {
        schema: right_columns,
        rows: &right,
    };
    let Crew {
        rt,
        alloc,
        workers,
        gate,
    } = crew_for(crew, left.len().saturating_add(right.len()));
    match anti(rt, alloc, left_side, right_side, &on, workers, gate) {
        Ok(rows) => Ok(Answer::Anti(Unmatched::new(left, rows))),
        Err(why) => Err(failure_at(number, why)),
    }
}

/// Returns the aggregate of each group of a table's rows, over time.
pub(crate) fn agg_table<T: Threads + Sync>(
    crew: &Crew<'_, T, OpenGate>,
    snapshot: &Snapshot,
    number: u64,
    aggregate: Aggregate,
) -> Result<Answer, Failure>
    ensures { Gives
        (aggregated_or_fault number (history snapshot.now) (commit_shown snapshot.now) aggregate)
        (λ table. IsAggOf table aggregate) result }
{
    let (schema, rows) = shown_table(snapshot, number, aggregate.table)?;
    let side = Side {
        schema,
        rows: &rows,
    };
    let Crew {
        rt,
        alloc,
        workers,
        gate,
    } = crew_for(crew, rows.len());
    match agg(rt, alloc, side, aggregate.func, aggregate.by, workers, gate) {
        Ok(rows) => Ok(Answer::Agg(rows)),
        Err(why) => Err(failure_at(number, why)),
    }
}

/// Returns the verdict on a claimed division of rows.
fn verdict_on(
    alloc: Global,
    rows: &SharedRows,
    claim: &Claim,
    certificate: &Certificate,
) -> Result<Answer, NoMemory>
    requires { RowsRise rows.now }
    ensures { IfOk result (IsVerdictOn (items_of rows.now) claim.now certificate.now) }
{
    let items = items(alloc, rows)?;
    let verdict = check_division(alloc, &items, claim, certificate)?;
    Ok(Answer::Verdict(verdict))
}

/// A table, and the records of a claimed division of it.
#[derive(Clone, Copy)]
pub(crate) struct ClaimedTable<'a> {
    pub table: Name,
    pub body: Lines<'a>,
}

/// Returns the verdict on a claimed division of a table's rows. The first record of the body has number `number + 1`.
pub(crate) fn check(
    alloc: Global,
    snapshot: &Snapshot,
    number: u64,
    claimed: ClaimedTable<'_>,
    certificate: Certificate,
) -> Result<Answer, Failure>
    requires { number + 1 + length (lines_in claimed.body) < 2 ^ 64 }
    ensures { Gives
        (both_ok (rows_or_fault number (history snapshot.now)
        (commit_shown snapshot.now) claimed.entry.table)
        (claim_of (number + 1) (lines_in claimed.entry.body)))
        (λ read answer. IsVerdictOn (items_of read.0) read.1 certificate answer) result }
{
    let ClaimedTable { table, body } = claimed;
    let (_, rows) = shown_table(snapshot, number, table)?;
    let claim = read_claim(alloc, body, number + 1)?;
    Ok(verdict_on(alloc, &rows, &claim, &certificate)?)
}

/// Returns the versions of a table that some commit in `first..=last` shows.
pub(crate) fn between(
    snapshot: &Snapshot,
    number: u64,
    table: Name,
    first: u64,
    last: u64,
) -> Result<Answer, Failure>
    requires { ShowsAll snapshot.now }
    ensures { Gives (versions_or_fault number (history snapshot.now) (nat_lt last first) table)
        (λ _ answer. IsVersions
        (AreBetween (history snapshot.now) (length (history snapshot.now)) first last table)
        answer) result }
{
    match snapshot.between(first, last, table) {
        Ok(versions) => Ok(Answer::Versions(versions)),
        Err(why) => Err(failure_at(number, why)),
    }
}

/// Returns the versions of a table that some commit in `first..end` shows.
pub(crate) fn from_to(
    snapshot: &Snapshot,
    number: u64,
    table: Name,
    first: u64,
    end: u64,
) -> Result<Answer, Failure>
    requires { ShowsAll snapshot.now }
    ensures { Gives (versions_or_fault number (history snapshot.now) (nat_le end first) table)
        (λ _ answer. IsVersions
        (AreFromTo (history snapshot.now) (length (history snapshot.now)) first end table)
        answer) result }
{
    match snapshot.from_to(first, end, table) {
        Ok(versions) => Ok(Answer::Versions(versions)),
        Err(why) => Err(failure_at(number, why)),
    }
}
