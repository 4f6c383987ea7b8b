//! Executes commands that ask for changes.
ghost use Rattle.std.specs.Prelude.{◌≡◌, ◌+◌, ◌<◌, ◌≤◌, ◌^◌, length};
ghost use Rattle.store_core.specs.Snapshots.{history};
ghost use Rattle.script_core.specs.Ledgers.{ledger_history, left_in};
ghost use Rattle.script_core.specs.Performing.{Changes, Gives};
ghost use Rattle.command_core.specs.Lines.{lines_in};
ghost use Rattle.command_core.specs.PairsIn.{pairs_in};
ghost use Rattle.script_core.specs.Effects.{change_in, delete_in, load_in, load_or_fault, make_in, update_in};

use crate::failure::{Failure, failure_at, refused};
use crate::ledger::Ledger;
use crate::pairs::read_pairs;
use crate::performing::QueryContext;
use crate::rows::loaded_rows;
use answer_core::Answer;
use book_core::Change;
use command_core::{Lines, Refusal, TextPairs};
use draft_core::Drafts;
use period_core::Period;
use row_core::{Name, Schema};
use std::alloc::Global;
use std::sync::Wait;
use std::thread::Threads;
use store_core::Snapshot;
use work_core::{Crew, OpenGate};

/// Makes a change, for the command with this number.
fn apply<R: Wait>(
    rt: &R,
    ledger: &mut Ledger,
    number: u64,
    change: Change,
) -> Result<Answer, Failure>
    requires { 0 < left_in ledger.old }
    ensures changes { Changes (change_in number (ledger_history ledger.old) change)
        (ledger_history ledger.old)
        (ledger_history ledger.new) result }
    ensures left { left_in ledger.new + 1 ≡ left_in ledger.old }
{
    match ledger.commit(rt, change) {
        Ok(commit) => Ok(Answer::Committed(commit)),
        Err(why) => Err(failure_at(number, why)),
    }
}

/// Makes a table.
pub(crate) fn make<R: Wait>(
    rt: &R,
    ledger: &mut Ledger,
    number: u64,
    table: Name,
    schema: Schema,
) -> Result<Answer, Failure>
    requires { 0 < left_in ledger.old }
    ensures changes { Changes (make_in number (ledger_history ledger.old) table schema)
        (ledger_history ledger.old) (ledger_history ledger.new) result }
    ensures left { left_in ledger.new + 1 ≡ left_in ledger.old }
{
    apply(rt, ledger, number, Change::Make { table, schema })
}

/// Reads the rows of a load, by the columns of the table in the newest commit.
fn rows_of_load<T: Threads + Sync>(
    crew: &Crew<'_, T, OpenGate>,
    newest: &Snapshot,
    number: u64,
    table: Name,
    body: Lines<'_>,
) -> Result<Drafts, Failure>
    requires { number + 1 + length (lines_in body) < 2 ^ 64 }
    ensures { Gives (load_or_fault number (history newest.now) table (lines_in body.entry))
        (λ meant rows. rows ≡ meant) result }
{
    match newest.schema(table) {
        Ok(schema) => loaded_rows(crew, schema, body, number + 1),
        Err(_) => Err(refused(number, Refusal::NoTable)),
    }
}

/// Adds a load's rows to a table. The rows are read by the columns that the context's snapshot shows, and the first has
/// number `number + 1`.
pub(crate) fn load_by<T: Threads + Wait + Sync>(
    context: &QueryContext<'_, T>,
    ledger: &mut Ledger,
    number: u64,
    table: Name,
    body: Lines<'_>,
) -> Result<Answer, Failure>
    requires newest { history context.now.newest.now ≡ ledger_history ledger.old }
    requires numbers { number + 1 + length (lines_in body) < 2 ^ 64 }
    requires left { 0 < left_in ledger.old }
    ensures changes { Changes
        (load_in number (ledger_history ledger.old) table (lines_in body.entry))
        (ledger_history ledger.old) (ledger_history ledger.new) result }
    ensures left { left_in ledger.old ≤ left_in ledger.new + 1 }
{
    let QueryContext { crew, newest } = *context;
    let rows = rows_of_load(crew, newest, number, table, body)?;
    apply(crew.rt, ledger, number, Change::Load { table, rows })
}

/// Adds a load's rows to a table. The first row has number `number + 1`.
pub(crate) fn load<T: Threads + Wait + Sync>(
    crew: &Crew<'_, T, OpenGate>,
    ledger: &mut Ledger,
    number: u64,
    table: Name,
    body: Lines<'_>,
) -> Result<Answer, Failure>
    requires numbers { number + 1 + length (lines_in body) < 2 ^ 64 }
    requires left { 2 ≤ left_in ledger.old }
    ensures changes { Changes
        (load_in number (ledger_history ledger.old) table (lines_in body.entry))
        (ledger_history ledger.old) (ledger_history ledger.new) result }
    ensures left { left_in ledger.old ≤ left_in ledger.new + 2 }
{
    // The snapshot is dropped before the commit, so that nothing has to be copied.
    let rows = {
        let newest = ledger.newest(crew.rt)?;
        rows_of_load(crew, &newest, number, table, body)?
    };
    apply(crew.rt, ledger, number, Change::Load { table, rows })
}

/// A portion of the rows that match the conditions.
#[derive(Clone, Copy)]
pub(crate) struct RowPortion<'a> {
    pub table: Name,
    pub portion: Period,
    pub conds: TextPairs<'a>,
}

/// Sets values in a portion of a table's rows.
pub(crate) fn update<T: Wait>(
    crew: &Crew<'_, T, OpenGate>,
    ledger: &mut Ledger,
    number: u64,
    of: RowPortion<'_>,
    sets: TextPairs<'_>,
) -> Result<Answer, Failure>
    requires { 2 ≤ left_in ledger.old }
    ensures changes { Changes
        (update_in number (ledger_history ledger.old) of.entry.table of.entry.portion
        (pairs_in sets.entry) (pairs_in of.entry.conds))
        (ledger_history ledger.old) (ledger_history ledger.new) result }
    ensures left { left_in ledger.old ≤ left_in ledger.new + 2 }
{
    let Crew { rt, alloc, .. } = *crew;
    let RowPortion {
        table,
        portion,
        conds,
    } = of;
    let (sets, conds) = {
        let newest = ledger.newest(rt)?;
        let Ok(schema) = newest.schema(table) else {
            return Err(refused(number, Refusal::NoTable));
        };
        let sets = read_pairs(alloc, schema, number, sets)?;
        (sets, read_pairs(alloc, schema, number, conds)?)
    };
    let change = Change::Update {
        table,
        portion,
        sets,
        conds,
    };
    apply(rt, ledger, number, change)
}

/// Removes a portion of a table's rows.
pub(crate) fn delete<T: Wait>(
    crew: &Crew<'_, T, OpenGate>,
    ledger: &mut Ledger,
    number: u64,
    of: RowPortion<'_>,
) -> Result<Answer, Failure>
    requires { 2 ≤ left_in ledger.old }
    ensures changes { Changes
        (delete_in number (ledger_history ledger.old) of.entry.table of.entry.portion
        (pairs_in of.entry.conds))
        (ledger_history ledger.old) (ledger_history ledger.new) result }
    ensures left { left_in ledger.old ≤ left_in ledger.new + 2 }
{
    let Crew { rt, alloc, .. } = *crew;
    let RowPortion {
        table,
        portion,
        conds,
    } = of;
    let conds = {
        let newest = ledger.newest(rt)?;
        let Ok(schema) = newest.schema(table) else {
            return Err(refused(number, Refusal::NoTable));
        };
        read_pairs(alloc, schema, number, conds)?
    };
    let change = Change::Delete {
        table,
        portion,
        conds,
    };
    apply(rt, ledger, number, change)
}
