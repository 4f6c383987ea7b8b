//! Executes single commands, and answers queries from a snapshot, in a block of commands or outside.
ghost use Rattle.std.specs.Prelude.{◌≡◌, ℕ, ◌+◌, ◌≤◌, ◌<◌, ◌^◌, List, [], length, true, Err, IfErr, IfOk, None, Ok};
ghost use Rattle.row_core.specs.declared.failure.Failure.TheVariants.{NoMemory};
ghost use Rattle.command_core.specs.Command.{meaning_of};
ghost use Rattle.command_core.specs.Meaning.{behind_length};
ghost use Rattle.command_core.specs.Statement.{is_allowed};
ghost use Rattle.answer_core.specs.declared.answer.Answer.{Answer};
ghost use Rattle.store_core.specs.Snapshots.{asked, history, number_shown};
ghost use Rattle.script_core.specs.Answer.{IsAnswerTo};
ghost use Rattle.script_core.specs.Effects.{rows_or_fault};
ghost use Rattle.script_core.specs.Failure.{IsFailureOf};
ghost use Rattle.script_core.specs.Ledgers.{ledger_history, left_in, ShowsAll};
ghost use Rattle.script_core.specs.Performing.{asof_in, IsAnswerOf, Performs, PrintsAnswer, PrintsOne};

use crate::changes::{RowPortion, delete, load, make, update};
use crate::failure::{Failure, refused};
use crate::ledger::Ledger;
use crate::queries::{
    ClaimedTable, agg_table, anti_tables, between, check, divide, from_to, join_tables, rows,
    rows_on,
};
use answer_core::{Answer, AnswerWriter};
use cert_core::Certificate;
use command_core::{Command, Refusal};
use period_core::NoMemory;
use std::alloc::AllocError;
use std::sync::Wait;
use std::thread::Threads;
use store_core::{Future, Snapshot};
use work_core::{Crew, OpenGate};

/// The workers that answer a query, and a snapshot of all commits.
#[derive(Drop)]
pub(crate) struct QueryContext<'a, T> {
    pub crew: &'a Crew<'a, T, OpenGate>,
    pub newest: &'a Snapshot,
    pub ghost all: { ShowsAll newest.now },
}

/// Returns a snapshot of the commit that a command names, or of the newest if it names none. `number` is the command's
/// number.
fn shown_asof(newest: &Snapshot, number: u64, asof: Option<u64>) -> Result<Snapshot, Failure>
    requires { ShowsAll newest.now }
    ensures shows { IfOk result (λ shown. (history shown ≡ history newest.now)
        × (number_shown shown ≡ asked (history newest.now) asof)) }

    // It fails as the rows of each table do; if no commit is named, only because memory is refused.
    ensures fails { IfErr result (λ failure.
        (table : List ℕ) → IsFailureOf
        (rows_or_fault number (history newest.now) asof table) failure) }
    ensures newest { IfErr result (λ failure. asof ≡ None → failure ≡ NoMemory) }
{
    match newest.as_of(asof.unwrap_or(newest.number())) {
        Ok(shown) => Ok(shown),
        Err(row_core::Failure::Refused(Future)) => Err(refused(number, Refusal::Future)),
        Err(row_core::Failure::NoMemory) => Err(Failure::NoMemory),
    }
}

/// Returns the commit that a query names.
fn asof_in(query: &Command<'_>) -> Option<u64>
    ensures { result ≡ asof_in (meaning_of query.now) }
{
    match query {
        Command::Rows { asof, .. } => *asof,
        Command::At { asof, .. } => *asof,
        Command::Dip { asof, .. } => *asof,
        Command::Join { asof, .. } => *asof,
        Command::Anti { asof, .. } => *asof,
        Command::Agg { asof, .. } => *asof,
        Command::Check { asof, .. } => *asof,
        _ => None,
    }
}

/// Answers a query. `number` is the number of its first record.
pub(crate) fn query<T: Threads + Sync>(
    context: &QueryContext<'_, T>,
    number: u64,
    command: Command<'_>,
) -> Result<Answer, Failure>
    requires query { is_allowed true (meaning_of command) ≡ true }
    requires numbers { number + behind_length (meaning_of command) < 2 ^ 64 }
    ensures { Performs (history context.now.newest.now) number (meaning_of command.entry) result
        (history context.now.newest.now) }
{
    let shown = shown_asof(context.newest, number, asof_in(&command))?;
    query_shown(context, &shown, number, command)
}

/// Answers a query from `shown`, the commit that it names. `number` is the number of its first record.
fn query_shown<T: Threads + Sync>(
    context: &QueryContext<'_, T>,
    shown: &Snapshot,
    number: u64,
    command: Command<'_>,
) -> Result<Answer, Failure>
    requires query { is_allowed true (meaning_of command) ≡ true }
    requires numbers { number + behind_length (meaning_of command) < 2 ^ 64 }
    requires same { history shown.now ≡ history context.now.newest.now }
    requires shows { number_shown shown.now
        ≡ asked (history context.now.newest.now) (asof_in (meaning_of command)) }
    ensures { Performs (history context.now.newest.now) number (meaning_of command.entry) result
        (history context.now.newest.now) }
{
    let QueryContext { crew, newest } = *context;
    match command {
        Command::Refused(fault) => Ok(Answer::Refused(fault)),
        Command::Rows { table, .. } => rows(shown, number, table),
        Command::At { table, point, .. } => rows_on(shown, number, table, point),
        Command::Between { table, first, last } => between(newest, number, table, first, last),
        Command::FromTo { table, first, end } => from_to(newest, number, table, first, end),
        Command::Dip { table, .. } => divide(crew, shown, number, table),
        Command::Join { tables, .. } => join_tables(crew, shown, number, tables),
        Command::Anti { tables, .. } => anti_tables(crew, shown, number, tables),
        Command::Agg { aggregate, .. } => agg_table(crew, shown, number, aggregate),
        Command::Check {
            table,
            parts,
            instant,
            body,
            ..
        } => {
            let certificate = Certificate { parts, instant };
            let claimed = ClaimedTable { table, body };
            check(crew.alloc, shown, number, claimed, certificate)
        }
        _ => unreachable!(),
    }
}

/// Executes a command. `number` is the number of its first record.
pub(crate) fn perform<T: Threads + Wait + Sync>(
    crew: &Crew<'_, T, OpenGate>,
    ledger: &mut Ledger,
    number: u64,
    command: Command<'_>,
) -> Result<Answer, Failure>
    requires numbers { number + behind_length (meaning_of command) < 2 ^ 64 }
    requires left { 2 ≤ left_in ledger.old }
    ensures performs { Performs (ledger_history ledger.old) number (meaning_of command.entry) result
        (ledger_history ledger.new) }
    ensures left { left_in ledger.old ≤ left_in ledger.new + 2 }
{
    let rt = crew.rt;
    match command {
        Command::Make { table, schema } => make(rt, ledger, number, table, schema),
        Command::Load { table, body } => load(crew, ledger, number, table, body),
        Command::Update {
            table,
            portion,
            sets,
            conds,
        } => {
            let of = RowPortion {
                table,
                portion,
                conds,
            };
            update(crew, ledger, number, of, sets)
        }
        Command::Delete {
            table,
            portion,
            conds,
        } => {
            let of = RowPortion {
                table,
                portion,
                conds,
            };
            delete(crew, ledger, number, of)
        }
        Command::Log => Ok(Answer::Log(ledger.log(rt)?)),
        Command::Refused(fault) => Ok(Answer::Refused(fault)),
        asked => query_newest(crew, ledger, number, asked),
    }
}

/// Answers a query from a snapshot of all commits. `number` is the number of its first record.
fn query_newest<T: Threads + Wait + Sync>(
    crew: &Crew<'_, T, OpenGate>,
    ledger: &mut Ledger,
    number: u64,
    command: Command<'_>,
) -> Result<Answer, Failure>
    requires query { is_allowed true (meaning_of command) ≡ true }
    requires numbers { number + behind_length (meaning_of command) < 2 ^ 64 }
    requires left { 1 ≤ left_in ledger.old }
    ensures performs { Performs (ledger_history ledger.old) number (meaning_of command.entry) result
        (ledger_history ledger.new) }
    ensures left { left_in ledger.old ≤ left_in ledger.new + 1 }
{
    let newest = ledger.newest(crew.rt)?;
    let context = QueryContext {
        crew,
        newest: &newest,
    };
    query(&context, number, command)
}

/// Converts an outcome to an answer. A refusal is an answer too; only refused memory isn't.
pub(crate) fn answer_of(outcome: Result<Answer, Failure>) -> Result<Answer, NoMemory>
    ensures answer { IfOk result (IsAnswerOf outcome) }
    ensures memory { IfErr result (λ _. outcome ≡ Err NoMemory) }
{
    match outcome {
        Ok(answer) => Ok(answer),
        Err(Failure::Refused(fault)) => Ok(Answer::Refused(fault)),
        Err(Failure::NoMemory) => Err(AllocError),
    }
}

/// Prints an answer, and returns how many of its records are refusals.
fn print_answer<T: Threads + Sync>(
    crew: &Crew<'_, T, OpenGate>,
    printer: &mut AnswerWriter,
    answer: &Answer,
) -> Result<u64, NoMemory>
    ensures printed { IfOk result (PrintsAnswer answer.now printer.old printer.new) }
    ensures few { IfOk result (λ errors. errors ≤ 1) }
{
    printer.print(crew, answer)?;
    Ok(answer.refusals())
}

/// Prints the answer if there is one, and returns how many of its records are refusals.
pub(crate) fn print_given<T: Threads + Sync>(
    crew: &Crew<'_, T, OpenGate>,
    printer: &mut AnswerWriter,
    given: Result<Answer, NoMemory>,
) -> Result<u64, NoMemory>
    ensures printed { IfOk result (λ errors.
        (answer : Answer) × (given ≡ Ok answer)
        × PrintsAnswer answer printer.old printer.new errors) }
    ensures few { IfOk result (λ errors. errors ≤ 1) }
{
    match given {
        Ok(answer) => print_answer(crew, printer, &answer),
        Err(error) => Err(error),
    }
}

/// Answers a query and prints the answer. Returns how many of its records are refusals. `number` is the number of the
/// query's first record.
pub(crate) fn answer_query<T: Threads + Sync>(
    context: &QueryContext<'_, T>,
    number: u64,
    command: Command<'_>,
    printer: &mut AnswerWriter,
) -> Result<u64, NoMemory>
    requires query { is_allowed true (meaning_of command) ≡ true }
    requires numbers { number + behind_length (meaning_of command) < 2 ^ 64 }
    ensures printed { IfOk result
        (PrintsOne (history context.now.newest.now) number (meaning_of command.entry)
        (history context.now.newest.now) printer.old printer.new) }
    ensures few { IfOk result (λ errors. errors ≤ 1) }
{
    let answer = answer_of(query(context, number, command));
    print_given(context.crew, printer, answer)
}

/// Executes a command and prints its answer. Returns how many of its records are refusals. `number` is the number of
/// the command's first record.
pub(crate) fn answer_command<T: Threads + Wait + Sync>(
    crew: &Crew<'_, T, OpenGate>,
    ledger: &mut Ledger,
    number: u64,
    command: Command<'_>,
    printer: &mut AnswerWriter,
) -> Result<u64, NoMemory>
    requires numbers { number + behind_length (meaning_of command) < 2 ^ 64 }
    requires left { 2 ≤ left_in ledger.old }
    ensures printed { IfOk result
        (PrintsOne (ledger_history ledger.old) number (meaning_of command.entry)
        (ledger_history ledger.new)
        printer.old printer.new) }
    ensures few { IfOk result (λ errors. errors ≤ 1) }
    ensures left { left_in ledger.old ≤ left_in ledger.new + 2 }
{
    let answer = answer_of(perform(crew, ledger, number, command));
    print_given(crew, printer, answer)
}
