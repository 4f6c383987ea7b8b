//! Executes the statements of a script in order: commands, and blocks of commands.
ghost use Rattle.std.specs.Prelude.{◌≡◌, ℕ, ◌+◌, ◌*◌, ◌≤◌, ◌<◌, ◌^◌, List, [], drop, length, IfErr, IfOk, Some};
ghost use Rattle.std.specs.Io.KnownBytes.{Appends};
ghost use Rattle.command_core.specs.Lines.{lines_in};
ghost use Rattle.command_core.specs.Statement as said;
ghost use Rattle.command_core.specs.Statement.{StandsFor, behind_of};
ghost use Rattle.stream_core.specs.Counted.{failures_of, inner_of, sink_of};
ghost use Rattle.stream_core.specs.FailureCount.{greatest_count};
ghost use Rattle.stream_core.specs.Faults.{last_failures, retry_limit};
ghost use Rattle.work_core.specs.Limits.{worker_limit};
ghost use Rattle.script_core.specs.Ledgers.{ledger_history, left_in, place_in};
ghost use Rattle.script_core.specs.Performing.{PrintsNext, PrintsStatement};
ghost use Rattle.script_core.specs.Script.{AppendsFront, ExplainsRun, IsOutput, RunsAll, streams_of};
ghost use Rattle.script_core.specs.Writing.{AnswersAll, ExplainsAnswering};

use crate::input::read_script;
use crate::ledger::Ledger;
use crate::outcome::Outcome;
use crate::performing::answer_command;
use crate::together::answer_together;
use answer_core::AnswerWriter;
use command_core::{Lines, Records, Statement, StatementCut, next_statement};
use period_core::NoMemory;
use std::alloc::Global;
use std::io::{Read, Write};
use std::sync::Wait;
use std::thread::Threads;
use stream_core::{Counted, Patience, RunFault};
use work_core::{Crew, OpenGate};

/// Executes a statement and prints its answer. Returns the number of its commands, and how many of the answer's records
/// are refusals. `number` is the number of its first record.
fn answer_statement<T: Threads + Wait + Sync>(
    crew: &Crew<'_, T, OpenGate>,
    ledger: &mut Ledger,
    number: u64,
    statement: Statement<'_>,
    printer: &mut AnswerWriter,
) -> Result<Outcome, NoMemory>
    requires stands { (meant : said.Statement) × StandsFor number statement meant }
    requires numbers { number + behind_of statement < 2 ^ 64 }
    requires left { 2 ≤ left_in ledger.old }
    ensures printed { IfOk result
        (λ reported. (meant : said.Statement) → StandsFor number statement.entry meant
        → PrintsStatement (ledger_history ledger.old) number meant
        (ledger_history ledger.new) printer.old
        printer.new reported) }
    ensures few { IfOk result (λ reported. reported.errors ≤ reported.commands) }
    ensures left { left_in ledger.old ≤ left_in ledger.new + 2 }
{
    match statement {
        Statement::One(command) => {
            let errors = answer_command(crew, ledger, number, command, printer)?;
            Ok(Outcome {
                commands: 1,
                errors,
            })
        }
        Statement::Together(body) => { answer_together(crew, ledger, number, body, printer) }
    }
}

/// Executes the first statement of some records and prints its answer. Returns the statement's outcome, and how many
/// records it takes. `number` is the number of the first record.
fn answer_next<T: Threads + Wait + Sync>(
    crew: &Crew<'_, T, OpenGate>,
    ledger: &mut Ledger,
    number: u64,
    lines: Lines<'_>,
    printer: &mut AnswerWriter,
) -> Result<(Outcome, usize), NoMemory>
    requires some { 0 < length (lines_in lines) }
    requires numbers { number + length (lines_in lines) ≤ 2 ^ 64 }
    requires left { 2 ≤ left_in ledger.old }
    ensures printed { IfOk result (λ reported. PrintsNext (lines_in lines.entry) number
        (ledger_history ledger.old)
        (ledger_history ledger.new) printer.old printer.new reported.0 reported.1) }
    ensures few { IfOk result (λ reported. reported.0.errors ≤ reported.0.commands) }
    ensures left { left_in ledger.old ≤ left_in ledger.new + 2 }
{
    let StatementCut { statement, taken } = next_statement(crew.alloc, lines, number)?;
    let reported = answer_statement(crew, ledger, number, statement, printer)?;
    Ok((reported, taken))
}

/// Executes the statements of some records, and writes each answer whole. `number` is the number of the first record. A
/// statement's records are freed before its answer is written.
///
/// # Errors
///
/// - `NoMemory`: the answers to the first statements were written, but not to all.
/// - `WriteFault`: the answers to all earlier statements were written, and a proper prefix of this statement's answer.
///
/// Nothing is said about the store after an error.
pub fn answer_each<T: Threads + Wait + Sync, W: Write>(
    crew: &Crew<'_, T, OpenGate>,
    ledger: &mut Ledger,
    number: u64,
    mut records: Records,
    writer: &mut Counted<W>,
    patience: &mut Patience,
) -> Result<Outcome, RunFault>
    requires numbers { number + length records ≤ 2 ^ 64 }
    requires left { 2 * length records ≤ left_in ledger.old }
    ensures ok { IfOk result (AnswersAll (place_in ledger.old number records)
        (ledger_history ledger.new)
        (sink_of W.contents writer.old) (sink_of W.contents writer.new)) }
    ensures fault { IfErr result (ExplainsAnswering (place_in ledger.old number records)
        (sink_of W.contents writer.old) (sink_of W.contents writer.new)) }
    ensures few { IfOk result (λ outcome. (outcome.errors ≤ outcome.commands)
        × (outcome.commands ≤ length records)) }
    ensures left { IfOk result
        (λ _. left_in ledger.old ≤ left_in ledger.new + 2 * length records) }
    ensures counts { failures_of writer.old ≤ failures_of writer.new }
    ensures tries { failures_of writer.new + patience.new.left
        ≤ failures_of writer.old + patience.old.left + last_failures result }
{
    let mut printer = AnswerWriter::new(crew.alloc);
    let mut outcome = Outcome {
        commands: 0,
        errors: 0,
    };
    let count = records.len();
    let mut at = 0;
    while at < count {
        let next = number + at as u64;
        let lines = Lines::all(&records);
        let (reported, taken) = answer_next(crew, ledger, next, lines, &mut printer)?;
        records.advance(taken);
        printer.write_to(writer, patience)?;
        outcome.commands += reported.commands;
        outcome.errors += reported.errors;
        at += taken;
    }
    Ok(outcome)
}

/// Reads a whole script, executes its statements in order, and writes each answer whole. Returns the number of
/// commands, and of `error` records that were written.
///
/// A script has at most 67,108,864 bytes. An interrupted read or write is tried again, at most 1,000 times in a run.
/// The writer isn't flushed. With many bytes or rows, 1 to 64 workers read the script, and execute loads, joins,
/// anti-joins and aggregates. The answers don't depend on their number.
///
/// # Errors
///
/// - `ReadFault`, `TooLong`: the script could not be read, and nothing was written.
/// - `NoMemory`: nothing was written, or the answers to the first statements, but not to all.
/// - `WriteFault`: the answers to all earlier statements were written, and a proper prefix of this statement's answer.
pub fn run<T: Threads + Wait + Sync, R: Read, W: Write>(
    rt: &T,
    alloc: Global,
    reader: &mut Counted<R>,
    writer: &mut Counted<W>,
    workers: u32,
) -> Result<Outcome, RunFault>
    requires workers { (0 < workers) × (workers ≤ worker_limit) }
    requires reads { failures_of reader.old < greatest_count }
    requires writes { failures_of writer.old < greatest_count }

    // If the run is Ok, it wrote the whole output of the reader's script and nothing else. After a fault it wrote a
    // prefix.
    ensures written { (script output : List ℕ)
        → R.remaining (inner_of reader.old) ≡ Some script → IsOutput script output
        → IfOk result (λ _. Appends (W.contents (inner_of writer.old))
        (W.contents (inner_of writer.new)) output) }
    ensures front { (script output : List ℕ)
        → R.remaining (inner_of reader.old) ≡ Some script → IsOutput script output
        → IfErr result (λ _.
        AppendsFront (W.contents (inner_of writer.old)) (W.contents (inner_of writer.new)) output) }

    // If the run is Ok, it read a script to its end, wrote its output, and reports the numbers of commands and errors.
    ensures ok { IfOk result (RunsAll
        (streams_of R.remaining reader.old W.contents writer.old)
        (streams_of R.remaining reader.new W.contents writer.new)) }

    // Each fault has its cause, and says what was written: nothing, whole answers, or whole answers and a prefix of the
    // next.
    ensures fault { IfErr result (ExplainsRun
        (streams_of R.remaining reader.old W.contents writer.old)
        (streams_of R.remaining reader.new W.contents writer.new)) }

    // Neither count of failed calls decreases.
    ensures counts { (failures_of reader.old ≤ failures_of reader.new)
        × (failures_of writer.old ≤ failures_of writer.new) }

    // A failed call is tried again, at most 1,000 times in a run; only the call that ends the run isn't.
    ensures tries { failures_of reader.new + failures_of writer.new
        ≤ failures_of reader.old + failures_of writer.old + retry_limit + last_failures result }
{
    let mut patience = Patience::new();
    let mut ledger = Ledger::new(alloc)?;
    let records = read_script(rt, alloc, reader, &mut patience, workers)?;
    let crew = Crew::new(rt, alloc, workers, &OpenGate);
    answer_each(&crew, &mut ledger, 1, records, writer, &mut patience)
}
