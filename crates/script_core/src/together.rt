//! Blocks of commands that are done together. The calling thread does the load, another thread answers the queries.
ghost use Rattle.std.specs.Prelude.{◌≡◌, ℕ, ◌+◌, ◌≤◌, ◌<◌, ◌^◌, List, [], drop, length, take, false, true, IfOk};
ghost use Rattle.std.specs.Thread.{IsSync};
ghost use Rattle.command_core.specs.Command.{meaning_of};
ghost use Rattle.command_core.specs.Lines.{lines_in};
ghost use Rattle.command_core.specs.Meaning.{behind_length};
ghost use Rattle.command_core.specs.Statement.{AreMembers, IsSplit, Member, Together, placed_in};
ghost use Rattle.store_core.specs.Snapshots.{history};
ghost use Rattle.script_core.specs.Answer.{IsAnswerTo};
ghost use Rattle.script_core.specs.Ledgers.{ledger_history, left_in};
ghost use Rattle.script_core.specs.Performing.{AsksLoad, CanBeJoined, PrintsBefore, PrintsBehind, PrintsBlock, PrintsStatement, PrintsSection};
ghost use Rattle.script_core.specs.BlockCuts.{CanBeNumbered, IsCutAt, first_load_meaning};

use crate::changes::load_by;
use crate::ledger::Ledger;
use crate::outcome::Outcome;
use crate::performing::{QueryContext, answer_of, answer_query, print_given};
use answer_core::{Answer, AnswerWriter};
use command_core::{Command, CommandCut, Fault, Lines, first_load, next_inside};
use period_core::NoMemory;
use row_core::Name;
use std::sync::Wait;
use std::thread::{Threads, join_mut};
use work_core::{Crew, OpenGate};

/// Consecutive whole commands of a block: their records, and the number of the first record.
#[derive(Clone, Copy)]
struct Section<'a> {
    lines: Lines<'a>,
    first: u64,
}

/// The first load of a block.
#[derive(Clone, Copy)]
enum FirstLoad<'a> {
    /// The load is refused, whatever the tables are.
    Refused(Fault),
    /// The records of the body become rows of the table.
    Rows { table: Name, body: Lines<'a> },
}

/// A block of commands, cut at its first load. `number` is the number of the load's first record.
#[derive(Clone, Copy)]
struct BlockCut<'a> {
    front: Section<'a>,
    number: u64,
    load: FirstLoad<'a>,
    back: Section<'a>,
}

/// Answers the queries of a section of a block, and prints the answers. Returns the number of commands, and how many of
/// them are refused. A load in a section is refused, because the block's first load isn't in any section.
fn answer_queries<T: Threads + Sync>(
    context: &QueryContext<'_, T>,
    section: Section<'_>,
    printer: &mut AnswerWriter,
) -> Result<Outcome, NoMemory>
    requires whole { (members : List Member) × AreMembers section.first
        (lines_in section.lines) members }
    requires numbers { section.first + length (lines_in section.lines) < 2 ^ 64 }
    ensures { IfOk result (PrintsSection (history context.now.newest.now) section.entry.first
        (lines_in section.entry.lines) printer.old printer.new) }
{
    let Section { lines, first } = section;
    let mut reported = Outcome {
        commands: 0,
        errors: 0,
    };
    let mut at = 0;
    while at < lines.len() {
        let number = first + at as u64;
        let CommandCut { command, taken } = next_inside(lines.range(at, lines.len()), number, true);
        let errors = answer_query(context, number, command, printer)?;
        reported.commands += 1;
        reported.errors += errors;
        at += taken;
    }
    Ok(reported)
}

/// Converts the command of a block's first load.
fn load_asked<'a>(command: &Command<'a>) -> FirstLoad<'a>
    requires { AsksLoad (meaning_of command.now) }
    ensures { first_load_meaning result ≡ meaning_of command.now }
{
    match command {
        Command::Load { table, body } => FirstLoad::Rows {
            table: *table,
            body: *body,
        },
        Command::Refused(fault) => FirstLoad::Refused(*fault),
        _ => unreachable!(),
    }
}

/// Does the first load of a block, or says why it is refused. `number` is the number of its first record.
fn answer_load<T: Threads + Wait + Sync>(
    context: &QueryContext<'_, T>,
    ledger: &mut Ledger,
    number: u64,
    load: &FirstLoad<'_>,
) -> Result<Answer, NoMemory>
    requires same { history context.now.newest.now ≡ ledger_history ledger.old }
    requires numbers { number + behind_length (first_load_meaning load.now) < 2 ^ 64 }
    requires left { 0 < left_in ledger.old }
    ensures answers { IfOk result (λ answer.
        IsAnswerTo (ledger_history ledger.old) number (first_load_meaning load.now) answer
        (ledger_history ledger.new)) }
    ensures left { left_in ledger.old ≤ left_in ledger.new + 1 }
{
    match load {
        FirstLoad::Rows { table, body } => {
            answer_of(load_by(context, ledger, number, *table, *body))
        }
        FirstLoad::Refused(fault) => Ok(Answer::Refused(*fault)),
    }
}

/// Does the load of a block on this thread, while another thread answers the queries before and after it. If no thread
/// can be started, the queries are answered after the load.
fn answer_both<T: Threads + Wait + Sync>(
    context: &QueryContext<'_, T>,
    ledger: &mut Ledger,
    block: &BlockCut<'_>,
    printer: &mut AnswerWriter,
    later: &mut AnswerWriter,
) -> (
    Result<(Outcome, Outcome), NoMemory>,
    Result<Answer, NoMemory>,
)
    requires same { history context.now.newest.now ≡ ledger_history ledger.old }
    requires whole { (members : List Member) × IsCutAt block.now members }
    requires numbers { CanBeNumbered block.now }
    requires left { 0 < left_in ledger.old }
    ensures front { IfOk result.0
        (λ reported. PrintsSection (history context.now.newest.now) block.now.front.first
        (lines_in block.now.front.lines) printer.old printer.new reported.0) }
    ensures back { IfOk result.0
        (λ reported. PrintsSection (history context.now.newest.now) block.now.back.first
        (lines_in block.now.back.lines) later.old later.new reported.1) }
    ensures load { IfOk result.1 (λ answer. IsAnswerTo (ledger_history ledger.old) block.now.number
        (first_load_meaning block.now.load) answer (ledger_history ledger.new)) }
    ensures left { left_in ledger.old ≤ left_in ledger.new + 1 }
{
    let mut queries = || -> Result<(Outcome, Outcome), NoMemory>
        requires { IsSync T.row × ((members : List Member) × IsCutAt block.now members)
            × CanBeNumbered block.now }
        ensures front { IfOk result
            (λ reported. PrintsSection (history context.entry.now.newest.now)
            block.entry.now.front.first
            (lines_in block.entry.now.front.lines) printer.entry.now printer.exit.now reported.0) }
        ensures back { IfOk result (λ reported. PrintsSection (history context.entry.now.newest.now)
            block.entry.now.back.first
            (lines_in block.entry.now.back.lines) later.entry.now later.exit.now reported.1) }
    {
        let before = answer_queries(context, block.front, printer)?;
        let behind = answer_queries(context, block.back, later)?;
        Ok((before, behind))
    };
    let mut loading = || -> Result<Answer, NoMemory>
        requires { IsSync T.row × (history context.now.newest.now ≡ ledger_history ledger.now)
            × CanBeNumbered block.now
            × (0 < left_in ledger.now) }
        ensures answers { IfOk result
            (λ answer. IsAnswerTo (ledger_history ledger.entry.now) block.entry.now.number
            (first_load_meaning block.entry.now.load) answer (ledger_history ledger.exit.now)) }
        ensures left { left_in ledger.entry.now ≤ left_in ledger.exit.now + 1 }
    { answer_load(context, ledger, block.number, &block.load) };
    join_mut(context.crew.rt, &mut queries, &mut loading)
}

/// Cuts a block of commands at its first load, which begins at index `place` of the records.
fn cut_at<'a>(block: Section<'a>, place: usize) -> BlockCut<'a>
    requires whole { (members : List Member) × AreMembers block.first
        (lines_in block.lines) members }
    requires within { place < length (lines_in block.lines) }
    requires split { (members : List Member) → AreMembers block.first (lines_in block.lines) members
        → IsSplit block.first members (take place (lines_in block.lines))
        (drop place (lines_in block.lines)) }
    requires numbers { block.first + length (lines_in block.lines) < 2 ^ 64 }
    ensures cut { (members : List Member) → AreMembers block.entry.first
        (lines_in block.entry.lines) members
        → IsCutAt result members }
    ensures numbers { CanBeNumbered result }
    ensures within { length (lines_in result.front.lines) + length (lines_in result.back.lines)
        < length (lines_in block.entry.lines) }
{
    let Section { lines, first } = block;
    let rest = lines.range(place, lines.len());
    let number = first + place as u64;
    let CommandCut { command, taken } = next_inside(rest, number, false);
    BlockCut {
        front: Section {
            lines: lines.range(0, place),
            first,
        },
        number,
        load: load_asked(&command),
        back: Section {
            lines: rest.range(taken, rest.len()),
            first: number + taken as u64,
        },
    }
}

/// Prints the answer to a block's load, and appends the answers to the queries after it. Returns how many records of
/// the load's answer are refusals.
fn print_load<T: Threads + Sync>(
    crew: &Crew<'_, T, OpenGate>,
    printer: &mut AnswerWriter,
    load: Result<Answer, NoMemory>,
    later: AnswerWriter,
) -> Result<u64, NoMemory>
    ensures printed { IfOk result (PrintsBefore load printer.old later printer.new) }
    ensures few { IfOk result (λ errors. errors ≤ 1) }
{
    let errors = print_given(crew, printer, load)?;
    printer.append(later)?;
    Ok(errors)
}

/// Prints the load's answer and the answers to the queries after it, if memory sufficed for all of them. Returns the
/// outcome of the whole block.
fn print_behind<T: Threads + Sync>(
    crew: &Crew<'_, T, OpenGate>,
    printer: &mut AnswerWriter,
    queries: Result<(Outcome, Outcome), NoMemory>,
    load: Result<Answer, NoMemory>,
    later: AnswerWriter,
) -> Result<Outcome, NoMemory>
    requires queries { IfOk queries (λ reported. CanBeJoined reported.0 reported.1) }
    ensures { IfOk result (PrintsBehind queries load printer.old later printer.new) }
{
    let (before, behind) = queries?;
    let errors = print_load(crew, printer, load, later)?;
    Ok(Outcome {
        commands: before.commands + behind.commands + 1,
        errors: before.errors + behind.errors + errors,
    })
}

/// Answers the commands of a block that is cut at its first load.
fn answer_beside_load<T: Threads + Wait + Sync>(
    context: &QueryContext<'_, T>,
    ledger: &mut Ledger,
    block: &BlockCut<'_>,
    printer: &mut AnswerWriter,
) -> Result<Outcome, NoMemory>
    requires same { history context.now.newest.now ≡ ledger_history ledger.old }
    requires whole { (members : List Member) × IsCutAt block.now members }
    requires numbers { CanBeNumbered block.now }
    requires left { 0 < left_in ledger.old }
    ensures printed { IfOk result (λ reported. (members : List Member) → IsCutAt block.now members
        → PrintsBlock (history context.now.newest.now) (placed_in false members)
        (ledger_history ledger.new)
        printer.old printer.new reported) }
    ensures few { IfOk result (λ reported. reported.errors ≤ reported.commands) }
    ensures fewer { IfOk result
        (λ reported. reported.commands ≤ length (lines_in block.now.front.lines)
        + length (lines_in block.now.back.lines) + 1) }
    ensures left { left_in ledger.old ≤ left_in ledger.new + 1 }
{
    let mut later = AnswerWriter::new(context.crew.alloc);
    let (queries, load) = answer_both(context, ledger, block, printer, &mut later);
    print_behind(context.crew, printer, queries, load, later)
}

/// Answers the commands of a block. Each query reads the commits that there were at the block's beginning.
fn answer_commands<T: Threads + Wait + Sync>(
    context: &QueryContext<'_, T>,
    ledger: &mut Ledger,
    block: Section<'_>,
    printer: &mut AnswerWriter,
) -> Result<Outcome, NoMemory>
    requires same { history context.now.newest.now ≡ ledger_history ledger.old }
    requires whole { (members : List Member) × AreMembers block.first
        (lines_in block.lines) members }
    requires numbers { block.first + length (lines_in block.lines) < 2 ^ 64 }
    requires left { 0 < left_in ledger.old }
    ensures printed { IfOk result (λ reported. (members : List Member)
        → AreMembers block.entry.first (lines_in block.entry.lines) members
        → PrintsBlock (history context.now.newest.now) (placed_in false members)
        (ledger_history ledger.new)
        printer.old printer.new reported) }
    ensures few { IfOk result (λ reported. reported.errors ≤ reported.commands) }
    ensures fewer { IfOk result
        (λ reported. reported.commands ≤ length (lines_in block.entry.lines)) }
    ensures left { left_in ledger.old ≤ left_in ledger.new + 1 }
{
    match first_load(block.lines) {
        Some(place) => answer_beside_load(context, ledger, &cut_at(block, place), printer),
        None => answer_queries(context, block, printer),
    }
}

/// Answers a block of commands. Each query reads the commits that there were at its beginning. `number` is the number
/// of the block's first record.
pub(crate) fn answer_together<T: Threads + Wait + Sync>(
    crew: &Crew<'_, T, OpenGate>,
    ledger: &mut Ledger,
    number: u64,
    body: Lines<'_>,
    printer: &mut AnswerWriter,
) -> Result<Outcome, NoMemory>
    requires whole { (members : List Member) × AreMembers (number + 1) (lines_in body) members }
    requires numbers { number + 1 + length (lines_in body) < 2 ^ 64 }
    requires left { 2 ≤ left_in ledger.old }
    ensures printed { IfOk result (λ reported. (members : List Member)
        → AreMembers (number + 1) (lines_in body.entry) members
        → PrintsStatement (ledger_history ledger.old) number (Together (placed_in false members))
        (ledger_history ledger.new)
        printer.old printer.new reported) }
    ensures few { IfOk result (λ reported. reported.errors ≤ reported.commands) }
    ensures left { left_in ledger.old ≤ left_in ledger.new + 2 }
{
    let newest = ledger.newest(crew.rt)?;
    printer.together(newest.number())?;
    let block = Section {
        lines: body,
        first: number + 1,
    };
    let context = QueryContext {
        crew,
        newest: &newest,
    };
    let reported = answer_commands(&context, ledger, block, printer)?;
    Ok(Outcome {
        commands: reported.commands + 1,
        errors: reported.errors,
    })
}
