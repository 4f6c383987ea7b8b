//! The first command of some records: how many records it takes, and its meaning.
ghost use Rattle.std.specs.Prelude.{
  ◌≡◌,
  ◌+◌,
  ◌<◌,
  ◌≤◌,
  Some,
  IfErr,
  IfOk,
  IfSome,
  IfNone,
  OnErr,
  codes,
  false,
  true,
  length,
  take,
  drop,
  slice_get,
};
ghost use Rattle.row_core.specs.Refusals.{Reads};
ghost use Rattle.row_core.specs.declared.failure.Failure.TheVariants as failure;
ghost use Rattle.command_core.specs.Command.{meaning_of, meant_by};
ghost use Rattle.command_core.specs.Lines.{fields_in, lines_in};
ghost use Rattle.command_core.specs.Meaning.{
  IsBody,
  Means,
  behind_length,
  block_meaning,
  check_meaning,
  load_meaning,
  meaning_or_refusal,
  record_meaning,
};
ghost use Rattle.command_core.specs.Words.{begins, is_end, opens_block};

use crate::command::{Command, refused};
use crate::fields::{claimed, commit_named, named, split_asof};
use crate::line::Line;
use crate::lines::Lines;
use crate::portions::{read_delete, read_update};
use crate::queries::{
    read_agg, read_anti, read_at, read_between, read_dip, read_from_to, read_join, read_log,
    read_rows,
};
use crate::refusal::Refusal;
use crate::table_command::read_table;
use crate::words::{Verb, begins, is_end, opens_block, verb_of};
use period_core::NoMemory;
use row_core::Failure;
use std::alloc::{AllocError, Global};

/// A command, and how many records it takes.
#[derive(Drop)]
pub struct CommandCut<'a> {
    /// The command.
    pub command: Command<'a>,
    /// How many records it takes: one, a block up to its `end`, or all if the `end` is missing.
    pub taken: usize,
}

/// Returns what a record means that opens no block.
fn read_record<'a>(alloc: Global, line: Line<'a>) -> Result<Command<'a>, Failure<Refusal>>
    ensures reads { Reads meaning_of (record_meaning (fields_in line.entry)) result }
    ensures memory { IfErr result
        (λ why. why ≡ failure.NoMemory → begins (codes "table") (fields_in line.entry) ≡ true) }
{
    if begins(line, b"table") {
        read_table(alloc, line)
    } else {
        Ok(read_tableless(line)?)
    }
}

/// Returns what a record means that opens no block and makes no table.
pub(crate) fn read_tableless<'a>(line: Line<'a>) -> Result<Command<'a>, Refusal>
    requires { begins (codes "table") (fields_in line) ≡ false }
    ensures { meant_by result ≡ record_meaning (fields_in line.entry) }
{
    match verb_of(line) {
        Some(Verb::Update) => read_update(line),
        Some(Verb::Delete) => read_delete(line),
        Some(Verb::Rows) => read_rows(line),
        Some(Verb::At) => read_at(line),
        Some(Verb::Between) => read_between(line),
        Some(Verb::FromTo) => read_from_to(line),
        Some(Verb::Dip) => read_dip(line),
        Some(Verb::Join) => read_join(line),
        Some(Verb::Anti) => read_anti(line),
        Some(Verb::Agg) => read_agg(line),
        Some(Verb::Log) => read_log(line),
        Some(Verb::Table) => unreachable!(),
        None => Err(Refusal::BadCommand),
    }
}

/// Returns what a block of `load` means.
fn read_load<'a>(opening: Line<'a>, body: Lines<'a>) -> Result<Command<'a>, Refusal>
    ensures { meant_by result ≡ load_meaning (fields_in opening.entry) (lines_in body.entry) }
{
    let table = named(opening)?;
    Ok(Command::Load { table, body })
}

/// Returns what a block of `check` means.
fn read_check<'a>(opening: Line<'a>, body: Lines<'a>) -> Result<Command<'a>, Refusal>
    ensures { meant_by result ≡ check_meaning (fields_in opening.entry) (lines_in body.entry) }
{
    let (front, asof) = split_asof(opening);
    let (table, (parts, instant)) = claimed(front)?;
    let asof = commit_named(asof)?;
    Ok(Command::Check {
        table,
        parts,
        instant,
        asof,
        body,
    })
}

/// Returns what a block means. `number` is the number of its first record.
fn read_block<'a>(opening: Line<'a>, body: Lines<'a>, number: u64) -> Command<'a>
    ensures { meaning_of result
        ≡ meaning_or_refusal number
        (block_meaning (fields_in opening.entry) (lines_in body.entry)) }
{
    let read = if begins(opening, b"load") {
        read_load(opening, body)
    } else {
        read_check(opening, body)
    };
    match read {
        Ok(command) => command,
        Err(refusal) => refused(number, refusal),
    }
}

/// Returns the number of records before the first `end`, or `None` if there is no `end`.
pub(crate) fn body_len(lines: Lines<'_>) -> Option<usize>
    ensures within { IfSome result (λ n. n < length (lines_in lines.entry)) }
    ensures before { IfSome result (λ n. IsBody (take n (lines_in lines.entry))) }
    ensures last { IfSome result
        (λ n. IfSome (slice_get (lines_in lines.entry) n) (λ line. is_end line ≡ true)) }
    ensures none { IfNone result (IsBody (lines_in lines.entry)) }
{
    lines.iter().position(is_end)
}

/// Returns the first command of the records, which must not be empty. `number` is the number of the first record.
///
/// # Errors
///
/// `NoMemory` if an allocation fails. Only `table` allocates.
pub(crate) fn next_command<'a>(
    alloc: Global,
    lines: Lines<'a>,
    number: u64,
) -> Result<CommandCut<'a>, NoMemory>
    requires { 0 < length (lines_in lines) }
    ensures some { IfOk result (λ cut. 0 < cut.taken) }
    ensures within { IfOk result (λ cut. cut.taken ≤ length (lines_in lines.entry)) }
    ensures means { IfOk result
        (λ cut. Means number (take cut.taken (lines_in lines.entry))
        (drop cut.taken (lines_in lines.entry))
        (meaning_of cut.command)) }
    ensures behind { IfOk result
        (λ cut. behind_length (meaning_of cut.command) < length (lines_in lines.entry)) }
    ensures memory { OnErr result
        (IfSome (slice_get (lines_in lines.entry) 0) (λ line. begins (codes "table") line ≡ true)) }
{
    let opening = lines.get(0);
    if opens_block(opening) {
        return Ok(next_block(opening, lines, number));
    }
    let command = match read_record(alloc, opening) {
        Ok(command) => command,
        Err(Failure::Refused(refusal)) => refused(number, refusal),
        Err(Failure::NoMemory) => return Err(AllocError),
    };
    Ok(CommandCut { command, taken: 1 })
}

/// Returns the block that the records begin with. `number` is the number of the first record.
pub(crate) fn next_block<'a>(opening: Line<'a>, lines: Lines<'a>, number: u64) -> CommandCut<'a>
    requires first { slice_get (lines_in lines) 0 ≡ Some (fields_in opening) }
    requires opens { opens_block (fields_in opening) ≡ true }
    ensures some { 0 < result.taken }
    ensures within { result.taken ≤ length (lines_in lines.entry) }
    ensures means { Means number (take result.taken (lines_in lines.entry))
        (drop result.taken (lines_in lines.entry))
        (meaning_of result.command) }
    ensures behind { behind_length (meaning_of result.command) < length (lines_in lines.entry) }
{
    match body_len(lines.range(1, lines.len())) {
        Some(len) => CommandCut {
            command: read_block(opening, lines.range(1, len + 1), number),
            taken: len + 2,
        },
        None => CommandCut {
            command: refused(number, Refusal::Unended),
            taken: lines.len(),
        },
    }
}
