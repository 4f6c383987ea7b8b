//! The next statement of a script, and the next command of a block of commands.
ghost use Rattle.std.specs.Prelude.{
  ◌≡◌,
  ◌+◌,
  ◌<◌,
  ◌≤◌,
  ◌⊎◌,
  ℕ,
  List,
  All,
  IfNone,
  IfOk,
  IfSome,
  OnErr,
  Some,
  codes,
  drop,
  false,
  length,
  slice_get,
  take,
  true,
};
ghost use Rattle.command_core.specs.Command.{meaning_of};
ghost use Rattle.command_core.specs.Lines.{fields_in, lines_in};
ghost use Rattle.command_core.specs.Meaning.{Meaning, Means, MeansBlock, MeansRecord, behind_length};
ghost use Rattle.command_core.specs.Records.{Record};
ghost use Rattle.command_core.specs.Words.{begins, is_end, opens_block};
ghost use Rattle.command_core.specs.Statement as stated;
ghost use Rattle.command_core.specs.Statement.{
  AreMembers,
  IsNext,
  IsOpen,
  IsSplit,
  Member,
  StandsFor,
  States,
  begins_load,
  behind_of,
  is_allowed,
  is_barred,
};

use crate::command::{Command, refused};
use crate::line::Line;
use crate::lines::Lines;
use crate::reading::{CommandCut, body_len, next_block, next_command, read_tableless};
use crate::refusal::Refusal;
use crate::words::{begins, is_end, opens_block};
use period_core::NoMemory;
use std::alloc::Global;

/// One command, or a block of commands that are done together.
#[derive(Drop)]
pub enum Statement<'a> {
    /// A command.
    One(Command<'a>),
    /// The records of the commands, between the block's first record and its `end`.
    Together(Lines<'a>),
}

/// A statement, and how many records it takes.
#[derive(Drop)]
pub struct StatementCut<'a> {
    /// The statement.
    pub statement: Statement<'a>,
    /// How many records it takes: one, a block up to its `end`, or all if the `end` is missing.
    pub taken: usize,
}

/// Returns how many records the first command takes, or `None` if it needs an `end` that isn't there.
fn command_len(lines: Lines<'_>) -> Option<usize>
    requires { 0 < length (lines_in lines) }
    ensures some { IfSome result (λ n. 0 < n) }
    ensures within { IfSome result (λ n. n ≤ length (lines_in lines.entry)) }
    ensures whole { IfSome result (λ n. (number : ℕ) → (alone : Meaning)
        × (MeansRecord number (take n (lines_in lines.entry)) alone
        ⊎ MeansBlock number (take n (lines_in lines.entry)) alone)) }
    ensures none { IfNone result (IsOpen (lines_in lines.entry)) }
{
    if opens_block(lines.get(0)) {
        Some(body_len(lines.range(1, lines.len()))? + 2)
    } else {
        Some(1)
    }
}

/// Returns how many records come before the `end` of a block of commands, or `None` if there is no `end`. `lines` begin
/// after the block's first record.
fn commands_len(lines: Lines<'_>) -> Option<usize>
    ensures within { IfSome result (λ n. n < length (lines_in lines.entry)) }
    ensures before { IfSome result (λ n. (number : ℕ)
        → (members : List Member) × AreMembers number (take n (lines_in lines.entry)) members) }
    ensures last { IfSome result
        (λ n. IfSome (slice_get (lines_in lines.entry) n) (λ line. is_end line ≡ true)) }
    ensures none { IfNone result ((number : ℕ) → (n : ℕ) × (members : List Member)
        × AreMembers number (take n (lines_in lines.entry)) members
        × IsOpen (drop n (lines_in lines.entry))) }
{
    let mut at = 0;
    while at < lines.len() {
        if is_end(lines.get(at)) {
            return Some(at);
        }
        at += command_len(lines.range(at, lines.len()))?;
    }
    None
}

/// Returns the block of commands that the records begin with. `number` is the number of the first record.
fn next_together<'a>(opening: Line<'a>, lines: Lines<'a>, number: u64) -> StatementCut<'a>
    requires first { slice_get (lines_in lines) 0 ≡ Some (fields_in opening) }
    requires opens { begins (codes "together") (fields_in opening) ≡ true }
    ensures some { 0 < result.taken }
    ensures within { result.taken ≤ length (lines_in lines.entry) }
    ensures states { (statement : stated.Statement) × StandsFor number result.statement statement
        × States number (take result.taken (lines_in lines.entry))
        (drop result.taken (lines_in lines.entry))
        statement }
    ensures behind { behind_of result.statement < length (lines_in lines.entry) }
{
    let Some(len) = commands_len(lines.range(1, lines.len())) else {
        return StatementCut {
            statement: Statement::One(refused(number, Refusal::Unended)),
            taken: lines.len(),
        };
    };
    let statement = if opening.len() == 1 {
        Statement::Together(lines.range(1, len + 1))
    } else {
        Statement::One(refused(number, Refusal::BadCommand))
    };
    StatementCut {
        statement,
        taken: len + 2,
    }
}

/// Returns the first statement of the records, which must not be empty. `number` is the number of the first record.
///
/// # Errors
///
/// `NoMemory` if an allocation fails. Only `table` allocates.
pub fn next_statement<'a>(
    alloc: Global,
    lines: Lines<'a>,
    number: u64,
) -> Result<StatementCut<'a>, NoMemory>
    requires { 0 < length (lines_in lines) }
    ensures some { IfOk result (λ cut. 0 < cut.taken) }
    ensures within { IfOk result (λ cut. cut.taken ≤ length (lines_in lines.entry)) }
    ensures states { IfOk result (λ cut. (statement : stated.Statement)
        × StandsFor number cut.statement statement
        × States number (take cut.taken (lines_in lines.entry))
        (drop cut.taken (lines_in lines.entry)) statement) }
    ensures behind { IfOk result (λ cut. behind_of cut.statement < length (lines_in lines.entry)) }
    ensures memory { OnErr result
        (IfSome (slice_get (lines_in lines.entry) 0) (λ line. begins (codes "table") line ≡ true)) }
{
    let opening = lines.get(0);
    if begins(opening, b"together") {
        return Ok(next_together(opening, lines, number));
    }
    let CommandCut { command, taken } = next_command(alloc, lines, number)?;
    Ok(StatementCut {
        statement: Statement::One(command),
        taken,
    })
}

/// Returns whether a block of commands doesn't allow the command that begins with this record. `has_load` says whether
/// the block has a load before it.
fn is_barred(has_load: bool, opening: Line<'_>) -> bool
    ensures { result ≡ is_barred has_load (fields_in opening.entry) }
{
    begins(opening, b"table")
        || begins(opening, b"update")
        || begins(opening, b"delete")
        || begins(opening, b"log")
        || begins(opening, b"together")
        || has_load && begins(opening, b"load")
}

/// Returns the first command of the records, which a block of commands allows.
fn next_allowed<'a>(opening: Line<'a>, lines: Lines<'a>, number: u64) -> CommandCut<'a>
    requires first { slice_get (lines_in lines) 0 ≡ Some (fields_in opening) }
    requires allowed { is_barred false (fields_in opening) ≡ false }
    ensures some { 0 < result.taken }
    ensures within { result.taken ≤ length (lines_in lines.entry) }
    ensures means { Means number (take result.taken (lines_in lines.entry))
        (drop result.taken (lines_in lines.entry))
        (meaning_of result.command) }
    ensures behind { behind_length (meaning_of result.command) < length (lines_in lines.entry) }
{
    if opens_block(opening) {
        return next_block(opening, lines, number);
    }
    let command = match read_tableless(opening) {
        Ok(command) => command,
        Err(refusal) => refused(number, refusal),
    };
    CommandCut { command, taken: 1 }
}

/// Returns the next command of a block of commands, which must have one left. `number` is the number of its first
/// record; `has_load` says whether the block has a load before it.
pub fn next_inside<'a>(lines: Lines<'a>, number: u64, has_load: bool) -> CommandCut<'a>
    requires some { 0 < length (lines_in lines) }
    requires whole { (members : List Member) × AreMembers number (lines_in lines) members }
    ensures some { 0 < result.taken }
    ensures within { result.taken ≤ length (lines_in lines.entry) }
    ensures next { (members : List Member) → AreMembers number (lines_in lines.entry) members
        → IsNext has_load number members (take result.taken (lines_in lines.entry))
        (drop result.taken (lines_in lines.entry)) (meaning_of result.command) }
    ensures allowed { is_allowed has_load (meaning_of result.command) ≡ true }
    ensures behind { behind_length (meaning_of result.command) < length (lines_in lines.entry) }
{
    let opening = lines.get(0);
    if !is_barred(has_load, opening) {
        return next_allowed(opening, lines, number);
    }
    match command_len(lines) {
        Some(taken) => CommandCut {
            command: refused(number, Refusal::NotInBlock),
            taken,
        },
        None => unreachable!(),
    }
}

/// Returns how many records come before the first load of a block of commands, or `None` if it has no load.
pub fn first_load(lines: Lines<'_>) -> Option<usize>
    requires whole { (number : ℕ) × (members : List Member)
        × AreMembers number (lines_in lines) members }
    ensures within { IfSome result (λ n. n < length (lines_in lines.entry)) }
    ensures split { IfSome result (λ n. (number : ℕ) (members : List Member)
        → AreMembers number (lines_in lines.entry) members
        → IsSplit number members (take n (lines_in lines.entry)) (drop n (lines_in lines.entry))) }
    ensures none { IfNone result ((number : ℕ) (members : List Member)
        → AreMembers number (lines_in lines.entry) members
        → All (λ member. begins_load member ≡ false) members) }
{
    let mut at = 0;
    while at < lines.len() {
        if begins(lines.get(at), b"load") {
            return Some(at);
        }
        match command_len(lines.range(at, lines.len())) {
            Some(len) => at += len,
            None => unreachable!(),
        }
    }
    None
}
