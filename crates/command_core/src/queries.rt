//! What a query's record means.
ghost use Rattle.std.specs.Prelude.{◌≡◌};
ghost use Rattle.command_core.specs.Command.{meant_by};
ghost use Rattle.command_core.specs.Lines.{fields_in};
ghost use Rattle.command_core.specs.Meaning.{
  agg_meaning,
  anti_meaning,
  at_meaning,
  between_meaning,
  dip_meaning,
  from_to_meaning,
  join_meaning,
  log_meaning,
  rows_meaning,
};

use crate::aggregate::aggregated;
use crate::command::Command;
use crate::fields::{commit_named, compared, dated, named, spanned, split_asof};
use crate::line::Line;
use crate::refusal::Refusal;

/// Returns what a record of `rows` means.
pub(crate) fn read_rows<'a>(line: Line<'a>) -> Result<Command<'a>, Refusal>
    ensures { meant_by result ≡ rows_meaning (fields_in line.entry) }
{
    let (front, asof) = split_asof(line);
    let table = named(front)?;
    let asof = commit_named(asof)?;
    Ok(Command::Rows { table, asof })
}

/// Returns what a record of `at` means.
pub(crate) fn read_at<'a>(line: Line<'a>) -> Result<Command<'a>, Refusal>
    ensures { meant_by result ≡ at_meaning (fields_in line.entry) }
{
    let (front, asof) = split_asof(line);
    let (table, point) = dated(front)?;
    let asof = commit_named(asof)?;
    Ok(Command::At { table, point, asof })
}

/// Returns what a record of `dip` means.
pub(crate) fn read_dip<'a>(line: Line<'a>) -> Result<Command<'a>, Refusal>
    ensures { meant_by result ≡ dip_meaning (fields_in line.entry) }
{
    let (front, asof) = split_asof(line);
    let table = named(front)?;
    let asof = commit_named(asof)?;
    Ok(Command::Dip { table, asof })
}

/// Returns what a record of `join` means.
pub(crate) fn read_join<'a>(line: Line<'a>) -> Result<Command<'a>, Refusal>
    ensures { meant_by result ≡ join_meaning (fields_in line.entry) }
{
    let (front, asof) = split_asof(line);
    match compared(front) {
        Ok(tables) => Ok(Command::Join {
            tables,
            asof: commit_named(asof)?,
        }),
        Err(refusal) => Err(refusal),
    }
}

/// Returns what a record of `anti` means.
pub(crate) fn read_anti<'a>(line: Line<'a>) -> Result<Command<'a>, Refusal>
    ensures { meant_by result ≡ anti_meaning (fields_in line.entry) }
{
    let (front, asof) = split_asof(line);
    match compared(front) {
        Ok(tables) => Ok(Command::Anti {
            tables,
            asof: commit_named(asof)?,
        }),
        Err(refusal) => Err(refusal),
    }
}

/// Returns what a record of `agg` means.
pub(crate) fn read_agg<'a>(line: Line<'a>) -> Result<Command<'a>, Refusal>
    ensures { meant_by result ≡ agg_meaning (fields_in line.entry) }
{
    let (front, asof) = split_asof(line);
    let aggregate = aggregated(front)?;
    let asof = commit_named(asof)?;
    Ok(Command::Agg { aggregate, asof })
}

/// Returns what a record of `between` means.
pub(crate) fn read_between<'a>(line: Line<'a>) -> Result<Command<'a>, Refusal>
    ensures { meant_by result ≡ between_meaning (fields_in line.entry) }
{
    let (table, (first, last)) = spanned(line)?;
    Ok(Command::Between { table, first, last })
}

/// Returns what a record of `fromto` means.
pub(crate) fn read_from_to<'a>(line: Line<'a>) -> Result<Command<'a>, Refusal>
    ensures { meant_by result ≡ from_to_meaning (fields_in line.entry) }
{
    let (table, (first, end)) = spanned(line)?;
    Ok(Command::FromTo { table, first, end })
}

/// Returns what a record of `log` means.
pub(crate) fn read_log<'a>(line: Line<'a>) -> Result<Command<'a>, Refusal>
    ensures { meant_by result ≡ log_meaning (fields_in line.entry) }
{
    if line.len() == 1 {
        Ok(Command::Log)
    } else {
        Err(Refusal::BadCommand)
    }
}
