//! Aggregates, and the fields that name them.
ghost use Rattle.std.specs.Prelude.{◌≡◌, option_map};
ghost use Rattle.command_core.specs.Aggregates.{
  aggregate_form,
  aggregated,
  column_form,
  column_func,
  group_named,
  grouped,
  named_aggregate,
  named_func,
  named_group,
};
ghost use Rattle.command_core.specs.Lines.{fields_in};
ghost use Rattle.command_core.specs.RawAggregates.{aggregate_of, func_of};

use crate::fields::name_in;
use crate::line::Line;
use crate::refusal::Refusal;
use crate::words::begins;
use row_core::{Func, Name};

/// A function of a table's rows, for each group.
#[derive(Clone, Copy, Debug)]
pub struct Aggregate {
    /// The table's name.
    pub table: Name,
    /// The function that is computed for each group.
    pub func: Func,
    /// The column that the rows are grouped by; without one, all rows are one group.
    pub by: Option<Name>,
}

/// An aggregate as its record gives it, before any name is tested.
#[derive(Clone, Copy)]
struct RawAggregate<'a> {
    table: &'a [u8],
    func: RawFunc<'a>,
    by: Option<&'a [u8]>,
}

/// A function, and the text that should name its column.
#[derive(Clone, Copy)]
enum RawFunc<'a> {
    Count,
    Sum(&'a [u8]),
    Min(&'a [u8]),
    Max(&'a [u8]),
}

/// Returns the function that `word` names, over a column's numbers.
fn column_func<'a>(word: &[u8], column: &'a [u8]) -> Option<RawFunc<'a>>
    ensures { option_map func_of result ≡ column_func word.now column.entry.now }
{
    if word == b"sum".as_slice() {
        Some(RawFunc::Sum(column))
    } else if word == b"min".as_slice() {
        Some(RawFunc::Min(column))
    } else if word == b"max".as_slice() {
        Some(RawFunc::Max(column))
    } else {
        None
    }
}

/// Returns the column that rows are grouped by, given after the word `by`. Returns `Some(None)` without any field.
fn group_named<'a>(fields: Line<'a>) -> Option<Option<&'a [u8]>>
    ensures { option_map (option_map (λ column. column.now)) result
        ≡ group_named (fields_in fields.entry) }
{
    if fields.len() == 0 {
        return Some(None);
    }
    if fields.len() == 2 && begins(fields, b"by") {
        Some(fields.get(1))
    } else {
        None
    }
}

/// Returns the aggregate of `func` over `table`, with the grouping that `fields` give.
fn grouped<'a>(table: &'a [u8], fields: Line<'a>, func: RawFunc<'a>) -> Option<RawAggregate<'a>>
    ensures { option_map aggregate_of result
        ≡ grouped table.entry.now (fields_in fields.entry) (func_of func.entry) }
{
    let by = group_named(fields)?;
    Some(RawAggregate { table, func, by })
}

/// Returns the aggregate over a column's numbers. The fields are the column, then the grouping.
fn column_form<'a>(table: &'a [u8], word: &[u8], fields: Line<'a>) -> Option<RawAggregate<'a>>
    ensures { option_map aggregate_of result
        ≡ column_form table.entry.now word.now (fields_in fields.entry) }
{
    let column = fields.get(0)?;
    let func = column_func(word, column)?;
    grouped(table, fields.range(1, fields.len()), func)
}

/// Returns the aggregate of a record, if the record has the right form: `count` takes no column, the other functions
/// take one.
fn aggregate_form<'a>(line: Line<'a>) -> Option<RawAggregate<'a>>
    ensures { option_map aggregate_of result ≡ aggregate_form (fields_in line.entry) }
{
    let table = line.get(1)?;
    let word = line.get(2)?;
    let fields = line.range(3, line.len());
    if word == b"count".as_slice() {
        grouped(table, fields, RawFunc::Count)
    } else {
        column_form(table, word, fields)
    }
}

/// Returns the function, or `BadName` if its column's text isn't a name.
fn named_func(func: RawFunc<'_>) -> Result<Func, Refusal>
    ensures { result ≡ named_func (func_of func.entry) }
{
    match func {
        RawFunc::Count => Ok(Func::Count),
        RawFunc::Sum(column) => Ok(Func::Sum(name_in(column)?)),
        RawFunc::Min(column) => Ok(Func::Min(name_in(column)?)),
        RawFunc::Max(column) => Ok(Func::Max(name_in(column)?)),
    }
}

/// Returns the grouping column, or `BadName` if its text isn't a name.
fn named_group(column: Option<&[u8]>) -> Result<Option<Name>, Refusal>
    ensures { result ≡ named_group (option_map (λ text. text.now) column.entry) }
{
    match column {
        Some(column) => Ok(Some(name_in(column)?)),
        None => Ok(None),
    }
}

/// Returns the aggregate, or `BadName` if the text of its table or of a column isn't a name.
fn named_aggregate(raw: RawAggregate<'_>) -> Result<Aggregate, Refusal>
    ensures { result ≡ named_aggregate (aggregate_of raw.entry) }
{
    let table = name_in(raw.table)?;
    let func = named_func(raw.func)?;
    let by = named_group(raw.by)?;
    Ok(Aggregate { table, func, by })
}

/// Returns the aggregate that a record asks for. Its form is tested before its names.
pub(crate) fn aggregated(line: Line<'_>) -> Result<Aggregate, Refusal>
    ensures { result ≡ aggregated (fields_in line.entry) }
{
    match aggregate_form(line) {
        Some(aggregate) => named_aggregate(aggregate),
        None => Err(Refusal::BadCommand),
    }
}
