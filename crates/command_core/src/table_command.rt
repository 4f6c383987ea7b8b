//! What a record of `table` means.
ghost use Rattle.std.specs.Prelude.{◌≡◌, ◌≤◌, IfOk, MatchOption, Some, false, length, option_map, true};
ghost use Rattle.std.specs.List.{list_all};
ghost use Rattle.row_core.specs.Name.{is_name};
ghost use Rattle.row_core.specs.Refusals.{Reads};
ghost use Rattle.command_core.specs.Command.{meaning_of};
ghost use Rattle.command_core.specs.Lines.{fields_in};
ghost use Rattle.command_core.specs.Meaning.{kind_named, name_table, table_columns, table_form, table_meaning};
ghost use Rattle.command_core.specs.TableCommand.{first_column, form_of, raw_column, raw_of};

use crate::command::Command;
use crate::line::Line;
use crate::refusal::{Refusal, key_failure, schema_failure};
use crate::words::begins;
use period_core::NoMemory;
use row_core::{Failure, Kind, Name, Schema};
use std::alloc::Global;

/// The text that should name a column, and the column's kind.
type RawColumn<'a> = (&'a [u8], Kind);

/// A new table as its record gives it, before any name is tested.
#[derive(Drop)]
struct RawTable<'a> {
    columns: Vec<RawColumn<'a>>,
    /// The texts that should name the key's columns. A table without a key has none.
    key: Line<'a>,
}

/// Returns the kind that a word names.
fn kind_named(word: &[u8]) -> Option<Kind>
    ensures { result ≡ kind_named word.now }
{
    if word == b"int".as_slice() {
        Some(Kind::Int)
    } else if word == b"text".as_slice() {
        Some(Kind::Text)
    } else {
        None
    }
}

/// Returns the column that the first two fields give, or `None` if the second isn't a kind. The name isn't tested.
fn first_column<'a>(line: Line<'a>) -> Option<RawColumn<'a>>
    requires { 2 ≤ length (fields_in line) }
    ensures { option_map raw_column result ≡ first_column (fields_in line.entry) }
{
    let (Some(name), Some(word)) = (line.get(0), line.get(1)) else {
        return None;
    };
    match kind_named(word) {
        Some(kind) => Some((name, kind)),
        None => None,
    }
}

/// Returns the columns and the key that the fields after a table's name give, or `None` if they don't have the right
/// form.
fn raw_table<'a>(alloc: Global, fields: Line<'a>) -> Result<Option<RawTable<'a>>, NoMemory>
    ensures { IfOk result (λ table. option_map form_of table
        ≡ table_form (fields_in fields.entry)) }
{
    let mut columns = Vec::new(alloc);
    let mut rest = fields;
    while rest.len() >= 2 {
        if begins(rest, b"key") {
            let key = rest.range(1, rest.len());
            return Ok(Some(RawTable { columns, key }));
        }
        let Some(column) = first_column(rest) else {
            return Ok(None);
        };
        columns.push(column)?;
        rest = rest.range(2, rest.len());
    }
    if rest.len() == 1 {
        return Ok(None);
    }
    Ok(Some(RawTable { columns, key: rest }))
}

/// Returns the columns, or `None` if the text of one isn't a name.
fn name_columns(alloc: Global, raw: &[RawColumn<'_>]) -> Result<Option<Vec<(Name, Kind)>>, NoMemory>
    ensures { IfOk result
        (λ columns. MatchOption columns (list_all (λ column. is_name column.0) (raw_of raw.now)
        ≡ false)
        (λ v. (list_all (λ column. is_name column.0) (raw_of raw.now) ≡ true)
        × (v.items ≡ raw_of raw.now))) }
{
    let mut columns = Vec::with_capacity(alloc, raw.len())?;
    for (name, kind) in raw {
        let Ok(name) = Name::parse(name) else {
            return Ok(None);
        };
        columns.push((name, *kind))?;
    }
    Ok(Some(columns))
}

/// Returns the names of a key's columns, or `None` if a text isn't a name.
fn name_key(alloc: Global, key: Line<'_>) -> Result<Option<Vec<Name>>, NoMemory>
    ensures { IfOk result
        (λ names. MatchOption names (list_all is_name (fields_in key.entry) ≡ false)
        (λ v. (list_all is_name (fields_in key.entry) ≡ true) × (v.items ≡ fields_in key.entry))) }
{
    let mut names = Vec::with_capacity(alloc, key.len())?;
    for place in 0..key.len() {
        let Some(text) = key.get(place) else {
            unreachable!()
        };
        let Ok(name) = Name::parse(text) else {
            return Ok(None);
        };
        names.push(name)?;
    }
    Ok(Some(names))
}

/// Returns the schema of these columns with this key, or why it is refused.
fn make_schema(
    alloc: Global,
    columns: &[(Name, Kind)],
    key: &[Name],
) -> Result<Schema, Failure<Refusal>>
    ensures { Reads (λ schema. schema) (table_columns (columns.now, key.now)) result }
{
    let schema = Schema::new(alloc, columns).map_err(schema_failure)?;
    schema.with_key(alloc, key).map_err(key_failure)
}

/// Returns the new table, or `BadName` if a text isn't a name, or why the columns and the key don't make a schema.
fn name_table<'a>(
    alloc: Global,
    table: &[u8],
    raw: &RawTable<'_>,
) -> Result<Command<'a>, Failure<Refusal>>
    ensures { Reads meaning_of (name_table table.now (Some (form_of raw.now))) result }
{
    let Ok(table) = Name::parse(table) else {
        return Err(Failure::Refused(Refusal::BadName));
    };
    let Some(columns) = name_columns(alloc, &raw.columns)? else {
        return Err(Failure::Refused(Refusal::BadName));
    };
    let Some(key) = name_key(alloc, raw.key)? else {
        return Err(Failure::Refused(Refusal::BadName));
    };
    let schema = make_schema(alloc, &columns, &key)?;
    Ok(Command::Make { table, schema })
}

/// Returns what a record of `table` means.
pub(crate) fn read_table<'a>(alloc: Global, line: Line<'a>) -> Result<Command<'a>, Failure<Refusal>>
    ensures { Reads meaning_of (table_meaning (fields_in line.entry)) result }
{
    let Some(table) = line.get(1) else {
        return Err(Failure::Refused(Refusal::BadCommand));
    };
    let Some(raw) = raw_table(alloc, line.range(2, line.len()))? else {
        return Err(Failure::Refused(Refusal::BadCommand));
    };
    name_table(alloc, table, &raw)
}
