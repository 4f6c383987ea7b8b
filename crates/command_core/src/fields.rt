//! Values that are read from a record's fields.
ghost use Rattle.std.specs.Prelude.{◌≡◌, option_map};
ghost use Rattle.command_core.specs.Fields.{
  both_ok,
  claimed,
  commit_named,
  compared,
  dated,
  instant_in,
  name_in,
  named,
  natural_in,
  period_in,
  point_in,
  spanned,
  split_asof,
};
ghost use Rattle.command_core.specs.Lines.{fields_in};
ghost use Rattle.command_core.specs.Pairs.{compared_by, name_pairs};
ghost use Rattle.command_core.specs.PairsIn.{compared_in};
ghost use Rattle.row_core.specs.Refusals.{map_ok};

use crate::line::Line;
use crate::pairs::{TwoTables, name_pairs, paired_behind};
use crate::refusal::Refusal;
use crate::words::begins;
use period_core::{Period, Point};
use row_core::{Name, read_number};

/// Returns the name that a text spells, or `BadName`.
pub(crate) fn name_in(text: &[u8]) -> Result<Name, Refusal>
    ensures { result ≡ name_in text.now }
{
    match Name::parse(text) {
        Ok(name) => Ok(name),
        Err(_) => Err(Refusal::BadName),
    }
}

/// Returns the point that a text spells, or `BadPoint`.
fn point_in(text: &[u8]) -> Result<Point, Refusal>
    ensures { result ≡ point_in text.now }
{
    match Point::parse(text) {
        Ok(point) => Ok(point),
        Err(_) => Err(Refusal::BadPoint),
    }
}

/// Returns the number that a text spells in the form of a column's number, or `BadNumber`, also if it is negative.
pub fn natural_in(text: &[u8]) -> Result<u64, Refusal>
    ensures { result ≡ natural_in text.now }
{
    match read_number(text) {
        Ok(number) if number >= 0 => Ok(number as u64),
        _ => Err(Refusal::BadNumber),
    }
}

/// Returns the instant that a text spells: a point, or `None` for `-`.
fn instant_in(text: &[u8]) -> Result<Option<Point>, Refusal>
    ensures { result ≡ instant_in text.now }
{
    if text == b"-".as_slice() {
        Ok(None)
    } else {
        Ok(Some(point_in(text)?))
    }
}

/// Returns the period from the first point to before the second, or `BadPoint`, or `BadPeriod` if the first isn't
/// before the second.
pub(crate) fn period_in(from: &[u8], to: &[u8]) -> Result<Period, Refusal>
    ensures { result ≡ period_in from.now to.now }
{
    match Period::new(point_in(from)?, point_in(to)?) {
        Ok(period) => Ok(period),
        Err(_) => Err(Refusal::BadPeriod),
    }
}

/// Returns the name in a record that has just a name after its word.
pub(crate) fn named(line: Line<'_>) -> Result<Name, Refusal>
    ensures { result ≡ named (fields_in line.entry) }
{
    match (line.get(1), line.get(2)) {
        (Some(name), None) => name_in(name),
        _ => Err(Refusal::BadCommand),
    }
}

/// Returns a name and a point, or the first refusal.
fn name_and_point(name: &[u8], point: &[u8]) -> Result<(Name, Point), Refusal>
    ensures { result ≡ both_ok (name_in name.now) (point_in point.now) }
{
    Ok((name_in(name)?, point_in(point)?))
}

/// Returns the name and the point in a record that has just these after its word.
pub(crate) fn dated(line: Line<'_>) -> Result<(Name, Point), Refusal>
    ensures { result ≡ dated (fields_in line.entry) }
{
    match (line.get(1), line.get(2), line.get(3)) {
        (Some(name), Some(point), None) => name_and_point(name, point),
        _ => Err(Refusal::BadCommand),
    }
}

/// Returns a name and two numbers, or the first refusal.
fn name_and_span(name: &[u8], first: &[u8], last: &[u8]) -> Result<(Name, (u64, u64)), Refusal>
    ensures { result ≡ both_ok (name_in name.now)
        (both_ok (natural_in first.now) (natural_in last.now)) }
{
    Ok((name_in(name)?, (natural_in(first)?, natural_in(last)?)))
}

/// Returns the name and the two numbers in a record that has just these after its word.
pub(crate) fn spanned(line: Line<'_>) -> Result<(Name, (u64, u64)), Refusal>
    ensures { result ≡ spanned (fields_in line.entry) }
{
    match (line.get(1), line.get(2), line.get(3), line.get(4)) {
        (Some(name), Some(first), Some(last), None) => name_and_span(name, first, last),
        _ => Err(Refusal::BadCommand),
    }
}

/// Returns a name, a number and an instant, or the first refusal.
fn name_and_claim(
    name: &[u8],
    parts: &[u8],
    instant: &[u8],
) -> Result<(Name, (u64, Option<Point>)), Refusal>
    ensures { result ≡ both_ok (name_in name.now)
        (both_ok (natural_in parts.now) (instant_in instant.now)) }
{
    Ok((name_in(name)?, (natural_in(parts)?, instant_in(instant)?)))
}

/// Returns the name, the number and the instant in a record that has just these after its word.
pub(crate) fn claimed(line: Line<'_>) -> Result<(Name, (u64, Option<Point>)), Refusal>
    ensures { result ≡ claimed (fields_in line.entry) }
{
    match (line.get(1), line.get(2), line.get(3), line.get(4)) {
        (Some(name), Some(parts), Some(instant), None) => name_and_claim(name, parts, instant),
        _ => Err(Refusal::BadCommand),
    }
}

/// Returns two tables' names and the pairs of column names that `fields` give, or the first refusal.
fn names_and_pairs<'a>(
    left: &[u8],
    right: &[u8],
    fields: Line<'a>,
) -> Result<TwoTables<'a>, Refusal>
    ensures { map_ok compared_in result ≡ map_ok compared_by
        (both_ok (both_ok (name_in left.now) (name_in right.now))
        (name_pairs (fields_in fields.entry))) }
{
    let left = name_in(left)?;
    let right = name_in(right)?;
    let on = name_pairs(fields)?;
    Ok(TwoTables { left, right, on })
}

/// Returns two tables and the pairs of their columns that follow the word `on`, if it is there.
pub(crate) fn compared<'a>(line: Line<'a>) -> Result<TwoTables<'a>, Refusal>
    ensures { map_ok compared_in result ≡ compared (fields_in line.entry) }
{
    let (Some(left), Some(right)) = (line.get(1), line.get(2)) else {
        return Err(Refusal::BadCommand);
    };
    match paired_behind(b"on", line.range(3, line.len())) {
        Some(names) => names_and_pairs(left, right, names),
        None => Err(Refusal::BadCommand),
    }
}

/// Returns a record without its suffix `asof,N`, and the text of `N` if there is a suffix.
pub(crate) fn split_asof<'a>(line: Line<'a>) -> (Line<'a>, Option<&'a [u8]>)
    ensures front { fields_in result.0 ≡ (split_asof (fields_in line.entry)).0 }
    ensures text { option_map (λ s. s.now) result.1 ≡ (split_asof (fields_in line.entry)).1 }
{
    let len = line.len();
    if len < 2 {
        return (line, None);
    }
    if begins(line.range(len - 2, len), b"asof") {
        (line.range(0, len - 2), line.get(len - 1))
    } else {
        (line, None)
    }
}

/// Returns the commit that a suffix names, if there is a suffix.
pub(crate) fn commit_named(text: Option<&[u8]>) -> Result<Option<u64>, Refusal>
    ensures { result ≡ commit_named (option_map (λ s. s.now) text.entry) }
{
    match text {
        Some(text) => Ok(Some(natural_in(text)?)),
        None => Ok(None),
    }
}
