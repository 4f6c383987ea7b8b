//! Fields two by two: a column's name and the text of a value, or the names of two columns.
ghost use Rattle.std.specs.Prelude.{◌≡◌, ◌+◌, ◌*◌, ◌/◌, ◌<◌, IfSome, IsTrue, length, option_map, slice_get};
ghost use Rattle.std.specs.List.{list_all};
ghost use Rattle.row_core.specs.Name.{is_name};
ghost use Rattle.row_core.specs.Refusals.{map_ok};
ghost use Rattle.command_core.specs.Lines.{fields_in};
ghost use Rattle.command_core.specs.Pairs.{all_columns, are_pairs, name_pairs, named_pairs, paired_behind, pairs_of};

use crate::line::Line;
use crate::refusal::Refusal;
use crate::words::begins;
use row_core::Name;

/// Pairs of a column's name and the text of a value.
#[derive(Clone, Copy)]
pub struct TextPairs<'a> {
    /// The fields: a column's name and a text, alternately.
    pub fields: Line<'a>,
    pub ghost named: { IsTrue (all_columns (pairs_of (fields_in fields))) },
}

impl<'a> TextPairs<'a> {
    ghost use Rattle.command_core.specs.PairsIn.{pairs_in};

    /// Returns the number of pairs.
    pub fn len(self) -> usize
        ensures { result ≡ length (pairs_in self.entry) }
    {
        pair_count(self.fields)
    }

    /// Returns the pair at an index, or `None` past the end.
    pub fn get(self, place: usize) -> Option<(Name, &'a [u8])>
        ensures { option_map (λ pair. (pair.0, pair.1.now)) result
            ≡ slice_get (pairs_in self.entry) place }
    {
        if place >= self.fields.len() / 2 {
            return None;
        }
        let column = self.fields.get(2 * place)?;
        let text = self.fields.get(2 * place + 1)?;
        match Name::parse(column) {
            Ok(column) => Some((column, text)),
            Err(_) => unreachable!(),
        }
    }
}

/// Pairs of the names of two columns.
#[derive(Clone, Copy)]
pub struct NamePairs<'a> {
    /// The fields: the names, two for each pair.
    pub fields: Line<'a>,
    pub ghost named: { IsTrue (list_all is_name (fields_in fields)) },
}

impl<'a> NamePairs<'a> {
    ghost use Rattle.command_core.specs.PairsIn.{name_pairs_in};

    /// Returns the number of pairs.
    pub fn len(self) -> usize
        ensures { result ≡ length (name_pairs_in self.entry) }
    {
        pair_count(self.fields)
    }

    /// Returns the pair at an index, or `None` past the end.
    pub fn get(self, place: usize) -> Option<(Name, Name)>
        ensures { result ≡ slice_get (name_pairs_in self.entry) place }
    {
        if place >= self.fields.len() / 2 {
            return None;
        }
        let one = self.fields.get(2 * place)?;
        let other = self.fields.get(2 * place + 1)?;
        let Ok(one) = Name::parse(one) else {
            unreachable!()
        };
        let Ok(other) = Name::parse(other) else {
            unreachable!()
        };
        Some((one, other))
    }
}

/// Two tables whose rows are compared, and the pairs of columns that must be equal.
#[derive(Clone, Copy)]
pub struct TwoTables<'a> {
    /// The left table's name.
    pub left: Name,
    /// The right table's name.
    pub right: Name,
    /// The pairs of columns, each of a left and a right column.
    pub on: NamePairs<'a>,
}

/// Returns the number of pairs that the fields are.
fn pair_count(line: Line<'_>) -> usize
    ensures { result ≡ length (pairs_of (fields_in line.entry)) }
{
    line.len() / 2
}

/// Returns whether there are fields, and an even number of them.
fn are_pairs(line: Line<'_>) -> bool
    ensures { result ≡ are_pairs (fields_in line.entry) }
{
    line.len() > 0 && line.len() % 2 == 0
}

/// Returns the fields after `word` if they are pairs, otherwise `None`. Without any field, returns no fields.
pub(crate) fn paired_behind<'a>(word: &[u8], line: Line<'a>) -> Option<Line<'a>>
    ensures { option_map fields_in result ≡ paired_behind word.now (fields_in line.entry) }
{
    if line.len() == 0 {
        return Some(line);
    }
    let fields = line.range(1, line.len());
    if begins(line, word) && are_pairs(fields) {
        Some(fields)
    } else {
        None
    }
}

/// Returns whether the field at an index is a name.
fn is_name_at(line: Line<'_>, place: usize) -> bool
    requires { place < length (fields_in line) }
    ensures { IfSome (slice_get (fields_in line.entry) place) (λ field. result ≡ is_name field) }
{
    match line.get(place) {
        Some(field) => Name::parse(field).is_ok(),
        None => false,
    }
}

/// Returns whether the first field of each pair is a name.
fn all_columns(line: Line<'_>) -> bool
    ensures { result ≡ all_columns (pairs_of (fields_in line.entry)) }
{
    for pair in 0..line.len() / 2 {
        if !is_name_at(line, 2 * pair) {
            return false;
        }
    }
    true
}

/// Returns the pairs, or `BadName` if the first field of a pair isn't a name.
pub(crate) fn named_pairs<'a>(fields: Line<'a>) -> Result<TextPairs<'a>, Refusal>
    ensures { map_ok (λ pairs. pairs_of (fields_in pairs.fields)) result ≡ named_pairs
        (pairs_of (fields_in fields.entry)) }
{
    if all_columns(fields) {
        Ok(TextPairs { fields })
    } else {
        Err(Refusal::BadName)
    }
}

/// Returns whether each field is a name.
fn are_names(line: Line<'_>) -> bool
    ensures { result ≡ list_all is_name (fields_in line.entry) }
{
    for place in 0..line.len() {
        if !is_name_at(line, place) {
            return false;
        }
    }
    true
}

/// Returns the pairs of names, or `BadName` if a field isn't a name.
pub(crate) fn name_pairs<'a>(fields: Line<'a>) -> Result<NamePairs<'a>, Refusal>
    ensures { map_ok (λ pairs. pairs_of (fields_in pairs.fields)) result
        ≡ name_pairs (fields_in fields.entry) }
{
    if are_names(fields) {
        Ok(NamePairs { fields })
    } else {
        Err(Refusal::BadName)
    }
}
