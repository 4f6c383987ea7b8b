//! Rows with the same kinds of values, stored by column.

ghost use Rattle.std.specs.Prelude.{◌≡◌, ◌↔◌, ◌==◌, ◌<◌, ◌≤◌, ◌+◌, ◌++◌, ◌∷◌, [], ℕ, Some, drop, get_or, length, map, option_map, slice_get, All, IfErr, IfOk, IsTrue, List, OnErr, OnOk, Ok, Err};
ghost use Rattle.std.specs.List.{list_all, list_any};
ghost use Rattle.std.specs.Option.{option_copied};
ghost use Rattle.row_core.specs.Schema.{fits};
ghost use Rattle.draft_core.specs.Columns.{AreLong, Keep, draft_of, kind_of_column, kinds_fit, values_at, values_of_column};
ghost use Rattle.draft_core.specs.Lent.{no_draft};
ghost use Rattle.draft_core.specs.Reached.{is_met, is_reached};
ghost use Rattle.row_core.specs.Lent.{lent_value};
ghost use Rattle.row_core.specs.Reading.{row_of, values_of};
ghost use Rattle.row_core.specs.Refusals.{Reads};
ghost use Rattle.row_core.specs.Value.{kind_of};
ghost use Rattle.row_core.specs.declared.draft.Draft.{Draft as AnyDraft};
ghost use Rattle.row_core.specs.declared.value.Value.{Value as AnyValue};

use crate::NoMemory;
use crate::column_values::ColumnValues;
use list_core::DeepCopy;
use period_core::Period;
use row_core::{
    Column, Draft, Failure, Fields, Kind, RowRefused, Schema, Value, ValueRef, Values, read_period,
};
use std::alloc::Global;
use std::marker::Model;

/// Rows stored by column: in each column, every row has a value of the column's kind. A column may have values after
/// the last row's; they belong to no row. Contracts see the kinds and the rows.
#[derive(Debug, Drop)]
pub(crate) struct Columns {
    periods: Vec<Period>,
    values: Vec<ColumnValues>,
}

impl Model for Columns {
    ghost use Rattle.std.specs.Prelude.{length, map};
    ghost use Rattle.draft_core.specs.Columns.{AlikeRows, AreLong, kind_of_column, rows_by_column, values_of_column};

    ghost Value = { AlikeRows };

    ghost view = { λ c. record {
      kinds = map kind_of_column c.values.items;
      rows = rows_by_column 0 c.periods.items (map values_of_column c.values.items);
    } };

    ghost invariant = { λ c. AreLong (length c.periods.items) c.values.items };
}

impl Columns {
    /// Returns an empty list of rows, without columns.
    pub(crate) fn empty(alloc: Global) -> Columns
        ensures { result ≡ record { kinds = []; rows = [] } }
    {
        Columns {
            periods: Vec::new(alloc),
            values: Vec::new(alloc),
        }
    }

    /// Returns an empty list of rows, with columns of these kinds and capacity for `count` rows.
    pub(crate) fn with_room(
        alloc: Global,
        kinds: &[Kind],
        count: usize,
    ) -> Result<Columns, NoMemory>
        ensures { IfOk result (λ columns. columns ≡ record { kinds = kinds.now; rows = [] }) }
    {
        let mut values = Vec::with_capacity(alloc, kinds.len())?;
        for kind in kinds {
            values.push(ColumnValues::with_room(alloc, *kind, count)?)?;
        }
        let periods = Vec::with_capacity(alloc, count)?;
        Ok(Columns { periods, values })
    }

    /// Returns the number of rows.
    pub(crate) fn len(&self) -> usize
        ensures { result ≡ length self.now.rows }
    {
        self.periods.len()
    }

    /// Returns whether there are no rows.
    pub(crate) fn is_empty(&self) -> bool
        ensures { result ≡ (length self.now.rows == 0) }
    {
        self.len() == 0
    }

    /// Returns whether the values are of the columns' kinds.
    pub(crate) fn are_of(&self, values: &[Value]) -> bool
        ensures { IsTrue result ↔ (map kind_of values.now ≡ self.now.kinds) }
    {
        are_of(&self.values, values)
    }

    /// Returns whether the other rows have the same kinds.
    pub(crate) fn are_like(&self, other: &Columns) -> bool
        ensures { IsTrue result ↔ (other.now.kinds ≡ self.now.kinds) }
    {
        are_like(&self.values, &other.values)
    }

    /// Returns whether each row has a value for each column of a table, of that column's kind.
    pub(crate) fn all_fit(&self, schema: &Schema) -> bool
        ensures { result ≡ list_all (λ d. fits schema.now d.values) self.now.rows }
    {
        self.is_empty() || kinds_fit(&self.values, schema.as_slice())
    }

    /// Returns the number of values of the row at the given index.
    pub(crate) fn width_at(&self, place: usize) -> usize
        requires { place < length self.now.rows }
        ensures { result ≡ length (get_or self.now.rows place no_draft).values }
    {
        self.values.len()
    }

    /// Returns the period of the row at the given index.
    #[inline(always)]
    pub(crate) fn period_at(&self, place: usize) -> Period
        requires { place < length self.now.rows }
        ensures { result ≡ (get_or self.now.rows place no_draft).period }
    {
        self.periods[place]
    }

    /// Returns whether the portion overlaps a row at one of the indexes.
    pub(crate) fn any_reached(&self, portion: &Period, places: &[u32]) -> bool
        requires { All (λ place. place < length self.now.rows) places.now }
        ensures { result ≡ list_any (is_reached portion.now self.now.rows) places.now }
    {
        any_met(&self.periods, portion, places)
    }

    /// Returns the value of the row at the given index in a column, or `None` past the last column.
    #[inline(always)]
    pub(crate) fn value_at(&self, place: usize, column: usize) -> Option<ValueRef<'_>>
        requires { place < length self.now.rows }
        ensures { option_map lent_value result
            ≡ slice_get (get_or self.now.rows place no_draft).values column }
    {
        match column_at(&self.values, column) {
            Some(values) => Some(values.at(place)),
            None => None,
        }
    }

    /// Returns a copy of the value of the row at the given index in a column, or `None` past the last column.
    pub(crate) fn copy_value_at(
        &self,
        alloc: Global,
        place: usize,
        column: usize,
    ) -> Result<Option<Value>, NoMemory>
        requires { place < length self.now.rows }
        ensures { IfOk result (λ value. value
            ≡ slice_get (get_or self.now.rows place no_draft).values column) }
    {
        match column_at(&self.values, column) {
            Some(values) => Ok(Some(values.copy_at(alloc, place)?)),
            None => Ok(None),
        }
    }

    /// Returns copies of the values of the row at the given index.
    pub(crate) fn values_at(&self, alloc: Global, place: usize) -> Result<Vec<Value>, NoMemory>
        requires { place < length self.now.rows }
        ensures { IfOk result (λ values. values.items
            ≡ (get_or self.now.rows place no_draft).values) }
    {
        copy_values(alloc, &self.values, place)
    }

    /// Returns copies of all rows, each stored separately.
    pub(crate) fn drafts(&self, alloc: Global) -> Result<Vec<Draft>, NoMemory>
        ensures { IfOk result (λ drafts. drafts.items ≡ self.now.rows) }
    {
        let mut drafts = Vec::with_capacity(alloc, self.len())?;
        for place in 0..self.len() {
            drafts.push(Draft {
                period: self.period_at(place),
                values: Values::of(alloc, self.values_at(alloc, place)?)?,
            })?;
        }
        Ok(drafts)
    }

    /// Adds a row with the period and copies of the values, which must be of the columns' kinds. If memory is refused,
    /// the rows are unchanged.
    pub(crate) fn push(&mut self, period: Period, values: &[Value]) -> Result<(), NoMemory>
        requires { map kind_of values.now ≡ self.old.kinds }
        ensures ok { OnOk result (self.new ≡ record self.old {
          rows = self.old.rows ++ record { period = period; values = values.now } ∷ [];
        }) }
        ensures err { OnErr result (self.new ≡ self.old) }
    {
        let count = self.periods.len();
        push_values(&mut self.values, count, values)?;
        self.periods.push(period)?;
        Ok(())
    }

    /// Adds the row of the fields: two points, and one field for each column. The columns must have these kinds.
    pub(crate) fn read<L: Fields>(
        &mut self,
        columns: &[Column],
        fields: L,
    ) -> Result<(), Failure<RowRefused>>
        requires { map (λ column. column.kind) columns.now ≡ self.old.kinds }
        ensures ok { OnOk result ((row : AnyDraft)
            × (row_of columns.now (L.fields fields) ≡ Ok row)
            × (self.new ≡ record self.old { rows = self.old.rows ++ row ∷ [] })) }
        ensures err { IfErr result (λ failure. Reads {T = AnyDraft} (λ row. row)
            (row_of columns.now (L.fields fields)) (Err failure)) }
    {
        let count = self.periods.len();
        let period = read_onto(&mut self.values, count, columns, fields)?;
        self.periods.push(period)?;
        Ok(())
    }

    /// Adds rows of the same kinds at the end. If memory is refused, the rows are unchanged.
    pub(crate) fn append(&mut self, more: Columns) -> Result<(), NoMemory>
        requires { more.kinds ≡ self.old.kinds }
        ensures ok { OnOk result (self.new
            ≡ record self.old { rows = self.old.rows ++ more.rows }) }
        ensures err { OnErr result (self.new ≡ self.old) }
    {
        let Columns {
            mut periods,
            values,
        } = more;
        append_values(&mut self.values, self.periods.len(), values, periods.len())?;
        self.periods.append(&mut periods)?;
        Ok(())
    }
}

impl DeepCopy for Columns {
    fn copy(&self, alloc: Global) -> Result<Columns, NoMemory> {
        Ok(Columns {
            periods: Vec::from_slice(alloc, &self.periods)?,
            values: copy_columns(alloc, &self.values)?,
        })
    }
}

/// Returns whether the portion overlaps a period at one of the indexes. The loop writes nothing and has no branch that
/// depends on a period, so its time doesn't depend on where the periods are.
fn any_met(periods: &[Period], portion: &Period, places: &[u32]) -> bool
    requires { All (λ place. place < length periods.now) places.now }
    ensures { result ≡ list_any (is_met portion.now periods.now) places.now }
{
    let mut any = false;
    for place in places {
        any |= periods[*place as usize].overlaps(*portion);
    }
    any
}

/// Returns whether the values are of the columns' kinds.
fn are_of(columns: &[ColumnValues], values: &[Value]) -> bool
    ensures { IsTrue result ↔ (map kind_of values.now ≡ map kind_of_column columns.now) }
{
    if values.len() != columns.len() {
        return false;
    }
    for i in 0..columns.len() {
        if !values[i].is_of(columns[i].kind()) {
            return false;
        }
    }
    true
}

/// Returns whether the other columns are of the same kinds.
fn are_like(columns: &[ColumnValues], others: &[ColumnValues]) -> bool
    ensures { IsTrue result
        ↔ (map kind_of_column others.now ≡ map kind_of_column columns.now) }
{
    if others.len() != columns.len() {
        return false;
    }
    for i in 0..columns.len() {
        if others[i].kind() != columns[i].kind() {
            return false;
        }
    }
    true
}

/// Returns whether there is a column of values for each column of a table, of that column's kind.
fn kinds_fit(values: &[ColumnValues], columns: &[Column]) -> bool
    ensures { result ≡ kinds_fit columns.now (map kind_of_column values.now) }
{
    if values.len() != columns.len() {
        return false;
    }
    for i in 0..columns.len() {
        if values[i].kind() != columns[i].kind {
            return false;
        }
    }
    true
}

/// Returns the column at index `column`, or `None` past the last.
#[inline(always)]
fn column_at(columns: &[ColumnValues], column: usize) -> Option<&ColumnValues>
    ensures { option_copied result ≡ slice_get columns.now column }
{
    columns.get(column)
}

/// Returns copies of the values at the given index of each column.
fn copy_values(
    alloc: Global,
    columns: &[ColumnValues],
    place: usize,
) -> Result<Vec<Value>, NoMemory>
    requires { AreLong (place + 1) columns.now }
    ensures { IfOk result (λ values. values.items
        ≡ values_at (map values_of_column columns.now) place) }
{
    let mut values = Vec::with_capacity(alloc, columns.len())?;
    for column in columns {
        values.push(column.copy_at(alloc, place)?)?;
    }
    Ok(values)
}

/// Returns copies of the columns.
fn copy_columns(alloc: Global, columns: &[ColumnValues]) -> Result<Vec<ColumnValues>, NoMemory>
    ensures kinds { IfOk result (λ copy. map kind_of_column copy.items
        ≡ map kind_of_column columns.now) }
    ensures values { IfOk result (λ copy. map values_of_column copy.items
        ≡ map values_of_column columns.now) }
{
    let mut copies = Vec::with_capacity(alloc, columns.len())?;
    for column in columns {
        copies.push(column.copy(alloc)?)?;
    }
    Ok(copies)
}

/// Adds a value to each column, after its first `count` values.
fn push_values(
    columns: &mut Vec<ColumnValues>,
    count: usize,
    values: &[Value],
) -> Result<(), NoMemory>
    requires kinds { map kind_of values.now ≡ map kind_of_column columns.old.items }
    requires long { AreLong count columns.old.items }
    ensures kept { Keep count columns.old.items columns.new.items }
    ensures long { AreLong count columns.new.items }
    ensures ok { OnOk result (AreLong (count + 1) columns.new.items) }
    ensures values { OnOk result (values_at (map values_of_column columns.new.items) count
        ≡ values.now) }
{
    for i in 0..values.len() {
        columns[i].push(count, &values[i])?;
    }
    Ok(())
}

/// Adds the first `more_count` values of each of the other columns, after the first `count` values of these. The kinds
/// must be the same.
fn append_values(
    columns: &mut Vec<ColumnValues>,
    count: usize,
    more: Vec<ColumnValues>,
    more_count: usize,
) -> Result<(), NoMemory>
    requires kinds { map kind_of_column more.items ≡ map kind_of_column columns.old.items }
    requires long { AreLong count columns.old.items }
    requires more { AreLong more_count more.items }
    ensures kept { Keep count columns.old.items columns.new.items }
    ensures long { AreLong count columns.new.items }
    ensures ok { OnOk result (AreLong (count + more_count) columns.new.items) }
    ensures values { OnOk result ((i : ℕ) → i < more_count
        → values_at (map values_of_column columns.new.items) (count + i)
        ≡ values_at (map values_of_column more.items) i) }
{
    let mut place = 0;
    for values in more {
        columns[place].append(count, values, more_count)?;
        place += 1;
    }
    Ok(())
}

/// Reads the row of the fields: returns its period, and adds its values to the columns, after their first `count`
/// values. Stops at the first field that is refused, or if memory is.
fn read_onto<L: Fields>(
    values: &mut Vec<ColumnValues>,
    count: usize,
    columns: &[Column],
    fields: L,
) -> Result<Period, Failure<RowRefused>>
    requires kinds { map (λ column. column.kind) columns.now ≡ map kind_of_column values.old.items }
    requires long { AreLong count values.old.items }
    ensures kept { OnOk result (Keep count values.old.items values.new.items) }
    ensures long { AreLong count values.new.items }
    ensures ok { OnOk result (AreLong (count + 1) values.new.items) }
    ensures row { IfOk result (λ period. row_of columns.now (L.fields fields)
        ≡ Ok (draft_of period (values_at (map values_of_column values.new.items) count))) }
    ensures err { IfErr result (λ failure. Reads {T = AnyDraft} (λ row. row)
        (row_of columns.now (L.fields fields)) (Err failure)) }
{
    if fields.count() != columns.len() + 2 {
        return Err(Failure::Refused(RowRefused::WrongWidth));
    }
    let period = read_period(fields.field(0), fields.field(1)).map_err(Failure::Refused)?;
    read_values(values, count, columns, fields)?;
    Ok(period)
}

/// Adds the value of each field after the two points to its column, after the first `count` values. Stops at the first
/// field that is refused, or if memory is.
fn read_values<L: Fields>(
    values: &mut Vec<ColumnValues>,
    count: usize,
    columns: &[Column],
    fields: L,
) -> Result<(), Failure<RowRefused>>
    requires kinds { map (λ column. column.kind) columns.now ≡ map kind_of_column values.old.items }
    requires fields { length columns.now + 2 ≤ length (L.fields fields) }
    requires long { AreLong count values.old.items }
    ensures kept { Keep count values.old.items values.new.items }
    ensures long { AreLong count values.new.items }
    ensures ok { OnOk result (AreLong (count + 1) values.new.items) }
    ensures values { OnOk result (values_of columns.now (drop 2 (L.fields fields))
        ≡ Ok (values_at (map values_of_column values.new.items) count)) }
    ensures err { IfErr result (λ failure. Reads {T = List AnyValue} (λ read. read)
        (values_of columns.now (drop 2 (L.fields fields))) (Err failure)) }
{
    for i in 0..columns.len() {
        values[i].read(count, fields.field(i + 2))?;
    }
    Ok(())
}
