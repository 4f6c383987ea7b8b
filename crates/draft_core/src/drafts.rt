//! Lists of rows without ids.

ghost use Rattle.std.specs.Prelude.{◌≡◌, ◌↔◌, ◌⊎◌, ◌<◌, ◌==◌, ◌++◌, ◌∷◌, [], get_or, length, map, option_map, slice_get, All, IfOk, IsNone, MatchOption, OnErr, OnOk, Some};
ghost use Rattle.std.specs.List.{list_all, list_any};
ghost use Rattle.draft_core.specs.Columns.{Takes};
ghost use Rattle.draft_core.specs.Drafts.{AreAlike, CanFollow, TakesRow, TakesRows, drafts_in};
ghost use Rattle.draft_core.specs.Lent.{lent_draft, no_draft};
ghost use Rattle.draft_core.specs.Reached.{is_reached};
ghost use Rattle.row_core.specs.Lent.{lent_value};
ghost use Rattle.row_core.specs.Schema.{fits};
ghost use Rattle.row_core.specs.Value.{kind_of};

use crate::NoMemory;
use crate::columns::Columns;
use crate::draft_ref::DraftRef;
use list_core::{DeepCopy, copy_each};
use period_core::Period;
use row_core::{Draft, Kind, Schema, Value, ValueRef, Values};
use std::alloc::Global;
use std::marker::Model;

/// How drafts are stored: by column, like the rows of a table; or each separately, if their values differ in kind.
#[derive(Debug, Drop)]
pub(crate) enum Form {
    Alike(Columns),
    Apart(Vec<Draft>),
}

/// Rows without ids, in order. Contracts see the list.
#[derive(Debug, Drop)]
pub struct Drafts {
    alloc: Global,
    form: Form,
}

impl Model for Drafts {
    ghost use Rattle.std.specs.Prelude.{List};
    ghost use Rattle.draft_core.specs.Columns.{Takes};
    ghost use Rattle.draft_core.specs.Drafts.{AreAlike, CanFollow, TakesRow, TakesRows, drafts_in};
    ghost use Rattle.row_core.specs.declared.draft.Draft.{Draft};

    ghost Value = { List Draft };

    ghost view = { λ d. drafts_in d.form };
}

impl Drafts {
    /// Returns the empty list, which allocates nothing.
    pub fn new(alloc: Global) -> Self
        ensures { result ≡ [] }
    {
        Drafts::of_columns(alloc, Columns::empty(alloc))
    }

    /// Returns the rows of the columns.
    pub(crate) fn of_columns(alloc: Global, columns: Columns) -> Self
        ensures { result ≡ columns.rows }
    {
        Drafts {
            alloc,
            form: Form::Alike(columns),
        }
    }

    /// Returns the number of drafts.
    pub fn len(&self) -> usize
        ensures { result ≡ length self.now }
    {
        match &self.form {
            Form::Alike(columns) => columns.len(),
            Form::Apart(drafts) => drafts.len(),
        }
    }

    /// Returns whether the list is empty.
    pub fn is_empty(&self) -> bool
        ensures { result ≡ (length self.now == 0) }
    {
        self.len() == 0
    }

    /// Returns the draft at the given index, or `None` past the last.
    pub fn get(&self, place: usize) -> Option<DraftRef<'_>>
        ensures { option_map lent_draft result ≡ slice_get self.now place }
    {
        if place < self.len() {
            Some(self.at(place))
        } else {
            None
        }
    }

    /// Returns the draft at the given index.
    #[inline(always)]
    pub fn at(&self, place: usize) -> DraftRef<'_>
        requires { place < length self.now }
        ensures { slice_get self.now place ≡ Some (lent_draft result) }
    {
        DraftRef {
            drafts: self,
            place,
        }
    }

    /// Adds a draft at the end.
    ///
    /// # Errors
    ///
    /// `NoMemory` if an allocation is refused, or if the texts of a column would have 2^32 bytes or more. The texts of
    /// 1,000,000 rows never have this many. The list is then unchanged, and the draft is dropped.
    pub fn push(&mut self, draft: Draft) -> Result<(), NoMemory>
        ensures ok { OnOk result (self.new ≡ self.old ++ draft ∷ []) }
        ensures err { OnErr result (self.new ≡ self.old) }
    {
        self.push_row(draft.period, draft.values.as_slice())
    }

    /// Adds a draft with the period and copies of the values at the end.
    ///
    /// # Errors
    ///
    /// `NoMemory` in the same cases as `push`; the list is then unchanged.
    pub fn push_row(&mut self, period: Period, values: &[Value]) -> Result<(), NoMemory>
        ensures ok { OnOk result
            (self.new ≡ self.old ++ record { period = period; values = values.now } ∷ []) }
        ensures err { OnErr result (self.new ≡ self.old) }
    {
        push_row(self.alloc, &mut self.form, period, values)
    }

    /// Adds drafts at the end.
    ///
    /// # Errors
    ///
    /// `NoMemory` in the same cases as `push`; the list is then unchanged.
    pub fn append(&mut self, more: Drafts) -> Result<(), NoMemory>
        ensures ok { OnOk result (self.new ≡ self.old ++ more) }
        ensures err { OnErr result (self.new ≡ self.old) }
    {
        append(self.alloc, &mut self.form, more.form)
    }

    /// Returns whether each draft has a value for each column, of that column's kind.
    pub fn all_fit(&self, schema: &Schema) -> bool
        ensures { result ≡ list_all (λ d. fits schema.now d.values) self.now }
    {
        match &self.form {
            Form::Alike(columns) => columns.all_fit(schema),
            Form::Apart(drafts) => all_fit(drafts, schema),
        }
    }

    /// Returns whether the portion overlaps a draft at one of the indexes. If drafts are stored by column, this reads
    /// their periods only.
    pub fn any_reached(&self, portion: &Period, places: &[u32]) -> bool
        requires { All (λ place. place < length self.now) places.now }
        ensures { result ≡ list_any (is_reached portion.now self.now) places.now }
    {
        match &self.form {
            Form::Alike(columns) => columns.any_reached(portion, places),
            Form::Apart(drafts) => any_reached(drafts, portion, places),
        }
    }

    /// Returns the period of the draft at the given index.
    #[inline(always)]
    pub(crate) fn period_at(&self, place: usize) -> Period
        requires { place < length self.now }
        ensures { result ≡ (get_or self.now place no_draft).period }
    {
        match &self.form {
            Form::Alike(columns) => columns.period_at(place),
            Form::Apart(drafts) => drafts[place].period,
        }
    }

    /// Returns the number of values of the draft at the given index.
    pub(crate) fn width_at(&self, place: usize) -> usize
        requires { place < length self.now }
        ensures { result ≡ length (get_or self.now place no_draft).values }
    {
        match &self.form {
            Form::Alike(columns) => columns.width_at(place),
            Form::Apart(drafts) => drafts[place].values.len(),
        }
    }

    /// Returns the value of the draft at the given index in a column, or `None` past the last column.
    #[inline(always)]
    pub(crate) fn value_at(&self, place: usize, column: usize) -> Option<ValueRef<'_>>
        requires { place < length self.now }
        ensures { option_map lent_value result
            ≡ slice_get (get_or self.now place no_draft).values column }
    {
        match &self.form {
            Form::Alike(columns) => columns.value_at(place, column),
            Form::Apart(drafts) => value_apart(drafts, place, column),
        }
    }

    /// Returns a copy of the value of the draft at the given index in a column, or `None` past the last column.
    pub(crate) fn copy_value_at(
        &self,
        alloc: Global,
        place: usize,
        column: usize,
    ) -> Result<Option<Value>, NoMemory>
        requires { place < length self.now }
        ensures { IfOk result (λ value. value
            ≡ slice_get (get_or self.now place no_draft).values column) }
    {
        match &self.form {
            Form::Alike(columns) => columns.copy_value_at(alloc, place, column),
            Form::Apart(drafts) => copy_value(alloc, &drafts[place].values, column),
        }
    }

    /// Returns copies of the values of the draft at the given index.
    pub(crate) fn values_at(&self, alloc: Global, place: usize) -> Result<Vec<Value>, NoMemory>
        requires { place < length self.now }
        ensures { IfOk result (λ values. values.items ≡ (get_or self.now place no_draft).values) }
    {
        match &self.form {
            Form::Alike(columns) => columns.values_at(alloc, place),
            Form::Apart(drafts) => copy_each(alloc, drafts[place].values.as_slice()),
        }
    }
}

impl DeepCopy for Drafts {
    fn copy(&self, alloc: Global) -> Result<Drafts, NoMemory> {
        let form = copy_form(alloc, &self.form)?;
        Ok(Drafts { alloc, form })
    }
}

/// Returns a copy of the rows, stored in the same way.
fn copy_form(alloc: Global, form: &Form) -> Result<Form, NoMemory>
    ensures rows { IfOk result (λ copy. drafts_in copy ≡ drafts_in form.now) }
    ensures alike { IfOk result (λ copy. AreAlike copy ↔ AreAlike form.now) }
{
    match form {
        Form::Alike(columns) => Ok(Form::Alike(columns.copy(alloc)?)),
        Form::Apart(drafts) => Ok(Form::Apart(copy_each(alloc, drafts)?)),
    }
}

/// Returns whether the portion overlaps a draft at one of the indexes.
fn any_reached(drafts: &[Draft], portion: &Period, places: &[u32]) -> bool
    requires { All (λ place. place < length drafts.now) places.now }
    ensures { result ≡ list_any (is_reached portion.now drafts.now) places.now }
{
    let mut any = false;
    for place in places {
        any |= drafts[*place as usize].period.overlaps(*portion);
    }
    any
}

/// Returns the value of the draft at the given index in a column, or `None` past the last column.
fn value_apart(drafts: &[Draft], place: usize, column: usize) -> Option<ValueRef<'_>>
    requires { place < length drafts.now }
    ensures { option_map lent_value result
        ≡ slice_get (get_or drafts.now place no_draft).values column }
{
    match drafts[place].values.get(column) {
        Some(value) => Some(ValueRef::from(value)),
        None => None,
    }
}

/// Returns a copy of the value at the given index, or `None` past the last.
fn copy_value(alloc: Global, values: &Values, place: usize) -> Result<Option<Value>, NoMemory>
    ensures { IfOk result (λ value. value ≡ slice_get values.now place) }
{
    match values.get(place) {
        Some(value) => Ok(Some(value.copy(alloc)?)),
        None => Ok(None),
    }
}

/// Returns whether each draft has a value for each column, of that column's kind.
fn all_fit(drafts: &[Draft], schema: &Schema) -> bool
    ensures { result ≡ list_all (λ d. fits schema.now d.values) drafts.now }
{
    drafts.iter().all(|draft| schema.fits(&draft.values))
}

/// Adds a draft with the period and copies of the values. If memory is refused, the list is unchanged.
fn push_row(
    alloc: Global,
    form: &mut Form,
    period: Period,
    values: &[Value],
) -> Result<(), NoMemory>
    ensures ok { OnOk result (drafts_in form.new
        ≡ drafts_in form.old ++ record { period = period; values = values.now } ∷ []) }
    ensures alike { OnOk result (AreAlike form.new ↔ TakesRow form.old (map kind_of values.now)) }
    ensures err { OnErr result (drafts_in form.new ≡ drafts_in form.old) }
{
    let apart = match form {
        Form::Apart(drafts) => return push_apart(alloc, drafts, period, values),
        Form::Alike(columns) => push_alike(alloc, columns, period, values)?,
    };
    if let Some(drafts) = apart {
        *form = Form::Apart(drafts);
    }
    Ok(())
}

/// Adds a draft with copies of the values to drafts that are stored separately.
fn push_apart(
    alloc: Global,
    drafts: &mut Vec<Draft>,
    period: Period,
    values: &[Value],
) -> Result<(), NoMemory>
    ensures ok { OnOk result (drafts.new.items
        ≡ drafts.old.items ++ record { period = period; values = values.now } ∷ []) }
    ensures err { OnErr result (drafts.new.items ≡ drafts.old.items) }
{
    let values = Values::of(alloc, copy_each(alloc, values)?)?;
    drafts.push(Draft { period, values })?;
    Ok(())
}

/// Adds a draft with copies of the values to the columns, if they are of its kinds. Otherwise returns all drafts, each
/// stored separately. The first draft determines the kinds.
fn push_alike(
    alloc: Global,
    columns: &mut Columns,
    period: Period,
    values: &[Value],
) -> Result<Option<Vec<Draft>>, NoMemory>
    ensures ok { IfOk result (λ apart. MatchOption apart
        (columns.new.rows ≡ columns.old.rows
        ++ record { period = period; values = values.now } ∷ [])
        (λ drafts. drafts.items
        ≡ columns.old.rows ++ record { period = period; values = values.now } ∷ [])) }
    ensures alike { IfOk result (λ apart. IsNone apart
        ↔ Takes columns.old (map kind_of values.now)) }
    ensures err { OnErr result (columns.new.rows ≡ columns.old.rows) }
{
    if columns.is_empty() {
        *columns = Columns::with_room(alloc, &kinds_of(alloc, values)?, 1)?;
    }
    if columns.are_of(values) {
        columns.push(period, values)?;
        return Ok(None);
    }
    let mut drafts = columns.drafts(alloc)?;
    push_apart(alloc, &mut drafts, period, values)?;
    Ok(Some(drafts))
}

/// Returns the kinds of the values.
fn kinds_of(alloc: Global, values: &[Value]) -> Result<Vec<Kind>, NoMemory>
    ensures { IfOk result (λ kinds. kinds.items ≡ map kind_of values.now) }
{
    let mut kinds = Vec::with_capacity(alloc, values.len())?;
    for value in values {
        kinds.push(value.kind())?;
    }
    Ok(kinds)
}

/// Adds drafts at the end. If memory is refused, the list is unchanged.
fn append(alloc: Global, form: &mut Form, more: Form) -> Result<(), NoMemory>
    ensures ok { OnOk result (drafts_in form.new ≡ drafts_in form.old ++ drafts_in more) }
    ensures alike { OnOk result (AreAlike form.new ↔ TakesRows form.old more) }
    ensures err { OnErr result (drafts_in form.new ≡ drafts_in form.old) }
{
    let apart = match form {
        Form::Apart(drafts) => return append_apart(alloc, drafts, more),
        Form::Alike(columns) => append_alike(alloc, columns, more)?,
    };
    if let Some(drafts) = apart {
        *form = Form::Apart(drafts);
    }
    Ok(())
}

/// Adds drafts to drafts that are stored separately.
fn append_apart(alloc: Global, drafts: &mut Vec<Draft>, more: Form) -> Result<(), NoMemory>
    ensures ok { OnOk result (drafts.new.items ≡ drafts.old.items ++ drafts_in more) }
    ensures err { OnErr result (drafts.new.items ≡ drafts.old.items) }
{
    let mut more = match more {
        Form::Alike(columns) => columns.drafts(alloc)?,
        Form::Apart(more) => more,
    };
    drafts.append(&mut more)?;
    Ok(())
}

/// Adds drafts to the columns. If they are of other kinds, returns all drafts, each stored separately.
fn append_alike(
    alloc: Global,
    columns: &mut Columns,
    more: Form,
) -> Result<Option<Vec<Draft>>, NoMemory>
    ensures ok { IfOk result (λ apart. MatchOption apart
        (columns.new.rows ≡ columns.old.rows ++ drafts_in more)
        (λ drafts. drafts.items ≡ columns.old.rows ++ drafts_in more)) }
    ensures alike { IfOk result (λ apart. IsNone apart ↔ CanFollow columns.old more) }
    ensures err { OnErr result (columns.new.rows ≡ columns.old.rows) }
{
    match more {
        Form::Alike(more) => append_columns(alloc, columns, more),
        Form::Apart(more) => Ok(Some(both(columns.drafts(alloc)?, more)?)),
    }
}

/// Adds the rows of other columns to these. If they are of other kinds, returns all drafts, each stored separately.
fn append_columns(
    alloc: Global,
    columns: &mut Columns,
    more: Columns,
) -> Result<Option<Vec<Draft>>, NoMemory>
    ensures ok { IfOk result (λ apart. MatchOption apart
        (columns.new.rows ≡ columns.old.rows ++ more.rows)
        (λ drafts. drafts.items ≡ columns.old.rows ++ more.rows)) }
    ensures alike { IfOk result (λ apart. IsNone apart
        ↔ ((more.rows ≡ []) ⊎ Takes columns.old more.kinds)) }
    ensures err { OnErr result (columns.new.rows ≡ columns.old.rows) }
{
    if more.is_empty() {
        return Ok(None);
    }
    if columns.is_empty() {
        *columns = more;
        return Ok(None);
    }
    if columns.are_like(&more) {
        columns.append(more)?;
        return Ok(None);
    }
    Ok(Some(both(columns.drafts(alloc)?, more.drafts(alloc)?)?))
}

/// Concatenates the two lists.
fn both(drafts: Vec<Draft>, more: Vec<Draft>) -> Result<Vec<Draft>, NoMemory>
    ensures { IfOk result (λ all. all.items ≡ drafts.items ++ more.items) }
{
    let (mut drafts, mut more) = (drafts, more);
    drafts.append(&mut more)?;
    Ok(drafts)
}
