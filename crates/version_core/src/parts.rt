//! Whether a row meets the conditions, and its parts before, inside and after a portion.

ghost use Rattle.std.specs.Prelude.{◌≡◌, ◌≤◌, ◌<◌, ◌++◌, List, None, Option, Some, false, get_or, is_some, length, option_map, slice_get, unwrap_or, if◌then◌else◌, IfOk, OnOk};
ghost use Rattle.std.specs.Option.{option_copied};
ghost use Rattle.period_core.specs.Period.{after as later, before, meet};
ghost use Rattle.row_core.specs.ValueOrder.{same_value};
ghost use Rattle.row_core.specs.declared.value.Value.{Value as AnyValue};
ghost use Rattle.table_core.specs.Lent.{lent_row};
ghost use Rattle.version_core.specs.Portion.{inside, part};
ghost use Rattle.version_core.specs.Wanted.{are_wanted, with_set};

use crate::by_column::ByColumn;
use draft_core::Drafts;
use list_core::DeepCopy;
use period_core::Period;
use row_core::{NoMemory, Value};
use std::alloc::Global;
use table_core::RowRef;

/// Returns whether the row has the wanted values.
#[inline(always)]
pub(crate) fn are_wanted(wanted: &ByColumn<'_>, row: RowRef<'_>) -> bool
    ensures { result ≡ are_wanted wanted.now (lent_row row.entry).values }
{
    for column in 0..wanted.width() {
        if let Some(value) = wanted.get(column) {
            if !is_equal_in(row, column, value) {
                return false;
            }
        }
    }
    true
}

/// Returns whether the row's value in the column equals `value`.
#[inline(always)]
fn is_equal_in(row: RowRef<'_>, column: usize, value: &Value) -> bool
    ensures { result ≡ unwrap_or (option_map (same_value value.now)
        (slice_get (lent_row row.entry).values column)) false }
{
    match row.value(column) {
        None => false,
        Some(found) => found.is(value),
    }
}

/// Returns the number of parts of the row, before, inside and after the portion.
pub(crate) fn count_changed(portion: &Period, row: RowRef<'_>) -> usize
    ensures parts { (sets : List (Option AnyValue)) → result
        ≡ length (part (before (lent_row row.entry).period portion.now) (lent_row row.entry).values
        ++ (inside (Some sets) (meet (lent_row row.entry).period portion.now)
        (lent_row row.entry).values
        ++ part (later (lent_row row.entry).period portion.now) (lent_row row.entry).values)) }
    ensures few { result ≤ 3 }
{
    let period = row.period();
    let (before, after) = period.minus(portion);
    one_if(before) + one_if(period.meet(portion)) + one_if(after)
}

/// Returns the number of parts of the row outside the portion.
pub(crate) fn count_outside(portion: &Period, row: RowRef<'_>) -> usize
    ensures parts { result
        ≡ length (part (before (lent_row row.entry).period portion.now) (lent_row row.entry).values
        ++ part (later (lent_row row.entry).period portion.now) (lent_row row.entry).values) }
    ensures few { result ≤ 2 }
{
    let (before, after) = row.period().minus(portion);
    one_if(before) + one_if(after)
}

/// A part counts only if its period has an instant.
fn one_if(period: Option<Period>) -> usize
    ensures { result ≡ (if is_some period then 1 else 0) }
{
    match period {
        None => 0,
        Some(_) => 1,
    }
}

/// Adds the parts of a row before, inside and after the portion, with the set values inside.
pub(crate) fn push_changed(
    alloc: Global,
    new: &mut Drafts,
    portion: &Period,
    sets: &ByColumn<'_>,
    row: RowRef<'_>,
) -> Result<(), NoMemory>
    ensures { OnOk result (new.new ≡ new.old
        ++ (part (before (lent_row row.entry).period portion.now) (lent_row row.entry).values
        ++ (part (meet (lent_row row.entry).period portion.now)
        (with_set sets.now (lent_row row.entry).values)
        ++ part (later (lent_row row.entry).period portion.now) (lent_row row.entry).values))) }
{
    let period = row.period();
    let (earlier, rest) = period.minus(portion);
    let values = row.draft().values(alloc)?;
    let changed = values_set(alloc, sets, &values)?;
    push_part(new, earlier, &values)?;
    push_part(new, period.meet(portion), &changed)?;
    push_part(new, rest, &values)?;
    Ok(())
}

/// Adds the parts of a row before and after the portion. If there aren't any, the row's values aren't read.
pub(crate) fn push_outside(
    alloc: Global,
    new: &mut Drafts,
    portion: &Period,
    row: RowRef<'_>,
) -> Result<(), NoMemory>
    ensures { OnOk result (new.new ≡ new.old
        ++ (part (before (lent_row row.entry).period portion.now) (lent_row row.entry).values
        ++ part (later (lent_row row.entry).period portion.now) (lent_row row.entry).values)) }
{
    let period = row.period();
    let (before, after) = period.minus(portion);
    if before.is_none() && after.is_none() {
        return Ok(());
    }
    let values = row.draft().values(alloc)?;
    push_part(new, before, &values)?;
    push_part(new, after, &values)?;
    Ok(())
}

/// Adds the period, if there is one, with copies of the values.
fn push_part(new: &mut Drafts, period: Option<Period>, values: &[Value]) -> Result<(), NoMemory>
    ensures { OnOk result (new.new ≡ new.old ++ (part period values.now)) }
{
    match period {
        Some(period) => new.push_row(period, values),
        None => Ok(()),
    }
}

/// Returns the values, with the set ones replaced.
fn values_set(alloc: Global, sets: &ByColumn<'_>, values: &[Value]) -> Result<Vec<Value>, NoMemory>
    ensures { IfOk result (λ now. now.items ≡ with_set sets.now values.now) }
{
    let mut now = Vec::with_capacity(alloc, values.len())?;
    for column in 0..values.len() {
        now.push(value_set(alloc, sets, column, &values[column])?)?;
    }
    Ok(now)
}

/// Returns the value that is set for the column, or the old one.
fn value_set(
    alloc: Global,
    sets: &ByColumn<'_>,
    column: usize,
    value: &Value,
) -> Result<Value, NoMemory>
    ensures { IfOk result (λ now. now ≡ unwrap_or (get_or sets.now column None) value.now) }
{
    if column < sets.width() {
        if let Some(set) = sets.get(column) {
            return set.copy(alloc);
        }
    }
    value.copy(alloc)
}
