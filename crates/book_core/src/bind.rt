//! Binding the names in a change to the table's columns. Each name is looked up once, and this also finds the reasons
//! to refuse the change.

ghost use Rattle.std.specs.Prelude.{◌≡◌, ◌<◌, ◌&&◌, List, [], None, Option, Some, false, flat_map, fold, length, option_map, slice_get, unwrap_or, IfOk};
ghost use Rattle.std.specs.List.{list_all};
ghost use Rattle.std.specs.Option.{option_copied, option_map_or};
ghost use Rattle.std.specs.Result.{result_err};
ghost use Rattle.period_core.specs.declared.period.Period.{Period as AnyPeriod};
ghost use Rattle.row_core.specs.Limits.{column_limit};
ghost use Rattle.row_core.specs.Refusals.{first_of};
ghost use Rattle.row_core.specs.Schema.{column_of};
ghost use Rattle.row_core.specs.ValueOrder.{same_value};
ghost use Rattle.row_core.specs.declared.value.Value.{Value as AnyValue};
ghost use Rattle.version_core.specs.Portion.{inside};
ghost use Rattle.version_core.specs.Wanted.{are_wanted, with_set};
ghost use Rattle.book_core.specs.Rows.{inside_set, is_equal_at, set_at};
ghost use Rattle.book_core.specs.State.{pair_tests};

use crate::refusal::BookRefused;
use row_core::{Name, Schema, Value, ValueRef};
use version_core::ByColumn;

/// Binds the settings of a change, if it has some; the last setting of a column counts.
pub(crate) fn bind_sets<'a>(
    schema: &Schema,
    sets: Option<&'a [(Name, Value)]>,
) -> Result<Option<ByColumn<'a>>, BookRefused>
    ensures refused { result_err result
        ≡ first_of (flat_map (pair_tests schema.now) (unwrap_or (option_copied sets.entry) [])) }
    ensures bound { IfOk result (λ bound. (period : Option AnyPeriod) (values : List AnyValue)
        → inside bound period values
        ≡ inside_set schema.now (option_copied sets.entry) period values) }
{
    match sets {
        None => Ok(None),
        Some(sets) => match bind_settings(schema, sets) {
            Ok(bound) => Ok(Some(bound)),
            Err(refused) => Err(refused),
        },
    }
}

/// Returns the settings by column index.
fn bind_settings<'a>(
    schema: &Schema,
    sets: &'a [(Name, Value)],
) -> Result<ByColumn<'a>, BookRefused>
    ensures refused { result_err result
        ≡ first_of (flat_map (pair_tests schema.now) sets.entry.now) }
    ensures bound { IfOk result (λ bound. (values : List AnyValue)
        → with_set bound values ≡ fold (set_at schema.now) values sets.entry.now) }
{
    let mut bound = ByColumn::new();
    for pair in sets {
        match bind_column(schema, pair) {
            Ok(column) => bound.set(column, &pair.1),
            Err(refused) => return Err(refused),
        }
    }
    Ok(bound)
}

/// Returns the values that the conditions require, by column index, or `None` if two conditions contradict each other,
/// so that no row meets both.
pub(crate) fn bind_conds<'a>(
    schema: &Schema,
    conds: &'a [(Name, Value)],
) -> Result<Option<ByColumn<'a>>, BookRefused>
    ensures refused { result_err result
        ≡ first_of (flat_map (pair_tests schema.now) conds.entry.now) }
    ensures bound { IfOk result (λ bound. (values : List AnyValue)
        → option_map_or (λ wanted. are_wanted wanted values) bound false
        ≡ list_all (is_equal_at schema.now values) conds.entry.now) }
{
    let mut wanted = ByColumn::new();
    let mut agree = true;
    for pair in conds {
        match bind_column(schema, pair) {
            Ok(column) => agree = want(&mut wanted, column, &pair.1) && agree,
            Err(refused) => return Err(refused),
        }
    }
    if agree { Ok(Some(wanted)) } else { Ok(None) }
}

/// Requires the value in the column. Returns whether no other value was required there before.
fn want<'a>(wanted: &mut ByColumn<'a>, column: usize, value: &'a Value) -> bool
    requires { column < length wanted.old }
    ensures width { length wanted.new ≡ length wanted.old }
    ensures wanted { (values : List AnyValue) → (result && are_wanted wanted.new values)
        ≡ (are_wanted wanted.old values
        && unwrap_or (option_map (same_value value.now) (slice_get values column)) false) }
{
    match wanted.get(column) {
        None => {
            wanted.set(column, value);
            true
        }
        Some(one) => ValueRef::from(value).is(one),
    }
}

/// Returns the index of the column that the pair names; the pair's value must be of the column's kind.
fn bind_column(schema: &Schema, pair: &(Name, Value)) -> Result<usize, BookRefused>
    ensures refused { result_err result ≡ first_of (pair_tests schema.now pair.now) }
    ensures column { IfOk result (λ column. column_of schema.now pair.now.0 ≡ Some column) }
    ensures few { IfOk result (λ column. column < column_limit) }
{
    let _ = schema.width();
    let Some(column) = schema.column(pair.0) else {
        return Err(BookRefused::NoColumn);
    };
    if pair.1.is_of(schema.kind(column)) {
        Ok(column as usize)
    } else {
        Err(BookRefused::WrongKind)
    }
}
