//! The values of one side's rows in a column, and their current classes.

ghost use Rattle.std.specs.Prelude.{◌≡◌, ◌<◌, All, Some, length, slice_get, slice_index};
ghost use Rattle.row_core.specs.Lent.{lent_value};
ghost use Rattle.table_core.specs.Lent.{lent_row};
ghost use Rattle.match_core.specs.Cells.{classes_in, column_at};

use crate::side_column::SideColumn;
use row_core::ValueRef;
use table_core::{RowRef, SharedRows};

/// Returns the current class of row `i`.
pub(crate) fn class_at(side: SideColumn<'_, '_>, i: usize) -> u64
    requires { i < length side.rows.now }
    ensures { result ≡ slice_index (classes_in side.entry) i }
{
    match side.classes {
        None => 0,
        Some(classes) => classes[i],
    }
}

/// Returns the value of row `i` in the column at index `place`.
pub(crate) fn value_at(rows: &SharedRows, place: usize, i: usize) -> ValueRef<'_>
    requires within { i < length rows.now }
    requires wide { All (λ row. place < length row.values) rows.now }
    ensures { slice_get (column_at place rows.now) i ≡ Some (Some (lent_value result)) }
{
    value_in(rows.at(i), place)
}

/// Returns the row's value in the column at index `place`.
fn value_in<'a>(row: RowRef<'a>, place: usize) -> ValueRef<'a>
    requires { place < length (lent_row row).values }
    ensures { slice_get (lent_row row.entry).values place ≡ Some (lent_value result) }
{
    let Some(value) = row.value(place) else {
        unreachable!()
    };
    value
}
