//! The values of rows, found by the rows' ids.
ghost use Rattle.std.specs.Prelude.{◌≡◌, [], All, IfOk, IsTrue};
ghost use Rattle.std.specs.Option.{option_map_or};
ghost use Rattle.row_core.specs.Rows.{RowsRise};
ghost use Rattle.table_core.specs.Lent.{lent_row};
ghost use Rattle.answer_core.specs.JoinedRows.{values_with};

use crate::rows_by_id::RowsById;
use period_core::NoMemory;
use std::alloc::Global;
use std::marker::Model;
use table_core::{RowRef, SharedRows};

/// Rows whose values are found by their ids. Contracts see the list of the rows.
#[derive(Drop)]
pub(crate) struct RowValues<'a> {
    rows: RowsById<'a>,
    /// Whether no row has values. Then no row is searched for.
    bare: bool,
}

impl<'a> Model for RowValues<'a> {
    ghost use Rattle.std.specs.Prelude.{◌≡◌, [], All, List, IsTrue};
    ghost use Rattle.row_core.specs.declared.row.Row.{Row as AnyRow};

    ghost Value = { List AnyRow };

    ghost view = { λ v. v.rows };

    ghost invariant = { λ v. IsTrue v.bare → All (λ (row : AnyRow). row.values ≡ []) v.rows };
}

impl<'a> RowValues<'a> {
    /// Returns an index of the values of `rows`.
    pub(crate) fn new(alloc: Global, rows: &'a SharedRows) -> Result<RowValues<'a>, NoMemory>
        requires { RowsRise rows.now }
        ensures { IfOk result (λ values. values ≡ rows.entry.now) }
    {
        Ok(RowValues {
            rows: RowsById::new(alloc, rows)?,
            bare: are_bare(rows),
        })
    }

    /// Returns the row with this id, or `None` if it doesn't exist or no row has values.
    pub(crate) fn of(&self, id: u64) -> Option<RowRef<'a>>
        ensures { option_map_or (λ row. (lent_row row).values) result []
            ≡ values_with self.now id }
    {
        if self.bare {
            return None;
        }
        self.rows.get(id)
    }
}

/// Returns whether no row has values, like the rows of a table without columns.
fn are_bare(rows: &SharedRows) -> bool
    ensures { IsTrue result → All (λ row. row.values ≡ []) rows.now }
{
    for place in 0..rows.len() {
        if rows.at(place).width() > 0 {
            return false;
        }
    }
    true
}
