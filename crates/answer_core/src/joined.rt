//! The answer to a join.
ghost use Rattle.std.specs.Prelude.{◌≡◌, IfOk};
ghost use Rattle.row_core.specs.Rows.{RowsRise};

use crate::row_values::RowValues;
use period_core::NoMemory;
use query_core::{JoinRow, JoinRows};
use std::alloc::Global;
use std::marker::Model;
use table_core::SharedRows;

/// The rows of two tables, by ascending id, and the pairs of them that were joined.
#[derive(Drop)]
pub struct Joined {
    left: SharedRows,
    right: SharedRows,
    rows: JoinRows,
}

impl Model for Joined {
    ghost use Rattle.answer_core.specs.JoinedRows.{JoinedRows};
    ghost use Rattle.row_core.specs.Rows.{RowsRise};

    ghost Value = { JoinedRows };

    ghost view = { λ j. record { left = j.left; right = j.right; rows = j.rows } };

    ghost invariant = { λ j. RowsRise j.left × RowsRise j.right };
}

impl Joined {
    /// Returns the answer of the rows of two tables and the pairs that were joined.
    pub fn new(left: SharedRows, right: SharedRows, rows: JoinRows) -> Joined
        requires { RowsRise left × RowsRise right }
        ensures { result ≡ record { left = left; right = right; rows = rows } }
    {
        Joined { left, right, rows }
    }

    /// Returns the pairs that were joined.
    pub(crate) fn rows(&self) -> &[JoinRow]
        ensures { result.now ≡ self.now.rows }
    {
        self.rows.as_slice()
    }

    /// Returns the values of the left table's rows.
    pub(crate) fn left_values(&self, alloc: Global) -> Result<RowValues<'_>, NoMemory>
        ensures { IfOk result (λ values. values ≡ self.now.left) }
    {
        RowValues::new(alloc, &self.left)
    }

    /// Returns the values of the right table's rows.
    pub(crate) fn right_values(&self, alloc: Global) -> Result<RowValues<'_>, NoMemory>
        ensures { IfOk result (λ values. values ≡ self.now.right) }
    {
        RowValues::new(alloc, &self.right)
    }
}
