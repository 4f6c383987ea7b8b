//! The answer to an anti-join.
ghost use Rattle.std.specs.Prelude.{◌≡◌, IfOk};
ghost use Rattle.row_core.specs.Rows.{RowsRise};

use crate::row_values::RowValues;
use period_core::NoMemory;
use query_core::AntiRows;
use std::alloc::Global;
use std::marker::Model;
use table_core::SharedRows;

/// The left table's rows, by ascending id, and the periods when no right row matches them.
#[derive(Drop)]
pub struct Unmatched {
    left: SharedRows,
    rows: AntiRows,
}

impl Model for Unmatched {
    ghost use Rattle.answer_core.specs.UnmatchedRows.{UnmatchedRows};
    ghost use Rattle.row_core.specs.Rows.{RowsRise};

    ghost Value = { UnmatchedRows };

    ghost view = { λ u. record { left = u.left; rows = u.rows } };

    ghost invariant = { λ u. RowsRise u.left };
}

impl Unmatched {
    /// Returns the answer of the left table's rows and the periods when no right row matches them.
    pub fn new(left: SharedRows, rows: AntiRows) -> Unmatched
        requires { RowsRise left }
        ensures { result ≡ record { left = left; rows = rows } }
    {
        Unmatched { left, rows }
    }

    /// Returns the rows' ids with the periods without a match.
    pub(crate) fn rows(&self) -> &AntiRows
        ensures { result.now ≡ self.now.rows }
    {
        &self.rows
    }

    /// Returns the values of the left table's rows.
    pub(crate) fn left_values(&self, alloc: Global) -> Result<RowValues<'_>, NoMemory>
        ensures { IfOk result (λ values. values ≡ self.now.left) }
    {
        RowValues::new(alloc, &self.left)
    }
}
