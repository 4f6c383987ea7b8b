//! Rows of tables.

ghost use Rattle.std.specs.Prelude.{◌↔◌, IsTrue};
ghost use Rattle.row_core.specs.Rows.{RowsRise};

use crate::NoMemory;
use crate::value::Values;
use list_core::{DeepCopy, List};
use period_core::Period;
use std::alloc::Global;

/// A row of a table.
#[derive(Debug, Drop)]
pub struct Row {
    pub id: u64,
    pub period: Period,
    pub values: Values,
}

impl DeepCopy for Row {
    fn copy(&self, alloc: Global) -> Result<Row, NoMemory> {
        Ok(Row {
            id: self.id,
            period: self.period,
            values: self.values.copy(alloc)?,
        })
    }
}

/// Rows in any order. A book returns rows of one table, by rising id.
pub type RowList = List<Row>;

/// Tests on lists of rows.
pub trait RowOrder {
    /// Returns whether each row's id is less than the next row's; true for an empty list.
    fn ids_rise(&self) -> bool;
}

impl RowOrder for RowList {
    fn ids_rise(&self) -> bool
        ensures { IsTrue result ↔ RowsRise self.now }
    {
        rows_rise(self.as_slice())
    }
}

fn rows_rise(rows: &[Row]) -> bool
    ensures { IsTrue result ↔ RowsRise rows.now }
{
    rows.windows(2).all(|pair| pair[0].id < pair[1].id)
}
