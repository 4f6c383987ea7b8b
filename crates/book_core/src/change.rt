//! Changes of the tables of a book.

use draft_core::Drafts;
use list_core::{DeepCopy, List};
use period_core::Period;
use row_core::{Name, NoMemory, Schema, Value};
use std::alloc::Global;

/// Pairs of a column's name and a value.
pub type Pairs = List<(Name, Value)>;

/// A change of the tables of a book, or of the rows of one table.
#[derive(Debug, Drop)]
pub enum Change {
    /// A new table, without rows.
    Make {
        table: Name,
        schema: Schema,
    },
    /// New rows, which get the next ids.
    Load {
        table: Name,
        rows: Drafts,
    },
    /// Within the portion, rows that meet all conditions get other values.
    Update {
        table: Name,
        portion: Period,
        sets: Pairs,
        conds: Pairs,
    },
    /// Within the portion, rows that meet all conditions don't hold any more.
    Delete {
        table: Name,
        portion: Period,
        conds: Pairs,
    },
}

impl DeepCopy for Change {
    fn copy(&self, alloc: Global) -> Result<Change, NoMemory> {
        match self {
            Change::Make { table, schema } => Ok(Change::Make {
                table: *table,
                schema: schema.copy(alloc)?,
            }),
            Change::Load { table, rows } => Ok(Change::Load {
                table: *table,
                rows: rows.copy(alloc)?,
            }),
            Change::Update {
                table,
                portion,
                sets,
                conds,
            } => Ok(Change::Update {
                table: *table,
                portion: *portion,
                sets: sets.copy(alloc)?,
                conds: conds.copy(alloc)?,
            }),
            Change::Delete {
                table,
                portion,
                conds,
            } => Ok(Change::Delete {
                table: *table,
                portion: *portion,
                conds: conds.copy(alloc)?,
            }),
        }
    }
}
