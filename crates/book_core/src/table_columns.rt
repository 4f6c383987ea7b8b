//! The columns of a table, and the indexes of its key's columns.

ghost use Rattle.std.specs.Prelude.{◌≡◌, IfOk};
ghost use Rattle.row_core.specs.Schema.{key_of};

use list_core::DeepCopy;
use row_core::{NoMemory, Schema};
use std::alloc::Global;
use std::marker::Model;

/// The columns of a table, and the indexes of its key's columns, which are looked up once, as the table is made.
/// Contracts see the columns.
#[derive(Drop)]
pub struct TableColumns {
    schema: Schema,
    key: Vec<u32>,
}

impl Model for TableColumns {
    ghost use Rattle.std.specs.Prelude.{◌≡◌, List};
    ghost use Rattle.row_core.specs.Schema.{key_of};
    ghost use Rattle.row_core.specs.declared.schema.Column.{Column};

    ghost Value = { List Column };

    ghost view = { λ t. t.schema };

    ghost invariant = { λ t. t.key.items ≡ key_of t.schema };
}

impl TableColumns {
    /// Returns the columns of a schema.
    pub fn of(alloc: Global, schema: Schema) -> Result<TableColumns, NoMemory>
        ensures { IfOk result (λ columns. columns ≡ schema) }
    {
        let key = schema.key_places(alloc)?;
        Ok(TableColumns { schema, key })
    }

    /// Returns the columns.
    pub fn schema(&self) -> &Schema
        ensures { result.now ≡ self.now }
    {
        &self.schema
    }

    /// Returns the indexes of the key's columns.
    pub fn key(&self) -> &[u32]
        ensures { result.now ≡ key_of self.now }
    {
        &self.key
    }
}

impl DeepCopy for TableColumns {
    fn copy(&self, alloc: Global) -> Result<TableColumns, NoMemory> {
        Ok(TableColumns {
            schema: self.schema.copy(alloc)?,
            key: Vec::from_slice(alloc, &self.key)?,
        })
    }
}
