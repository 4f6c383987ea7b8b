//! A table as the book stores it, and the lookup of one by its name.

ghost use Rattle.std.specs.Prelude.{◌≡◌, position, bytes_eq};
ghost use Rattle.std.specs.Option.{option_copied};
ghost use Rattle.book_core.specs.StoredTables.{kept_table};

use crate::table_columns::TableColumns;
use list_core::DeepCopy;
use row_core::{Name, NoMemory, Schema};
use std::alloc::Global;
use std::marker::Model;
use std::sync::Arc;
use version_core::Versions;

/// A table with all versions of its rows. Copies of a book share the versions until one of the books changes them.
#[derive(Drop)]
pub(crate) struct Table {
    pub name: Name,
    pub columns: TableColumns,
    pub versions: Arc<Versions>,
}

impl Model for Table {
    ghost use Rattle.std.specs.Arc.{arc_value};
    ghost use Rattle.book_core.specs.StoredTables.{StoredTable};

    ghost Value = { StoredTable };

    ghost view = { λ t. record {
      name = t.name;
      schema = t.columns;
      versions = arc_value t.versions;
    } };
}

impl Table {
    /// Returns the table's columns.
    pub fn schema(&self) -> &Schema
        ensures { result.now ≡ self.now.schema }
    {
        self.columns.schema()
    }

    /// Returns all versions of the table's rows.
    pub fn versions(&self) -> &Versions
        ensures { result.now ≡ self.now.versions }
    {
        &self.versions
    }
}

/// Returns the table with that name.
pub(crate) fn find_table(tables: &[Table], name: Name) -> Option<&Table>
    ensures { option_copied result ≡ kept_table name tables.now }
{
    tables.iter().find(|table| is_named(table, name))
}

/// Returns the index of the table with that name.
pub(crate) fn place_of(tables: &[Table], name: Name) -> Option<usize>
    ensures { result ≡ position (λ t. bytes_eq t.name name) tables.now }
{
    tables.iter().position(|table| is_named(table, name))
}

/// Returns whether a lookup of the name finds the table.
fn is_named(table: &Table, name: Name) -> bool
    ensures { result ≡ bytes_eq table.now.name name }
{
    table.name == name
}

impl DeepCopy for Table {
    fn copy(&self, alloc: Global) -> Result<Table, NoMemory> {
        Ok(Table {
            name: self.name,
            columns: self.columns.copy(alloc)?,
            versions: Arc::try_clone(&self.versions)?,
        })
    }
}
