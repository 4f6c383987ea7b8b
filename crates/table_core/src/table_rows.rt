//! All rows of a table.

ghost use Rattle.std.specs.Arc.{arc_value};
ghost use Rattle.std.specs.Prelude.{◌≡◌, ◌++◌, ◌<◌, [], All, length, option_map, slice_get, IfOk, OnErr, OnOk};
ghost use Rattle.table_core.specs.Lent.{lent_row};
ghost use Rattle.table_core.specs.Numbered.{numbered};
ghost use Rattle.table_core.specs.Places.{at_places};

use crate::NoMemory;
use crate::row_ref::RowRef;
use crate::shared_rows::SharedRows;
use crate::source::{Source, numbered_at};
use draft_core::Drafts;
use list_core::DeepCopy;
use std::alloc::Global;
use std::marker::Model;
use std::sync::Arc;

/// All rows that a table has ever had; a row's id is its index plus 1. Lists share them. Contracts see the list.
#[derive(Drop)]
pub struct TableRows {
    drafts: Arc<Drafts>,
}

impl Model for TableRows {
    ghost use Rattle.std.specs.Prelude.{List};
    ghost use Rattle.std.specs.Arc.{arc_value};
    ghost use Rattle.row_core.specs.declared.row.Row.{Row};
    ghost use Rattle.table_core.specs.Numbered.{numbered};

    ghost Value = { List Row };

    ghost view = { λ t. numbered 0 (arc_value t.drafts) };
}

impl TableRows {
    /// Returns an empty list of rows.
    pub fn new(alloc: Global) -> Result<TableRows, NoMemory>
        ensures { IfOk result (λ rows. rows ≡ []) }
    {
        Ok(TableRows {
            drafts: Arc::new(alloc, Drafts::new(alloc))?,
        })
    }

    /// Returns the number of rows.
    pub fn len(&self) -> usize
        ensures { result ≡ length self.now }
    {
        self.drafts.len()
    }

    /// Returns the row at the given index, or `None` past the last.
    pub fn get(&self, place: usize) -> Option<RowRef<'_>>
        ensures { option_map lent_row result ≡ slice_get self.now place }
    {
        if place < self.drafts.len() {
            Some(numbered_at(&self.drafts, place))
        } else {
            None
        }
    }

    /// Returns all rows without their ids, in order.
    #[inline(always)]
    pub fn drafts(&self) -> &Drafts
        ensures { numbered 0 result.now ≡ self.now }
    {
        &self.drafts
    }

    /// Returns the same rows, without copying them.
    pub fn share(&self) -> Result<TableRows, NoMemory>
        ensures { IfOk result (λ rows. rows ≡ self.now) }
    {
        Ok(TableRows {
            drafts: Arc::try_clone(&self.drafts)?,
        })
    }

    /// Returns a list of all rows, without copying them.
    pub fn all(&self) -> Result<SharedRows, NoMemory>
        ensures { IfOk result (λ rows. rows ≡ self.now) }
    {
        Ok(SharedRows {
            source: Source::Numbered(Arc::try_clone(&self.drafts)?),
            places: None,
        })
    }

    /// Returns a list of the rows at these indexes, without copying them.
    pub fn at_places(&self, places: Vec<u32>) -> Result<SharedRows, NoMemory>
        requires { All (λ place. place < length self.now) places.items }
        ensures { IfOk result (λ rows. rows ≡ at_places places.items self.now) }
    {
        Ok(SharedRows {
            source: Source::Numbered(Arc::try_clone(&self.drafts)?),
            places: Some(places),
        })
    }

    /// Adds rows at the end, with the next ids. If lists share the old rows, these are copied first. If memory is
    /// refused, the rows are unchanged.
    pub fn append(&mut self, alloc: Global, more: Drafts) -> Result<(), NoMemory>
        ensures ok { OnOk result (self.new ≡ self.old ++ numbered (length self.old) more) }
        ensures err { OnErr result (self.new ≡ self.old) }
    {
        append(alloc, &mut self.drafts, more)
    }
}

/// Adds drafts to shared drafts, which are copied first if another owner shares them.
fn append(alloc: Global, shared: &mut Arc<Drafts>, more: Drafts) -> Result<(), NoMemory>
    ensures ok { OnOk result (arc_value shared.new ≡ arc_value shared.old ++ more) }
    ensures err { OnErr result (arc_value shared.new ≡ arc_value shared.old) }
{
    match Arc::get_mut(shared) {
        Some(drafts) => drafts.append(more),
        None => {
            let mut drafts = shared.copy(alloc)?;
            drafts.append(more)?;
            *shared = Arc::new(alloc, drafts)?;
            Ok(())
        }
    }
}
