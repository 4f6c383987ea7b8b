//! The rows that lists share.

ghost use Rattle.std.specs.Prelude.{◌≡◌, ◌<◌, ◌++◌, ◌∷◌, [], Some, length, slice_get, IfOk, OnOk};
ghost use Rattle.table_core.specs.Lent.{lent_row};
ghost use Rattle.table_core.specs.Numbered.{numbered};
ghost use Rattle.table_core.specs.Source.{rows_from};

use crate::NoMemory;
use crate::row_ref::RowRef;
use draft_core::Drafts;
use row_core::{Draft, Row, RowList};
use std::alloc::Global;
use std::marker::Model;
use std::sync::Arc;

/// Rows with ids of their own. Contracts see the list.
#[derive(Debug, Drop)]
pub(crate) struct RowsWithIds {
    ids: Vec<u64>,
    drafts: Drafts,
}

impl Model for RowsWithIds {
    ghost use Rattle.std.specs.Prelude.{◌≡◌, List, length};
    ghost use Rattle.row_core.specs.declared.row.Row.{Row};
    ghost use Rattle.table_core.specs.Numbered.{with_ids};

    ghost Value = { List Row };

    ghost view = { λ r. with_ids r.ids.items r.drafts };

    ghost invariant = { λ r. length r.ids.items ≡ length r.drafts };
}

impl RowsWithIds {
    /// Returns the rows of a list.
    pub(crate) fn of(alloc: Global, list: RowList) -> Result<RowsWithIds, NoMemory>
        ensures { IfOk result (λ rows. rows ≡ list) }
    {
        let mut rows = RowsWithIds {
            ids: Vec::new(alloc),
            drafts: Drafts::new(alloc),
        };
        for row in Vec::from(list) {
            rows.push(row)?;
        }
        Ok(rows)
    }

    /// Adds a row.
    fn push(&mut self, row: Row) -> Result<(), NoMemory>
        ensures { OnOk result (self.new ≡ self.old ++ row ∷ []) }
    {
        let Row { id, period, values } = row;
        self.ids.push(id)?;
        if let Err(error) = self.drafts.push(Draft { period, values }) {
            self.ids.pop();
            return Err(error);
        }
        Ok(())
    }

    /// Returns the number of rows.
    fn len(&self) -> usize
        ensures { result ≡ length self.now }
    {
        self.ids.len()
    }

    /// Returns the row at the given index.
    fn at(&self, place: usize) -> RowRef<'_>
        requires { place < length self.now }
        ensures { slice_get self.now place ≡ Some (lent_row result) }
    {
        RowRef {
            id: self.ids[place],
            draft: self.drafts.at(place),
        }
    }
}

/// Rows that lists share: those of a table, whose ids are their indexes plus 1, or a caller's, with ids of their own.
#[derive(Debug, Drop)]
pub(crate) enum Source {
    Numbered(Arc<Drafts>),
    WithIds(Arc<RowsWithIds>),
}

impl Source {
    /// Returns another owner.
    pub(crate) fn share(&self) -> Result<Source, NoMemory>
        ensures { IfOk result (λ source. rows_from source ≡ rows_from self.now) }
    {
        match self {
            Source::Numbered(drafts) => Ok(Source::Numbered(Arc::try_clone(drafts)?)),
            Source::WithIds(rows) => Ok(Source::WithIds(Arc::try_clone(rows)?)),
        }
    }

    /// Returns the number of rows.
    pub(crate) fn len(&self) -> usize
        ensures { result ≡ length (rows_from self.now) }
    {
        match self {
            Source::Numbered(drafts) => drafts.len(),
            Source::WithIds(rows) => rows.len(),
        }
    }

    /// Returns the row at the given index.
    pub(crate) fn at(&self, place: usize) -> RowRef<'_>
        requires { place < length (rows_from self.now) }
        ensures { slice_get (rows_from self.now) place ≡ Some (lent_row result) }
    {
        match self {
            Source::Numbered(drafts) => numbered_at(drafts, place),
            Source::WithIds(rows) => rows.at(place),
        }
    }
}

/// Returns the row of the draft at the given index of a table.
pub(crate) fn numbered_at(drafts: &Drafts, place: usize) -> RowRef<'_>
    requires { place < length drafts.now }
    ensures { slice_get (numbered 0 drafts.entry.now) place ≡ Some (lent_row result) }
{
    // The length fits 64 bits, and so does the id of an index below it.
    prove!(place < drafts.len());
    RowRef::of_draft(place, drafts.at(place))
}
