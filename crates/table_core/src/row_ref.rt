//! Borrowed rows.

ghost use Rattle.std.specs.Prelude.{◌≡◌, ◌+◌, ◌<◌, ◌^◌, length, option_map, slice_get, IfOk};
ghost use Rattle.draft_core.specs.Lent.{lent_draft};
ghost use Rattle.row_core.specs.Lent.{lent_value};
ghost use Rattle.table_core.specs.Lent.{lent_row};
ghost use Rattle.table_core.specs.Numbered.{row_of, unnumbered};

use crate::NoMemory;
use draft_core::DraftRef;
use period_core::Period;
use row_core::{Draft, Row, Value, ValueRef};
use std::alloc::Global;

/// A row of a table, borrowed from a list of rows.
#[derive(Clone, Copy)]
pub struct RowRef<'a> {
    pub(crate) id: u64,
    pub(crate) draft: DraftRef<'a>,
}

impl<'a> RowRef<'a> {
    /// Returns the row of the draft at the given index of a table, which determines its id.
    #[inline(always)]
    pub fn of_draft(place: usize, draft: DraftRef<'a>) -> RowRef<'a>
        requires { place + 1 < 2 ^ 64 }
        ensures { lent_row result ≡ row_of (place + 1) (lent_draft draft.entry) }
    {
        RowRef {
            id: place as u64 + 1,
            draft,
        }
    }

    /// Returns the row's id.
    pub fn id(self) -> u64
        ensures { result ≡ (lent_row self.entry).id }
    {
        self.id
    }

    /// Returns the row's period.
    #[inline(always)]
    pub fn period(self) -> Period
        ensures { result ≡ (lent_row self.entry).period }
    {
        self.draft.period()
    }

    /// Returns the row without its id.
    #[inline(always)]
    pub fn draft(self) -> DraftRef<'a>
        ensures { lent_draft result ≡ unnumbered (lent_row self.entry) }
    {
        self.draft
    }

    /// Returns the number of values.
    pub fn width(self) -> usize
        ensures { result ≡ length (lent_row self.entry).values }
    {
        self.draft.width()
    }

    /// Returns the value in the column at index `column`, or `None` past the last.
    #[inline(always)]
    pub fn value(self, column: usize) -> Option<ValueRef<'a>>
        ensures { option_map lent_value result ≡ slice_get (lent_row self.entry).values column }
    {
        self.draft.value(column)
    }

    /// Returns a copy of the value in the column at index `column`, or `None` past the last.
    ///
    /// # Errors
    ///
    /// `NoMemory` if an allocation is refused.
    pub fn copy_value(self, alloc: Global, column: usize) -> Result<Option<Value>, NoMemory>
        ensures { IfOk result (λ value. value ≡ slice_get (lent_row self.entry).values column) }
    {
        self.draft.copy_value(alloc, column)
    }

    /// Returns a copy of the row.
    pub fn copy(self, alloc: Global) -> Result<Row, NoMemory>
        ensures { IfOk result (λ row. row ≡ lent_row self.entry) }
    {
        let Draft { period, values } = self.draft.copy(alloc)?;
        Ok(Row {
            id: self.id,
            period,
            values,
        })
    }
}
