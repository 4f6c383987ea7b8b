//! Borrowed drafts.

ghost use Rattle.std.specs.Prelude.{◌≡◌, ◌<◌, length, option_map, slice_get, IfOk};

use crate::NoMemory;
use crate::drafts::Drafts;
use period_core::Period;
use row_core::{Draft, Value, ValueRef, Values};
use std::alloc::Global;

/// A draft borrowed from a list.
#[derive(Clone, Copy)]
pub struct DraftRef<'a> {
    pub(crate) drafts: &'a Drafts,
    pub(crate) place: usize,
    pub(crate) ghost inside: { place < length drafts.now },
}

impl<'a> DraftRef<'a> {
    ghost use Rattle.draft_core.specs.Lent.{lent_draft};
    ghost use Rattle.row_core.specs.Lent.{lent_value};

    /// Returns the draft's period.
    #[inline(always)]
    pub fn period(self) -> Period
        ensures { result ≡ (lent_draft self.entry).period }
    {
        self.drafts.period_at(self.place)
    }

    /// Returns the number of values.
    pub fn width(self) -> usize
        ensures { result ≡ length (lent_draft self.entry).values }
    {
        self.drafts.width_at(self.place)
    }

    /// Returns the value in the column at index `column`, or `None` past the last.
    #[inline(always)]
    pub fn value(self, column: usize) -> Option<ValueRef<'a>>
        ensures { option_map lent_value result ≡ slice_get (lent_draft self.entry).values column }
    {
        self.drafts.value_at(self.place, column)
    }

    /// Returns a copy of the value in the column at index `column`, or `None` past the last.
    ///
    /// # Errors
    ///
    /// `NoMemory` if an allocation is refused.
    pub fn copy_value(self, alloc: Global, column: usize) -> Result<Option<Value>, NoMemory>
        ensures { IfOk result (λ value. value ≡ slice_get (lent_draft self.entry).values column) }
    {
        self.drafts.copy_value_at(alloc, self.place, column)
    }

    /// Returns copies of the values.
    ///
    /// # Errors
    ///
    /// `NoMemory` if an allocation is refused.
    pub fn values(self, alloc: Global) -> Result<Vec<Value>, NoMemory>
        ensures { IfOk result (λ values. values.items ≡ (lent_draft self.entry).values) }
    {
        self.drafts.values_at(alloc, self.place)
    }

    /// Returns a copy of the draft.
    ///
    /// # Errors
    ///
    /// `NoMemory` if an allocation is refused.
    pub fn copy(self, alloc: Global) -> Result<Draft, NoMemory>
        ensures { IfOk result (λ draft. draft ≡ lent_draft self.entry) }
    {
        Ok(Draft {
            period: self.period(),
            values: Values::of(alloc, self.values(alloc)?)?,
        })
    }
}
