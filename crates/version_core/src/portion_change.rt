//! A change of a portion of time.

ghost use Rattle.std.specs.Prelude.{◌≡◌, ◌≤◌, ◌++◌, length, is_some, OnOk};
ghost use Rattle.period_core.specs.Period.{meet};
ghost use Rattle.table_core.specs.Lent.{lent_row};
ghost use Rattle.version_core.specs.Portion.{parts_of, takes_out};

use crate::by_column::ByColumn;
use crate::parts::{are_wanted, count_changed, count_outside, push_changed, push_outside};
use draft_core::Drafts;
use period_core::Period;
use row_core::NoMemory;
use std::alloc::Global;
use table_core::RowRef;

/// A change, within the portion, of the rows that meet the conditions: an update has set values, a delete has none.
/// Values are by column index.
#[derive(Drop)]
pub struct PortionChange<'a> {
    pub portion: Period,
    pub sets: Option<ByColumn<'a>>,
    pub conds: ByColumn<'a>,
}

impl<'a> PortionChange<'a> {
    /// Returns whether the change removes the row. This function and its callees are inlined into the loop over the
    /// rows, since a call for each row would be slower.
    #[inline(always)]
    pub fn takes_out(&self, row: RowRef<'_>) -> bool
        ensures { result ≡ takes_out self.now (lent_row row.entry) }
    {
        are_wanted(&self.conds, row) && self.reaches(&row.period())
    }

    /// Returns whether the portion overlaps the period. If it doesn't, the change doesn't remove the row.
    #[inline(always)]
    pub fn reaches(&self, period: &Period) -> bool
        ensures { result ≡ is_some (meet period.now self.now.portion) }
    {
        period.overlaps(self.portion)
    }

    /// Returns how many rows replace the row.
    pub fn count_parts(&self, row: RowRef<'_>) -> usize
        ensures parts { result ≡ length (parts_of self.now (lent_row row.entry)) }
        ensures few { result ≤ 3 }
    {
        match self.sets {
            Some(_) => count_changed(&self.portion, row),
            None => count_outside(&self.portion, row),
        }
    }

    /// Adds the rows that replace a removed row.
    ///
    /// # Errors
    ///
    /// `NoMemory` if an allocation is refused.
    pub fn push_parts(
        &self,
        alloc: Global,
        new: &mut Drafts,
        row: RowRef<'_>,
    ) -> Result<(), NoMemory>
        ensures { OnOk result (new.new ≡ new.old ++ parts_of self.now (lent_row row.entry)) }
    {
        match &self.sets {
            Some(sets) => push_changed(alloc, new, &self.portion, sets, row),
            None => push_outside(alloc, new, &self.portion, row),
        }
    }
}
