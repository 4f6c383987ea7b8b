//! Changes of a table's rows, with columns given by index.

ghost use Rattle.std.specs.Prelude.{◌≡◌};
ghost use Rattle.std.specs.Option.{option_copied};
ghost use Rattle.table_core.specs.Lent.{lent_row};
ghost use Rattle.version_core.specs.Finding.{portion_of};
ghost use Rattle.version_core.specs.Keys.{is_left};
ghost use Rattle.version_core.specs.Lent.{lent_version};
ghost use Rattle.version_core.specs.OpenVersions.{is_taken};
ghost use Rattle.version_core.specs.Rows.{removes, with_parts};
ghost use Rattle.version_core.specs.Stored.{version_of};
ghost use Rattle.version_core.specs.declared.change.RowsChange.TheVariants.{Portion};

use crate::portion_change::PortionChange;
use crate::system_period::SystemPeriod;
use crate::version_ref::VersionRef;
use draft_core::Drafts;
use std::alloc::Global;
use std::mem;
use table_core::RowRef;

/// A change of the rows of a table.
#[derive(Drop)]
pub enum RowsChange<'a> {
    /// New rows, which get the next ids.
    Load(Drafts),
    /// Other values within a portion, or none, for the rows that have the wanted values.
    Portion(PortionChange<'a>),
}

impl<'a> RowsChange<'a> {
    /// Returns the change of a portion, unless this is a load.
    pub(crate) fn portion(&self) -> Option<&PortionChange<'a>>
        ensures { option_copied result ≡ portion_of self.now }
    {
        match self {
            RowsChange::Load(_) => None,
            RowsChange::Portion(change) => Some(change),
        }
    }

    /// Returns whether the version is open and the change keeps its row.
    pub(crate) fn leaves(&self, version: &VersionRef<'_>) -> bool
        ensures { result ≡ is_left self.now (lent_version version.now) }
    {
        version.system_period.is_open() && !self.removes(version.row)
    }

    /// Returns whether the change removes the row.
    fn removes(&self, row: RowRef<'_>) -> bool
        ensures { result ≡ removes self.now (lent_row row.entry) }
    {
        match self {
            RowsChange::Load(_) => false,
            RowsChange::Portion(change) => change.takes_out(row),
        }
    }

    /// Returns all new rows of the change; `parts` are the rows that replace removed ones.
    pub(crate) fn rows_made<'b>(&'b self, parts: &'b Drafts) -> &'b Drafts
        ensures { result.now ≡ with_parts self.entry.now parts.entry.now }
    {
        match self {
            RowsChange::Load(rows) => rows,
            RowsChange::Portion(_) => parts,
        }
    }

    /// Returns the same as `rows_made`, but takes a load's rows out of the change.
    pub(crate) fn take_rows(&mut self, alloc: Global, parts: Drafts) -> Drafts
        ensures { result ≡ with_parts self.old parts }
    {
        match self {
            RowsChange::Load(new) => mem::replace(new, Drafts::new(alloc)),
            RowsChange::Portion(_) => parts,
        }
    }
}

/// Returns whether the version is open and the change removes its row. The period is tested first: for most versions it
/// decides, and their system periods needn't be read.
#[inline(always)]
pub(crate) fn takes(
    change: &PortionChange<'_>,
    row: RowRef<'_>,
    system_period: &SystemPeriod,
) -> bool
    ensures { result ≡ is_taken (Portion change.now)
        (version_of (lent_row row.entry) system_period.now) }
{
    change.reaches(&row.period()) && system_period.is_open() && change.takes_out(row)
}
