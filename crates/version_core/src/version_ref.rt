//! Borrowed versions.

ghost use Rattle.std.specs.Prelude.{◌≡◌};

use crate::system_period::SystemPeriod;
use table_core::RowRef;

/// A version of a table, borrowed from a list of versions.
#[derive(Clone, Copy)]
pub struct VersionRef<'a> {
    pub(crate) row: RowRef<'a>,
    pub(crate) system_period: SystemPeriod,
}

impl<'a> VersionRef<'a> {
    ghost use Rattle.table_core.specs.Lent.{lent_row};
    ghost use Rattle.version_core.specs.Lent.{lent_version};

    /// Returns the version's row.
    pub fn row(&self) -> RowRef<'a>
        ensures { lent_row result ≡ (lent_version self.now).row }
    {
        self.row
    }

    /// Returns the first commit of the system period.
    pub fn sysfrom(&self) -> u64
        ensures { result ≡ (lent_version self.now).sysfrom }
    {
        self.system_period.from() as u64
    }

    /// Returns the commit that closed the version, or `None` if it is open.
    pub fn systo(&self) -> Option<u64>
        ensures { result ≡ (lent_version self.now).systo }
    {
        match self.system_period.to() {
            None => None,
            Some(commit) => Some(commit as u64),
        }
    }
}
