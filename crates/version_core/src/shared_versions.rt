//! Lists that share the rows of a table's versions.

ghost use Rattle.std.specs.Prelude.{◌≡◌, ◌<◌, All, Some, length, map, slice_get, IfOk};
ghost use Rattle.table_core.specs.Places.{at_places};
ghost use Rattle.version_core.specs.Lent.{lent_version};
ghost use Rattle.version_core.specs.Stored.{versions_of};

use crate::stored::StoredVersions;
use crate::system_period::SystemPeriod;
use crate::version::{Version, VersionList};
use crate::version_ref::VersionRef;
use row_core::NoMemory;
use std::alloc::Global;
use std::marker::Model;
use table_core::{RowRef, SharedRows};

/// Versions of a table, by rising id. The list shares the rows with the table, and has its own system periods.
/// Contracts see the list.
#[derive(Drop)]
pub struct SharedVersions {
    rows: SharedRows,
    system_periods: Vec<SystemPeriod>,
}

impl Model for SharedVersions {
    ghost use Rattle.std.specs.Prelude.{◌≡◌, List, length};
    ghost use Rattle.version_core.specs.Stored.{versions_of};
    ghost use Rattle.version_core.specs.declared.version.Version.{Version};

    ghost Value = { List Version };

    ghost view = { λ s. versions_of s.rows s.system_periods.items };

    ghost invariant = { λ s. length s.rows ≡ length s.system_periods.items };
}

impl SharedVersions {
    /// Returns the versions of the rows at those positions, with these system periods.
    pub(crate) fn at_places(
        versions: &StoredVersions,
        places: Vec<u32>,
        system_periods: Vec<SystemPeriod>,
    ) -> Result<SharedVersions, NoMemory>
        requires within { All (λ place. place < length versions.now) places.items }
        requires beside { length places.items ≡ length system_periods.items }
        ensures { IfOk result (λ shared. shared ≡ versions_of
            (at_places places.items (map (λ v. v.row) versions.now)) system_periods.items) }
    {
        Ok(SharedVersions {
            rows: versions.at_places(places)?,
            system_periods,
        })
    }

    /// Returns the number of versions.
    pub fn len(&self) -> usize
        ensures { result ≡ length self.now }
    {
        self.system_periods.len()
    }

    /// Returns the version at the given index.
    pub fn at(&self, place: usize) -> VersionRef<'_>
        requires { place < length self.now }
        ensures { slice_get self.now place ≡ Some (lent_version result) }
    {
        VersionRef {
            row: self.rows.at(place),
            system_period: self.system_periods[place],
        }
    }

    /// Returns a copy of the version at the given index.
    fn copy_at(&self, alloc: Global, place: usize) -> Result<Version, NoMemory>
        requires { place < length self.now }
        ensures { IfOk result (λ version. slice_get self.now place ≡ Some version) }
    {
        let version = self.at(place);
        let row: RowRef<'_> = version.row();
        Ok(Version {
            row: row.copy(alloc)?,
            sysfrom: version.sysfrom(),
            systo: version.systo(),
        })
    }

    /// Returns copies of the versions.
    ///
    /// # Errors
    ///
    /// `NoMemory` if an allocation is refused.
    pub fn list(&self, alloc: Global) -> Result<VersionList, NoMemory>
        ensures { IfOk result (λ list. list ≡ self.now) }
    {
        let mut list = Vec::with_capacity(alloc, self.len())?;
        for i in 0..self.len() {
            list.push(self.copy_at(alloc, i)?)?;
        }
        Ok(VersionList::from(list))
    }
}
