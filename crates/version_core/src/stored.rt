//! The versions of a table as they are stored: rows and system periods.

ghost use Rattle.std.specs.Prelude.{◌≡◌, ◌<◌, ◌++◌, [], All, length, map, option_map, replicate, slice_get, IfOk, OnErr, OnOk, None, Some};
ghost use Rattle.table_core.specs.Numbered.{numbered};
ghost use Rattle.table_core.specs.Places.{at_places};
ghost use Rattle.version_core.specs.Made.{made};
ghost use Rattle.version_core.specs.OpenVersions.{closed_at};
ghost use Rattle.version_core.specs.Stored.{versions_of};
ghost use Rattle.version_core.specs.Lent.{lent_version};

use crate::commit_number::CommitNumber;
use crate::system_period::SystemPeriod;
use crate::version_ref::VersionRef;
use draft_core::Drafts;
use row_core::NoMemory;
use std::alloc::Global;
use std::marker::Model;
use table_core::{SharedRows, TableRows};

/// The versions of a table. A list of all versions shares their rows. Contracts see the list of versions.
#[derive(Drop)]
pub(crate) struct StoredVersions {
    rows: TableRows,
    system_periods: Vec<SystemPeriod>,
}

impl Model for StoredVersions {
    ghost use Rattle.std.specs.Prelude.{◌≡◌, List, length};
    ghost use Rattle.version_core.specs.Stored.{versions_of};
    ghost use Rattle.version_core.specs.declared.version.Version.{Version};

    ghost Value = { List Version };

    ghost view = { λ s. versions_of s.rows s.system_periods.items };

    ghost invariant = { λ s. length s.rows ≡ length s.system_periods.items };
}

impl StoredVersions {
    /// Returns an empty list of versions.
    pub(crate) fn new(alloc: Global) -> Result<Self, NoMemory>
        ensures { IfOk result (λ versions. versions ≡ []) }
    {
        Ok(StoredVersions {
            rows: TableRows::new(alloc)?,
            system_periods: Vec::new(alloc),
        })
    }

    /// Returns the same versions, without copying their rows.
    pub(crate) fn copy(&self, alloc: Global) -> Result<StoredVersions, NoMemory>
        ensures { IfOk result (λ versions. versions ≡ self.now) }
    {
        Ok(StoredVersions {
            rows: self.rows.share()?,
            system_periods: Vec::from_slice(alloc, &self.system_periods)?,
        })
    }

    /// Returns the number of versions.
    pub(crate) fn len(&self) -> usize
        ensures { result ≡ length self.now }
    {
        self.system_periods.len()
    }

    /// Returns the version at the given position.
    pub(crate) fn at(&self, place: usize) -> VersionRef<'_>
        requires { place < length self.now }
        ensures { slice_get self.now place ≡ Some (lent_version result) }
    {
        match self.get(place) {
            Some(version) => version,
            None => unreachable!(),
        }
    }

    /// Returns the version at the given position, or `None` past the last.
    pub(crate) fn get(&self, place: usize) -> Option<VersionRef<'_>>
        ensures { option_map lent_version result ≡ slice_get self.now place }
    {
        match self.rows.get(place) {
            Some(row) => Some(VersionRef {
                row,
                system_period: self.system_periods[place],
            }),
            None => None,
        }
    }

    /// Returns the rows without their ids, and their system periods at the same positions, so that a pass over many
    /// versions borrows each list once.
    #[inline(always)]
    pub(crate) fn rows_and_system_periods(&self) -> (&Drafts, &[SystemPeriod])
        ensures versions { versions_of (numbered 0 result.0.now) result.1.now ≡ self.now }
        ensures rows { length result.0.now ≡ length self.now }
        ensures system_periods { length result.1.now ≡ length self.now }
    {
        (self.rows.drafts(), &self.system_periods)
    }

    /// Returns all rows, without copying them.
    pub(crate) fn rows(&self) -> Result<SharedRows, NoMemory>
        ensures { IfOk result (λ rows. rows ≡ map (λ v. v.row) self.now) }
    {
        self.rows.all()
    }

    /// Returns the rows at those positions, without copying them.
    pub(crate) fn at_places(&self, places: Vec<u32>) -> Result<SharedRows, NoMemory>
        requires { All (λ place. place < length self.now) places.items }
        ensures { IfOk result (λ rows. rows ≡ at_places places.items (map (λ v. v.row) self.now)) }
    {
        self.rows.at_places(places)
    }

    /// Adds versions of rows that a commit creates. If memory is refused, the versions are unchanged.
    pub(crate) fn append(
        &mut self,
        alloc: Global,
        rows: Drafts,
        commit: CommitNumber,
    ) -> Result<(), NoMemory>
        ensures ok { OnOk result (self.new ≡ self.old
            ++ made commit (numbered (length self.old) rows)) }
        ensures err { OnErr result (self.new ≡ self.old) }
    {
        let before = self.system_periods.len();
        push_system_periods(&mut self.system_periods, rows.len(), commit)?;
        if let Err(error) = self.rows.append(alloc, rows) {
            self.system_periods.truncate(before);
            return Err(error);
        }
        Ok(())
    }

    /// Ends the system period of the version at the given position with the commit.
    pub(crate) fn close(&mut self, place: usize, commit: CommitNumber)
        requires { place < length self.old }
        ensures closed { self.new ≡ closed_at commit self.old place }
        ensures len { length self.new ≡ length self.old }
    {
        self.system_periods[place].close(commit);
    }
}

/// Adds the system periods of `count` rows that a commit creates. If memory is refused, the list is unchanged.
fn push_system_periods(
    system_periods: &mut Vec<SystemPeriod>,
    count: usize,
    commit: CommitNumber,
) -> Result<(), NoMemory>
    ensures ok { OnOk result (system_periods.new.items
        ≡ system_periods.old.items ++ replicate count (record { from = commit; to = None })) }
    ensures err { OnErr result (system_periods.new.items ≡ system_periods.old.items) }
{
    system_periods.reserve(count)?;
    system_periods.resize(system_periods.len() + count, SystemPeriod::since(commit))?;
    Ok(())
}
