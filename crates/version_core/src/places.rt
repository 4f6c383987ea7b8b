//! Lists of positions of versions.

ghost use Rattle.std.specs.Prelude.{◌≡◌, ◌+◌, ◌≤◌, ◌++◌, [], ◌∷◌, length, filter, take, IfOk, OnErr, OnOk};
ghost use Rattle.std.specs.List.{range_with_len};
ghost use Rattle.version_core.specs.Finding.{passes};
ghost use Rattle.version_core.specs.Limits.{version_limit};
ghost use Rattle.version_core.specs.OpenVersions.{is_open};

use crate::stored::StoredVersions;
use row_core::NoMemory;
use std::alloc::Global;
use std::marker::Model;

/// Positions in a list of versions. Contracts see the list. A table has few enough versions for 32 bits.
#[derive(Drop)]
pub(crate) struct Places {
    items: Vec<u32>,
}

impl Model for Places {
    ghost use Rattle.std.specs.Prelude.{List, ℕ};

    ghost Value = { List ℕ };

    ghost view = { λ p. p.items.items };
}

impl Places {
    /// Returns the empty list.
    pub(crate) fn new(alloc: Global) -> Self
        ensures { result ≡ [] }
    {
        Places {
            items: Vec::new(alloc),
        }
    }

    /// Returns the number of positions.
    pub(crate) fn len(&self) -> usize
        ensures { result ≡ length self.now }
    {
        self.items.len()
    }

    /// Returns all positions.
    pub(crate) fn as_slice(&self) -> &[u32]
        ensures { result.now ≡ self.now }
    {
        &self.items
    }

    /// Returns a copy of the list.
    pub(crate) fn copy(&self, alloc: Global) -> Result<Places, NoMemory>
        ensures { IfOk result (λ places. places ≡ self.now) }
    {
        Ok(Places {
            items: Vec::from_slice(alloc, &self.items)?,
        })
    }

    /// Adds a position. If memory is refused, the list is unchanged.
    pub(crate) fn push(&mut self, place: u32) -> Result<(), NoMemory>
        ensures ok { OnOk result (self.new ≡ self.old ++ place ∷ []) }
        ensures err { OnErr result (self.new ≡ self.old) }
    {
        self.items.push(place)?;
        Ok(())
    }

    /// Adds `count` positions from `first` on. If memory is refused, the list is unchanged.
    pub(crate) fn push_range(&mut self, first: usize, count: usize) -> Result<(), NoMemory>
        requires { first + count ≤ version_limit }
        ensures ok { OnOk result (self.new ≡ self.old ++ range_with_len first count) }
        ensures err { OnErr result (self.new ≡ self.old) }
    {
        push_places(&mut self.items, first, count)
    }

    /// Keeps the first `count` positions only.
    pub(crate) fn truncate(&mut self, count: usize)
        ensures { self.new ≡ take count self.old }
    {
        self.items.truncate(count);
    }

    /// Removes the positions of closed versions.
    pub(crate) fn drop_closed(&mut self, versions: &StoredVersions)
        ensures { self.new ≡ filter (passes versions.now is_open) self.old }
    {
        drop_closed(&mut self.items, versions);
    }
}

/// Adds `count` positions from `first` on. If memory is refused, the list is unchanged.
fn push_places(places: &mut Vec<u32>, first: usize, count: usize) -> Result<(), NoMemory>
    requires { first + count ≤ version_limit }
    ensures ok { OnOk result (places.new.items ≡ places.old.items ++ range_with_len first count) }
    ensures err { OnErr result (places.new.items ≡ places.old.items) }
{
    let before = places.len();
    if let Err(error) = places.extend(first as u32..(first + count) as u32) {
        places.truncate(before);
        return Err(error);
    }
    Ok(())
}

/// Removes the positions of closed versions.
fn drop_closed(places: &mut Vec<u32>, versions: &StoredVersions)
    ensures { places.new.items ≡ filter (passes versions.now is_open) places.old.items }
{
    places.retain(|place| is_open_at(versions, *place));
}

/// Returns whether the version at the given position is open.
fn is_open_at(versions: &StoredVersions, place: u32) -> bool
    ensures { result ≡ passes versions.now is_open place }
{
    match versions.get(place as usize) {
        Some(version) => version.system_period.is_open(),
        None => false,
    }
}
