//! The index of open versions by key and start, used to test the key of a new row.

ghost use Rattle.std.specs.Prelude.{◌≡◌, ◌≢◌, ◌↔◌, ℕ, ◌+◌, ◌≤◌, ◌<◌, ◌≤ℤ◌, List, [], ◌∷◌, true, false, Some, length, map, take, IfOk, IfSome, IsTrue, MatchOption, OnOk};
ghost use Rattle.std.specs.List.{list_any};
ghost use Rattle.version_core.specs.Collisions.{collide, have_collision, same_key};
ghost use Rattle.draft_core.specs.Lent.{lent_draft};
ghost use Rattle.row_core.specs.Lent.{lent_value};
ghost use Rattle.table_core.specs.Lent.{lent_row};
ghost use Rattle.version_core.specs.KeyIndex.{HasOnlyOpen, IsKeyIndex, IsLastNear, entry_of, key_number, mixed, number_in, number_of, number_of_bytes};
ghost use Rattle.version_core.specs.Keys.{rows_left};
ghost use Rattle.version_core.specs.OpenVersions.{current, is_open};
ghost use Rattle.table_core.specs.Numbered.{unnumbered};
ghost use Rattle.version_core.specs.Lent.{lent_version};
ghost use Rattle.version_core.specs.declared.version.Version.{Version};

use crate::change::RowsChange;
use crate::collisions::same_key;
use crate::keys::collides_at;
use crate::stored::StoredVersions;
use crate::version_ref::VersionRef;
use draft_core::DraftRef;
use period_core::Point;
use row_core::{NoMemory, ValueRef};
use std::alloc::{AllocError, Global};
use std::collections::BTreeSet;
use table_core::RowRef;

/// The multiplier that spreads the hashes of texts and keys over 64 bits.
const FACTOR: u64 = 1_099_511_628_211;

/// An entry of the index for a version: the hash of its key, its start, and its position.
#[derive(Clone, Copy, PartialEq, Eq, PartialOrd, Ord)]
pub(crate) struct Entry {
    pub number: u64,
    pub from: Point,
    pub place: usize,
}

/// The open versions by the hash of their key, and then by start. Rows with equal keys don't overlap, so among those
/// that start before a new row's end only the last can overlap it. Earlier entries are examined only if a change
/// removes the last row, or if different keys have the same hash.
#[derive(Drop)]
pub(crate) struct KeyIndex {
    pub columns: Vec<u32>,
    pub entries: BTreeSet<Entry>,
}

impl KeyIndex {
    /// Builds the index of the versions by the key with those columns.
    pub(crate) fn of(
        alloc: Global,
        versions: &StoredVersions,
        key: &[u32],
    ) -> Result<KeyIndex, NoMemory>
        ensures index { IfOk result (IsKeyIndex versions.now) }
        ensures only { IfOk result (HasOnlyOpen versions.now []) }
    {
        let mut index = KeyIndex {
            columns: Vec::from_slice(alloc, key)?,
            entries: BTreeSet::new(alloc),
        };
        index.extend(versions, 0)?;
        Ok(index)
    }

    /// Returns whether the index is by the key with those columns.
    pub(crate) fn is_by(&self, key: &[u32]) -> bool
        ensures { IsTrue result ↔ (self.now.columns.items ≡ key.now) }
    {
        self.columns.as_slice() == key
    }

    /// Adds the open versions from position `from` on.
    pub(crate) fn extend(&mut self, versions: &StoredVersions, from: usize) -> Result<(), NoMemory>
        requires inside { from ≤ length versions.now }
        requires before { IsKeyIndex (take from versions.now) self.old }
        ensures index { OnOk result (IsKeyIndex versions.now self.new) }
        ensures only { (gone : List ℕ) → HasOnlyOpen (take from versions.now) gone self.old
            → OnOk result (HasOnlyOpen versions.now gone self.new) }
    {
        for place in from..versions.len() {
            self.add(versions, place)?;
        }
        Ok(())
    }

    /// Adds the version at the given position, if it is open.
    fn add(&mut self, versions: &StoredVersions, place: usize) -> Result<(), NoMemory>
        requires inside { place < length versions.now }
        requires before { IsKeyIndex (take place versions.now) self.old }
        ensures index { OnOk result (IsKeyIndex (take (place + 1) versions.now) self.new) }
        ensures only { (gone : List ℕ) → HasOnlyOpen (take place versions.now) gone self.old
            → OnOk result (HasOnlyOpen (take (place + 1) versions.now) gone self.new) }
    {
        let version = versions.at(place);
        if version.system_period.is_open() {
            let entry = entry_of(&self.columns, place, version.row);
            if let Err(_) = self.entries.insert(entry) {
                return Err(AllocError);
            }
        }
        Ok(())
    }

    /// Removes the closed versions at these positions.
    pub(crate) fn drop_closed(&mut self, versions: &StoredVersions, places: &[u32])
        requires index { IsKeyIndex versions.now self.old }
        requires only { HasOnlyOpen versions.now places.now self.old }
        ensures index { IsKeyIndex versions.now self.new }
        ensures only { HasOnlyOpen versions.now [] self.new }
    {
        for place in places {
            self.drop_closed_at(versions, *place as usize);
        }
    }

    /// Removes the version at the given position, if it is closed.
    fn drop_closed_at(&mut self, versions: &StoredVersions, place: usize)
        requires { IsKeyIndex versions.now self.old }
        ensures index { IsKeyIndex versions.now self.new }
        ensures only { (gone : List ℕ) → HasOnlyOpen versions.now (place ∷ gone) self.old
            → HasOnlyOpen versions.now gone self.new }
    {
        if let Some(version) = versions.get(place) {
            if !version.system_period.is_open() {
                let entry = entry_of(&self.columns, place, version.row);
                self.entries.remove(&entry);
            }
        }
    }

    /// Returns whether the new row collides with a row that the change keeps. Searches the open rows backwards from the
    /// new row's end, until no earlier row can collide.
    pub(crate) fn any_collides(
        &self,
        change: &RowsChange<'_>,
        versions: &StoredVersions,
        new: DraftRef<'_>,
    ) -> bool
        requires index { IsKeyIndex versions.now self.now }
        requires unbroken { have_collision self.now.columns.items
            (map unnumbered (current versions.now)) ≡ false }
        ensures { result ≡ list_any
            (λ left. collide self.now.columns.items left (lent_draft new.entry))
            (rows_left change.now (current versions.now)) }
    {
        let key = self.columns.as_slice();
        let end = end_of(key, new);
        let number = end.number;
        for entry in self.entries.range(..end).rev() {
            let place = entry.place;
            if collides_at(change, key, versions, place, new) {
                return true;
            }
            if is_last_near(key, versions, entry, number, new) {
                return false;
            }
        }
        false
    }
}

/// Returns the index, if there is one by the key with those columns.
pub(crate) fn index_by<'a>(index: &'a Option<KeyIndex>, key: &[u32]) -> Option<&'a KeyIndex>
    ensures { MatchOption result (IfSome index.now (λ index. index.columns.items ≢ key.now))
        (λ found. (index.now ≡ Some found.now) × (found.now.columns.items ≡ key.now)) }
{
    match index {
        Some(index) => { if index.is_by(key) { Some(index) } else { None } }
        None => None,
    }
}

/// Returns the entry of a version with that row and position.
fn entry_of(key: &[u32], place: usize, row: RowRef<'_>) -> Entry
    ensures { (v : Version) → v.row ≡ lent_row row.entry → result ≡ entry_of key.now place v }
{
    Entry {
        number: key_number(key, row.draft()),
        from: row.period().from,
        place,
    }
}

/// Returns the entry where a search for rows with this row's key ends: they start before this row's end.
fn end_of(key: &[u32], row: DraftRef<'_>) -> Entry
    ensures number { result.number ≡ key_number key.now (lent_draft row.entry).values }
    ensures from { result.from ≡ (lent_draft row.entry).period.to }
{
    Entry {
        number: key_number(key, row),
        from: row.period().to,
        place: 0,
    }
}

/// Returns true only if no open version before the entry collides with the new row, whose key has the hash `number`.
/// This is certain if all versions before the entry have other keys, or if the entry's version is open, has the row's
/// key, and starts no later.
fn is_last_near(
    key: &[u32],
    versions: &StoredVersions,
    entry: &Entry,
    number: u64,
    new: DraftRef<'_>,
) -> bool
    requires number { number ≡ key_number key.now (lent_draft new).values }
    requires unbroken { have_collision key.now (map unnumbered (current versions.now)) ≡ false }
    ensures last { result ≡ true → IsLastNear key.now (lent_draft new.entry) versions.now entry.now }
    ensures others { result ≡ false → number ≤ entry.now.number }
{
    if entry.number != number {
        return entry.number < number;
    }
    match versions.get(entry.place) {
        Some(version) => is_open_before(key, &version, entry.from, new),
        None => false,
    }
}

/// Returns whether the version is open, has the new row's key, and starts at `from`, no later than the new row.
fn is_open_before(key: &[u32], version: &VersionRef<'_>, from: Point, new: DraftRef<'_>) -> bool
    ensures open { result ≡ true → is_open (lent_version version.now) ≡ true }
    ensures begins { result ≡ true → (lent_row version.now.row).period.from ≡ from }
    ensures before { result ≡ true → from ≤ℤ (lent_draft new.entry).period.from }
    ensures key { result ≡ true → same_key key.now (lent_row version.now.row).values
        (lent_draft new.entry).values ≡ true }
{
    version.system_period.is_open()
        && version.row.period().from == from
        && from <= new.period().from
        && same_key(key, version.row.draft(), new)
}

/// Returns the hash of the row's values in the key's columns. Rows with equal keys have the same hash.
fn key_number(key: &[u32], row: DraftRef<'_>) -> u64
    ensures { result ≡ key_number key.now (lent_draft row.entry).values }
{
    let mut number = 0;
    for column in key {
        number = mixed(number, number_in(row, *column));
    }
    number
}

/// Combines two hashes.
fn mixed(number: u64, next: u64) -> u64
    ensures { result ≡ mixed number next }
{
    number.wrapping_mul(FACTOR).wrapping_add(next)
}

/// Returns the hash of the row's value in a column, or 0 if there is no value.
fn number_in(row: DraftRef<'_>, column: u32) -> u64
    ensures { result ≡ number_in (lent_draft row.entry).values column }
{
    match row.value(column as usize) {
        Some(value) => number_of(value),
        None => 0,
    }
}

/// Returns the hash of a value.
fn number_of(value: ValueRef<'_>) -> u64
    ensures { result ≡ number_of (lent_value value.entry) }
{
    match value {
        ValueRef::Int(number) => number.cast_unsigned(),
        ValueRef::Text(text) => number_of_bytes(text.as_bytes()),
    }
}

/// Returns the hash of a text's bytes.
fn number_of_bytes(bytes: &[u8]) -> u64
    ensures { result ≡ number_of_bytes bytes.now }
{
    let mut number = 0;
    for byte in bytes {
        number = mixed(number, *byte as u64);
    }
    number
}
