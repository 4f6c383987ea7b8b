//! Indexes of open versions by the values of a column, and the lookups of a change in them.

ghost use Rattle.std.specs.Prelude.{◌≡◌, ℕ, ◌==◌, ◌+◌, ◌<◌, ◌≤◌, [], true, false, find, length, get_or, option_map, position, take, unwrap_or, All, IfOk, IfSome, IsSome, OnOk, ◌⊎◌};
ghost use Rattle.std.specs.Option.{option_copied};
ghost use Rattle.row_core.specs.Lent.{lent_value};
ghost use Rattle.row_core.specs.declared.row.Row.{Row};
ghost use Rattle.table_core.specs.Lent.{lent_row};
ghost use Rattle.version_core.specs.Finding.{AreNoMore, IsIndex, IsLookupOf, bucket_at, bucket_in, bucket_of, bucket_of_bytes, falls_into, led_to, lookup_at, passes};
ghost use Rattle.version_core.specs.Limits.{bucket_count, version_limit};
ghost use Rattle.version_core.specs.OpenVersions.{is_open};
ghost use Rattle.version_core.specs.declared.change.RowsChange.TheVariants.{Portion};
ghost use Rattle.version_core.specs.Wanted.{are_wanted};
ghost use Rattle.version_core.specs.Stored.{version_of};

use crate::by_column::ByColumn;
use crate::places::Places;
use crate::portion_change::PortionChange;
use crate::stored::StoredVersions;
use crate::system_period::SystemPeriod;
use row_core::{NoMemory, ValueRef};
use std::alloc::Global;
use table_core::RowRef;

/// The number of buckets of an index. It is prime, so that equally spaced numbers spread over the buckets.
const BUCKET_COUNT: usize = 8_191;

/// With fewer versions than this no index is built: it would mostly take more memory than the versions.
const FEW: usize = 256;

/// The open versions by their values in a column: a bucket lists the positions of the versions whose value hashes to
/// it. Positions of closed versions may remain until the bucket is next looked up, or the indexes are swept.
#[derive(Drop)]
pub(crate) struct Index {
    pub column: u32,
    pub buckets: Vec<Places>,
}

/// A bucket of a column's index that contains the rows that a change removes.
#[derive(Clone, Copy)]
pub(crate) struct Lookup {
    pub column: u32,
    pub bucket: usize,
}

impl Index {
    /// Builds the index of the versions by that column.
    pub(crate) fn of(
        alloc: Global,
        versions: &StoredVersions,
        column: u32,
    ) -> Result<Index, NoMemory>
        requires { length versions.now ≤ version_limit }
        ensures { IfOk result (IsIndex versions.now) }
    {
        let mut index = Index {
            column,
            buckets: empty_buckets(alloc)?,
        };
        index.extend(versions, 0)?;
        Ok(index)
    }

    /// Adds the versions from position `from` on.
    fn extend(&mut self, versions: &StoredVersions, from: usize) -> Result<(), NoMemory>
        requires few { length versions.now ≤ version_limit }
        requires inside { from ≤ length versions.now }
        requires before { IsIndex (take from versions.now) self.old }
        ensures { OnOk result (IsIndex versions.now self.new) }
    {
        for place in from..versions.len() {
            self.add(versions, place)?;
        }
        Ok(())
    }

    /// Adds the version at the given position, if it is open.
    fn add(&mut self, versions: &StoredVersions, place: usize) -> Result<(), NoMemory>
        requires few { length versions.now ≤ version_limit }
        requires inside { place < length versions.now }
        requires before { IsIndex (take place versions.now) self.old }
        ensures { OnOk result (IsIndex (take (place + 1) versions.now) self.new) }
    {
        let version = versions.at(place);
        if let Some(bucket) = bucket_in(self.column, version.row, &version.system_period) {
            self.buckets[bucket].push(place as u32)?;
        }
        Ok(())
    }

    /// Removes the positions of closed versions from a bucket.
    fn drop_closed(&mut self, versions: &StoredVersions, bucket: usize)
        requires index { IsIndex versions.now self.old }
        requires few { bucket < bucket_count }
        ensures index { IsIndex versions.now self.new }
        ensures column { self.new.column ≡ self.old.column }
        ensures open { All (λ place. passes versions.now is_open place ≡ true)
            (get_or self.new.buckets.items bucket []) }
    {
        self.buckets[bucket].drop_closed(versions);
    }

    /// Removes the positions of closed versions from all buckets.
    fn sweep(&mut self, versions: &StoredVersions)
        requires { IsIndex versions.now self.old }
        ensures { IsIndex versions.now self.new }
    {
        for bucket in 0..BUCKET_COUNT {
            self.drop_closed(versions, bucket);
        }
    }
}

/// Returns empty buckets.
fn empty_buckets(alloc: Global) -> Result<Vec<Places>, NoMemory>
    ensures whole { IfOk result (λ buckets. length buckets.items ≡ bucket_count) }
    ensures empty { IfOk result (λ buckets. All (λ places. places ≡ []) buckets.items) }
{
    let mut buckets = Vec::with_capacity(alloc, BUCKET_COUNT)?;
    for _ in 0..BUCKET_COUNT {
        buckets.push(Places::new(alloc))?;
    }
    Ok(buckets)
}

/// Returns the bucket of the version's value in the column, or `None` if the version is closed or has no such value.
fn bucket_in(column: u32, row: RowRef<'_>, system_period: &SystemPeriod) -> Option<usize>
    ensures bucket { result ≡ bucket_in column (version_of (lent_row row.entry) system_period.now) }
    ensures few { IfSome result (λ bucket. bucket < bucket_count) }
{
    if !system_period.is_open() {
        return None;
    }
    match row.value(column as usize) {
        Some(value) => Some(bucket_of(value)),
        None => None,
    }
}

/// Returns the bucket of a value. Equal values have the same bucket.
fn bucket_of(value: ValueRef<'_>) -> usize
    ensures bucket { result ≡ bucket_of (lent_value value.entry) }
    ensures few { result < bucket_count }
{
    match value {
        ValueRef::Int(number) => (number.unsigned_abs() % BUCKET_COUNT as u64) as usize,
        ValueRef::Text(text) => bucket_of_bytes(text.as_bytes()),
    }
}

/// Returns the bucket of a text's bytes.
fn bucket_of_bytes(bytes: &[u8]) -> usize
    ensures bucket { result ≡ bucket_of_bytes bytes.now }
    ensures few { result < bucket_count }
{
    let mut bucket = 0;
    for byte in bytes {
        bucket = (bucket * 31 + *byte as usize) % BUCKET_COUNT;
    }
    bucket
}

/// Returns the lookup for the rows that the change removes, among its wanted values: the one with the shortest bucket,
/// or `None` if no wanted value's column has an index.
pub(crate) fn lookup_of(indexes: &[Index], change: &PortionChange<'_>) -> Option<Lookup>
    requires { All (λ index. length index.buckets.items ≡ bucket_count) indexes.now }
    ensures few { IfSome result (λ lookup. lookup.bucket < bucket_count) }
    ensures lookup { IfSome result (IsLookupOf (Portion change.now)) }
    ensures indexed { IfSome result (λ lookup. IsSome (bucket_at indexes.now lookup)) }
    ensures shortest { (column : ℕ) → column < length change.now.conds
        → AreNoMore (led_to indexes.now result)
        (led_to indexes.now (lookup_at change.now.conds column)) }
{
    best_lookup(indexes, &change.conds)
}

/// Returns the lookup for the rows that have all wanted values: the one with the shortest bucket.
fn best_lookup(indexes: &[Index], wanted: &ByColumn<'_>) -> Option<Lookup>
    requires { All (λ index. length index.buckets.items ≡ bucket_count) indexes.now }
    ensures few { IfSome result (λ lookup. lookup.bucket < bucket_count) }
    ensures lookup { IfSome result (λ lookup. (row : Row) → are_wanted wanted.now row.values ≡ true
        → falls_into lookup.column lookup.bucket row ≡ true) }
    ensures indexed { IfSome result (λ lookup. IsSome (bucket_at indexes.now lookup)) }
    ensures shortest { (column : ℕ) → column < length wanted.now
        → AreNoMore (led_to indexes.now result) (led_to indexes.now (lookup_at wanted.now column)) }
{
    let mut best = None;
    for column in 0..wanted.width() {
        let lookup = lookup_at(wanted, column);
        if lookup.is_some() {
            best = better_lookup(indexes, best, lookup);
        }
    }
    best
}

/// Returns the lookup of the value wanted in a column, or `None` if no value is.
fn lookup_at(wanted: &ByColumn<'_>, column: usize) -> Option<Lookup>
    requires { column < length wanted.now }
    ensures lookup { result ≡ lookup_at wanted.now column }
    ensures few { IfSome result (λ lookup. lookup.bucket < bucket_count) }
{
    let _ = wanted.width();
    match wanted.get(column) {
        Some(value) => Some(Lookup {
            column: column as u32,
            bucket: bucket_of(ValueRef::from(value)),
        }),
        None => None,
    }
}

/// Returns the lookup with fewer positions: `other` if it has fewer than `one`, otherwise `one`. A lookup without an
/// index counts as one with more.
fn better_lookup(indexes: &[Index], one: Option<Lookup>, other: Option<Lookup>) -> Option<Lookup>
    requires buckets { All (λ index. length index.buckets.items ≡ bucket_count) indexes.now }
    requires one { IfSome one (λ lookup. lookup.bucket < bucket_count) }
    requires other { IfSome other (λ lookup. lookup.bucket < bucket_count) }
    ensures either { (result ≡ one) ⊎ ((result ≡ other) × IsSome (led_to indexes.now other)) }
    ensures one { AreNoMore (led_to indexes.now result) (led_to indexes.now one) }
    ensures other { AreNoMore (led_to indexes.now result) (led_to indexes.now other) }
{
    if are_fewer(led_to(indexes, other), led_to(indexes, one)) {
        other
    } else {
        one
    }
}

/// Returns whether the first list exists and is shorter than the second, or the second doesn't exist.
fn are_fewer(places: Option<&[u32]>, others: Option<&[u32]>) -> bool
    ensures yes { result ≡ true → (IsSome (option_copied places.entry))
        × (AreNoMore (option_copied places.entry) (option_copied others.entry)) }
    ensures no { result ≡ false
        → AreNoMore (option_copied others.entry) (option_copied places.entry) }
{
    match places {
        None => false,
        Some(places) => match others {
            None => true,
            Some(others) => places.len() < others.len(),
        },
    }
}

/// Returns the positions that the lookup finds, or `None` if there is no lookup or its column has no index.
fn led_to<'a>(indexes: &'a [Index], lookup: Option<Lookup>) -> Option<&'a [u32]>
    requires buckets { All (λ index. length index.buckets.items ≡ bucket_count) indexes.now }
    requires lookup { IfSome lookup (λ lookup. lookup.bucket < bucket_count) }
    ensures { option_copied result ≡ led_to indexes.now lookup }
{
    match lookup {
        Some(lookup) => bucket_at(indexes, lookup),
        None => None,
    }
}

/// Returns the positions in the lookup's bucket, or `None` if its column has no index.
fn bucket_at<'a>(indexes: &'a [Index], lookup: Lookup) -> Option<&'a [u32]>
    requires buckets { All (λ index. length index.buckets.items ≡ bucket_count) indexes.now }
    requires lookup { lookup.bucket < bucket_count }
    ensures { option_copied result ≡ bucket_at indexes.now lookup }
{
    match index_of(indexes, lookup.column) {
        Some(index) => Some(index.buckets[lookup.bucket].as_slice()),
        None => None,
    }
}

/// Returns the column's index.
fn index_of(indexes: &[Index], column: u32) -> Option<&Index>
    ensures { option_copied result ≡ find (λ index. index.column == column) indexes.now }
{
    indexes.iter().find(|index| index.column == column)
}

/// Returns the position of the column's index in the list.
fn place_of_index(indexes: &[Index], column: u32) -> Option<usize>
    ensures { result ≡ position (λ index. index.column == column) indexes.now }
{
    indexes.iter().position(|index| index.column == column)
}

/// Returns the positions that a change with that lookup examines: a bucket, or `open_at` if there is no index.
pub(crate) fn candidates<'a>(
    open_at: &'a [u32],
    indexes: &'a [Index],
    lookup: Option<Lookup>,
) -> &'a [u32]
    requires buckets { All (λ index. length index.buckets.items ≡ bucket_count) indexes.now }
    requires lookup { IfSome lookup (λ lookup. lookup.bucket < bucket_count) }
    ensures { result.now ≡ unwrap_or (led_to indexes.now lookup) open_at.now }
{
    match led_to(indexes, lookup) {
        Some(places) => places,
        None => open_at,
    }
}

/// Builds an index for each column with a wanted value that has none. If memory is refused, the column stays without
/// one.
pub(crate) fn make_indexes(
    alloc: Global,
    indexes: &mut Vec<Index>,
    versions: &StoredVersions,
    wanted: &ByColumn<'_>,
)
    requires few { length versions.now ≤ version_limit }
    requires before { All (IsIndex versions.now) indexes.old.items }
    ensures indexes { All (IsIndex versions.now) indexes.new.items }
    ensures kept { take (length indexes.old.items) indexes.new.items ≡ indexes.old.items }
{
    if versions.len() < FEW {
        return;
    }
    for column in 0..wanted.width() {
        if wanted.get(column).is_some() {
            make_index(alloc, indexes, versions, column as u32);
        }
    }
}

/// Builds the index of the column, unless it exists or memory is refused.
fn make_index(alloc: Global, indexes: &mut Vec<Index>, versions: &StoredVersions, column: u32)
    requires few { length versions.now ≤ version_limit }
    requires before { All (IsIndex versions.now) indexes.old.items }
    ensures indexes { All (IsIndex versions.now) indexes.new.items }
    ensures kept { take (length indexes.old.items) indexes.new.items ≡ indexes.old.items }
    ensures there { IsSome (find (λ index. index.column == column) indexes.old.items)
        → indexes.new.items ≡ indexes.old.items }
{
    if index_of(indexes, column).is_some() {
        return;
    }
    if let Ok(index) = Index::of(alloc, versions, column) {
        let _ = indexes.push(index);
    }
}

/// Removes the positions of closed versions from the lookup's bucket.
pub(crate) fn drop_closed_at(indexes: &mut [Index], versions: &StoredVersions, lookup: Lookup)
    requires lookup { lookup.bucket < bucket_count }
    requires before { All (IsIndex versions.now) indexes.old }
    ensures indexes { All (IsIndex versions.now) indexes.new }
    ensures open { IfSome (bucket_at indexes.new lookup)
        (All (λ place. passes versions.now is_open place ≡ true)) }
{
    if let Some(i) = place_of_index(indexes, lookup.column) {
        indexes[i].drop_closed(versions, lookup.bucket);
    }
}

/// Removes the positions of closed versions from all indexes.
pub(crate) fn sweep_indexes(indexes: &mut Vec<Index>, versions: &StoredVersions)
    requires { All (IsIndex versions.now) indexes.old.items }
    ensures { All (IsIndex versions.now) indexes.new.items }
{
    for i in 0..indexes.len() {
        indexes[i].sweep(versions);
    }
}

/// Adds the versions from position `from` on to all indexes. If memory is refused, all indexes are dropped, and later
/// changes rebuild them.
pub(crate) fn extend_indexes(indexes: &mut Vec<Index>, versions: &StoredVersions, from: usize)
    requires few { length versions.now ≤ version_limit }
    requires inside { from ≤ length versions.now }
    requires before { All (IsIndex (take from versions.now)) indexes.old.items }
    ensures { All (IsIndex versions.now) indexes.new.items }
{
    for i in 0..indexes.len() {
        if let Err(_) = indexes[i].extend(versions, from) {
            indexes.clear();
            return;
        }
    }
}
