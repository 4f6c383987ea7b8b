//! All versions of a table, and the positions of the open ones.

ghost use Rattle.std.specs.Prelude.{◌≡◌, ◌≢◌, ℕ, ◌+◌, ◌≤◌, ◌<◌, ◌++◌, List, [], true, false, length, map, filter, fold, take, count_by, All, IfOk, IfErr, IfSome, OnErr, OnOk, slice_get};
ghost use Rattle.std.specs.List.{list_any, range_with_len};
ghost use Rattle.version_core.specs.Collisions.{collide, have_collision};
ghost use Rattle.period_core.specs.Period.{holds_at};
ghost use Rattle.row_core.specs.declared.failure.Failure.TheVariants.{NoMemory};
ghost use Rattle.row_core.specs.declared.row.Row.{Row as AnyRow};
ghost use Rattle.table_core.specs.Numbered.{numbered, unnumbered};
ghost use Rattle.version_core.specs.Finding.{AreNoMore, IsIndex, IsLookupOf, led_to, lookup_at, portion_of};
ghost use Rattle.version_core.specs.KeyIndex.{HasOnlyOpen, IsKeyIndex};
ghost use Rattle.version_core.specs.Keys.{overlap_after, rows_left, break_key};
ghost use Rattle.version_core.specs.Limits.{bucket_count, version_limit};
ghost use Rattle.version_core.specs.Made.{made};
ghost use Rattle.version_core.specs.OpenVersions.{closed_at, current, versions_after};
ghost use Rattle.version_core.specs.Plans.{IsPlanOf};
ghost use Rattle.version_core.specs.Rows.{drafts_of, parts_of_all, removes};
ghost use Rattle.version_core.specs.Shown.{shown, versions_as_of};
ghost use Rattle.version_core.specs.declared.change.RowsChange.TheVariants.{Portion};
ghost use Rattle.version_core.specs.declared.portion_change.PortionChange.{PortionChange as AnyPortionChange};

use crate::change::RowsChange;
use crate::commit_number::CommitNumber;
use crate::index::{
    Index, Lookup, candidates, drop_closed_at, extend_indexes, lookup_of, make_indexes,
    sweep_indexes,
};
use crate::key_index::{KeyIndex, index_by};
use crate::keys::{KeyOverlap, collide_among, may_overlap, rows_left};
use crate::places::Places;
use crate::planning::{Plan, count_parts, is_small, plan_change};
use crate::portion_change::PortionChange;
use crate::shared_versions::SharedVersions;
use crate::stored::StoredVersions;
use crate::version::{rows_holding, rows_shown, versions_seen};
use draft_core::Drafts;
use list_core::DeepCopy;
use period_core::Point;
use row_core::{Failure, NoMemory};
use std::alloc::Global;
use std::marker::Model;
use table_core::SharedRows;

/// The most versions of a table.
pub const VERSION_LIMIT: usize = 1_000_000;

/// How many versions a commit adds and closes.
#[derive(Clone, Copy)]
pub struct VersionCounts {
    pub added: u64,
    pub closed: u64,
}

/// All versions of a table's rows: the version at index `i` has the id `i + 1`. Contracts see the list.
#[derive(Drop)]
pub struct Versions {
    items: StoredVersions,
    /// The positions of the open versions, and of closed ones that haven't been removed yet.
    open_at: Places,
    /// How many versions were closed since `open_at` last had open ones only.
    closed: usize,
    /// Indexes that find open versions by their values. Without one, a change examines all open versions.
    indexes: Vec<Index>,
    /// The index that finds open versions by key and start. Without it, all open rows are sorted.
    key_index: Option<KeyIndex>,
}

impl Model for Versions {
    ghost use Rattle.std.specs.Prelude.{List};
    ghost use Rattle.version_core.specs.declared.version.Version.{Version};
    ghost use Rattle.version_core.specs.Finding.{AreBeside};

    ghost Value = { List Version };

    ghost view = { λ v. v.items };

    ghost invariant = { λ v. AreBeside v.items v.open_at v.indexes.items v.key_index };
}

impl DeepCopy for Versions {
    /// Copies all except the indexes, which the copy rebuilds if it needs them.
    fn copy(&self, alloc: Global) -> Result<Versions, NoMemory> {
        Ok(Versions {
            items: self.items.copy(alloc)?,
            open_at: self.open_at.copy(alloc)?,
            closed: self.closed,
            indexes: Vec::new(alloc),
            key_index: None,
        })
    }
}

impl Versions {
    /// Returns the empty list.
    pub fn new(alloc: Global) -> Result<Self, NoMemory>
        ensures { IfOk result (λ versions. versions ≡ []) }
    {
        Ok(Versions {
            items: StoredVersions::new(alloc)?,
            open_at: Places::new(alloc),
            closed: 0,
            indexes: Vec::new(alloc),
            key_index: None,
        })
    }

    /// Returns the number of versions.
    pub fn len(&self) -> usize
        ensures { result ≡ length self.now }
    {
        self.items.len()
    }

    /// Returns the rows visible as of commit `n`, by rising id, without copying them.
    pub fn rows_shown(&self, alloc: Global, n: u64) -> Result<SharedRows, NoMemory>
        ensures { IfOk result (λ rows. rows ≡ shown n self.now) }
    {
        rows_shown(alloc, &self.items, n)
    }

    /// Returns the versions, as of commit `at`, whose system periods start at `last` or before and end after `m`,
    /// without copying their rows.
    pub fn versions_seen(
        &self,
        alloc: Global,
        at: u64,
        m: u64,
        last: u64,
    ) -> Result<SharedVersions, NoMemory>
        ensures { IfOk result (λ list. list ≡ versions_as_of at m last self.now) }
    {
        versions_seen(alloc, &self.items, at, m, last)
    }

    /// Returns the rows visible as of commit `n` that hold at the point, without copying them.
    pub fn rows_holding(&self, alloc: Global, n: u64, point: Point) -> Result<SharedRows, NoMemory>
        ensures { IfOk result (λ rows. rows
            ≡ filter (λ (row : AnyRow). holds_at point row.period) (shown n self.now)) }
    {
        rows_holding(alloc, &self.items, n, point)
    }

    /// Returns an upper bound on the number of rows that replace removed ones: three for each position in `open_at`.
    pub fn most_parts(&self) -> usize
        requires { length self.now ≤ version_limit }
        ensures { (change : AnyPortionChange)
            → length (parts_of_all (Portion change) (current self.now)) ≤ result }
    {
        3 * self.open_at.len()
    }

    /// Returns how many rows replace the rows that the change removes.
    pub fn count_parts(&self, change: &PortionChange<'_>) -> usize
        requires { length self.now ≤ version_limit }
        ensures { result ≡ length (parts_of_all (Portion change.now) (current self.now)) }
    {
        let lookup = lookup_of(&self.indexes, change);
        let places = candidates(self.open_at.as_slice(), &self.indexes, lookup);
        count_parts(change, &self.items, places)
    }

    /// Closes the versions of the rows that the change removes, and adds versions of its new rows. A load's rows are
    /// taken out of the change.
    ///
    /// # Errors
    ///
    /// `KeyOverlap` if rows with the same key would overlap, or `NoMemory`. The versions are then unchanged.
    pub fn apply(
        &mut self,
        alloc: Global,
        key: &[u32],
        commit: CommitNumber,
        change: &mut RowsChange<'_>,
    ) -> Result<VersionCounts, Failure<KeyOverlap>>
        requires room { length self.old
            + length (drafts_of change.old (current self.old)) ≤ version_limit }
        requires unbroken { break_key key.now (map unnumbered (current self.old)) ≡ false }
        ensures ok { OnOk result (self.new ≡ versions_after commit change.old self.old) }
        ensures counts { IfOk result (λ counts.
            (counts.added ≡ length (drafts_of change.old (current self.old)))
            × (counts.closed ≡ count_by (removes change.old) (current self.old))) }
        ensures apart { OnOk result (overlap_after change.old key.now self.old ≡ false) }
        ensures overlap { IfErr result (λ failure. failure ≢ NoMemory
            → overlap_after change.old key.now self.old ≡ true) }
        ensures err { OnErr result (self.new ≡ self.old) }
    {
        let plan = self.plan(alloc, key, change)?;
        Ok(self.carry_out(alloc, commit, change, plan)?)
    }

    /// Computes what the change does, or returns `KeyOverlap`. Indexes that help to find rows are built.
    fn plan(
        &mut self,
        alloc: Global,
        key: &[u32],
        change: &RowsChange<'_>,
    ) -> Result<Plan, Failure<KeyOverlap>>
        requires few { length self.old ≤ version_limit }
        requires unbroken { break_key key.now (map unnumbered (current self.old)) ≡ false }
        ensures same { self.new ≡ self.old }
        ensures plan { IfOk result (IsPlanOf change.now self.old) }
        ensures apart { OnOk result (overlap_after change.now key.now self.old ≡ false) }
        ensures overlap { IfErr result (λ failure. failure ≢ NoMemory
            → overlap_after change.now key.now self.old ≡ true) }
    {
        let lookup = Self::look_up(alloc, &mut self.indexes, &self.items, change);
        self.drop_closed(lookup);
        let plan = self.find_rows(alloc, change, lookup)?;
        self.prepare_key_index(alloc, change, key, &plan);
        if self.leaves_overlap(alloc, change, key, &plan.parts)? {
            return Err(Failure::Refused(KeyOverlap));
        }
        Ok(plan)
    }

    /// Returns the lookup for the rows that the change removes. Indexes that help to find them are built.
    fn look_up(
        alloc: Global,
        indexes: &mut Vec<Index>,
        versions: &StoredVersions,
        change: &RowsChange<'_>,
    ) -> Option<Lookup>
        requires few { length versions.now ≤ version_limit }
        requires before { All (IsIndex versions.now) indexes.old.items }
        ensures indexes { All (IsIndex versions.now) indexes.new.items }
        ensures few { IfSome result (λ lookup. lookup.bucket < bucket_count) }
        ensures lookup { IfSome result (IsLookupOf change.now) }
        ensures shortest { IfSome (portion_of change.now) (λ change. (column : ℕ)
            → column < length change.conds → AreNoMore (led_to indexes.new.items result)
            (led_to indexes.new.items (lookup_at change.conds column))) }
    {
        let change = change.portion()?;
        make_indexes(alloc, indexes, versions, &change.conds);
        lookup_of(indexes, change)
    }

    /// Removes the positions of closed versions that a change with that lookup would examine: those in its bucket.
    /// Without a lookup, the list of open versions and all indexes are swept, if many versions were closed.
    fn drop_closed(&mut self, lookup: Option<Lookup>)
        requires { IfSome lookup (λ lookup. lookup.bucket < bucket_count) }
        ensures { self.new ≡ self.old }
    {
        match lookup {
            Some(lookup) => drop_closed_at(&mut self.indexes, &self.items, lookup),
            None => {
                if self.closed > self.open_at.len() / 2 {
                    self.open_at.drop_closed(&self.items);
                    sweep_indexes(&mut self.indexes, &self.items);
                    self.closed = 0;
                }
            }
        }
    }

    /// Computes what the change does, from the positions that the lookup finds.
    fn find_rows(
        &self,
        alloc: Global,
        change: &RowsChange<'_>,
        lookup: Option<Lookup>,
    ) -> Result<Plan, NoMemory>
        requires bucket { IfSome lookup (λ lookup. lookup.bucket < bucket_count) }
        requires lookup { IfSome lookup (IsLookupOf change.now) }
        ensures { IfOk result (IsPlanOf change.now self.now) }
    {
        let places = candidates(self.open_at.as_slice(), &self.indexes, lookup);
        plan_change(alloc, change, &self.items, places)
    }

    /// Builds the key index if it helps to test the plan, and drops it if the plan isn't small.
    fn prepare_key_index(
        &mut self,
        alloc: Global,
        change: &RowsChange<'_>,
        key: &[u32],
        plan: &Plan,
    )
        ensures { self.new ≡ self.old }
    {
        let new = change.rows_made(&plan.parts);
        if !is_small(new, &plan.taken, self.items.len()) {
            self.key_index = None;
        } else if index_by(&self.key_index, key).is_none() && may_overlap(change, key) {
            self.key_index = KeyIndex::of(alloc, &self.items, key).ok();
        }
    }

    /// Carries out the change as planned.
    fn carry_out(
        &mut self,
        alloc: Global,
        commit: CommitNumber,
        change: &mut RowsChange<'_>,
        plan: Plan,
    ) -> Result<VersionCounts, NoMemory>
        requires room { length self.old
            + length (drafts_of change.old (current self.old)) ≤ version_limit }
        requires plan { IsPlanOf change.old self.old plan }
        ensures ok { OnOk result (self.new ≡ versions_after commit change.old self.old) }
        ensures counts { IfOk result (λ counts.
            (counts.added ≡ length (drafts_of change.old (current self.old)))
            × (counts.closed ≡ count_by (removes change.old) (current self.old))) }
        ensures err { OnErr result (self.new ≡ self.old) }
    {
        let before = self.items.len();
        let Plan { parts, taken } = plan;
        let new = change.take_rows(alloc, parts);
        let counts = VersionCounts {
            added: new.len() as u64,
            closed: taken.len() as u64,
        };
        add_versions(alloc, &mut self.items, &mut self.open_at, new, commit)?;
        close_all(&mut self.items, &taken, commit);
        self.closed = self.closed.saturating_add(taken.len());
        keep_indexes(
            &mut self.indexes,
            &mut self.key_index,
            &self.items,
            before,
            &taken,
        );
        Ok(counts)
    }

    /// Returns whether two of the rows that the change keeps and the new ones have the same key and overlap.
    fn leaves_overlap(
        &self,
        alloc: Global,
        change: &RowsChange<'_>,
        key: &[u32],
        parts: &Drafts,
    ) -> Result<bool, NoMemory>
        requires unbroken { break_key key.now (map unnumbered (current self.now)) ≡ false }
        requires parts { parts.now
            ≡ parts_of_all change.now (current self.now) }
        ensures { IfOk result (λ overlap. overlap
            ≡ overlap_after change.now key.now self.now) }
    {
        if may_overlap(change, key) {
            self.find_overlap(alloc, change, key, change.rows_made(parts))
        } else {
            Ok(false)
        }
    }

    /// Returns whether a new row collides with another new row, or with a row that the change keeps. With a key index,
    /// only the kept rows that it finds are examined.
    fn find_overlap(
        &self,
        alloc: Global,
        change: &RowsChange<'_>,
        key: &[u32],
        new: &Drafts,
    ) -> Result<bool, NoMemory>
        requires unbroken { have_collision key.now (map unnumbered (current self.now)) ≡ false }
        ensures { IfOk result (λ overlap. overlap ≡ have_collision key.now
            (rows_left change.now (current self.now) ++ new.now)) }
    {
        match index_by(&self.key_index, key) {
            Some(index) => {
                let among_new = collide_among(Vec::new(alloc), key, new)?;
                Ok(among_new || self.any_meets(change, index, new))
            }
            None => {
                let left = rows_left(alloc, change, &self.items, self.open_at.as_slice())?;
                collide_among(left, key, new)
            }
        }
    }

    /// Returns whether a new row collides with a row that the change keeps.
    fn any_meets(&self, change: &RowsChange<'_>, index: &KeyIndex, new: &Drafts) -> bool
        requires index { IsKeyIndex self.now index.now }
        requires unbroken { have_collision index.now.columns.items
            (map unnumbered (current self.now)) ≡ false }
        ensures { result ≡ list_any (λ other. list_any
            (λ left. collide index.now.columns.items left other)
            (rows_left change.now (current self.now))) new.now }
    {
        for i in 0..new.len() {
            if index.any_collides(change, &self.items, new.at(i)) {
                return true;
            }
        }
        false
    }
}

/// Adds the versions from position `from` on to all indexes. The versions at the positions `taken`, which are closed,
/// remain in the column indexes until a later change removes them.
fn keep_indexes(
    indexes: &mut Vec<Index>,
    key_index: &mut Option<KeyIndex>,
    versions: &StoredVersions,
    from: usize,
    taken: &[u32],
)
    requires few { length versions.now ≤ version_limit }
    requires inside { from ≤ length versions.now }
    requires by_value { All (IsIndex (take from versions.now)) indexes.old.items }
    requires by_key { IfSome key_index.old (IsKeyIndex (take from versions.now)) }
    requires only { IfSome key_index.old (HasOnlyOpen (take from versions.now) taken.now) }
    ensures by_value { All (IsIndex versions.now) indexes.new.items }
    ensures by_key { IfSome key_index.new (IsKeyIndex versions.now) }
    ensures only { IfSome key_index.new (HasOnlyOpen versions.now []) }
{
    extend_indexes(indexes, versions, from);
    keep_key_index(key_index, versions, from, taken);
}

/// Adds the versions from position `from` on to the key index, and removes the closed ones at the positions `taken`. If
/// memory is refused, the index is dropped.
fn keep_key_index(
    key_index: &mut Option<KeyIndex>,
    versions: &StoredVersions,
    from: usize,
    taken: &[u32],
)
    requires inside { from ≤ length versions.now }
    requires before { IfSome key_index.old (IsKeyIndex (take from versions.now)) }
    requires only { IfSome key_index.old (HasOnlyOpen (take from versions.now) taken.now) }
    ensures index { IfSome key_index.new (IsKeyIndex versions.now) }
    ensures only { IfSome key_index.new (HasOnlyOpen versions.now []) }
{
    let Some(mut index) = key_index.take() else {
        return;
    };
    if index.extend(versions, from).is_ok() {
        index.drop_closed(versions, taken);
        *key_index = Some(index);
    }
}

/// Adds versions of rows that a commit creates, and their positions. If memory is refused, nothing is changed.
fn add_versions(
    alloc: Global,
    versions: &mut StoredVersions,
    places: &mut Places,
    new: Drafts,
    commit: CommitNumber,
) -> Result<(), NoMemory>
    requires { length versions.old + length new ≤ version_limit }
    ensures ok { OnOk result (versions.new ≡ versions.old
        ++ made commit (numbered (length versions.old) new)) }
    ensures places { OnOk result (places.new
        ≡ places.old ++ range_with_len (length versions.old) (length new)) }
    ensures err { OnErr result (versions.new ≡ versions.old) }
    ensures err_places { OnErr result (places.new ≡ places.old) }
{
    let open = places.len();
    places.push_range(versions.len(), new.len())?;
    if let Err(error) = versions.append(alloc, new, commit) {
        places.truncate(open);
        return Err(error);
    }
    Ok(())
}

/// Ends the system periods of the versions at those positions with the commit.
fn close_all(versions: &mut StoredVersions, places: &[u32], commit: CommitNumber)
    requires { All (λ place. place < length versions.old) places.now }
    ensures { versions.new ≡ fold (closed_at commit) versions.old places.now }
{
    for place in places {
        versions.close(*place as usize, commit);
    }
}
