//! Testing a change of a table, and making it.

ghost use Rattle.std.specs.Arc.{arc_value};
ghost use Rattle.std.specs.Option.{option_copied};
ghost use Rattle.std.specs.Result.{result_err};
ghost use Rattle.std.specs.Prelude.{◌≡◌, ◌≢◌, ℕ, ◌+◌, ◌≤◌, ◌<◌, List, None, Some, [], ◌∷◌, ◌++◌, ◌||◌, true, false, length, map, count_by, flat_map, unwrap_or, IfSome, IfOk, IfErr, OnErr, OnOk, nat_le, nat_lt};
ghost use Rattle.std.specs.List.{AllByRecursion};
ghost use Rattle.row_core.specs.Refusals.{first_of};
ghost use Rattle.row_core.specs.declared.failure.Failure.TheVariants.{NoMemory};
ghost use Rattle.table_core.specs.Numbered.{unnumbered};
ghost use Rattle.version_core.specs.Keys.{break_key, overlap_after};
ghost use Rattle.version_core.specs.Limits.{version_limit};
ghost use Rattle.version_core.specs.OpenVersions.{current, versions_after};
ghost use Rattle.version_core.specs.Rows as by_place;
ghost use Rattle.version_core.specs.Shown.{shown};
ghost use Rattle.book_core.specs.Bound.{Does, DoesTheSame, IsBound, IsMade, IsOfRows, portion_parts, portion_tests, rows_changed};
ghost use Rattle.book_core.specs.Limits.{commit_limit};
ghost use Rattle.book_core.specs.Rows.{is_touched};
ghost use Rattle.book_core.specs.State.{tests_of, pair_tests, table_named};
ghost use Rattle.book_core.specs.StoredTables.{IsUnbroken, kept_table, table_at, HasRoom, IsTimely, IsWellKept};
ghost use Rattle.book_core.specs.declared.change.Change.{Change as AnyChange};
ghost use Rattle.book_core.specs.declared.change.Change.TheVariants.{Load};

use crate::bind::{bind_conds, bind_sets};
use crate::change::Change;
use crate::refusal::BookRefused;
use crate::table::{Table, place_of};
use crate::table_columns::TableColumns;
use draft_core::Drafts;
use list_core::DeepCopy;
use period_core::Period;
use row_core::{Failure, Name, NoMemory, Schema, Value};
use std::alloc::Global;
use std::sync::Arc;
use version_core::{
    CommitNumber, KeyOverlap, PortionChange, RowsChange, VERSION_LIMIT, VersionCounts, Versions,
};

/// The most commits of a book.
pub(crate) const COMMIT_LIMIT: usize = 1_000_000;

/// Returns the reason to refuse a load after `commits` commits, if there is one.
pub(crate) fn load_refusal(table: &Table, commits: usize, rows: &Drafts) -> Option<BookRefused>
    ensures { (name : List ℕ) → result
        ≡ first_of (tests_of commits (Load name rows.now) (table_at commits table.now)) }
{
    if !rows.all_fit(table.schema()) {
        Some(BookRefused::WrongKind)
    } else if is_full(commits, table.versions().len(), rows.len()) {
        Some(BookRefused::Full)
    } else {
        None
    }
}

/// Binds a change of a portion, made after `commits` commits, to the table's columns. It has settings `sets` if it is
/// an update. Returns `None` if its conditions contradict each other; the error is the reason to refuse the change.
pub(crate) fn bind_portion<'a>(
    table: &Table,
    commits: usize,
    portion: Period,
    sets: Option<&'a [(Name, Value)]>,
    conds: &'a [(Name, Value)],
) -> Result<Option<PortionChange<'a>>, BookRefused>
    requires { AllByRecursion (IsTimely commits) table.now.versions }
    ensures refused { result_err result ≡ first_of (portion_tests commits portion
        (option_copied sets.entry) conds.entry.now (table_at commits table.now)) }
    ensures bound { IfOk result (λ bound. Does (is_touched table.now.schema portion conds.entry.now)
        (portion_parts table.now.schema portion (option_copied sets.entry) conds.entry.now)
        (rows_changed bound)) }
{
    let bound = bind_pairs(table.schema(), portion, sets, conds)?;
    if is_full_by_parts(table.versions(), commits, &bound) {
        Err(BookRefused::Full)
    } else {
        Ok(bound)
    }
}

/// Binds the settings and conditions of a change of a portion, or returns the reason to refuse them.
fn bind_pairs<'a>(
    schema: &Schema,
    portion: Period,
    sets: Option<&'a [(Name, Value)]>,
    conds: &'a [(Name, Value)],
) -> Result<Option<PortionChange<'a>>, BookRefused>
    ensures refused { result_err result
        ≡ first_of (flat_map (pair_tests schema.now)
        (unwrap_or (option_copied sets.entry) [] ++ conds.entry.now)) }
    ensures bound { IfOk result (λ bound. Does (is_touched schema.now portion conds.entry.now)
        (portion_parts schema.now portion (option_copied sets.entry) conds.entry.now)
        (rows_changed bound)) }
{
    let sets = bind_sets(schema, sets)?;
    let conds = bind_conds(schema, conds)?;
    match conds {
        Some(conds) => Ok(Some(PortionChange {
            portion,
            sets,
            conds,
        })),
        None => Ok(None),
    }
}

/// Returns whether the rows that replace removed ones exceed the limit on versions. They are counted only if needed:
/// not if the limit is reached already, nor if it can't be reached.
fn is_full_by_parts(versions: &Versions, commits: usize, change: &Option<PortionChange<'_>>) -> bool
    requires { AllByRecursion (IsTimely commits) versions.now }
    ensures { result ≡ (nat_le commit_limit commits || nat_lt version_limit (length versions.now
        + length (by_place.drafts_of (rows_changed change.now) (shown commits versions.now)))) }
{
    let used = versions.len();
    if commits >= COMMIT_LIMIT || used > VERSION_LIMIT {
        return true;
    }
    match change {
        Some(change) => {
            if versions.most_parts() <= VERSION_LIMIT - used {
                false
            } else {
                is_full(commits, used, versions.count_parts(change))
            }
        }
        None => false,
    }
}

/// Returns whether no commit may follow, or the table would have too many versions.
fn is_full(commits: usize, versions: usize, more: usize) -> bool
    ensures { result ≡ (nat_le commit_limit commits || nat_lt version_limit (versions + more)) }
{
    commits >= COMMIT_LIMIT || versions > VERSION_LIMIT || more > VERSION_LIMIT - versions
}

/// Makes the tables after a change that isn't bound to a portion, and returns how many versions it added and closed.
/// The change has been tested, so only the test of keys and memory can still refuse it. An update or a delete gets here
/// only if its conditions contradict each other, so that it affects no row.
pub(crate) fn change_tables(
    alloc: Global,
    tables: &mut Vec<Table>,
    commits: u64,
    change: Change,
) -> Result<VersionCounts, Failure<KeyOverlap>>
    requires few { commits < commit_limit }
    requires room { HasRoom commits change tables.old.items }
    requires well { IfSome (kept_table (table_named change) tables.old.items)
        (IsWellKept commits) }
    requires unbroken { IfSome (kept_table (table_named change) tables.old.items) IsUnbroken }
    requires bound { IfSome (kept_table (table_named change) tables.old.items)
        (λ t. IsBound change t.schema None) }
    ensures { IsMade commits change tables.old.items tables.new.items result }
{
    match change {
        Change::Make { table, schema } => Ok(add_table(alloc, tables, table, schema)?),
        Change::Load { table, rows } => {
            let mut load = RowsChange::Load(rows);
            change_table(alloc, tables, commits, table, &mut load)
        }
        Change::Update { .. } => Ok(no_versions()),
        Change::Delete { .. } => Ok(no_versions()),
    }
}

/// Returns the counts of a change that affects no row.
fn no_versions() -> VersionCounts
    ensures added { result.added ≡ 0 }
    ensures closed { result.closed ≡ 0 }
{
    VersionCounts {
        added: 0,
        closed: 0,
    }
}

/// Adds a table without rows.
fn add_table(
    alloc: Global,
    tables: &mut Vec<Table>,
    name: Name,
    schema: Schema,
) -> Result<VersionCounts, NoMemory>
    ensures ok { OnOk result (tables.new.items
        ≡ tables.old.items ++ record { name = name; schema = schema; versions = [] } ∷ []) }
    ensures counts { IfOk result (λ counts. (counts.added ≡ 0) × (counts.closed ≡ 0)) }
    ensures err { OnErr result (tables.new.items ≡ tables.old.items) }
{
    let columns = TableColumns::of(alloc, schema)?;
    let versions = Arc::new(alloc, Versions::new(alloc)?)?;
    tables.push(Table {
        name,
        columns,
        versions,
    })?;
    Ok(no_versions())
}

/// Changes the rows of the table with that name.
pub(crate) fn change_table(
    alloc: Global,
    tables: &mut Vec<Table>,
    commits: u64,
    name: Name,
    change: &mut RowsChange<'_>,
) -> Result<VersionCounts, Failure<KeyOverlap>>
    requires few { commits < commit_limit }
    requires room { IfSome (kept_table name tables.old.items) (λ t. length t.versions
        + length (by_place.drafts_of change.old (current t.versions)) ≤ version_limit) }
    requires well { IfSome (kept_table name tables.old.items) (IsWellKept commits) }
    requires unbroken { IfSome (kept_table name tables.old.items) IsUnbroken }

    // It makes each change by names that does the same.
    ensures { (c : AnyChange) → table_named c ≡ name → IsOfRows c
        → IfSome (kept_table name tables.old.items) (λ t. DoesTheSame c t.schema change.old)
        → IsMade commits c tables.old.items tables.new.items result }
{
    let Some(at) = place_of(tables, name) else {
        return Ok(no_versions());
    };
    let table = &mut tables[at];
    let commit = next_commit(commits);
    let key = table.columns.key();
    change_versions(alloc, &mut table.versions, key, commit, change)
}

/// Returns the number of the commit after `commits` commits.
fn next_commit(commits: u64) -> CommitNumber
    requires { commits < commit_limit }
    ensures { result ≡ commits + 1 }
{
    match CommitNumber::new((commits + 1) as u32) {
        Some(commit) => commit,
        None => unreachable!(),
    }
}

/// Changes the versions of a table by that commit. If other books share the versions, a copy is changed and replaces
/// them here.
fn change_versions(
    alloc: Global,
    shared: &mut Arc<Versions>,
    key: &[u32],
    commit: CommitNumber,
    change: &mut RowsChange<'_>,
) -> Result<VersionCounts, Failure<KeyOverlap>>
    requires room { length (arc_value shared.old)
        + length (by_place.drafts_of change.old (current (arc_value shared.old))) ≤ version_limit }
    requires unbroken { break_key key.now
        (map unnumbered (current (arc_value shared.old))) ≡ false }
    ensures ok { OnOk result (arc_value shared.new
        ≡ versions_after commit change.old (arc_value shared.old)) }
    ensures counts { IfOk result (λ counts.
        (counts.added ≡ length (by_place.drafts_of change.old (current (arc_value shared.old))))
        × (counts.closed
        ≡ count_by (by_place.removes change.old) (current (arc_value shared.old)))) }
    ensures apart { OnOk result
        (overlap_after change.old key.now (arc_value shared.old) ≡ false) }
    ensures overlap { IfErr result (λ failure. failure ≢ NoMemory
        → overlap_after change.old key.now (arc_value shared.old) ≡ true) }
    ensures err { OnErr result (arc_value shared.new ≡ arc_value shared.old) }
{
    match Arc::get_mut(shared) {
        Some(versions) => versions.apply(alloc, key, commit, change),
        None => {
            let mut versions = shared.copy(alloc)?;
            let counts = versions.apply(alloc, key, commit, change)?;
            *shared = Arc::new(alloc, versions)?;
            Ok(counts)
        }
    }
}
