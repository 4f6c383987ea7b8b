//! Keys of tables: which changes must be tested, and the rows that are tested.

ghost use Rattle.std.specs.Prelude.{◌≡◌, ◌≢◌, ◌++◌, List, [], true, false, map, IfOk, IfSome, None, OnOk};
ghost use Rattle.std.specs.List.{list_any};
ghost use Rattle.version_core.specs.Collisions.{collide, have_collision};
ghost use Rattle.draft_core.specs.Lent.{lent_draft};
ghost use Rattle.version_core.specs.Finding.{ListsOpen, any_row, passes, portion_of};
ghost use Rattle.version_core.specs.Keys.{collides_left, is_set, overlap_after, rows_left, break_key};
ghost use Rattle.version_core.specs.OpenVersions.{current};
ghost use Rattle.table_core.specs.Numbered.{unnumbered};
ghost use Rattle.version_core.specs.Lent.{lent_version};
ghost use Rattle.version_core.specs.declared.version.Version.{Version};

use crate::by_column::ByColumn;
use crate::change::RowsChange;
use crate::collisions::{collide, have_collision};
use crate::stored::StoredVersions;
use crate::version_ref::VersionRef;
use draft_core::{DraftRef, Drafts};
use row_core::NoMemory;
use std::alloc::{AllocError, Global};
use thiserror::Error;

/// Two rows with the same key would overlap.
#[derive(Clone, Copy, Debug, PartialEq, Eq, Error)]
#[error("two rows of one key would share an instant")]
pub struct KeyOverlap;

/// Returns whether the change can make rows with the same key overlap, if no such rows overlap before it. A load can.
/// An update can only if it sets a column of the key: otherwise each part that it keeps of a row holds only where the
/// row did.
pub(crate) fn may_overlap(change: &RowsChange<'_>, key: &[u32]) -> bool
    ensures keyed { result ≡ true → key.now ≢ [] }
    ensures never { result ≡ false → (versions : List Version)
        → break_key key.now (map unnumbered (current versions)) ≡ false
        → overlap_after change.now key.now versions ≡ false }
    ensures deletes { IfSome (portion_of change.now) (λ change. change.sets ≡ None
        → result ≡ false) }
{
    if key.is_empty() {
        return false;
    }
    match change {
        RowsChange::Load(_) => true,
        RowsChange::Portion(change) => match &change.sets {
            Some(sets) => any_set(sets, key),
            None => false,
        },
    }
}

/// Returns whether a value is set in a column of the key.
fn any_set(sets: &ByColumn<'_>, key: &[u32]) -> bool
    ensures { result ≡ list_any (is_set sets.now) key.now }
{
    key.iter().any(|column| is_set(sets, *column as usize))
}

/// Returns whether a value is set in the column.
fn is_set(sets: &ByColumn<'_>, column: usize) -> bool
    ensures { result ≡ is_set sets.now column }
{
    column < sets.width() && sets.get(column).is_some()
}

/// Returns whether two of these rows and the new ones collide.
pub(crate) fn collide_among<'a>(
    mut rows: Vec<DraftRef<'a>>,
    key: &[u32],
    new: &'a Drafts,
) -> Result<bool, NoMemory>
    ensures { IfOk result (λ overlap. overlap
        ≡ have_collision key.now (map lent_draft rows.entry.items ++ new.now)) }
{
    push_rows(&mut rows, new)?;
    Ok(have_collision(key, &mut rows))
}

/// Returns the rows of open versions that the change keeps, found by a pass over all open versions.
pub(crate) fn rows_left<'a>(
    alloc: Global,
    change: &RowsChange<'_>,
    versions: &'a StoredVersions,
    open_at: &[u32],
) -> Result<Vec<DraftRef<'a>>, NoMemory>
    requires { ListsOpen versions.now any_row open_at.now }
    ensures { IfOk result (λ rows. map lent_draft rows.items
        ≡ rows_left change.now (current versions.now)) }
{
    let mut rows = Vec::new(alloc);
    for place in open_at {
        let version = versions.at(*place as usize);
        if change.leaves(&version) {
            if let Err(_) = rows.push(version.row.draft()) {
                return Err(AllocError);
            }
        }
    }
    Ok(rows)
}

/// Adds the rows.
fn push_rows<'a>(rows: &mut Vec<DraftRef<'a>>, new: &'a Drafts) -> Result<(), NoMemory>
    ensures { OnOk result (map lent_draft rows.new.items
        ≡ map lent_draft rows.old.items ++ new.now) }
{
    for i in 0..new.len() {
        if let Err(_) = rows.push(new.at(i)) {
            return Err(AllocError);
        }
    }
    Ok(())
}

/// Returns whether the version at the given position is open, the change keeps its row, and the row collides with the
/// new one.
pub(crate) fn collides_at(
    change: &RowsChange<'_>,
    key: &[u32],
    versions: &StoredVersions,
    place: usize,
    new: DraftRef<'_>,
) -> bool
    ensures { result
        ≡ passes versions.now (collides_left change.now key.now (lent_draft new.entry)) place }
{
    match versions.get(place) {
        Some(version) => collides_left(change, key, &version, new),
        None => false,
    }
}

/// Returns whether the version is open, the change keeps its row, and the row collides with the new one.
fn collides_left(
    change: &RowsChange<'_>,
    key: &[u32],
    version: &VersionRef<'_>,
    new: DraftRef<'_>,
) -> bool
    ensures { result ≡ collides_left change.now key.now
        (lent_draft new.entry) (lent_version version.now) }
{
    change.leaves(version) && collide(key, version.row.draft(), new)
}
