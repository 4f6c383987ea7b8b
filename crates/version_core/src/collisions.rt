//! The test of a table's key: a sort brings rows with equal keys together, and neighbours are tested.

ghost use Rattle.std.specs.Prelude.{◌≡◌, map, slice_get, IsPermutation, IsSortedBy};
ghost use Rattle.std.specs.Ordering.{is_lt};
ghost use Rattle.draft_core.specs.Lent.{lent_draft};
ghost use Rattle.row_core.specs.ValueOrder.{maybe_cmp};
ghost use Rattle.version_core.specs.Collisions.{collide, have_collision, same_key};
ghost use Rattle.version_core.specs.KeyOrder.{key_cmp, row_cmp, have_neighbours};

use draft_core::DraftRef;
use std::cmp::Ordering;

/// Returns whether two rows are equal in each of the key's columns and overlap. Leaves the rows sorted by key and then
/// by start.
pub fn have_collision(key: &[u32], rows: &mut Vec<DraftRef<'_>>) -> bool
    ensures collision { result ≡ have_collision key.now (map lent_draft rows.old.items) }
    ensures permutation { IsPermutation rows.old.items rows.new.items }
    ensures ordered { IsSortedBy (λ a b. is_lt (row_cmp key.now (lent_draft a) (lent_draft b)))
        rows.new.items }
{
    sort_rows(key, rows);
    neighbours_collide(key, rows)
}

/// Sorts the rows by key and then by start.
fn sort_rows(key: &[u32], rows: &mut Vec<DraftRef<'_>>)
    ensures permutation { IsPermutation rows.old.items rows.new.items }
    ensures sorted { IsSortedBy (λ a b. is_lt (row_cmp key.now (lent_draft a) (lent_draft b)))
        rows.new.items }
{
    rows.sort_unstable_by(|a, b| row_order(key, a, b));
}

/// Compares two rows by key and then by start.
fn row_order(key: &[u32], a: &DraftRef<'_>, b: &DraftRef<'_>) -> Ordering
    ensures { result ≡ row_cmp key.now (lent_draft a.now) (lent_draft b.now) }
{
    key_order(key, *a, *b).then(a.period().from.cmp(&b.period().from))
}

/// Compares two rows by their values in the key's columns.
fn key_order(key: &[u32], a: DraftRef<'_>, b: DraftRef<'_>) -> Ordering
    ensures { result ≡ key_cmp key.now (lent_draft a.entry).values (lent_draft b.entry).values }
{
    for column in key {
        let order = order_in(a, b, *column);
        if order.is_ne() {
            return order;
        }
    }
    Ordering::Equal
}

/// Compares two rows by their values in a column.
fn order_in(a: DraftRef<'_>, b: DraftRef<'_>, column: u32) -> Ordering
    ensures { result ≡ maybe_cmp (slice_get (lent_draft a.entry).values column)
        (slice_get (lent_draft b.entry).values column) }
{
    match (a.value(column as usize), b.value(column as usize)) {
        (None, None) => Ordering::Equal,
        (None, Some(_)) => Ordering::Less,
        (Some(_), None) => Ordering::Greater,
        (Some(one), Some(other)) => one.order(other),
    }
}

/// Returns whether two rows are equal in each of the key's columns and overlap.
pub fn collide(key: &[u32], a: DraftRef<'_>, b: DraftRef<'_>) -> bool
    ensures { result ≡ collide key.now (lent_draft a.entry) (lent_draft b.entry) }
{
    same_key(key, a, b) && a.period().meet(&b.period()).is_some()
}

/// Returns whether the rows' values are equal in each of the key's columns.
pub fn same_key(key: &[u32], a: DraftRef<'_>, b: DraftRef<'_>) -> bool
    ensures { result ≡ same_key key.now (lent_draft a.entry).values (lent_draft b.entry).values }
{
    key_order(key, a, b).is_eq()
}

/// Returns whether some row collides with the next one.
fn neighbours_collide(key: &[u32], rows: &[DraftRef<'_>]) -> bool
    ensures { result ≡ have_neighbours (λ a b. collide key.now (lent_draft a) (lent_draft b))
        rows.now }
{
    for i in 1..rows.len() {
        if collide(key, rows[i - 1], rows[i]) {
            return true;
        }
    }
    false
}
