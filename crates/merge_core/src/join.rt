//! The hits of two parts.

ghost use Rattle.std.specs.Prelude.{◌≡◌, ◌++◌, [], ◌∷◌, IfOk, IsOk, OnOk, OnErr};
ghost use Rattle.std.specs.Option.{option_to_list};
ghost use Rattle.list_core.specs.Wanted.{IsListOf, AddsAll};
ghost use Rattle.merge_core.specs.declared.hit.Hit.{Hit};
ghost use Rattle.merge_core.specs.Hits.{IsHit, HitStartsBefore, AddsHits, AreAdvances, PassesFirst};
ghost use Rattle.merge_core.specs.Advances.{advances_of};

use crate::ends::ends_first;
use crate::{Cursor, FromHit, Hit};
use dip_core::Item;
use period_core::NoMemory;

/// Returns the hit of two items, or `None` if they have none.
fn hit_of(x: &Item, y: &Item) -> Option<Hit>
    ensures { IsListOf HitStartsBefore (IsHit (x.now ∷ []) (y.now ∷ [])) (option_to_list result) }
{
    if x.class != y.class {
        return None;
    }
    let period = x.period.meet(&y.period)?;
    Some(Hit {
        left: *x,
        right: *y,
        period,
    })
}

/// Appends a value made from a hit. The first value reserves capacity only for itself, since most pairs of parts have
/// at most one hit.
fn add_made<T: Drop>(made: T, found: &mut Vec<T>) -> Result<(), NoMemory>
    ensures ok { OnOk result (found.new.items ≡ found.old.items ++ made ∷ []) }
    ensures err { OnErr result (found.new.items ≡ found.old.items) }
{
    if found.is_empty() {
        found.reserve_exact(1)?;
    }
    found.push(made)?;
    Ok(())
}

/// Appends the value for the hit of two items, if they have one. Without a hit it allocates nothing.
fn push_hit<T: FromHit>(x: &Item, y: &Item, found: &mut Vec<T>) -> Result<(), NoMemory>
    ensures ok { OnOk result
        (AddsHits T.from_hit (x.now ∷ []) (y.now ∷ []) found.old.items found.new.items) }
    ensures err { OnErr result (found.new.items ≡ found.old.items) }
    ensures hit { OnErr result ((hit : Hit) × IsHit (x.now ∷ []) (y.now ∷ []) hit) }
{
    if let Some(hit) = hit_of(x, y) {
        add_made(T::from_hit(hit), found)?;
    }
    Ok(())
}

/// Passes the item that ends first, or the left one if both end together. A branch is faster here than advancing by a
/// computed number: a wrong guess costs less than loading the next item only after the comparison.
fn pass_first(x: &Item, y: &Item, left: &mut Cursor, right: &mut Cursor)
    ensures { PassesFirst x.now y.now left.old right.old left.new right.new }
{
    if ends_first(&x.period, &y.period) {
        left.advance();
    } else {
        right.advance();
    }
}

/// Adds the hits of two parts in ascending order of start. Returns how often a cursor advanced: once for each left
/// item that ends at or before the end of some right item, and once for each right item that ends before the end of
/// some left item.
///
/// # Errors
///
/// `NoMemory` if the list can't grow; then it is unchanged. Parts without a hit need no memory.
pub fn merge_join(left: Cursor, right: Cursor, hits: &mut Vec<Hit>) -> Result<u64, NoMemory>
    ensures hits { OnOk result
        (AddsAll HitStartsBefore (IsHit left.entry right.entry) hits.old.items hits.new.items) }
    ensures advances { IfOk result (AreAdvances left.entry right.entry) }
    ensures exact { IfOk result (λ n. n ≡ advances_of left.entry right.entry) }
    ensures unchanged { OnErr result (hits.new.items ≡ hits.old.items) }
    ensures no_hit { ((hit : Hit) → IsHit left.entry right.entry hit → ⊥) → IsOk result }
{
    merge_join_into(left, right, hits)
}

/// Adds the value for each hit of two parts. Order, result and errors are the same as for `merge_join`.
///
/// # Errors
///
/// See `merge_join`.
pub fn merge_join_into<T: FromHit>(
    mut left: Cursor,
    mut right: Cursor,
    found: &mut Vec<T>,
) -> Result<u64, NoMemory>
    ensures found { OnOk result
        (AddsHits T.from_hit left.entry right.entry found.old.items found.new.items) }
    ensures advances { IfOk result (AreAdvances left.entry right.entry) }
    ensures exact { IfOk result (λ n. n ≡ advances_of left.entry right.entry) }
    ensures unchanged { OnErr result (found.new.items ≡ found.old.items) }
    ensures no_hit { ((hit : Hit) → IsHit left.entry right.entry hit → ⊥) → IsOk result }
{
    let before = found.len();
    let most = left.len() as u64 + right.len() as u64;
    let mut advances = 0u64;
    while let Some(x) = left.peek() {
        let Some(y) = right.peek() else {
            break;
        };
        if let Err(refused) = push_hit(&x, &y, found) {
            found.truncate(before);
            return Err(refused);
        }
        pass_first(&x, &y, &mut left, &mut right);
        prove!(advances < most);
        advances += 1;
    }
    Ok(advances)
}
