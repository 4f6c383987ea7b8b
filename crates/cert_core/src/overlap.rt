//! Overlapping items in one part of a claim.

ghost use Rattle.std.specs.Prelude.{◌≡◌, ℕ, ◌<◌, List, length, All, MatchOption, IfOk, OnOk};
ghost use Rattle.std.specs.List.{AllAdjacentBelow};
ghost use Rattle.period_core.specs.Period.{Overlap};
ghost use Rattle.dip_core.specs.Item.{IdsRise};
ghost use Rattle.cert_core.specs.Claim.{ids_of};
ghost use Rattle.cert_core.specs.Ids.{IsDistinct};
ghost use Rattle.cert_core.specs.Places.{ArePlaces, AreNamed, IsFirstPair};
ghost use Rattle.cert_core.specs.Verdict.{HasNoOverlap, IsFirstOverlap, IsOverlap};

use crate::{Claim, NoMemory};
use dip_core::Item;
use std::alloc::Global;

// Replaces `taken` by the items at the given indices.
fn take_items(items: &[Item], places: &[usize], taken: &mut Vec<Item>) -> Result<(), NoMemory>
    requires { All (λ p. p < length items.now) places.now }
    ensures { OnOk result ((ids : List ℕ) → ArePlaces items.now ids places.now
        → AreNamed items.now ids taken.new.items) }
{
    taken.clear();
    for place in places {
        taken.push(items[*place])?;
    }
    Ok(())
}

// Returns the ids of the first two neighbours that overlap, or `None`.
fn first_pair(items: &[Item]) -> Option<(u64, u64)>
    ensures { MatchOption result
        (AllAdjacentBelow (λ x y. Overlap x.period y.period → ⊥) items.now (length items.now))
        (λ p. IsFirstPair items.now p.0 p.1) }
{
    for next in 1..items.len() {
        let (before, item) = (&items[next - 1], &items[next]);
        if before.period.overlaps(item.period) {
            return Some((before.id, item.id));
        }
    }
    None
}

// Returns the first overlap of a part. `places` are the indices of its items.
fn overlap_of(
    items: &[Item],
    places: &[usize],
    taken: &mut Vec<Item>,
) -> Result<Option<(u64, u64)>, NoMemory>
    requires rise { IdsRise items.now }
    requires within { All (λ p. p < length items.now) places.now }
    ensures { IfOk result (λ overlap. (part : List ℕ) → ArePlaces items.now part places.now
        → IsDistinct part
        → MatchOption overlap (HasNoOverlap items.now part)
        (λ p. IsFirstOverlap items.now part p.0 p.1)) }
{
    take_items(items, places, taken)?;
    taken.sort_unstable();
    Ok(first_pair(taken))
}

// Returns the first overlap in the first part that has one. `places` are the indices of the items for all ids of the
// claim.
pub(crate) fn first_overlap(
    alloc: Global,
    items: &[Item],
    claim: &Claim,
    places: &[usize],
) -> Result<Option<(u64, u64)>, NoMemory>
    requires rise { IdsRise items.now }
    requires places { ArePlaces items.now (ids_of claim.now) places.now }
    requires distinct { IsDistinct (ids_of claim.now) }
    ensures { IfOk result (λ overlap. MatchOption overlap (All (HasNoOverlap items.now) claim.now)
        (λ p. IsOverlap items.now claim.now p.0 p.1)) }
{
    let mut taken = Vec::new(alloc);
    let mut start = 0;
    for number in 0..claim.len() {
        let end = start + claim.part(number).len();
        if let Some(pair) = overlap_of(items, &places[start..end], &mut taken)? {
            return Ok(Some(pair));
        }
        start = end;
    }
    Ok(None)
}
