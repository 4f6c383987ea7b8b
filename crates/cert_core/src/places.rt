//! Items by id.

ghost use Rattle.std.specs.Prelude.{◌≡◌, ◌≢◌, ℕ, ◌<◌, [], length, vec_len, MatchOption, IfOk, IfSome};
ghost use Rattle.dip_core.specs.Item.{IdsRise};
ghost use Rattle.cert_core.specs.Places.{id_at, ArePlaces};
ghost use Rattle.cert_core.specs.Verdict.{IsUnknown};

use crate::NoMemory;
use dip_core::Item;

// Returns the index of the item with the id.
fn place_of(items: &[Item], id: u64) -> Option<usize>
    requires { IdsRise items.now }
    ensures { MatchOption result ((p : ℕ) → p < length items.now → id_at items.now p ≢ id)
        (λ p. (p < length items.now) × (id_at items.now p ≡ id)) }
{
    if let Some(place) = place_by_count(items, id) {
        return Some(place);
    }
    items.binary_search_by_key(&id, |item| item.id).ok()
}

// Returns the index of the item with the id, if the ids from the first item to that one have no gap, as is often so.
fn place_by_count(items: &[Item], id: u64) -> Option<usize>
    ensures { IfSome result (λ p. (p < length items.now) × (id_at items.now p ≡ id)) }
{
    let first = items.first()?;
    let place = id.checked_sub(first.id)? as usize;
    let item = items.get(place)?;
    if item.id == id { Some(place) } else { None }
}

// Finds the index of the item for each id. Returns the first id that no item has, or `None`.
pub(crate) fn find_places(
    items: &[Item],
    ids: &[u64],
    places: &mut Vec<usize>,
) -> Result<Option<u64>, NoMemory>
    requires rise { IdsRise items.now }
    requires empty { places.old.items ≡ [] }
    ensures { IfOk result
        (λ unknown. MatchOption unknown (ArePlaces items.now ids.now places.new.items)
        (IsUnknown items.now ids.now)) }
{
    for id in ids {
        let Some(place) = place_of(items, *id) else {
            return Ok(Some(*id));
        };
        places.push(place)?;
    }
    Ok(None)
}
