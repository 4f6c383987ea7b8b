//! Laws on least divisions.

ghost use Rattle.std.specs.Prelude.{◌≡◌, ℤ, List, [], Option};
ghost use Rattle.dip_core.specs.declared.item.Item.{Item};
ghost use Rattle.dip_core.specs.Item.{IdsRise, HasDistinctIds};
ghost use Rattle.dip_core.specs.Division.{CrowdedDivisionIsLeast, IsDip, IsDivision, IsInstantOf, IsLeast, IsLeastDivision, PlacedDivisionIsLeast, PlacedDivisionIsUnique};

/// A division is least if its number of parts equals the overlap count at some instant: no division of its items has
/// fewer. An empty list needs no part.
pub fn crowded_division_is_least()
    ensures crowded { CrowdedDivisionIsLeast }
    ensures none { IsLeast [] 0 }
{}

/// Ascending ids are distinct, so `create_dip` makes a placed division of such items.
pub fn rising_ids_are_distinct()
    ensures { (items : List Item) → IdsRise items → HasDistinctIds items }
{}

/// Items have at most one placed division whose parts are in ascending order, whatever the ids are. If the ids are
/// distinct, it is least.
pub fn placed_division_is_unique()
    ensures one { PlacedDivisionIsUnique }
    ensures least { PlacedDivisionIsLeast }
{}

/// Items with distinct ids have exactly one dip.
pub fn items_have_one_dip()
    ensures exists { (items : List Item) → HasDistinctIds items → (parts : List (List Item))
        × IsDip items parts }
    ensures one { (items : List Item) (one other : List (List Item))
        → IsDip items one → IsDip items other → one ≡ other }
{}

/// A least division has exactly one instant.
pub fn division_has_one_instant()
    ensures exists { (items : List Item) (parts : List (List Item)) → IsLeastDivision items parts
        → (instant : Option ℤ) × IsInstantOf parts instant }
    ensures one { (parts : List (List Item)) (one other : Option ℤ) → IsInstantOf parts one
        → IsInstantOf parts other → one ≡ other }
{}
