//! Laws on gaps.

ghost use Rattle.std.specs.Prelude.{◌≡◌, List};
ghost use Rattle.dip_core.specs.declared.item.Item.{Item};
ghost use Rattle.dip_core.specs.Item.{IsChain};
ghost use Rattle.merge_core.specs.declared.gap.Gap.{Gap};
ghost use Rattle.merge_core.specs.Gaps.{ListsGaps};

/// Two parts have exactly one list of gaps.
pub fn parts_have_one_list_of_gaps()
    ensures exists { (left right : List Item) → IsChain left → IsChain right
        → (gaps : List Gap) × ListsGaps left right gaps }
    ensures one { (left right : List Item) (one other : List Gap)
        → ListsGaps left right one → ListsGaps left right other → one ≡ other }
{}
