//! Laws on constant intervals.

ghost use Rattle.std.specs.Prelude.{◌≡◌, List};
ghost use Rattle.dip_core.specs.declared.item.Item.{Item};
ghost use Rattle.round_core.specs.declared.measure.Measure.{Measure as AnyMeasure};
ghost use Rattle.round_core.specs.declared.plateau.Plateau.{Plateau as AnyPlateau};
ghost use Rattle.round_core.specs.Plateaus.{ArePlateaus};

/// Any items have exactly one list of constant intervals by each measure.
pub fn classes_have_one_list()
    ensures exists { (measure : AnyMeasure) (items : List Item)
        → (plateaus : List AnyPlateau) × ArePlateaus measure items plateaus }
    ensures one { (measure : AnyMeasure) (items : List Item) (one other : List AnyPlateau)
        → ArePlateaus measure items one → ArePlateaus measure items other → one ≡ other }
{}
