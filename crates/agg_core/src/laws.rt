//! Laws on aggregates.

ghost use Rattle.agg_core.specs.Agg.{AggHasOneList, AggHasSomeList};
ghost use Rattle.agg_core.specs.AggLots.{LotAggIsOfWhole, LotAggsAreApart, ValuesSendGroupsTogether, WholeAggIsOfLots};
ghost use Rattle.agg_core.specs.AggStandIns.{AggIsOfRanks, AggIsOfStandIns};
ghost use Rattle.agg_core.specs.Slices.{SliceAggIsOfWhole, SliceComesToTheSame, WholeAggIsOfSlices};

/// The rows, the function and the groups' column determine the aggregate: there is exactly one.
pub fn agg_has_one_list()
    ensures exists { AggHasSomeList }
    ensures one { AggHasOneList }
{}

/// Rows can be aggregated in lots, which partition them, if all rows of a group go to the same lot, as they do by any
/// function of the group's value. Then the aggregate of a lot is the rows of the whole aggregate whose group goes to
/// that lot, in the same order. The whole aggregate is the ordered list of the rows of all lots' aggregates, and no
/// row is in two of them. If no column is named, all rows are one group and go to one lot. The law doesn't say whether
/// a program outside sends rows so.
pub fn agg_is_that_of_its_lots()
    ensures lot { LotAggIsOfWhole }
    ensures whole { WholeAggIsOfLots }
    ensures apart { LotAggsAreApart }
    ensures sent { ValuesSendGroupsTogether }
{}

/// Rows can be aggregated by slices of time. Rows that overlap a slice are clipped to it. At each instant of the slice
/// a group's clipped rows have the same value as all its rows, and at other instants none. So the aggregate of the
/// clipped rows is the whole aggregate, clipped to the slice. Conversely, the whole aggregate is the ordered list of
/// the coalesced answers of slices that cover the rows: if one slice's row ends where another's of the same group and
/// value begins, both are one. Slices may overlap. The law doesn't say whether a program outside clips rows and
/// coalesces answers so.
pub fn agg_is_that_of_its_slices()
    ensures instants { SliceComesToTheSame }
    ensures slice { SliceAggIsOfWhole }
    ensures whole { WholeAggIsOfSlices }
{}

/// Rows can be aggregated through rows that stand for them, with the same periods, amounts and groups: both have the
/// same aggregate. Ids and other columns don't matter.
pub fn agg_is_that_of_stand_ins()
    ensures { AggIsOfStandIns }
{}

/// Rows can be aggregated through rows with numbers in place of their groups, if the numbers have the groups' order.
/// They have the same periods and amounts. Their aggregate, with the groups mapped back, is the aggregate of the
/// original rows. The law doesn't say whether a program outside ranks groups so.
pub fn agg_is_that_of_ranks()
    ensures { AggIsOfRanks }
{}
