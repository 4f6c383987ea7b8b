//! Laws on anti-joins.

ghost use Rattle.std.specs.Prelude.{◌≡◌, ◌↔◌, List};
ghost use Rattle.period_core.specs.declared.period.Period.{Period};
ghost use Rattle.row_core.specs.declared.row.Row.{Row};
ghost use Rattle.row_core.specs.declared.schema.Column.{Column};
ghost use Rattle.row_core.specs.Name.{NamePair};
ghost use Rattle.match_core.specs.Columns.{MatchesOn};
ghost use Rattle.merge_core.specs.Gaps.{IsMaximal};
ghost use Rattle.anti_core.specs.declared.rows.AntiRow.{AntiRow};
ghost use Rattle.anti_core.specs.Anti.{IsAnti, IsBordered, IsUnmet};
ghost use Rattle.anti_core.specs.AntiLots.{LotAntiIsOfWhole, LotAntisAreApart, WholeAntiIsOfLots};
ghost use Rattle.anti_core.specs.AntiStandIns.{AntiIsOfCodes, AntiIsOfStandIns};

/// Any rows of two tables have exactly one anti-join by the same columns.
pub fn anti_has_one_list()
    ensures exists { (left_columns right_columns : List Column) (on : List NamePair)
        (left right : List Row)
        → (rows : List AntiRow) × IsAnti (MatchesOn left_columns right_columns on) left right rows }
    ensures one { (left_columns right_columns : List Column) (on : List NamePair)
        (left right : List Row)
        (one other : List AntiRow)
        → IsAnti (MatchesOn left_columns right_columns on) left right one
        → IsAnti (MatchesOn left_columns right_columns on) left right other → one ≡ other }
{}

/// The periods of a left row in its anti-join are exactly these: periods within the row's own without an instant that
/// a matching right row holds, each end of which borders on such an instant or is an end of the row's period.
pub fn unmet_periods_are_bordered()
    ensures { (left_columns right_columns : List Column) (on : List NamePair) (right : List Row)
        (x : Row) (p : Period)
        → IsMaximal (IsUnmet (MatchesOn left_columns right_columns on) right x) p
        ↔ IsBordered (MatchesOn left_columns right_columns on) right x p }
{}

/// Rows can be anti-joined in lots, which partition them: one function sends each left row to a lot, another one each
/// right row, and matching rows go to the same lot. Then the anti-join of all rows is the ordered list of the rows of
/// all lots' anti-joins. If the left rows' ids are ascending, the anti-join of a lot is the rows of the whole
/// anti-join whose left row goes to that lot, in the same order. If they are ascending, no row is in the anti-joins of
/// two lots, whatever the functions are. A lot with left rows and no right rows also has an anti-join, and leaving it
/// out would lose rows. Rows keep their ids and periods. The law doesn't say whether a program outside sends rows so.
pub fn anti_is_that_of_its_lots()
    ensures lot { LotAntiIsOfWhole }
    ensures whole { WholeAntiIsOfLots }
    ensures apart { LotAntisAreApart }
{}

/// Rows can be anti-joined through rows that stand for them, in a table of their own. These need the same periods, the
/// same compared values, and ids in the same order. Their anti-join, with the ids mapped back, is the anti-join of the
/// original rows. So a run that renumbers the rows of a lot in order answers the lot's anti-join.
pub fn anti_is_that_of_stand_ins()
    ensures { AntiIsOfStandIns }
{}

/// Rows can be anti-joined through rows with numbers in place of the compared values, if a left and a right row match
/// exactly if the rows they stand for match. They have the same periods, and ids in the same order. Their anti-join,
/// with the ids mapped back, is the anti-join of the original rows. The law doesn't say whether a program outside
/// numbers values so.
pub fn anti_is_that_of_codes()
    ensures { AntiIsOfCodes }
{}
