//! Laws on joins.

ghost use Rattle.std.specs.Prelude.{◌≡◌, List};
ghost use Rattle.row_core.specs.declared.row.Row.{Row};
ghost use Rattle.row_core.specs.declared.schema.Column.{Column};
ghost use Rattle.row_core.specs.Name.{NamePair};
ghost use Rattle.match_core.specs.Columns.{MatchesOn};
ghost use Rattle.join_core.specs.declared.rows.JoinRow.{JoinRow};
ghost use Rattle.join_core.specs.Join.{IsJoin};
ghost use Rattle.join_core.specs.JoinLots.{LotJoinIsOfWhole, LotJoinsAreApart, WholeJoinIsOfLots};
ghost use Rattle.join_core.specs.JoinStandIns.{JoinIsOfCodes, JoinIsOfStandIns};

/// The rows of two tables have exactly one join by given columns.
pub fn join_has_one_list()
    ensures exists { (left_columns right_columns : List Column) (on : List NamePair)
        (left right : List Row)
        → (rows : List JoinRow) × IsJoin (MatchesOn left_columns right_columns on) left right rows }
    ensures one { (left_columns right_columns : List Column) (on : List NamePair)
        (left right : List Row)
        (one other : List JoinRow)
        → IsJoin (MatchesOn left_columns right_columns on) left right one
        → IsJoin (MatchesOn left_columns right_columns on) left right other → one ≡ other }
{}

/// Rows can be joined in lots, which partition them: one function sends each left row to a lot, another one each right
/// row, and matching rows go to the same lot. Then the join of all rows is the ordered list of the rows of all lots'
/// joins. If the left rows' ids are ascending, the join of a lot is the rows of the whole join whose left row goes to
/// that lot, in the same order. If they are ascending, no row is in the joins of two lots, whatever the functions are.
/// Rows keep their ids and periods. The law doesn't say whether a program outside sends rows so.
pub fn join_is_that_of_its_lots()
    ensures lot { LotJoinIsOfWhole }
    ensures whole { WholeJoinIsOfLots }
    ensures apart { LotJoinsAreApart }
{}

/// Rows can be joined through rows that stand for them, in a table of their own. These need the same periods, the same
/// compared values, and ids in the same order. Their join, with the ids mapped back, is the join of the original rows.
/// So a run that renumbers the rows of a lot in order answers the lot's join.
pub fn join_is_that_of_stand_ins()
    ensures { JoinIsOfStandIns }
{}

/// Rows can be joined through rows with numbers in place of the compared values, if a left and a right row match
/// exactly if the rows they stand for match. They have the same periods, and ids in the same order. Their join, with
/// the ids mapped back, is the join of the original rows. The law doesn't say whether a program outside numbers values
/// so.
pub fn join_is_that_of_codes()
    ensures { JoinIsOfCodes }
{}
