//! Laws on matching rows.

ghost use Rattle.match_core.specs.Lots.{RowsMatchByValues, ValuesSendTogether};

/// Two rows match exactly if their lists of values in the compared columns are equal. So if rows of both sides are
/// partitioned into lots by a function of these values, such as a hash, matching rows go to the same lot. Laws such as
/// `join_is_that_of_its_lots` require that. The law doesn't say how a program computes the function.
pub fn matching_rows_have_equal_values()
    ensures values { RowsMatchByValues }
    ensures sent { ValuesSendTogether }
{}
