//! Refusals of compared columns.

ghost use Rattle.std.specs.Prelude.{◌≡◌};
ghost use Rattle.row_core.specs.Refusals.{first_of};
ghost use Rattle.row_core.specs.Schema.{kind_in};
ghost use Rattle.row_core.specs.Value.{same_kind};
ghost use Rattle.match_core.specs.Columns.{columns_refusal, tests_of_names};

use row_core::{Kind, Name, Schema};

/// Why a query's columns can't be compared. The tests run in this order; with several pairs of names, all tests of one
/// pair run before the next pair's.
#[derive(Clone, Copy, Debug, PartialEq, Eq)]
pub enum QueryRefused {
    /// The left side has no column with the first name, or the right side has no column with the second.
    NoColumn,
    /// The two columns are of different kinds.
    WrongKind,
}

/// Returns why the left side's rows can't be compared with the right side's by these pairs of a left and a right
/// column name, or `None` if they can. The first refused pair decides.
pub fn refusal_of_pairs(left: &Schema, right: &Schema, on: &[(Name, Name)]) -> Option<QueryRefused>
    ensures { result ≡ columns_refusal left.now right.now on.now }
{
    for pair in on {
        let refused = refusal_of_pair(left, right, pair);
        if refused.is_some() {
            return refused;
        }
    }
    None
}

/// Returns why a pair of names is refused: a column is missing, or the kinds differ.
fn refusal_of_pair(left: &Schema, right: &Schema, pair: &(Name, Name)) -> Option<QueryRefused>
    ensures { result ≡ first_of (tests_of_names left.now right.now pair.now) }
{
    match left.column_kind(pair.0) {
        None => Some(QueryRefused::NoColumn),
        Some(one) => match right.column_kind(pair.1) {
            None => Some(QueryRefused::NoColumn),
            Some(other) => {
                if is_same_kind(one, other) {
                    None
                } else {
                    Some(QueryRefused::WrongKind)
                }
            }
        },
    }
}

fn is_same_kind(one: Kind, other: Kind) -> bool
    ensures { result ≡ same_kind one other }
{
    match one {
        Kind::Int => matches!(other, Kind::Int),
        Kind::Text => matches!(other, Kind::Text),
    }
}
