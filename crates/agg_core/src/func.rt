//! What an aggregate measures, in what column, and why it is refused.

ghost use Rattle.std.specs.Prelude.{◌≡◌};
ghost use Rattle.row_core.specs.Refusals.{first_of};
ghost use Rattle.agg_core.specs.Agg.{agg_refusal, group_tests, measure_of, number_column, number_tests};

use match_core::QueryRefused;
use round_core::Measure;
use row_core::{Func, Kind, Name, Schema};

/// The measure of an aggregate, and the index of the column with its numbers, if it needs one.
#[derive(Clone, Copy)]
pub(crate) struct Asked {
    pub measure: Measure,
    pub amount: Option<u32>,
}

/// Returns the measure of a function.
pub(crate) fn measure_of(func: &Func) -> Measure
    ensures { result ≡ measure_of func.now }
{
    match func {
        Func::Count => Measure::Count,
        Func::Sum(_) => Measure::Sum,
        Func::Min(_) => Measure::Min,
        Func::Max(_) => Measure::Max,
    }
}

/// Returns the column with the function's numbers.
pub(crate) fn number_column(func: &Func) -> Option<Name>
    ensures { result ≡ number_column func.now }
{
    match func {
        Func::Count => None,
        Func::Sum(name) => Some(*name),
        Func::Min(name) => Some(*name),
        Func::Max(name) => Some(*name),
    }
}

/// Returns the first refusal: of the function's column, then of the groups' column.
pub(crate) fn agg_refusal(
    schema: &Schema,
    func: &Func,
    group: &Option<Name>,
) -> Option<QueryRefused>
    ensures { result ≡ agg_refusal schema.now func.now group.now }
{
    match number_refusal(schema, number_column(func)) {
        Some(refused) => Some(refused),
        None => group_refusal(schema, *group),
    }
}

/// Returns why a column has no numbers, if one is named.
fn number_refusal(schema: &Schema, name: Option<Name>) -> Option<QueryRefused>
    ensures { result ≡ first_of (number_tests schema.now name) }
{
    match name {
        None => None,
        Some(name) => match schema.column_kind(name) {
            None => Some(QueryRefused::NoColumn),
            Some(Kind::Int) => None,
            Some(Kind::Text) => Some(QueryRefused::WrongKind),
        },
    }
}

/// Returns why rows can't be grouped by a column, if one is named.
fn group_refusal(schema: &Schema, name: Option<Name>) -> Option<QueryRefused>
    ensures { result ≡ first_of (group_tests schema.now name) }
{
    match name {
        None => None,
        Some(name) => match schema.column_kind(name) {
            None => Some(QueryRefused::NoColumn),
            Some(_) => None,
        },
    }
}
