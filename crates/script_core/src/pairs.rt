//! Reads the values of settings and conditions, and the columns of a join.
ghost use Rattle.std.specs.Prelude.{◌≡◌, IfOk, Ok, MatchResult};
ghost use Rattle.command_core.specs.PairsIn.{name_pairs_in, pairs_in};
ghost use Rattle.script_core.specs.Failure.{IsFailureOf, IsRecordFailure};
ghost use Rattle.script_core.specs.Effects.{pair_read, pairs_or_fault};

use crate::failure::{Failure, failure_at, refused};
use book_core::Pairs;
use command_core::{NamePairs, Refusal, TextPairs};
use period_core::NoMemory;
use row_core::{Name, Schema, Value};
use std::alloc::Global;

/// Returns the value that a text spells in the column of this name.
fn value_named(
    alloc: Global,
    schema: &Schema,
    number: u64,
    name: Name,
    text: &[u8],
) -> Result<Value, Failure>
    ensures { MatchResult result
        (λ value. pair_read schema.now (name, text.now) ≡ Ok (name, value))
        (IsRecordFailure number (pair_read schema.now (name, text.now))) }
{
    let Some(place) = schema.column(name) else {
        return Err(refused(number, Refusal::NoColumn));
    };
    match schema.read_value(alloc, place, text) {
        Ok(value) => Ok(value),
        Err(why) => Err(failure_at(number, why)),
    }
}

/// Returns the values of pairs in a table's columns. `number` is the number of the command that has them.
pub(crate) fn read_pairs(
    alloc: Global,
    schema: &Schema,
    number: u64,
    texts: TextPairs<'_>,
) -> Result<Pairs, Failure>
    ensures { MatchResult result
        (λ pairs. pairs_or_fault number schema.now (pairs_in texts.entry) ≡ Ok pairs)
        (IsFailureOf (pairs_or_fault number schema.now (pairs_in texts.entry))) }
{
    let mut pairs = Pairs::new(alloc);
    for place in 0..texts.len() {
        if let Some(pair) = texts.get(place) {
            let value = value_named(alloc, schema, number, pair.0, pair.1)?;
            pairs.push((pair.0, value))?;
        }
    }
    Ok(pairs)
}

/// Returns the pairs of column names that two tables are compared by.
pub(crate) fn name_pairs(alloc: Global, names: NamePairs<'_>) -> Result<Vec<(Name, Name)>, NoMemory>
    ensures { IfOk result (λ pairs. pairs.items ≡ name_pairs_in names.entry) }
{
    let mut pairs = Vec::new(alloc);
    for place in 0..names.len() {
        if let Some(pair) = names.get(place) {
            pairs.push(pair)?;
        }
    }
    Ok(pairs)
}
