//! Rows and values, read from a record's fields.

ghost use Rattle.std.specs.Prelude.{◌≡◌, ◌≤◌, ◌+◌, List, drop, length, Err, IfErr, IfOk, Ok};
ghost use Rattle.std.specs.Result.{result_err};
ghost use Rattle.row_core.specs.Refusals.{IsAnswer, Reads};
ghost use Rattle.row_core.specs.declared.draft.Draft.{Draft as AnyDraft};
ghost use Rattle.row_core.specs.declared.value.Value.{Value as AnyValue};
ghost use Rattle.row_core.specs.Reading.{period_of, row_of, values_of};

use crate::NoMemory;
use crate::draft::Draft;
use crate::failure::Failure;
use crate::fields::Fields;
use crate::schema::{Column, Schema};
use crate::value::{Value, ValueRefused, Values};
use period_core::{BadPeriod, BadPoint, Period, Point};
use std::alloc::Global;
use std::convert::AsSlice;
use std::error::Error;
use std::fmt;
use std::marker::Model;

/// The bytes of a record's field.
#[derive(Debug, Drop)]
pub struct Field {
    bytes: Vec<u8>,
}

impl Model for Field {
    ghost use Rattle.std.specs.Prelude.{ℕ, List};

    ghost Value = { List ℕ };

    ghost view = { λ f. f.bytes.items };
}

impl Field {
    /// Returns a field with a copy of the bytes.
    pub fn new(alloc: Global, bytes: &[u8]) -> Result<Field, NoMemory>
        ensures { IfOk result (λ field. field ≡ bytes.now) }
    {
        Ok(Field {
            bytes: Vec::from_slice(alloc, bytes)?,
        })
    }
}

impl AsSlice<u8> for Field {
    ghost items = { λ field. field };

    fn as_slice(&self) -> &[u8] {
        &self.bytes
    }
}

/// Why a record's fields aren't a row, in the order of the tests. Values are tested from left to right.
#[derive(Clone, Copy, Debug, PartialEq, Eq)]
pub enum RowRefused {
    /// The number of fields isn't the number of columns plus two.
    WrongWidth,
    /// The first or the second field isn't a point.
    BadPoint,
    /// The first point is not before the second.
    BadPeriod,
    /// The field of a number column isn't the printed form of a 64-bit number.
    BadNumber,
    /// The field of a text column has more than 4,096 bytes.
    TooLong,
    /// The field of a text column isn't UTF-8.
    BadUtf8,
}

// Written by hand with one call for all variants; a derive makes a call for each, and the proof is twice as long.
impl fmt::Display for RowRefused {
    fn fmt<W: fmt::Write>(&self, f: &mut fmt::Formatter<W>) -> fmt::Result {
        f.write_str(match self {
            RowRefused::WrongWidth => "not two fields more than columns",
            RowRefused::BadPoint => "the first or the second field is no point",
            RowRefused::BadPeriod => "the first point is not before the second",
            RowRefused::BadNumber => {
                "the field of a number column is not what is printed of a number of 64 bits"
            }
            RowRefused::TooLong => "the field of a text column has more than 4,096 bytes",
            RowRefused::BadUtf8 => "the field of a text column is not UTF-8",
        })
    }
}

impl Error for RowRefused {}

impl From<BadPoint> for RowRefused {
    ghost use Rattle.std.specs.Prelude.{◌≡◌};
    ghost use Rattle.row_core.specs.declared.reading.RowRefused.TheVariants as refused;

    ghost from_gives = { λ _ e. e ≡ refused.BadPoint };

    fn from(_error: BadPoint) -> RowRefused {
        RowRefused::BadPoint
    }
}

impl From<BadPeriod> for RowRefused {
    ghost use Rattle.std.specs.Prelude.{◌≡◌};
    ghost use Rattle.row_core.specs.declared.reading.RowRefused.TheVariants as refused;

    ghost from_gives = { λ _ e. e ≡ refused.BadPeriod };

    fn from(_error: BadPeriod) -> RowRefused {
        RowRefused::BadPeriod
    }
}

impl From<ValueRefused> for RowRefused {
    ghost use Rattle.std.specs.Prelude.{◌≡◌};
    ghost use Rattle.row_core.specs.Reading.{refusal_of_value};

    ghost from_gives = { λ value e. e ≡ refusal_of_value value };

    fn from(error: ValueRefused) -> RowRefused {
        match error {
            ValueRefused::BadNumber => RowRefused::BadNumber,
            ValueRefused::TooLong => RowRefused::TooLong,
            ValueRefused::BadUtf8 => RowRefused::BadUtf8,
        }
    }
}

impl From<Failure<ValueRefused>> for Failure<RowRefused> {
    ghost use Rattle.std.specs.Prelude.{◌≡◌};
    ghost use Rattle.row_core.specs.Reading.{refusal_of_value};
    ghost use Rattle.row_core.specs.Refusals.{map_refused};

    ghost from_gives = { λ value e. e ≡ map_refused refusal_of_value value };

    fn from(failure: Failure<ValueRefused>) -> Failure<RowRefused> {
        match failure {
            Failure::Refused(value) => Failure::Refused(RowRefused::from(value)),
            Failure::NoMemory => Failure::NoMemory,
        }
    }
}

impl Schema {
    /// Returns the row of the fields: two points, and one field for each column. The answer is `NoMemory` only if no
    /// field is refused.
    pub fn read_row<L: Fields>(
        &self,
        alloc: Global,
        fields: L,
    ) -> Result<Draft, Failure<RowRefused>>
        ensures { IsAnswer (row_of self.now (L.fields fields)) result }
    {
        match read_row(alloc, self.as_slice(), fields) {
            Err(Failure::NoMemory) => {
                self.check_row(fields).map_err(Failure::Refused)?;
                Err(Failure::NoMemory)
            }
            answer => answer,
        }
    }

    /// Checks the fields as `read_row` does, without allocating.
    pub fn check_row<L: Fields>(&self, fields: L) -> Result<(), RowRefused>
        ensures { result_err result ≡ result_err (row_of self.now (L.fields fields)) }
    {
        check_row(self.as_slice(), fields)
    }
}

/// Returns the row of the fields, or the first refusal on the way: a field's, or memory's.
fn read_row<L: Fields>(
    alloc: Global,
    columns: &[Column],
    fields: L,
) -> Result<Draft, Failure<RowRefused>>
    ensures { Reads {T = AnyDraft} (λ row. row) (row_of columns.now (L.fields fields)) result }
{
    if fields.count() != columns.len() + 2 {
        return Err(Failure::Refused(RowRefused::WrongWidth));
    }
    let period = read_period(fields.field(0), fields.field(1)).map_err(Failure::Refused)?;
    let values = read_values(alloc, columns, fields)?;
    let values = Values::of(alloc, values)?;
    Ok(Draft { period, values })
}

/// Checks whether the fields are a row of these columns.
fn check_row<L: Fields>(columns: &[Column], fields: L) -> Result<(), RowRefused>
    ensures { result_err result ≡ result_err (row_of columns.now (L.fields fields)) }
{
    if fields.count() != columns.len() + 2 {
        return Err(RowRefused::WrongWidth);
    }
    read_period(fields.field(0), fields.field(1))?;
    check_values(columns, fields)
}

/// Returns the period between two points.
pub fn read_period(from: &[u8], to: &[u8]) -> Result<Period, RowRefused>
    ensures { result ≡ period_of from.now to.now }
{
    let from = Point::parse(from)?;
    let to = Point::parse(to)?;
    Ok(Period::new(from, to)?)
}

/// Checks whether each field after the two points is a value of its column.
fn check_values<L: Fields>(columns: &[Column], fields: L) -> Result<(), RowRefused>
    requires { length columns.now + 2 ≤ length (L.fields fields) }
    ensures { result_err result ≡ result_err (values_of columns.now (drop 2 (L.fields fields))) }
{
    for i in 0..columns.len() {
        Value::check(columns[i].kind, fields.field(i + 2))?;
    }
    Ok(())
}

/// Returns the values of the fields after the two points.
fn read_values<L: Fields>(
    alloc: Global,
    columns: &[Column],
    fields: L,
) -> Result<Vec<Value>, Failure<RowRefused>>
    requires { length columns.now + 2 ≤ length (L.fields fields) }
    ensures ok { IfOk result
        (λ values. values_of columns.now (drop 2 (L.fields fields)) ≡ Ok values.items) }
    ensures err { IfErr result (λ failure. Reads {T = List AnyValue} (λ read. read)
        (values_of columns.now (drop 2 (L.fields fields))) (Err failure)) }
{
    let mut values = Vec::with_capacity(alloc, columns.len())?;
    for i in 0..columns.len() {
        values.push(Value::read(alloc, columns[i].kind, fields.field(i + 2))?)?;
    }
    Ok(values)
}
