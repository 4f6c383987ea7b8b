//! The values of a column.

ghost use Rattle.std.specs.Prelude.{◌≡◌, ◌<◌, ◌≤◌, ◌++◌, ◌∷◌, [], length, slice_get, take, IfErr, IfOk, OnErr, OnOk, Ok, Err, Some};
ghost use Rattle.draft_core.specs.Columns.{kind_of_column, values_of_column};
ghost use Rattle.row_core.specs.Lent.{lent_value};
ghost use Rattle.row_core.specs.Refusals.{IsAnswer};
ghost use Rattle.row_core.specs.Value.{kind_of, value_of};
ghost use Rattle.row_core.specs.Limits.{text_limit};
ghost use Rattle.row_core.specs.declared.value.Kind.TheVariants as kind;
ghost use Rattle.row_core.specs.declared.value.Value.{Value as AnyValue};
ghost use Rattle.row_core.specs.declared.value.Value.TheVariants as value;

use crate::NoMemory;
use crate::texts::Texts;
use row_core::{Failure, Kind, Text, Value, ValueRef, ValueRefused, read_number};
use std::alloc::Global;

/// The values of a column, one for each row.
#[derive(Debug, Drop)]
pub(crate) enum ColumnValues {
    Numbers(Vec<i64>),
    Texts(Texts),
}

impl ColumnValues {
    /// Returns an empty column of that kind, with capacity for `count` values. No capacity is reserved for the bytes of
    /// texts.
    pub(crate) fn with_room(alloc: Global, kind: Kind, count: usize) -> Result<Self, NoMemory>
        ensures kind { IfOk result (λ column. kind_of_column column ≡ kind) }
        ensures values { IfOk result (λ column. values_of_column column ≡ []) }
    {
        match kind {
            Kind::Int => Ok(ColumnValues::Numbers(Vec::with_capacity(alloc, count)?)),
            Kind::Text => Ok(ColumnValues::Texts(Texts::with_room(alloc, count)?)),
        }
    }

    /// Returns the kind of the values.
    pub(crate) fn kind(&self) -> Kind
        ensures { result ≡ kind_of_column self.now }
    {
        match self {
            ColumnValues::Numbers(_) => Kind::Int,
            ColumnValues::Texts(_) => Kind::Text,
        }
    }

    /// Returns the value at the given index.
    #[inline(always)]
    pub(crate) fn at(&self, place: usize) -> ValueRef<'_>
        requires { place < length (values_of_column self.now) }
        ensures { slice_get (values_of_column self.now) place ≡ Some (lent_value result) }
    {
        match self {
            ColumnValues::Numbers(numbers) => ValueRef::Int(numbers[place]),
            ColumnValues::Texts(texts) => ValueRef::Text(texts.at(place)),
        }
    }

    /// Returns a copy of the value at the given index.
    pub(crate) fn copy_at(&self, alloc: Global, place: usize) -> Result<Value, NoMemory>
        requires { place < length (values_of_column self.now) }
        ensures { IfOk result (λ value. slice_get (values_of_column self.now) place ≡ Some value) }
    {
        match self {
            ColumnValues::Numbers(numbers) => Ok(Value::Int(numbers[place])),
            ColumnValues::Texts(texts) => Ok(Value::Text(Text::of(alloc, texts.at(place))?)),
        }
    }

    /// Keeps the first `count` values only.
    fn truncate(&mut self, count: usize)
        ensures kind { kind_of_column self.new ≡ kind_of_column self.old }
        ensures values { values_of_column self.new ≡ take count (values_of_column self.old) }
    {
        match self {
            ColumnValues::Numbers(numbers) => numbers.truncate(count),
            ColumnValues::Texts(texts) => texts.truncate(count),
        }
    }

    /// Keeps the first `count` values only, and adds a value of the column's kind. If memory is refused, none is added.
    pub(crate) fn push(&mut self, count: usize, value: &Value) -> Result<(), NoMemory>
        requires { kind_of value.now ≡ kind_of_column self.old }
        ensures kind { kind_of_column self.new ≡ kind_of_column self.old }
        ensures ok { OnOk result
            (values_of_column self.new ≡ take count (values_of_column self.old) ++ value.now ∷ []) }
        ensures err { OnErr result (values_of_column self.new
            ≡ take count (values_of_column self.old)) }
    {
        self.truncate(count);
        match (self, value) {
            (ColumnValues::Numbers(numbers), Value::Int(number)) => numbers.push(*number)?,
            (ColumnValues::Texts(texts), Value::Text(text)) => texts.push(text.as_str())?,
            _ => unreachable!(),
        }
        Ok(())
    }

    /// Keeps the first `count` values only, and adds the value that the bytes denote. On an error none is added.
    pub(crate) fn read(&mut self, count: usize, bytes: &[u8]) -> Result<(), Failure<ValueRefused>>
        ensures kind { kind_of_column self.new ≡ kind_of_column self.old }
        ensures ok { OnOk result ((value : AnyValue)
            × (value_of (kind_of_column self.old) bytes.now ≡ Ok value)
            × (values_of_column self.new ≡ take count (values_of_column self.old) ++ value ∷ [])) }
        ensures err { IfErr result (λ failure. IsAnswer {T = AnyValue}
            (value_of (kind_of_column self.old) bytes.now) (Err failure)) }
        ensures none { OnErr result (values_of_column self.new
            ≡ take count (values_of_column self.old)) }
    {
        self.truncate(count);
        match self {
            ColumnValues::Numbers(numbers) => push_number(numbers, number_of(bytes)?)?,
            ColumnValues::Texts(texts) => texts.push(text_of(bytes)?)?,
        }
        Ok(())
    }

    /// Keeps the first `count` values only, and adds the first `more_count` values of another column of the same kind.
    /// If memory is refused, none is added.
    pub(crate) fn append(
        &mut self,
        count: usize,
        more: ColumnValues,
        more_count: usize,
    ) -> Result<(), NoMemory>
        requires { kind_of_column more ≡ kind_of_column self.old }
        ensures kind { kind_of_column self.new ≡ kind_of_column self.old }
        ensures ok { OnOk result (values_of_column self.new
            ≡ take count (values_of_column self.old) ++ take more_count (values_of_column more)) }
        ensures err { OnErr result (values_of_column self.new
            ≡ take count (values_of_column self.old)) }
    {
        let mut more = more;
        more.truncate(more_count);
        self.truncate(count);
        match (self, more) {
            (ColumnValues::Numbers(numbers), ColumnValues::Numbers(mut more)) => {
                numbers.append(&mut more)?;
            }
            (ColumnValues::Texts(texts), ColumnValues::Texts(more)) => texts.append(&more)?,
            _ => unreachable!(),
        }
        Ok(())
    }

    /// Returns a copy of the column.
    pub(crate) fn copy(&self, alloc: Global) -> Result<ColumnValues, NoMemory>
        ensures kind { IfOk result (λ copy. kind_of_column copy ≡ kind_of_column self.now) }
        ensures values { IfOk result (λ copy. values_of_column copy ≡ values_of_column self.now) }
    {
        match self {
            ColumnValues::Numbers(numbers) => {
                Ok(ColumnValues::Numbers(Vec::from_slice(alloc, numbers)?))
            }
            ColumnValues::Texts(texts) => Ok(ColumnValues::Texts(texts.copy(alloc)?)),
        }
    }
}

/// Adds a number. If memory is refused, the list is unchanged.
fn push_number(numbers: &mut Vec<i64>, number: i64) -> Result<(), NoMemory>
    ensures ok { OnOk result (numbers.new.items ≡ numbers.old.items ++ number ∷ []) }
    ensures err { OnErr result (numbers.new.items ≡ numbers.old.items) }
{
    numbers.push(number)?;
    Ok(())
}

/// Reads a number.
fn number_of(bytes: &[u8]) -> Result<i64, Failure<ValueRefused>>
    ensures ok { IfOk result (λ number. value_of kind.Int bytes.now ≡ Ok (value.Int number)) }
    ensures err { IfErr result (λ failure. IsAnswer {T = AnyValue}
        (value_of kind.Int bytes.now) (Err failure)) }
{
    Ok(read_number(bytes)?)
}

/// Returns the bytes as a text, without copying them.
fn text_of(bytes: &[u8]) -> Result<&str, Failure<ValueRefused>>
    ensures ok { IfOk result (λ text. value_of kind.Text bytes.now ≡ Ok (value.Text text.now)) }
    ensures short { IfOk result (λ text. length text.now ≤ text_limit) }
    ensures err { IfErr result (λ failure. IsAnswer {T = AnyValue}
        (value_of kind.Text bytes.now) (Err failure)) }
{
    Text::checked(bytes).map_err(|refused| Failure::Refused(ValueRefused::from(refused)))
}
