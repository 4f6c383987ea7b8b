//! Values and their kinds, and the values of a row.

ghost use Rattle.std.specs.Prelude.{◌≡◌, ◌++◌, ◌==◌, [], ◌∷◌, length, IfOk, OnOk, OnErr, slice_get};
ghost use Rattle.std.specs.Option.{option_copied};
ghost use Rattle.std.specs.Result.{result_err};
ghost use Rattle.row_core.specs.Refusals.{IsAnswer};
ghost use Rattle.row_core.specs.Value.{kind_of, same_kind, value_of};
ghost use Rattle.row_core.specs.Values.{values_in};

use crate::NoMemory;
use crate::failure::Failure;
use crate::number::{BadNumber, read_number};
use crate::text::{Text, TextRefused};
use list_core::{DeepCopy, copy_each};
use std::alloc::Global;
use std::fmt;
use std::marker::Model;
use std::sync::Arc;
use thiserror::Error;

/// The kind of a value, and of a column.
#[derive(Clone, Copy, Debug, PartialEq, Eq)]
pub enum Kind {
    Int,
    Text,
}

/// A value. Numbers come before texts; numbers are ordered by value, texts by their bytes.
#[derive(Debug, Drop, PartialEq, Eq, PartialOrd, Ord)]
pub enum Value {
    Int(i64),
    Text(Text),
}

/// Why bytes aren't a value of a kind, in the order of the tests.
#[derive(Clone, Copy, Debug, PartialEq, Eq, Error)]
pub enum ValueRefused {
    /// They aren't the printed form of a 64-bit number.
    #[error("not what is printed of a number of 64 bits")]
    BadNumber,
    /// There are more than 4,096 bytes.
    #[error("more than 4,096 bytes")]
    TooLong,
    /// They aren't UTF-8.
    #[error("not UTF-8")]
    BadUtf8,
}

impl From<BadNumber> for ValueRefused {
    ghost use Rattle.std.specs.Prelude.{◌≡◌};
    ghost use Rattle.row_core.specs.declared.value.ValueRefused.TheVariants as refused;

    ghost from_gives = { λ _ e. e ≡ refused.BadNumber };

    fn from(_error: BadNumber) -> ValueRefused {
        ValueRefused::BadNumber
    }
}

impl From<TextRefused> for ValueRefused {
    ghost use Rattle.std.specs.Prelude.{◌≡◌};
    ghost use Rattle.row_core.specs.Value.{refusal_of_text};

    ghost from_gives = { λ text e. e ≡ refusal_of_text text };

    fn from(error: TextRefused) -> ValueRefused {
        match error {
            TextRefused::TooLong => ValueRefused::TooLong,
            TextRefused::BadUtf8 => ValueRefused::BadUtf8,
        }
    }
}

impl From<BadNumber> for Failure<ValueRefused> {
    ghost use Rattle.std.specs.Prelude.{◌≡◌};
    ghost use Rattle.row_core.specs.declared.failure.Failure.TheVariants as failure;
    ghost use Rattle.row_core.specs.declared.value.ValueRefused.TheVariants as refused;

    ghost from_gives = { λ _ e. e ≡ failure.Refused refused.BadNumber };

    fn from(_error: BadNumber) -> Failure<ValueRefused> {
        Failure::Refused(ValueRefused::BadNumber)
    }
}

impl From<Failure<TextRefused>> for Failure<ValueRefused> {
    ghost use Rattle.std.specs.Prelude.{◌≡◌};
    ghost use Rattle.row_core.specs.Refusals.{map_refused};
    ghost use Rattle.row_core.specs.Value.{refusal_of_text};

    ghost from_gives = { λ text e. e ≡ map_refused refusal_of_text text };

    fn from(failure: Failure<TextRefused>) -> Failure<ValueRefused> {
        match failure {
            Failure::Refused(text) => Failure::Refused(ValueRefused::from(text)),
            Failure::NoMemory => Failure::NoMemory,
        }
    }
}

impl Value {
    /// Reads a value of the kind: the printed form of a number, or a text of at most 4,096 bytes of UTF-8.
    pub fn read(alloc: Global, kind: Kind, bytes: &[u8]) -> Result<Value, Failure<ValueRefused>>
        ensures { IsAnswer (value_of kind bytes.now) result }
    {
        match kind {
            Kind::Int => Ok(Value::Int(read_number(bytes)?)),
            Kind::Text => Ok(Value::Text(Text::new(alloc, bytes)?)),
        }
    }

    /// Checks whether the bytes are a value of the kind, without allocating.
    pub(crate) fn check(kind: Kind, bytes: &[u8]) -> Result<(), ValueRefused>
        ensures { result_err result ≡ result_err (value_of kind bytes.now) }
    {
        match kind {
            Kind::Int => {
                read_number(bytes)?;
            }
            Kind::Text => {
                Text::checked(bytes)?;
            }
        }
        Ok(())
    }

    /// Returns the kind of the value.
    pub fn kind(&self) -> Kind
        ensures { result ≡ kind_of self.now }
    {
        match self {
            Value::Int(_) => Kind::Int,
            Value::Text(_) => Kind::Text,
        }
    }

    /// Returns whether the value is of the kind.
    pub fn is_of(&self, kind: Kind) -> bool
        ensures { result ≡ same_kind kind (kind_of self.now) }
    {
        match self {
            Value::Int(_) => matches!(kind, Kind::Int),
            Value::Text(_) => matches!(kind, Kind::Text),
        }
    }
}

impl DeepCopy for Value {
    fn copy(&self, alloc: Global) -> Result<Value, NoMemory> {
        match self {
            Value::Int(number) => Ok(Value::Int(*number)),
            Value::Text(text) => Ok(Value::Text(text.copy(alloc)?)),
        }
    }
}

/// Values shared by reference counting. One or two values are in one block of memory with the count; no values need no
/// block.
#[derive(Drop)]
pub(crate) enum Shared {
    Nothing,
    One(Arc<[Value; 1]>),
    Two(Arc<[Value; 2]>),
    More(Arc<Vec<Value>>),
}

impl Shared {
    fn new(alloc: Global, items: Vec<Value>) -> Result<Shared, NoMemory>
        ensures { IfOk result (λ shared. values_in shared ≡ items.items) }
    {
        if items.is_empty() {
            return Ok(Shared::Nothing);
        }
        let items = match <[Value; 1]>::try_from(items) {
            Ok(one) => return Ok(Shared::One(Arc::new(alloc, one)?)),
            Err(items) => items,
        };
        let items = match <[Value; 2]>::try_from(items) {
            Ok(two) => return Ok(Shared::Two(Arc::new(alloc, two)?)),
            Err(items) => items,
        };
        Ok(Shared::More(Arc::new(alloc, items)?))
    }

    fn as_slice(&self) -> &[Value]
        ensures { result.now ≡ values_in self.now }
    {
        match self {
            Shared::Nothing => &[],
            Shared::One(one) => one.as_slice(),
            Shared::Two(two) => two.as_slice(),
            Shared::More(items) => items,
        }
    }

    /// Returns another owner.
    fn share(&self) -> Result<Shared, NoMemory>
        ensures { IfOk result (λ shared. values_in shared ≡ values_in self.now) }
    {
        match self {
            Shared::Nothing => Ok(Shared::Nothing),
            Shared::One(one) => Ok(Shared::One(Arc::try_clone(one)?)),
            Shared::Two(two) => Ok(Shared::Two(Arc::try_clone(two)?)),
            Shared::More(items) => Ok(Shared::More(Arc::try_clone(items)?)),
        }
    }
}

/// The values of a row, one for each column. Copies share them, so values are stored once, however often a row is
/// copied.
#[derive(Drop)]
pub struct Values {
    alloc: Global,
    shared: Shared,
}

impl Model for Values {
    ghost use Rattle.std.specs.Prelude.{List};
    ghost use Rattle.row_core.specs.Values.{values_in};
    ghost use Rattle.row_core.specs.declared.value.Value.{Value as AnyValue};

    ghost Value = { List AnyValue };

    ghost view = { λ v. values_in v.shared };
}

impl Values {
    /// Returns the empty list.
    pub fn new(alloc: Global) -> Self
        ensures { result ≡ [] }
    {
        Values {
            alloc,
            shared: Shared::Nothing,
        }
    }

    /// Returns the list of these values.
    pub fn of(alloc: Global, items: Vec<Value>) -> Result<Values, NoMemory>
        ensures { IfOk result (λ values. values ≡ items.items) }
    {
        let shared = Shared::new(alloc, items)?;
        Ok(Values { alloc, shared })
    }

    /// Returns the number of values.
    pub fn len(&self) -> usize
        ensures { result ≡ length self.now }
    {
        self.as_slice().len()
    }

    /// Returns whether the list is empty.
    pub fn is_empty(&self) -> bool
        ensures { result ≡ (length self.now == 0) }
    {
        self.as_slice().is_empty()
    }

    /// Returns the value at index `i`.
    pub fn get(&self, i: usize) -> Option<&Value>
        ensures { option_copied result ≡ slice_get self.now i }
    {
        self.as_slice().get(i)
    }

    /// Returns all values, in order.
    pub fn as_slice(&self) -> &[Value]
        ensures { result.now ≡ self.now }
    {
        self.shared.as_slice()
    }

    /// Adds a value at the end, and copies the values before it to a new block.
    ///
    /// # Errors
    ///
    /// `NoMemory` if an allocation is refused; the list is then unchanged, and the value is dropped.
    pub fn push(&mut self, value: Value) -> Result<(), NoMemory>
        ensures ok { OnOk result (self.new ≡ self.old ++ value ∷ []) }
        ensures err { OnErr result (self.new ≡ self.old) }
    {
        let mut items = copy_each(self.alloc, self.as_slice())?;
        items.push(value)?;
        *self = Values::of(self.alloc, items)?;
        Ok(())
    }
}

/// Formats the values like a list.
impl fmt::Debug for Values {
    fn fmt<W: fmt::Write>(&self, f: &mut fmt::Formatter<W>) -> fmt::Result {
        fmt::Debug::fmt(self.as_slice(), f)
    }
}

impl DeepCopy for Values {
    fn copy(&self, alloc: Global) -> Result<Values, NoMemory> {
        let shared = self.shared.share()?;
        Ok(Values { alloc, shared })
    }
}
