//! Borrowed values.

ghost use Rattle.std.specs.Prelude.{◌≡◌, bytes_eq};
ghost use Rattle.row_core.specs.Lent.{lent_value};
ghost use Rattle.row_core.specs.ValueOrder.{same_value, value_cmp};

use crate::text::Text;
use crate::value::Value;
use std::cmp::Ordering;

/// A value of a row, borrowed from its owner.
#[derive(Clone, Copy, Debug)]
pub enum ValueRef<'a> {
    Int(i64),
    Text(&'a str),
}

/// Borrows a value.
impl<'a> From<&'a Value> for ValueRef<'a> {
    ghost use Rattle.std.specs.Prelude.{◌≡◌};
    ghost use Rattle.row_core.specs.Lent.{lent_value};

    ghost from_gives = { λ value lent. lent_value lent ≡ value.now };

    fn from(value: &'a Value) -> ValueRef<'a> {
        match value {
            Value::Int(number) => ValueRef::Int(*number),
            Value::Text(text) => ValueRef::Text(text.as_str()),
        }
    }
}

impl<'a> ValueRef<'a> {
    /// Compares two values: numbers come before texts; numbers are ordered by value, texts by their bytes.
    pub fn order(self, other: ValueRef<'_>) -> Ordering
        ensures { result ≡ value_cmp (lent_value self.entry) (lent_value other.entry) }
    {
        match (self, other) {
            (ValueRef::Int(a), ValueRef::Int(b)) => a.cmp(&b),
            (ValueRef::Int(_), ValueRef::Text(_)) => Ordering::Less,
            (ValueRef::Text(_), ValueRef::Int(_)) => Ordering::Greater,
            (ValueRef::Text(a), ValueRef::Text(b)) => a.as_bytes().cmp(b.as_bytes()),
        }
    }

    /// Returns whether the two are equal; a number never equals a text.
    #[inline(always)]
    pub fn is(self, value: &Value) -> bool
        ensures { result ≡ same_value value.now (lent_value self.entry) }
    {
        match (self, value) {
            (ValueRef::Int(a), Value::Int(b)) => a == *b,
            (ValueRef::Text(a), Value::Text(b)) => is_text(a, b),
            _ => false,
        }
    }
}

/// Returns whether the two texts are equal. A function of its own, so that loops over numbers stay small.
#[inline(never)]
fn is_text(a: &str, b: &Text) -> bool
    ensures { result ≡ bytes_eq b.now a.now }
{
    b.as_bytes() == a.as_bytes()
}
