//! How the values of a column are compared.

ghost use Rattle.std.specs.Prelude.{◌≡◌, ◌<◌, ℤ, length};
ghost use Rattle.row_core.specs.Lent.{lent_value};
ghost use Rattle.row_core.specs.declared.value.Kind.{Kind};
ghost use Rattle.row_core.specs.declared.value.Kind.TheVariants as kinds;
ghost use Rattle.row_core.specs.declared.value.Value.{Value};
ghost use Rattle.match_core.specs.Cells.{IsCellAt};
ghost use Rattle.match_core.specs.Compared.{
  Compares,
  IsNumberIn,
  IsTextIn,
  hash_of,
  number_in,
  numbers_compare,
  text_in,
  texts_compare,
};

use crate::cells::Cell;
use crate::classed::Classed;
use crate::side_column::SideColumn;
use crate::side_values::{class_at, value_at};
use row_core::ValueRef;
use std::hash::{FoldHasher, Hasher};

/// A column of one side. Its values are compared by something that is made from them, which is smaller and faster to
/// compare. All values must be of one kind; a value of the other kind gets a meaningless result.
pub(crate) trait Comparable<V: Ord>: Classed {
    // The kind of values that are compared.
    ghost kind: { Kind };

    // The second argument is made from the value.
    ghost IsOf: { Value → V → Type 0 };

    /// Returns the sort key of row `i`.
    fn cell_at(&self, i: usize) -> Cell<V>
        requires { i < length (Self.column self.now) }
        ensures { IsCellAt IsOf (Self.classes self.now) (Self.column self.now) i result };

    // Two values of the kind are equal exactly if the things made from them compare as equal.
    ghost compares: { Compares kind IsOf V.cmp };
}

/// Numbers are compared as they are.
impl Comparable<i64> for SideColumn<'_, '_> {
    ghost kind = { kinds.Int };

    ghost IsOf = { IsNumberIn };

    ghost compares = { numbers_compare };

    fn cell_at(&self, i: usize) -> Cell<i64> {
        Cell {
            class: class_at(*self, i),
            value: number_in(value_at(self.rows, self.place, i)),
            place: i,
        }
    }
}

/// A text with its hash. Different texts mostly have different hashes; if the hashes are equal, the texts are
/// compared.
#[derive(Clone, Copy, PartialEq, Eq, PartialOrd, Ord)]
pub(crate) struct HashedText<'a> {
    hash: u64,
    text: &'a str,
}

impl<'a> Comparable<HashedText<'a>> for SideColumn<'a, '_> {
    ghost kind = { kinds.Text };

    ghost IsOf = { IsTextIn };

    ghost compares = { texts_compare };

    fn cell_at(&self, i: usize) -> Cell<HashedText<'a>> {
        Cell {
            class: class_at(*self, i),
            value: hashed(text_in(value_at(self.rows, self.place, i))),
            place: i,
        }
    }
}

/// Returns the number in a value; 0 for a text.
fn number_in(value: ValueRef<'_>) -> i64
    ensures { result ≡ number_in (lent_value value.entry) }
{
    match value {
        ValueRef::Int(number) => number,
        ValueRef::Text(_) => 0,
    }
}

/// Returns the text in a value; empty for a number.
fn text_in<'a>(value: ValueRef<'a>) -> &'a str
    ensures { result.now ≡ text_in (lent_value value.entry) }
{
    match value {
        ValueRef::Int(_) => "",
        ValueRef::Text(text) => text,
    }
}

/// Returns a text with its hash.
fn hashed<'a>(text: &'a str) -> HashedText<'a>
    ensures hash { result.hash ≡ hash_of text.now }
    ensures text { result.text.now ≡ text.now }
{
    HashedText {
        hash: hash_of(text),
        text,
    }
}

/// Returns a hash of the text.
fn hash_of(text: &str) -> u64
    ensures { result ≡ hash_of text.now }
{
    let mut hasher = FoldHasher::default();
    hasher.write(text.as_bytes());
    hasher.finish()
}
