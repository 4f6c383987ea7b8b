//! Sort keys of the values that rows are grouped by.

ghost use Rattle.std.specs.Prelude.{◌≡◌, ◌<◌, ℕ, List, Some, length, option_map, refl};
ghost use Rattle.row_core.specs.Lent.{lent_value};
ghost use Rattle.row_core.specs.ValueOrder.{value_cmp};
ghost use Rattle.row_core.specs.declared.row.Row.{Row};
ghost use Rattle.row_core.specs.declared.value.Kind.TheVariants as kinds;
ghost use Rattle.row_core.specs.declared.value.Value.{Value};
ghost use Rattle.row_core.specs.declared.value.Value.TheVariants as values;
ghost use Rattle.agg_core.specs.Entries.{HaveValues, row_at, value_at_place};
ghost use Rattle.agg_core.specs.KeyRanges.{group_of_key, in_range};

use row_core::ValueRef;
use table_core::SharedRows;
use work_core::Range;

/// Rows, and the column that they are grouped by. A sort compares keys of its values, which contain as little as the
/// kind needs; no text is copied.
pub(crate) trait GroupColumn<K: Ord>: Copy + Send + Sync {
    // The value of a key.
    ghost value_of: { K → Value };

    // The rows.
    ghost rows: { Self → List Row };

    // The index of the column.
    ghost place: { Self → ℕ };

    /// Returns the rows.
    fn rows(&self) -> &SharedRows
        ensures { result.now ≡ rows self.now };

    /// Returns the index of the column.
    fn place(&self) -> u32
        ensures { result ≡ place self.now };

    /// Returns the key of row `i`'s value.
    fn key_at(&self, i: usize) -> K
        requires { i < length (rows self.now) }
        ensures { value_at_place (Some (place self.now)) (row_at (rows self.now) i)
            ≡ Some (value_of result) };

    /// Returns the value of a key.
    fn value(key: &K) -> ValueRef<'_>
        ensures { lent_value result ≡ value_of key.now };

    // Keys have the order of their values.
    ghost ordered: { (a b : K) → K.cmp a b ≡ value_cmp (value_of a) (value_of b) };
}

/// Rows that are grouped by numbers. A number is its own key.
#[derive(Clone, Copy)]
pub(crate) struct Numbers<'a> {
    pub rows: &'a SharedRows,
    pub place: u32,
    pub ghost are: { HaveValues kinds.Int place rows.now },
}

impl GroupColumn<i64> for Numbers<'_> {
    ghost value_of = { values.Int };

    ghost rows = { λ column. column.rows.now };

    ghost place = { λ column. column.place };

    ghost ordered = { λ a b. refl };

    fn rows(&self) -> &SharedRows {
        self.rows
    }

    fn place(&self) -> u32 {
        self.place
    }

    fn key_at(&self, i: usize) -> i64 {
        number_at(self.rows, self.place, i)
    }

    fn value(key: &i64) -> ValueRef<'_>
        ensures { lent_value result ≡ values.Int key.now }
    {
        ValueRef::Int(*key)
    }
}

/// Rows that are grouped by texts. A text is its own key.
#[derive(Clone, Copy)]
pub(crate) struct Texts<'a> {
    pub rows: &'a SharedRows,
    pub place: u32,
    pub ghost are: { HaveValues kinds.Text place rows.now },
}

impl<'a> GroupColumn<&'a str> for Texts<'a> {
    ghost value_of = { λ text. values.Text text.now };

    ghost rows = { λ column. column.rows.now };

    ghost place = { λ column. column.place };

    ghost ordered = { λ a b. refl };

    fn rows(&self) -> &SharedRows {
        self.rows
    }

    fn place(&self) -> u32 {
        self.place
    }

    fn key_at(&self, i: usize) -> &'a str {
        text_at(self.rows, self.place, i)
    }

    fn value<'k>(key: &'k &'a str) -> ValueRef<'k>
        ensures { lent_value result ≡ values.Text key.now.now }
    {
        ValueRef::Text(*key)
    }
}

/// Returns row `i`'s number in the column at index `place`.
fn number_at(rows: &SharedRows, place: u32, i: usize) -> i64
    requires within { i < length rows.now }
    requires numbers { HaveValues kinds.Int place rows.now }
    ensures { value_at_place (Some place) (row_at rows.now i) ≡ Some (values.Int result) }
{
    match value_at(rows, place, i) {
        Some(ValueRef::Int(number)) => number,
        Some(ValueRef::Text(_)) => unreachable!(),
        None => unreachable!(),
    }
}

/// Returns row `i`'s text in the column at index `place`.
fn text_at<'a>(rows: &'a SharedRows, place: u32, i: usize) -> &'a str
    requires within { i < length rows.now }
    requires texts { HaveValues kinds.Text place rows.now }
    ensures { value_at_place (Some place) (row_at rows.entry.now i)
        ≡ Some (values.Text result.now) }
{
    match value_at(rows, place, i) {
        Some(ValueRef::Text(text)) => text,
        Some(ValueRef::Int(_)) => unreachable!(),
        None => unreachable!(),
    }
}

/// Returns row `i`'s value in the column at index `place`, if it has one.
fn value_at(rows: &SharedRows, place: u32, i: usize) -> Option<ValueRef<'_>>
    requires { i < length rows.now }
    ensures { option_map lent_value result ≡ value_at_place (Some place) (row_at rows.now i) }
{
    rows.at(i).value(place as usize)
}

/// Returns whether the key's value is within the range.
pub(crate) fn has_key<K: Ord, S: GroupColumn<K>>(range: &Range<K>, key: &K) -> bool
    ensures { result ≡ in_range S.value_of range.now (group_of_key S.value_of key.now) }
{
    range.has(key)
}
