//! Makes the text of records field by field, as `csv` writes them: numbers and points without quotes, other fields in
//! quotes if they need them.
ghost use Rattle.std.specs.Prelude.{◌≡◌, ◌∷◌, ◌++◌, [], OnOk, decimal, false, map, true};
ghost use Rattle.std.specs.Fmt.{signed_decimal};
ghost use Rattle.std.specs.Option.{option_map_or};
ghost use Rattle.csv.specs.Writing.{escaped, fields_text, needs_byte, needs_quotes};
ghost use Rattle.period_core.specs.Point.{point_text};
ghost use Rattle.row_core.specs.Lent.{lent_value};
ghost use Rattle.table_core.specs.Lent.{lent_row};
ghost use Rattle.answer_core.specs.PrintedRecords.{value_text};
ghost use Rattle.answer_core.specs.RecordBytes.{answer_writer, field_behind};

use crate::kept_text::KeptText;
use itoa::Buffer;
use period_core::{NoMemory, Period, Point};
use row_core::{Value, ValueRef};
use std::alloc::Global;
use std::marker::Model;
use table_core::RowRef;

/// The text of consecutive records, the last of which may be unfinished. Contracts see its bytes.
#[derive(Drop)]
pub(crate) struct RecordText {
    bytes: Vec<u8>,
    /// Caches of the text of the last start and of the last end.
    from: KeptText,
    to: KeptText,
}

impl Model for RecordText {
    ghost use Rattle.std.specs.Prelude.{ℕ, List};

    ghost Value = { List ℕ };

    ghost view = { λ t. t.bytes.items };
}

impl RecordText {
    /// Returns a text without records.
    pub(crate) fn new(alloc: Global) -> Self
        ensures { result ≡ [] }
    {
        RecordText {
            bytes: Vec::new(alloc),
            from: KeptText::new(alloc),
            to: KeptText::new(alloc),
        }
    }

    /// Returns the bytes.
    pub(crate) fn as_bytes(&self) -> &[u8]
        ensures { result.now ≡ self.now }
    {
        &self.bytes
    }

    /// Returns the bytes, and ends the text.
    pub(crate) fn into_bytes(self) -> Vec<u8>
        ensures { result.items ≡ self }
    {
        self.bytes
    }

    /// Removes all records, and keeps the capacity.
    pub(crate) fn clear(&mut self)
        ensures { self.new ≡ [] }
    {
        self.bytes.clear();
    }

    /// Begins a record with a first field, which must not need quotes.
    pub(crate) fn begin(&mut self, word: &[u8]) -> Result<(), NoMemory>
        ensures { OnOk result (self.new ≡ self.old ++ word.now) }
    {
        self.bytes.extend_from_slice(word)
    }

    /// Ends the record.
    pub(crate) fn end(&mut self) -> Result<(), NoMemory>
        ensures { OnOk result (self.new ≡ self.old ++ 10 ∷ []) }
    {
        self.bytes.extend_from_slice(b"\n")
    }

    /// Appends a field.
    pub(crate) fn field(&mut self, field: &[u8]) -> Result<(), NoMemory>
        ensures { OnOk result (self.new ≡ self.old ++ field_behind field.now) }
    {
        push_field(&mut self.bytes, field)
    }

    /// Appends a number.
    pub(crate) fn number(&mut self, number: u64) -> Result<(), NoMemory>
        ensures { OnOk result (self.new ≡ self.old ++ field_behind (decimal number)) }
    {
        let mut digits = Buffer::new();
        push_plain(&mut self.bytes, digits.format(number).as_bytes())
    }

    /// Appends a signed number of up to 128 bits.
    pub(crate) fn wide(&mut self, number: i128) -> Result<(), NoMemory>
        ensures { OnOk result (self.new ≡ self.old ++ field_behind (signed_decimal number)) }
    {
        let mut digits = Buffer::new();
        push_field(&mut self.bytes, digits.format(number).as_bytes())
    }

    /// Appends a point.
    pub(crate) fn point(&mut self, point: Point) -> Result<(), NoMemory>
        ensures { OnOk result (self.new ≡ self.old ++ field_behind (point_text point)) }
    {
        push_plain(&mut self.bytes, self.from.text_of(point)?)
    }

    /// Appends the start and the end of a period.
    pub(crate) fn period(&mut self, period: &Period) -> Result<(), NoMemory>
        ensures { OnOk result (self.new ≡ self.old
            ++ (field_behind (point_text period.now.from)
            ++ field_behind (point_text period.now.to))) }
    {
        self.point(period.from)?;
        push_plain(&mut self.bytes, self.to.text_of(period.to)?)
    }

    /// Appends a value.
    pub(crate) fn value(&mut self, value: ValueRef<'_>) -> Result<(), NoMemory>
        ensures { OnOk result
            (self.new ≡ self.old ++ field_behind (value_text (lent_value value.entry))) }
    {
        match value {
            ValueRef::Int(number) => {
                let mut digits = Buffer::new();
                push_field(&mut self.bytes, digits.format(number).as_bytes())
            }
            ValueRef::Text(text) => push_field(&mut self.bytes, text.as_bytes()),
        }
    }

    /// Appends the values of a row.
    pub(crate) fn values(&mut self, row: RowRef<'_>) -> Result<(), NoMemory>
        ensures { OnOk result (self.new ≡ self.old
            ++ fields_text answer_writer (map value_text (lent_row row.entry).values)) }
    {
        for column in 0..row.width() {
            let Some(value) = row.value(column) else {
                unreachable!()
            };
            self.value(value)?;
        }
        Ok(())
    }

    /// Appends the values of a row, or nothing for `None`.
    pub(crate) fn values_of(&mut self, row: Option<RowRef<'_>>) -> Result<(), NoMemory>
        ensures { OnOk result (self.new ≡ self.old ++ fields_text answer_writer (map value_text
            (option_map_or (λ row. (lent_row row).values) row.entry []))) }
    {
        match row {
            Some(row) => self.values(row),
            None => Ok(()),
        }
    }
}

/// Returns whether a field with this byte is written in quotes.
fn needs_byte(byte: u8) -> bool
    ensures { result ≡ needs_byte answer_writer byte }
{
    byte == b',' || byte == b'"' || byte == b'\r' || byte == b'\n'
}

/// Returns whether a field is written in quotes.
fn needs_quotes(field: &[u8]) -> bool
    ensures { result ≡ needs_quotes answer_writer field.now }
{
    field.iter().any(|byte| needs_byte(*byte))
}

/// Appends a field, in quotes if it needs them.
fn push_field(text: &mut Vec<u8>, field: &[u8]) -> Result<(), NoMemory>
    ensures { OnOk result (text.new.items ≡ text.old.items ++ field_behind field.now) }
{
    if needs_quotes(field) {
        push_quoted(text, field)
    } else {
        push_plain(text, field)
    }
}

/// Appends a field that needs no quotes.
fn push_plain(text: &mut Vec<u8>, field: &[u8]) -> Result<(), NoMemory>
    requires { needs_quotes answer_writer field.now ≡ false }
    ensures { OnOk result (text.new.items ≡ text.old.items ++ field_behind field.now) }
{
    text.push(b',')?;
    text.extend_from_slice(field)
}

/// Appends a field in quotes.
fn push_quoted(text: &mut Vec<u8>, field: &[u8]) -> Result<(), NoMemory>
    requires { needs_quotes answer_writer field.now ≡ true }
    ensures { OnOk result (text.new.items ≡ text.old.items ++ field_behind field.now) }
{
    text.extend_from_slice(b",\"")?;
    push_escaped(text, field)?;
    text.extend_from_slice(b"\"")
}

/// Appends the text between the quotes of a field.
fn push_escaped(text: &mut Vec<u8>, field: &[u8]) -> Result<(), NoMemory>
    ensures { OnOk result (text.new.items ≡ text.old.items ++ escaped answer_writer field.now) }
{
    for byte in field {
        push_byte(text, *byte)?;
    }
    Ok(())
}

/// Appends a byte between quotes.
fn push_byte(text: &mut Vec<u8>, byte: u8) -> Result<(), NoMemory>
    ensures { OnOk result (text.new.items ≡ text.old.items ++ escaped answer_writer (byte ∷ [])) }
{
    if byte == b'"' {
        text.extend_from_slice(b"\"\"")
    } else {
        text.push(byte)?;
        Ok(())
    }
}
