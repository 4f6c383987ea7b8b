//! Records of a script, stored flat: all their fields in one list, and the index where each record ends in it.
ghost use Rattle.std.specs.Prelude.{◌≡◌, ◌+◌, ◌<◌, ◌^◌, ◌++◌, ◌∷◌, [], length, option_map, slice_get, sum_by, IfOk, OnOk, Some};
ghost use Rattle.csv.specs.Records.{IsRecord, fields_of};
ghost use Rattle.list_core.specs.Cut.{cut, EndsAt};
ghost use Rattle.command_core.specs.Flat.{size_of};
ghost use Rattle.command_core.specs.Lines.{fields_in};

use crate::flat_fields::FlatFields;
use crate::line::Line;
use csv::ByteRecord;
use list_core::start_of;
use period_core::NoMemory;
use std::alloc::Global;
use std::marker::Model;

/// The capacity of a full-size batch, in bytes. Memory is freed a batch at a time.
pub(crate) const BYTES_OF_BATCH: usize = 4_194_304;

/// A batch with more bytes counts as full: one more record might make it grow.
const FULL: usize = BYTES_OF_BATCH - 65_536;

/// Consecutive records. Contracts see a list of records, each a list of its fields' bytes.
#[derive(Drop)]
pub(crate) struct Batch {
    fields: FlatFields,
    ends: Vec<u32>,
}

impl Model for Batch {
    ghost use Rattle.std.specs.Prelude.{ℕ, List, length};
    ghost use Rattle.list_core.specs.Cut.{cut, EndsAt};

    ghost Value = { List (List (List ℕ)) };

    ghost view = { λ r. cut 0 r.ends.items r.fields };

    ghost invariant = { λ r. EndsAt 0 r.ends.items (length r.fields) };
}

impl Batch {
    ghost use Rattle.command_core.specs.Seams.{joined, last};

    /// Returns a batch without records, with capacity for `bytes` bytes of fields.
    pub(crate) fn with_capacity(alloc: Global, bytes: usize) -> Result<Batch, NoMemory>
        ensures { IfOk result (λ batch. batch ≡ []) }
    {
        Ok(Batch {
            fields: FlatFields::with_capacity(alloc, bytes)?,
            ends: Vec::new(alloc),
        })
    }

    /// Returns the number of records.
    pub(crate) fn len(&self) -> usize
        ensures { result ≡ length self.now }
    {
        self.ends.len()
    }

    /// Returns the record at an index.
    pub(crate) fn line(&self, place: usize) -> Line<'_>
        requires { place < length self.now }
        ensures { slice_get self.now place ≡ Some (fields_in result) }
    {
        line_at(&self.fields, &self.ends, place)
    }

    /// Returns the last field of the last record, or `None` if the records have no field.
    pub(crate) fn last_field(&self) -> Option<&[u8]>
        ensures { option_map (λ s. s.now) result ≡ last (joined self.now) }
    {
        self.fields.last()
    }

    /// Returns whether one more record might make the buffer grow.
    pub(crate) fn is_full(&self) -> bool {
        self.fields.size() > FULL
    }

    /// Appends a record. If memory is refused, the records stay as they were.
    pub(crate) fn push(&mut self, row: &ByteRecord) -> Result<(), NoMemory>
        requires whole { IsRecord row.now }
        requires bytes { sum_by size_of self.old + size_of (fields_of row.now) < 2 ^ 32 }
        requires fields { sum_by length self.old + length (fields_of row.now) < 2 ^ 32 }
        ensures { OnOk result (self.new ≡ self.old ++ fields_of row.now ∷ []) }
    {
        push_record(&mut self.fields, &mut self.ends, row)
    }
}

/// Appends a record's fields, and the index where the record ends. If memory is refused, the records stay as they were.
fn push_record(
    fields: &mut FlatFields,
    ends: &mut Vec<u32>,
    row: &ByteRecord,
) -> Result<(), NoMemory>
    requires whole { IsRecord row.now }
    requires ends { EndsAt 0 ends.old.items (length fields.old) }
    requires bytes { size_of fields.old + size_of (fields_of row.now) < 2 ^ 32 }
    requires fields { length fields.old + length (fields_of row.now) < 2 ^ 32 }
    ensures ends { EndsAt 0 ends.new.items (length fields.new) }
    ensures ok { OnOk result (cut 0 ends.new.items fields.new
        ≡ cut 0 ends.old.items fields.old ++ fields_of row.now ∷ []) }
{
    let count = ends.len();
    ends.push((fields.len() + row.len()) as u32)?;
    if let Err(error) = fields.append(row) {
        ends.truncate(count);
        return Err(error);
    }
    Ok(())
}

/// Returns the record at an index.
fn line_at<'a>(fields: &'a FlatFields, ends: &[u32], place: usize) -> Line<'a>
    requires place { place < length ends.now }
    requires ends { EndsAt 0 ends.now (length fields.now) }
    ensures { slice_get (cut 0 ends.now fields.entry.now) place ≡ Some (fields_in result) }
{
    Line::new(fields, start_of(ends, place), ends[place] as usize)
}
