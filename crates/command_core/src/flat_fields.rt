//! Fields of records, stored flat: the bytes of all fields in one list, and the index where each field ends in it.
ghost use Rattle.std.specs.Prelude.{◌≡◌, ◌+◌, ◌<◌, ◌^◌, ◌++◌, [], length, slice_get, option_map, IfOk, OnErr, OnOk, Some};
ghost use Rattle.csv.specs.Records.{IsRecord, fields_of};
ghost use Rattle.command_core.specs.Flat.{ends_from, size_of};

use csv::ByteRecord;
use list_core::part_at;
use period_core::NoMemory;
use std::alloc::Global;
use std::marker::Model;

/// A list of fields. Contracts see a list of byte lists. Ends fit into 32 bits because a script has fewer than 2 GiB.
#[derive(Drop)]
pub struct FlatFields {
    bytes: Vec<u8>,
    ends: Vec<u32>,
}

impl Model for FlatFields {
    ghost use Rattle.std.specs.Prelude.{ℕ, List, length};
    ghost use Rattle.list_core.specs.Cut.{cut, EndsAt};

    ghost Value = { List (List ℕ) };

    ghost view = { λ f. cut 0 f.ends.items f.bytes.items };

    ghost invariant = { λ f. EndsAt 0 f.ends.items (length f.bytes.items) };
}

impl FlatFields {
    ghost use Rattle.command_core.specs.Seams.{last};

    /// Returns an empty list with capacity for `bytes` bytes.
    pub(crate) fn with_capacity(alloc: Global, bytes: usize) -> Result<FlatFields, NoMemory>
        ensures { IfOk result (λ fields. fields ≡ []) }
    {
        Ok(FlatFields {
            bytes: Vec::with_capacity(alloc, bytes)?,
            ends: Vec::new(alloc),
        })
    }

    /// Returns the number of fields.
    pub fn len(&self) -> usize
        ensures { result ≡ length self.now }
    {
        self.ends.len()
    }

    /// Returns the number of bytes of all fields.
    pub(crate) fn size(&self) -> usize
        ensures { result ≡ size_of self.now }
    {
        self.bytes.len()
    }

    /// Returns the field at an index, or `None` past the end.
    pub fn get(&self, place: usize) -> Option<&[u8]>
        ensures { option_map (λ s. s.now) result ≡ slice_get self.now place }
    {
        if place < self.ends.len() {
            Some(self.at(place))
        } else {
            None
        }
    }

    /// Returns the field at an index, which must exist.
    #[inline(always)]
    pub(crate) fn at(&self, place: usize) -> &[u8]
        requires { place < length self.now }
        ensures { slice_get self.now place ≡ Some result.now }
    {
        part_at(&self.bytes, &self.ends, place)
    }

    /// Returns the last field, or `None` without any field.
    pub(crate) fn last(&self) -> Option<&[u8]>
        ensures { option_map (λ s. s.now) result ≡ last self.now }
    {
        self.get(self.ends.len().saturating_sub(1))
    }

    /// Appends the fields of a record. If memory is refused, the list stays as it was.
    pub(crate) fn append(&mut self, row: &ByteRecord) -> Result<(), NoMemory>
        requires whole { IsRecord row.now }
        requires few { size_of self.old + size_of (fields_of row.now) < 2 ^ 32 }
        ensures ok { OnOk result (self.new ≡ self.old ++ fields_of row.now) }
        ensures err { OnErr result (self.new ≡ self.old) }
    {
        let count = self.ends.len();
        let start = self.bytes.len();
        let end = push_ends(&mut self.ends, start, row)?;
        if let Err(error) = self.bytes.extend_from_slice(&row.as_slice()[..end - start]) {
            self.ends.truncate(count);
            return Err(error.into());
        }
        Ok(())
    }
}

/// Appends the ends of a record's fields, the first of which starts at `start`. Returns the last end. If memory is
/// refused, `ends` stays as it was.
fn push_ends(ends: &mut Vec<u32>, start: usize, row: &ByteRecord) -> Result<usize, NoMemory>
    requires { start + size_of (fields_of row.now) < 2 ^ 32 }
    ensures ok { OnOk result
        (ends.new.items ≡ ends.old.items ++ ends_from start (fields_of row.now)) }
    ensures last { IfOk result (λ last. last ≡ start + size_of (fields_of row.now)) }
    ensures err { OnErr result (ends.new.items ≡ ends.old.items) }
{
    let count = ends.len();
    let mut end = start;
    for place in 0..row.len() {
        if let Some(field) = row.get(place) {
            end += field.len();
            if let Err(error) = ends.push(end as u32) {
                ends.truncate(count);
                return Err(error.into());
            }
        }
    }
    Ok(end)
}
