//! The records of a piece of a script, in batches that are freed one by one.
ghost use Rattle.std.specs.Prelude.{◌≡◌, ◌↔◌, ◌+◌, ◌<◌, ◌^◌, ◌++◌, ◌∷◌, [], length, option_map, sum_by, IfOk, IsTrue, OnOk, true};
ghost use Rattle.csv.specs.Reading.{error_kind, stops_reader};
ghost use Rattle.csv.specs.Records.{IsRecord, fields_of};
ghost use Rattle.command_core.specs.Flat.{size_of};
ghost use Rattle.command_core.specs.Records.{AreScriptRecords};
ghost use Rattle.command_core.specs.Seams.{joined, last};

use crate::batch::{BYTES_OF_BATCH, Batch};
use crate::seams::ends_line;
use csv::{ByteRecord, Error, ErrorKind, ReaderBuilder};
use period_core::NoMemory;
use std::alloc::{AllocError, Global};
use std::marker::Model;
use std::mem;

/// The records of a piece. Contracts see a list of records, each a list of its fields' bytes.
#[derive(Drop)]
pub(crate) struct PieceRecords {
    alloc: Global,
    /// The batches that are full.
    full: Vec<Batch>,
    last: Batch,
}

impl Model for PieceRecords {
    ghost use Rattle.std.specs.Prelude.{ℕ, List, ◌++◌};
    ghost use Rattle.command_core.specs.Seams.{joined};

    ghost Value = { List (List (List ℕ)) };

    ghost view = { λ r. joined r.full.items ++ r.last };
}

impl PieceRecords {
    ghost use Rattle.command_core.specs.Seams.{EndsInField};

    /// Returns no records yet, with capacity for a piece of `bytes` bytes.
    fn with_capacity(alloc: Global, bytes: usize) -> Result<PieceRecords, NoMemory>
        ensures { IfOk result (λ records. records ≡ []) }
    {
        Ok(PieceRecords {
            alloc,
            full: Vec::new(alloc),
            last: Batch::with_capacity(alloc, bytes.min(BYTES_OF_BATCH))?,
        })
    }

    /// Appends a record.
    fn push(&mut self, row: &ByteRecord) -> Result<(), NoMemory>
        requires whole { IsRecord row.now }
        requires bytes { sum_by size_of self.old + size_of (fields_of row.now) < 2 ^ 32 }
        requires fields { sum_by length self.old + length (fields_of row.now) < 2 ^ 32 }
        ensures { OnOk result (self.new ≡ self.old ++ fields_of row.now ∷ []) }
    {
        self.make_room()?;
        self.last.push(row)
    }

    /// Begins another batch if the last one is full.
    fn make_room(&mut self) -> Result<(), NoMemory>
        ensures { OnOk result (self.new ≡ self.old) }
    {
        if self.last.is_full() {
            let next = Batch::with_capacity(self.alloc, BYTES_OF_BATCH)?;
            let full = mem::replace(&mut self.last, next);
            self.full.push(full)?;
        }
        Ok(())
    }

    /// Returns whether the last field doesn't end with a line feed. This holds without any field.
    pub(crate) fn end_in_field(&self) -> bool
        ensures { IsTrue result ↔ EndsInField self.now }
    {
        match last_field(&self.full, &self.last) {
            Some(field) => !ends_line(field),
            None => true,
        }
    }

    /// Moves the batches to the end of `batches`.
    pub(crate) fn move_behind(self, batches: &mut Vec<Batch>) -> Result<(), NoMemory>
        ensures { OnOk result
            (joined batches.new.items ≡ joined batches.old.items ++ self) }
    {
        let PieceRecords { mut full, last, .. } = self;
        batches.append(&mut full)?;
        batches.push(last)?;
        Ok(())
    }
}

/// Returns the last field of the batches `full`, then of `behind`, or `None` if they have no field.
fn last_field<'a>(full: &'a [Batch], behind: &'a Batch) -> Option<&'a [u8]>
    ensures { option_map (λ s. s.now) result
        ≡ last (joined (joined full.entry.now ++ behind.entry.now)) }
{
    behind.last_field().or(last_of(full))
}

/// Returns the last field of the batches, or `None` if they have no field.
fn last_of(batches: &[Batch]) -> Option<&[u8]>
    ensures { option_map (λ s. s.now) result ≡ last (joined (joined batches.now)) }
{
    let mut last = None;
    for batch in batches {
        last = batch.last_field().or(last);
    }
    last
}

/// Converts a fault of `csv` to `NoMemory`. The bytes are in memory, and no record is refused for its length or its
/// text, so no other fault occurs.
fn not_read(fault: Error) -> NoMemory
    requires { stops_reader (error_kind fault) ≡ true }
{
    match fault.into_kind() {
        ErrorKind::OutOfMemory => AllocError,
        ErrorKind::Io(_) => AllocError,
        _ => unreachable!(),
    }
}

/// Returns the records of a piece, which `csv` reads as if it were a script, without a header and of any length.
///
/// # Errors
///
/// `NoMemory` if an allocation fails. Nothing else can fail, because the bytes are in memory.
pub(crate) fn read_piece(alloc: Global, piece: &[u8]) -> Result<PieceRecords, NoMemory>
    requires { length piece.now < 2 ^ 31 }
    ensures { IfOk result (AreScriptRecords piece.now) }
{
    let mut reader = ReaderBuilder::new()
        .has_headers(false)
        .flexible(true)
        .from_reader(alloc, piece);
    let mut row = ByteRecord::new(alloc);
    let mut records = PieceRecords::with_capacity(alloc, piece.len())?;
    loop {
        match reader.read_byte_record(&mut row) {
            Ok(true) => records.push(&row)?,
            Ok(false) => return Ok(records),
            Err(fault) => return Err(not_read(fault)),
        }
    }
}
