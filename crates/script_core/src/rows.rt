//! Reads the rows of a load.
ghost use Rattle.std.specs.Prelude.{◌≡◌, ◌+◌, ◌-◌, ◌==◌, ◌<◌, ◌≤◌, ◌^◌, ◌++◌, ◌∷◌, [], IfOk, Ok, MatchResult, if◌then◌else◌, length};
ghost use Rattle.std.specs.List.{enumerate_from};
ghost use Rattle.work_core.specs.Pieces.{items_within};
ghost use Rattle.row_core.specs.declared.draft.Draft.{Draft as AnyDraft};
ghost use Rattle.script_core.specs.Failure.{IsFailureOf, IsRecordFailure};
ghost use Rattle.command_core.specs.Lines.{fields_in, lines_in};
ghost use Rattle.script_core.specs.Effects.{loaded_row, loaded_rows};
ghost use Rattle.script_core.specs.Loads.{all_drafts, drafts_or_fault};

use crate::failure::{Failure, failure_at, refused};
use command_core::{Fault, Line, Lines, Refusal, begins};
use draft_core::{Drafts, RowReader};
use period_core::NoMemory;
use row_core::Schema;
use std::alloc::{AllocError, Global};
use std::thread::Threads;
use work_core::{Crew, OpenGate, Range, Shares, places_within, shared_out};

/// Reads the row of one more record of a load, without copying its fields. `number` is the record's number.
fn read_next<'s>(
    reader: RowReader<'s>,
    line: Line<'_>,
    number: u64,
) -> Result<RowReader<'s>, Failure>
    ensures { MatchResult result
        (λ more. (row : AnyDraft)
        × (loaded_row reader.entry.columns (fields_in line.entry) ≡ Ok row)
        × (more ≡ record reader.entry { rows = reader.entry.rows ++ row ∷ [] }))
        (IsRecordFailure number (loaded_row reader.entry.columns (fields_in line.entry))) }
{
    if !begins(line, b"row") {
        return Err(refused(number, Refusal::BadCommand));
    }
    match reader.read(line.range(1, line.len())) {
        Ok(more) => Ok(more),
        Err(why) => Err(failure_at(number, why)),
    }
}

/// Returns the rows of some records of a load, in a list with capacity for `room` rows. `number` is the number of the
/// first record.
fn rows_of_records(
    alloc: Global,
    schema: &Schema,
    lines: Lines<'_>,
    number: u64,
    room: usize,
) -> Result<Drafts, Failure>
    requires { number + length (lines_in lines) < 2 ^ 64 }
    ensures { MatchResult result
        (λ rows. loaded_rows schema.now number (lines_in lines.entry) ≡ Ok rows)
        (IsFailureOf (loaded_rows schema.now number (lines_in lines.entry))) }
{
    let mut reader = RowReader::new(alloc, schema, room);
    for (place, line) in lines.iter().enumerate() {
        reader = read_next(reader, line, number + place as u64)?;
    }
    Ok(reader.into_rows())
}

/// Returns the rows of the records at a range of indices, or the fault of the first faulty one. `number` is the number
/// of the load's first record.
fn rows_in_range(
    alloc: Global,
    schema: &Schema,
    lines: Lines<'_>,
    number: u64,
    places: Range<usize>,
) -> Result<Result<Drafts, Fault>, NoMemory>
    requires { number + length (lines_in lines) < 2 ^ 64 }
    ensures { IfOk result (λ read. drafts_or_fault schema.now
        (items_within places (enumerate_from number (lines_in lines.entry))) ≡ read) }
{
    let count = lines.len();
    let (from, to) = places_within(places, count);
    let room = room_of(from, to, count);
    match rows_of_records(
        alloc,
        schema,
        lines.range(from, to),
        number + from as u64,
        room,
    ) {
        Ok(rows) => Ok(Ok(rows)),
        Err(Failure::Refused(fault)) => Ok(Err(fault)),
        Err(Failure::NoMemory) => Err(AllocError),
    }
}

/// Returns the capacity for the rows of the records `from..to` of `count`. The first range has capacity for all rows,
/// because the rows of the other ranges are appended to its list.
fn room_of(from: usize, to: usize, count: usize) -> usize
    requires { from ≤ to }
    ensures { result ≡ (if from == 0 then count else to - from) }
{
    if from == 0 { count } else { to - from }
}

/// Concatenates the rows of the ranges, or returns the fault of the first range that has one.
fn in_one_list(alloc: Global, ranges: Vec<Result<Drafts, Fault>>) -> Result<Drafts, Failure>
    ensures { MatchResult result (λ rows. all_drafts ranges.items ≡ Ok rows)
        (IsFailureOf (all_drafts ranges.items)) }
{
    let mut rows = Drafts::new(alloc);
    for range in ranges {
        match range {
            Ok(more) => rows.append(more)?,
            Err(fault) => return Err(Failure::Refused(fault)),
        }
    }
    Ok(rows)
}

/// Returns the rows of a load's records. `number` is the number of the first record. Workers share the records by
/// index.
pub(crate) fn loaded_rows<T: Threads + Sync>(
    crew: &Crew<'_, T, OpenGate>,
    schema: &Schema,
    lines: Lines<'_>,
    number: u64,
) -> Result<Drafts, Failure>
    requires { number + length (lines_in lines) < 2 ^ 64 }
    ensures { MatchResult result
        (λ rows. loaded_rows schema.now number (lines_in lines.entry) ≡ Ok rows)
        (IsFailureOf (loaded_rows schema.now number (lines_in lines.entry))) }
{
    let Crew { rt, alloc, .. } = *crew;
    let count = lines.len();
    let shares = Shares::by_index(alloc, count, crew.workers)?;
    if shares.len() == 1 {
        // Most loads have one row or a few, and need no list of ranges.
        return rows_of_records(alloc, schema, lines, number, count);
    }
    let ranges = shared_out(
        rt,
        alloc,
        &shares,
        &|places: Range<usize>, _workers: u32| -> Result<Result<Drafts, Fault>, NoMemory>
            requires { number + length (lines_in lines) < 2 ^ 64 }
            ensures { IfOk result (λ read. drafts_or_fault schema.entry.now
                (items_within places (enumerate_from number (lines_in lines.entry))) ≡ read) }
        { rows_in_range(alloc, schema, lines, number, places) },
    )?;
    in_one_list(alloc, ranges)
}
