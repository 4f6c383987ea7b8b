//! The loader: makes a table, and loads rows one by one.

ghost use Rattle.std.specs.Prelude.{◌≡◌, ◌+◌, ◌≤◌, length, IfOk, OnOk};
ghost use Rattle.store_core.specs.Passes.{IsNoteOf, IsPassOf, calls_left, mine, note_view};

use book_core::{Change, ChangeKind, Entry};
use caller_core::{Note, Pass, Store, StoreError};
use draft_core::Drafts;
use period_core::{Period, Point};
use row_core::{Kind, Name, Schema, Value};
use std::alloc::Global;
use std::sync::Wait;

// The number of rows to load.
const ROWS: u32 = 1_000;

/// The number of commits that the loader makes: one for the table, and one for each row.
pub const COMMITS: u64 = 1_001;

// The loader has the first pass of the store.
const LOADER: u32 = 1;

/// Returns the rows of one change: a single row with this number, which holds for a day.
pub fn one_row(alloc: Global, number: u32) -> Result<Drafts, StoreError> {
    let period = Period::new(Point::parse(b"2024-01-08")?, Point::parse(b"2024-01-09")?)?;
    let mut rows = Drafts::new(alloc);
    rows.push_row(period, &[Value::Int(number as i64)])?;
    Ok(rows)
}

/// Makes the table and loads its rows, each in a commit of its own. Returns a note of all that the pass has then seen,
/// which includes these commits.
pub fn load<R: Wait>(
    rt: &R,
    alloc: Global,
    store: &Store,
    table: Name,
    pass: &mut Pass,
) -> Result<Note, StoreError>
    requires { IsPassOf store.now pass.old }
    ensures pass { IsPassOf store.now pass.new }
    ensures note { IfOk result (IsNoteOf store.now) }
    ensures seen { IfOk result (λ note. 1001 ≤ length (note_view note).seen) }
    ensures calls { OnOk result (calls_left pass.new + 1001 ≡ calls_left pass.old) }
    ensures commits { OnOk result (length (mine pass.new) ≡ length (mine pass.old) + 1001) }
{
    let schema = Schema::new(alloc, &[(Name::parse(b"number")?, Kind::Int)])?;
    store.commit(rt, pass, Change::Make { table, schema })?;
    for number in 0..ROWS {
        let rows = one_row(alloc, number)?;
        store.commit(rt, pass, Change::Load { table, rows })?;
    }
    Ok(store.note(pass))
}

/// Returns whether these are the loader's commits, in order.
pub fn is_in_order(log: &[Entry]) -> bool {
    log.iter().zip(1..COMMITS + 1).all(|(entry, number)| {
        entry.number == number
            && entry.by == LOADER
            && (entry.kind == ChangeKind::Make) == (number == 1)
    })
}
