//! The auditor: takes snapshots while others commit, and keeps one of them.

ghost use Rattle.store_core.specs.Passes.{IsPassOf};

use caller_core::{NoTable, Pass, Snapshot, Store, StoreError};
use row_core::{Failure, Name};
use std::sync::Wait;

// The number of snapshots that the auditor takes. It keeps the middle one.
const LOOKS: u32 = 100;

/// What the auditor saw.
#[derive(Drop)]
pub struct Watched {
    /// Whether no snapshot showed fewer rows than one before it.
    pub never_fewer: bool,
    kept: Snapshot,
    // How many rows the kept snapshot showed when it was taken.
    rows: usize,
}

impl Watched {
    /// Returns whether the kept snapshot still shows the number of rows that it showed when it was taken.
    pub fn stays(&self, table: Name) -> Result<bool, StoreError> {
        Ok(rows_shown(&self.kept, table)? == self.rows)
    }
}

/// Returns how many rows of a table a snapshot shows; 0 if the table wasn't made yet.
pub fn rows_shown(snapshot: &Snapshot, table: Name) -> Result<usize, StoreError> {
    match snapshot.rows(table) {
        Ok(rows) => Ok(rows.len()),
        Err(Failure::Refused(NoTable)) => Ok(0),
        Err(failure) => Err(failure.into()),
    }
}

/// Takes snapshots, one after another, and compares how many rows they show.
pub fn watch<R: Wait>(
    rt: &R,
    store: &Store,
    table: Name,
    pass: &mut Pass,
) -> Result<Watched, StoreError>
    requires { IsPassOf store.now pass.old }
    ensures { IsPassOf store.now pass.new }
{
    let kept = store.snapshot(rt, pass, None)?;
    let rows = rows_shown(&kept, table)?;
    let mut watched = Watched {
        never_fewer: true,
        kept,
        rows,
    };
    let mut last = rows;
    for look in 1..LOOKS {
        let snapshot = store.snapshot(rt, pass, None)?;
        let rows = rows_shown(&snapshot, table)?;
        watched.never_fewer = watched.never_fewer && last <= rows;
        if look == LOOKS / 2 {
            watched.kept = snapshot;
            watched.rows = rows;
        }
        last = rows;
    }
    Ok(watched)
}
