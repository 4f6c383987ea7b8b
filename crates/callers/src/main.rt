//! Two callers share a store, each on a thread of its own: a loader commits 1,000 rows, one by one, while an auditor
//! takes snapshots. Then the auditor hears what the loader has seen. The output is the same in whatever order the two
//! threads run.
#![tactic(auto)]

ghost use Rattle.std.specs.Prelude.{◌≡◌, ◌+◌, ◌≤◌, length, IfOk, OnOk};
ghost use Rattle.std.specs.Thread.{IsSync};
ghost use Rattle.store_core.specs.Passes.{IsFresh, IsNoteOf, IsPassOf, calls_left, note_view, seen};

mod auditor;
mod loader;

use auditor::{Watched, rows_shown, watch};
use book_core::Change;
use caller_core::{Note, Pass, Store, StoreError, StoreRefused};
use loader::{COMMITS, is_in_order, load, one_row};
use row_core::{Failure, Name};
use std::alloc::Global;
use std::sync::Wait;
use std::thread::{Threads, join_mut};

/// Runs the loader on a thread of its own while the auditor watches on this one, or one after the other if no thread
/// can be started. Returns the loader's note, and what the auditor saw.
fn meanwhile<R: Threads + Wait + Sync>(
    rt: &R,
    alloc: Global,
    store: &Store,
    table: Name,
    loader: &mut Pass,
    auditor: &mut Pass,
) -> (Result<Note, StoreError>, Result<Watched, StoreError>)
    requires loader { IsPassOf store.now loader.old }
    requires auditor { IsPassOf store.now auditor.old }
    ensures passes { IsPassOf store.now loader.new × IsPassOf store.now auditor.new }
    ensures note { IfOk result.0 (IsNoteOf store.now) }
    ensures seen { IfOk result.0 (λ note. 1001 ≤ length (note_view note).seen) }
    ensures calls { OnOk result.0 (calls_left loader.new + 1001 ≡ calls_left loader.old) }
{
    let mut loading = || -> Result<Note, StoreError>
        requires { IsSync R.row × IsPassOf store.now loader.now }
        ensures pass { IsPassOf store.entry.now loader.exit.now }
        ensures note { IfOk result (IsNoteOf store.entry.now) }
        ensures seen { IfOk result (λ note. 1001 ≤ length (note_view note).seen) }
        ensures calls { OnOk result (calls_left loader.exit.now + 1001
            ≡ calls_left loader.entry.now) }
    { load(rt, alloc, store, table, loader) };
    let mut watching = || -> Result<Watched, StoreError>
        requires { IsSync R.row × IsPassOf store.now auditor.now }
        ensures { IsPassOf store.entry.now auditor.exit.now }
    { watch(rt, store, table, auditor) };
    join_mut(rt, &mut loading, &mut watching)
}

/// Prints what the auditor finds after it has heard all that the loader had seen.
fn report<R: Print + Wait>(
    rt: &R,
    store: &Store,
    table: Name,
    auditor: &mut Pass,
    watched: &Watched,
) -> anyhow::Result<()>
    requires pass { IsPassOf store.now auditor.old }
    requires heard { 1001 ≤ length (seen auditor.old) }
    ensures { IsPassOf store.now auditor.new }
{
    let log = store.log(rt, auditor)?;
    // In range, since the note has at least this many commits.
    let loaders = &log.as_slice()[..COMMITS as usize];
    let newest = store.snapshot(rt, auditor, None)?;
    println!(rt; "commits in the log: {}", log.len())?;
    println!(rt; "all of the loader, in its order: {}", is_in_order(loaders))?;
    println!(rt;
        "rows in the newest snapshot: {}",
        rows_shown(&newest, table)?
    )?;
    println!(rt; "rows never got fewer: {}", watched.never_fewer)?;
    println!(rt;
        "the kept snapshot shows what it showed: {}",
        watched.stays(table)?
    )?;
    Ok(())
}

/// Prints the reply to a pass without calls. The check proves that no other reply is possible.
fn show_spent<R: Print + Wait>(
    rt: &R,
    alloc: Global,
    store: &Store,
    table: Name,
    pass: &mut Pass,
) -> anyhow::Result<()>
    requires pass { IsPassOf store.now pass.old }
    requires spent { calls_left pass.old ≡ 0 }
{
    let rows = one_row(alloc, 0)?;
    match store.commit(rt, pass, Change::Load { table, rows }) {
        Err(Failure::Refused(spent @ StoreRefused::PassSpent)) => {
            println!(rt; "one commit more: {spent}")?;
            Ok(())
        }
        _ => unreachable!(),
    }
}

/// Returns a store with two passes, the loader's and the auditor's. Each has the number of calls that the loader needs.
fn open(alloc: Global) -> Result<(Store, Pass, Pass), StoreError>
    ensures loader { IfOk result (λ made. IsPassOf made.0 made.1 × IsFresh 1 2 1001 made.1) }
    ensures auditor { IfOk result (λ made. IsPassOf made.0 made.2 × IsFresh 2 2 1001 made.2) }
{
    let (store, mut passes) = Store::new(alloc, 2, COMMITS)?;
    let (Some(auditor), Some(loader)) = (passes.pop(), passes.pop()) else {
        unreachable!()
    };
    Ok((store, loader, auditor))
}

/// Runs the two callers, passes the note on, and prints what the auditor finds.
fn run<R: Print + Threads + Wait + Sync>(rt: &R, alloc: Global) -> anyhow::Result<()> {
    let table = Name::parse(b"posts")?;
    let (store, mut loader, mut auditor) = open(alloc)?;
    let (note, watched) = meanwhile(rt, alloc, &store, table, &mut loader, &mut auditor);
    store.hear(&mut auditor, note?);
    report(rt, &store, table, &mut auditor, &watched?)?;
    show_spent(rt, alloc, &store, table, &mut loader)
}

fn main(rt: HostRuntime) -> anyhow::Result<()> {
    run(&rt, rt.alloc())
}
