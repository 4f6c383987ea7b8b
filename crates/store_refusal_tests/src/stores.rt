//! A store whose snapshot is alive, and its state after each call, with memory refused.

ghost use Rattle.std.specs.Prelude.{◌<◌, IfOk};
ghost use Rattle.store_core.specs.Passes.{IsPassOf};

use crate::fixtures::{day, name};
use book_core::{BookRefused, Change};
use draft_core::Drafts;
use refusal_core::{Ended, Fault, holds, take_all, try_each};
use row_core::{Draft, Failure, Schema, Values};
use std::alloc::Global;
use std::sync::Wait;
use std::test::Fail;
use store_core::{Pass, Snapshot, Store, StoreRefused};

// Returns the change that makes the table, which has no columns.
fn make(alloc: Global) -> Result<Change, Ended> {
    Ok(Change::Make {
        table: name(b"t")?,
        schema: Schema::new(alloc, &[])?,
    })
}

// Returns the change that adds a row of one day.
fn load(alloc: Global) -> Result<Change, Ended> {
    let mut rows = Drafts::new(alloc);
    rows.push(Draft {
        period: day()?,
        values: Values::new(alloc),
    })?;
    Ok(Change::Load {
        table: name(b"t")?,
        rows,
    })
}

// Returns a store with one pass of a hundred calls.
fn one_pass(alloc: Global) -> Result<(Store, Pass), Ended>
    ensures { IfOk result (λ made. IsPassOf made.0 made.1) }
{
    let (store, mut passes) = Store::new(alloc, 1, 100)?;
    match passes.pop() {
        Some(pass) => Ok((store, pass)),
        None => unreachable!(),
    }
}

// Returns a store whose table has one row, and its one pass.
fn one_row<R: Wait>(rt: &R, alloc: Global) -> Result<(Store, Pass), Ended>
    ensures { IfOk result (λ made. IsPassOf made.0 made.1) }
{
    let (store, mut pass) = one_pass(alloc)?;
    store.commit(rt, &mut pass, make(alloc)?)?;
    store.commit(rt, &mut pass, load(alloc)?)?;
    Ok((store, pass))
}

// Returns the number of a snapshot, and how many rows its table has.
fn shown(snapshot: &Snapshot) -> Result<(u64, usize), Ended> {
    Ok((snapshot.number(), snapshot.rows(name(b"t")?)?.len()))
}

// Requests the newest snapshot and the log, which count one call each. Returns the snapshot's number, its rows and the
// log's entries.
fn look<R: Wait>(rt: &R, store: &Store, pass: &mut Pass) -> Result<(u64, usize, usize), Ended>
    requires { IsPassOf store.now pass.old }
    ensures { IsPassOf store.now pass.new }
{
    let left = pass.left();
    let snapshot = store.snapshot(rt, pass, None)?;
    let log = store.log(rt, pass)?;
    let (number, rows) = shown(&snapshot)?;
    holds(pass.left().checked_add(2) == Some(left))?;
    Ok((number, rows, log.len()))
}

// Commits a load while a snapshot is alive. If memory is refused, checks that only the call was counted and nothing
// else changed, and commits again. The table has `rows` rows, each added by a commit of its own.
fn commit_beside<R: Wait>(
    rt: &R,
    alloc: Global,
    store: &Store,
    pass: &mut Pass,
    rows: usize,
) -> Result<(), Ended>
    requires store { IsPassOf store.now pass.old }
    requires few { rows < 100 }
    ensures { IsPassOf store.now pass.new }
{
    let commits = rows as u64 + 1;
    let kept = store.snapshot(rt, pass, None)?;
    let (change, left) = (load(alloc)?, pass.left());
    let reply = store.commit(rt, pass, change);
    holds(pass.left().checked_add(1) == Some(left))?;
    let reply = match reply {
        Err(Failure::NoMemory) => {
            holds(look(rt, store, pass)? == (commits, rows, rows + 1))?;
            store.commit(rt, pass, load(alloc)?)
        }
        reply => reply,
    };
    holds(reply? == commits + 1)?;
    holds(look(rt, store, pass)? == (commits + 1, rows + 1, rows + 2))?;
    holds(shown(&kept)? == (commits, rows))
}

// Makes one commit in a copy, one in the book that no snapshot shares, and one in the book that was current before.
fn take_turns<R: Wait>(rt: &R, alloc: Global) -> Result<(), Ended> {
    let (store, mut pass) = one_row(rt, alloc)?;
    commit_beside(rt, alloc, &store, &mut pass, 1)?;
    store.commit(rt, &mut pass, load(alloc)?)?;
    commit_beside(rt, alloc, &store, &mut pass, 3)
}

#[test]
fn a_refused_commit_is_made_later(rt: HostRuntime) -> Result<(), Fault> {
    try_each(&rt, |alloc| take_turns(&rt, alloc))
}

// Checks a snapshot of the first commit.
fn ask_snapshot<R: Wait>(rt: &R, alloc: Global) -> Result<(), Ended> {
    let (store, mut pass) = one_row(rt, alloc)?;
    let snapshot = store.snapshot(rt, &mut pass, Some(1))?;
    let table = name(b"t")?;
    holds(snapshot.between(0, 9, table)?.len() == 0)?;
    holds(snapshot.from_to(0, 9, table)?.len() == 0)?;
    holds(shown(&snapshot)? == (1, 0) && shown(&snapshot.as_of(0)?)? == (0, 0))
}

#[test]
fn a_snapshot_answers_or_memory_is_refused(rt: HostRuntime) -> Result<(), Fault> {
    try_each(&rt, |alloc| ask_snapshot(&rt, alloc))
}

// Sends a note through a post.
fn send_note<R: Wait>(rt: &R, alloc: Global) -> Result<(), Ended> {
    let (store, mut pass) = one_pass(alloc)?;
    let post = store.open_post(alloc)?;
    let note = store.note(&mut pass);
    holds(store.send(rt, &post, note).is_none())?;
    holds(store.receive(rt, &post).is_some())
}

#[test]
fn a_post_is_opened_or_memory_is_refused(rt: HostRuntime) -> Result<(), Fault> {
    try_each(&rt, |alloc| send_note(&rt, alloc))
}

// A change that is refused before its keys are tested copies no book, even if a snapshot shares it, so it is answered
// while no memory is left.
#[test]
fn a_refusal_by_name_needs_no_memory(rt: HostRuntime) -> Result<(), Fail> {
    let alloc = rt.alloc();
    let (store, mut pass) = one_row(&rt, alloc)?;
    let kept = store.snapshot(&rt, &mut pass, None)?;
    let change = Change::Load {
        table: name(b"u")?,
        rows: Drafts::new(alloc),
    };
    let taken = take_all(alloc)?;
    let reply = store.commit(&rt, &mut pass, change);
    drop(taken);
    let refused = Failure::Refused(StoreRefused::Book(BookRefused::NoTable));
    assert!(rt; reply == Err(refused));
    assert_eq!(rt; shown(&kept)?, (2, 1));
    Ok(())
}

// While no memory is left.
#[test]
fn looking_and_hearing_need_no_memory(rt: HostRuntime) -> Result<(), Fail> {
    let alloc = rt.alloc();
    let (store, mut pass) = one_row(&rt, alloc)?;
    let taken = take_all(alloc)?;
    let snapshot = store.snapshot(&rt, &mut pass, None);
    let note = store.note(&mut pass);
    store.hear(&mut pass, note);
    let refused = Vec::<u8>::with_capacity(alloc, 1).is_err();
    drop(taken);
    assert!(rt; refused);
    assert_eq!(rt; shown(&snapshot?)?, (2, 1));
    assert_eq!(rt; pass.left(), 97);
    Ok(())
}
