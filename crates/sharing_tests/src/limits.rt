//! The limits on a store's passes and their calls.

ghost use Rattle.std.specs.Prelude.{IfOk};
ghost use Rattle.store_core.specs.Passes.{IsPassOf};

use crate::changes::{check_load, check_make};
use book_core::BookRefused;
use row_core::{Failure, Name};
use std::alloc::Global;
use std::process::Abort;
use std::sync::Wait;
use std::test::Fail;
use store_core::{
    BadCount, Future, Pass, PassSpent, Snapshot, SnapshotRefused, Store, StoreRefused,
};

// Returns a store with one pass of `calls` calls.
pub(crate) fn one_pass(alloc: Global, calls: u64) -> Result<(Store, Pass), Fail>
    ensures { IfOk result (λ made. IsPassOf made.0 made.1) }
{
    let (store, mut passes) = Store::new(alloc, 1, calls)?;
    match passes.pop() {
        Some(pass) => Ok((store, pass)),
        None => unreachable!(),
    }
}

#[test]
fn refuses_other_counts(rt: HostRuntime) {
    for (passes, calls) in [(0, 3), (17, 3), (1, 0), (1, (1 << 40) + 1)] {
        let refused = Store::new(rt.alloc(), passes, calls).err();
        assert!(rt; refused == Some(Failure::Refused(BadCount)));
    }
}

// Returns whether the passes have the numbers from 1 on, and `calls` calls each.
fn are_counted(passes: &[Pass], calls: u64) -> bool {
    passes.iter().zip(1u32..17).all(|(pass, number)| pass.number() == number
        && pass.left() == calls)
}

#[test]
fn has_16_passes(rt: HostRuntime) -> Result<(), Fail> {
    let (_, passes) = Store::new(rt.alloc(), 16, 1 << 40)?;
    assert!(rt; passes.len() == 16);
    assert!(rt; are_counted(&passes, 1 << 40));
    Ok(())
}

// Checks that a snapshot is refused for this reason.
fn check_no_snapshot(
    rt: &(impl Abort + Wait),
    store: &Store,
    pass: &mut Pass,
    n: Option<u64>,
    want: SnapshotRefused,
)
    requires { IsPassOf store.now pass.old }
    ensures { IsPassOf store.now pass.new }
{
    let refused = store.snapshot(rt, pass, n).err();
    assert_eq!(rt; refused, Some(Failure::Refused(want)));
}

// Checks that each of the three calls that count is refused, since the pass is spent.
fn check_spent(rt: &(impl Abort + Alloc<A = Global> + Wait), store: &Store, pass: &mut Pass)
    requires { IsPassOf store.now pass.old }
    ensures { IsPassOf store.now pass.new }
{
    check_make(rt, store, pass, b"u", Err(StoreRefused::PassSpent));
    check_load(rt, store, pass, Err(StoreRefused::PassSpent));
    check_no_snapshot(rt, store, pass, None, SnapshotRefused::PassSpent);
    check_no_snapshot(rt, store, pass, Some(9), SnapshotRefused::PassSpent);
    let spent = store.log(rt, pass).err();
    assert!(rt; spent == Some(Failure::Refused(PassSpent)));
}

#[test]
fn counts_each_call(rt: HostRuntime) -> Result<(), Fail> {
    let (store, mut pass) = one_pass(rt.alloc(), 4)?;
    check_make(&rt, &store, &mut pass, b"t", Ok(1));
    let exists = StoreRefused::Book(BookRefused::TableExists);
    check_make(&rt, &store, &mut pass, b"t", Err(exists));
    assert!(rt; pass.left() == 2);
    check_no_snapshot(&rt, &store, &mut pass, Some(2), SnapshotRefused::Future);
    let log = store.log(&rt, &mut pass).expect(&rt, "a log");
    assert!(rt; log.len() == 1);
    assert!(rt; pass.left() == 0);
    Ok(())
}

// A spent pass is refused however often it calls, before any other reason, and can still pass on what it has seen.
#[test]
fn refuses_each_call_of_a_pass_that_is_spent(rt: HostRuntime) -> Result<(), Fail> {
    let (store, mut pass) = one_pass(rt.alloc(), 2)?;
    check_make(&rt, &store, &mut pass, b"t", Ok(1));
    check_load(&rt, &store, &mut pass, Ok(2));
    assert!(rt; pass.left() == 0);
    check_spent(&rt, &store, &mut pass);
    let note = store.note(&mut pass);
    store.hear(&mut pass, note);
    check_spent(&rt, &store, &mut pass);
    assert!(rt; pass.left() == 0);
    Ok(())
}

// Checks the number of a snapshot, and how many rows its table `t` has.
pub(crate) fn check_snapshot(rt: &impl Abort, snapshot: &Snapshot, number: u64, rows: usize) {
    assert!(rt; snapshot.number() == number);
    let table = Name::parse(b"t").expect(rt, "a name");
    assert!(rt; snapshot.rows(table).expect(rt, "rows").len() == rows);
}

#[test]
fn keeps_a_snapshot_while_changes_go_on(rt: HostRuntime) -> Result<(), Fail> {
    let table = Name::parse(b"t")?;
    let (store, mut pass) = one_pass(rt.alloc(), 8)?;
    check_make(&rt, &store, &mut pass, b"t", Ok(1));
    check_load(&rt, &store, &mut pass, Ok(2));
    let kept = store
        .snapshot(&rt, &mut pass, None)
        .expect(&rt, "a snapshot");
    let early = store
        .snapshot(&rt, &mut pass, Some(1))
        .expect(&rt, "a snapshot");
    check_load(&rt, &store, &mut pass, Ok(3));
    let newest = store
        .snapshot(&rt, &mut pass, None)
        .expect(&rt, "a snapshot");
    check_snapshot(&rt, &early, 1, 0);
    check_snapshot(&rt, &kept, 2, 1);
    check_snapshot(&rt, &newest, 3, 2);
    assert!(rt; kept.between(0, 9, table).expect(&rt, "versions").len() == 1);
    assert!(rt; newest.from_to(3, 4, table).expect(&rt, "versions").len() == 2);
    Ok(())
}

// A snapshot of a snapshot is limited by the commits that the first shows, not by its book's commits.
#[test]
fn looks_back_from_a_snapshot(rt: HostRuntime) -> Result<(), Fail> {
    let (store, mut pass) = one_pass(rt.alloc(), 4)?;
    check_make(&rt, &store, &mut pass, b"t", Ok(1));
    check_load(&rt, &store, &mut pass, Ok(2));
    check_load(&rt, &store, &mut pass, Ok(3));
    let newest = store
        .snapshot(&rt, &mut pass, None)
        .expect(&rt, "a snapshot");
    assert!(rt; newest.as_of(4).err() == Some(Failure::Refused(Future)));
    let second = newest.as_of(2).expect(&rt, "a snapshot");
    check_snapshot(&rt, &second, 2, 1);
    assert!(rt; second.as_of(3).err() == Some(Failure::Refused(Future)));
    let first = second.as_of(1).expect(&rt, "a snapshot");
    check_snapshot(&rt, &first, 1, 0);
    Ok(())
}
