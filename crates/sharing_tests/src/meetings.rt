//! Callers that meet: one has then seen all that the other has seen.

ghost use Rattle.std.specs.Prelude.{IfOk, IfSome};
ghost use Rattle.store_core.specs.Passes.{IsPassOf};

use crate::changes::{check_make, make};
use book_core::Entry;
use row_core::Name;
use std::alloc::Global;
use std::sync::Wait;
use std::test::Fail;
use std::thread::join;
use store_core::{Pass, Store, StoreRefused};

// Returns a store with two passes of three calls each.
pub(crate) fn two_passes(alloc: Global) -> Result<(Store, Pass, Pass), Fail>
    ensures { IfOk result (λ made. IsPassOf made.0 made.1 × IsPassOf made.0 made.2) }
{
    let (store, mut passes) = Store::new(alloc, 2, 3)?;
    match (passes.pop(), passes.pop()) {
        (Some(second), Some(first)) => Ok((store, first, second)),
        _ => unreachable!(),
    }
}

// Makes a table, and takes a snapshot that has it. Returns the pass and the commit's number.
pub(crate) fn make_and_look<R: Wait>(
    rt: &R,
    alloc: Global,
    store: &Store,
    mut pass: Pass,
    table: &[u8],
) -> Option<(Pass, u64)>
    requires { IsPassOf store.now pass }
    ensures { IfSome result (λ made. IsPassOf store.now made.0) }
{
    let number = store.commit(rt, &mut pass, make(alloc, table).ok()?).ok()?;
    let snapshot = store.snapshot(rt, &mut pass, None).ok()?;
    if snapshot.number() < number || snapshot.schema(Name::parse(table).ok()?).is_err() {
        return None;
    }
    Some((pass, number))
}

// Returns whether the first caller made that commit only, and the second all others.
pub(crate) fn are_by(log: &[Entry], number: u64) -> bool {
    log.iter().all(|entry| entry.by == if entry.number == number { 1 } else { 2 })
}

#[test]
fn two_callers_stand_in_one_history(rt: HostRuntime) -> Result<(), Fail> {
    let alloc = rt.alloc();
    let (store, first, second) = two_passes(alloc)?;
    let (one, other) = join(
        &rt,
        || make_and_look(&rt, alloc, &store, first, b"a"),
        || make_and_look(&rt, alloc, &store, second, b"b"),
    );
    let (Some((mut first, a)), Some((mut second, b))) = (one, other) else {
        panic!(rt; "a call was refused, or a snapshot lacks a table")
    };
    assert!(rt; a.min(b) == 1);
    assert!(rt; a.max(b) == 2);
    let note = store.note(&mut second);
    store.hear(&mut first, note);
    let log = store.log(&rt, &mut first).expect(&rt, "a log");
    assert!(rt; log.len() == 2);
    assert!(rt; are_by(log.as_slice(), a));
    assert!(rt; first.left() == 0);
    check_make(&rt, &store, &mut first, b"c", Err(StoreRefused::PassSpent));
    Ok(())
}

#[test]
fn a_pass_hears_its_own_note(rt: HostRuntime) -> Result<(), Fail> {
    let (store, mut first, _) = two_passes(rt.alloc())?;
    check_make(&rt, &store, &mut first, b"a", Ok(1));
    let note = store.note(&mut first);
    check_make(&rt, &store, &mut first, b"b", Ok(2));
    store.hear(&mut first, note);
    assert!(rt; first.left() == 1);
    let log = store.log(&rt, &mut first).expect(&rt, "a log");
    assert!(rt; log.len() == 2);
    Ok(())
}
