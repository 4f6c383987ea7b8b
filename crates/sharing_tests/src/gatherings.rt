//! Four callers: one that has heard the notes of all others reads what each of them did.

ghost use Rattle.std.specs.Prelude.{◌≡◌, ◌+◌, ◌<◌, All, IfSome, vec_len};
ghost use Rattle.store_core.specs.Passes.{IsPassOf};

use crate::meetings::make_and_look;
use book_core::Entry;
use std::alloc::Global;
use std::process::Abort;
use std::sync::Wait;
use std::test::Fail;
use std::thread::{Threads, join};
use store_core::{Pass, Store};

// A store, and its four passes of three calls each.
#[derive(Drop)]
struct Four {
    store: Store,
    first: Pass,
    second: Pass,
    third: Pass,
    fourth: Pass,
    ghost of_first: { IsPassOf store first },
    ghost of_second: { IsPassOf store second },
    ghost of_third: { IsPassOf store third },
    ghost of_fourth: { IsPassOf store fourth },
}

// Takes the last of some passes of a store.
fn take_last(store: &Store, passes: &mut Vec<Pass>) -> Pass
    requires some { 0 < vec_len passes.old }
    requires each { All (λ pass. IsPassOf store.now pass) passes.old.items }
    ensures len { vec_len passes.new + 1 ≡ vec_len passes.old }
    ensures each { All (λ pass. IsPassOf store.now pass) passes.new.items }
    ensures taken { IsPassOf store.now result }
{
    match passes.pop() {
        Some(pass) => pass,
        None => unreachable!(),
    }
}

fn four_passes(alloc: Global) -> Result<Four, Fail> {
    let (store, mut passes) = Store::new(alloc, 4, 3)?;
    let fourth = take_last(&store, &mut passes);
    let third = take_last(&store, &mut passes);
    let second = take_last(&store, &mut passes);
    let first = take_last(&store, &mut passes);
    Ok(Four {
        store,
        first,
        second,
        third,
        fourth,
    })
}

// A pass, and the number of the commit that it made.
type Made = (Pass, u64);

// Runs two callers at once; each makes a table of its own.
fn make_two<R: Threads + Wait + Sync>(
    rt: &R,
    alloc: Global,
    store: &Store,
    passes: (Pass, Pass),
    tables: [&[u8]; 2],
) -> Option<(Made, Made)>
    requires { IsPassOf store.now passes.0 × IsPassOf store.now passes.1 }
    ensures { IfSome result (λ made. IsPassOf store.now made.0.0 × IsPassOf store.now made.1.0) }
{
    let (first, second) = passes;
    let (one, other) = join(
        rt,
        || make_and_look(rt, alloc, store, first, tables[0]),
        || make_and_look(rt, alloc, store, second, tables[1]),
    );
    match (one, other) {
        (Some(one), Some(other)) => Some((one, other)),
        _ => None,
    }
}

// Returns whether the numbers are 1 to 4, each once.
fn are_counted(numbers: &[u64; 4]) -> bool {
    (1..=4u64).all(|wanted| numbers.iter().filter(|number| **number == wanted).count() == 1)
}

// Returns whether the callers from 1 on made the commits with these numbers.
fn are_by(log: &[Entry], numbers: &[u64; 4]) -> bool {
    numbers.iter().zip(1u32..5).all(|(number, by)| log
        .iter()
        .any(|entry| entry.number == *number && entry.by == by))
}

// Lets a pass hear what another has seen.
fn tell(store: &Store, pass: &mut Pass, mut other: Pass)
    requires { IsPassOf store.now pass.old × IsPassOf store.now other }
    ensures { IsPassOf store.now pass.new }
{
    let note = store.note(&mut other);
    store.hear(pass, note);
}

// Checks the log that a pass reads: these are the numbers of the four callers' commits.
fn check_log(rt: &(impl Abort + Wait), store: &Store, pass: &mut Pass, numbers: &[u64; 4])
    requires { IsPassOf store.now pass.old }
    ensures { IsPassOf store.now pass.new }
{
    let log = store.log(rt, pass).expect(rt, "a log");
    assert!(rt; log.len() == 4);
    assert!(rt; are_by(log.as_slice(), numbers));
}

#[test]
fn who_has_heard_all_others_reads_what_each_did(rt: HostRuntime) -> Result<(), Fail> {
    let alloc = rt.alloc();
    let Four {
        store,
        first,
        second,
        third,
        fourth,
    } = four_passes(alloc)?;
    let (two, others) = join(
        &rt,
        || make_two(&rt, alloc, &store, (first, second), [b"a", b"b"]),
        || make_two(&rt, alloc, &store, (third, fourth), [b"c", b"d"]),
    );
    let (Some(((mut first, a), (second, b))), Some(((third, c), (fourth, d)))) = (two, others)
    else {
        panic!(rt; "a call was refused, or a snapshot lacks a table")
    };
    let numbers = [a, b, c, d];
    assert!(rt; are_counted(&numbers));
    tell(&store, &mut first, second);
    tell(&store, &mut first, third);
    tell(&store, &mut first, fourth);
    check_log(&rt, &store, &mut first, &numbers);
    assert!(rt; first.left() == 0);
    Ok(())
}
