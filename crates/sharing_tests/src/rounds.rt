//! A long run of one caller, which keeps each snapshot while it makes the next change.

ghost use Rattle.std.specs.Prelude.{◌≤◌};
ghost use Rattle.store_core.specs.Passes.{IsPassOf};

use crate::changes::{check_load, check_make};
use crate::limits::{check_snapshot, one_pass};
use std::alloc::Global;
use std::process::Abort;
use std::sync::Wait;
use std::test::Fail;
use store_core::{Pass, Snapshot, Store};

const ROUNDS: u64 = 1_000;

// Adds a row, and checks that a snapshot and the log have it: the first commit made the table, and each earlier round
// added a row.
fn check_round(
    rt: &(impl Abort + Alloc<A = Global> + Wait),
    store: &Store,
    pass: &mut Pass,
    round: u64,
) -> Snapshot
    requires pass { IsPassOf store.now pass.old }
    requires round { round ≤ 1000 }
    ensures { IsPassOf store.now pass.new }
{
    check_load(rt, store, pass, Ok(round + 1));
    let snapshot = store.snapshot(rt, pass, None).expect(rt, "a snapshot");
    check_snapshot(rt, &snapshot, round + 1, round as usize);
    let log = store.log(rt, pass).expect(rt, "a log");
    assert!(rt; log.len() as u64 == round + 1);
    snapshot
}

// Checks that the snapshot of the round before is unchanged after this round.
fn check_kept(rt: &impl Abort, kept: &Option<Snapshot>, round: u64)
    requires { (1 ≤ round) × (round ≤ 1000) }
{
    match kept {
        Some(kept) => check_snapshot(rt, kept, round, round as usize - 1),
        None => assert!(rt; round == 1),
    }
}

fn check_rounds(rt: &(impl Abort + Alloc<A = Global> + Wait), store: &Store, pass: &mut Pass)
    requires { IsPassOf store.now pass.old }
    ensures { IsPassOf store.now pass.new }
{
    let mut kept = None;
    for round in 1..=ROUNDS {
        let next = check_round(rt, store, pass, round);
        check_kept(rt, &kept, round);
        kept = Some(next);
    }
}

#[test]
fn a_thousand_rounds_each_add_a_row(rt: HostRuntime) -> Result<(), Fail> {
    let (store, mut pass) = one_pass(rt.alloc(), 1 + 3 * ROUNDS)?;
    check_make(&rt, &store, &mut pass, b"t", Ok(1));
    check_rounds(&rt, &store, &mut pass);
    assert!(rt; pass.left() == 0);
    Ok(())
}
