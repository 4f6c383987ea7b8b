//! A join on a snapshot, while another caller commits a change, and while other threads query other snapshots.

ghost use Rattle.std.specs.Prelude.{IfOk};
ghost use Rattle.store_core.specs.Passes.{IsPassOf};

use crate::changes::{load, make};
use crate::limits::one_pass;
use crate::meetings::two_passes;
use period_core::{Period, Point};
use query_core::{JoinAnswer, JoinRow, Side, at, join};
use row_core::Name;
use std::alloc::Global;
use std::process::Abort;
use std::sync::Wait;
use std::sync::atomic::{AtomicU64, Ordering};
use std::test::Fail;
use std::thread;
use std::thread::Threads;
use store_core::{Pass, Snapshot, Store};
use table_core::{RowRef, SharedRows};
use work_core::{Gate, PairName};

// How often a thread checks how far another has come.
const TURNS: u64 = 10_000_000;

// Waits for a flag. Returns false if it isn't set before the checks are used up.
fn comes(flag: &AtomicU64) -> bool {
    for _ in 0..TURNS {
        if flag.load(Ordering::SeqCst) == 1 {
            return true;
        }
        thread::yield_now();
    }
    false
}

// Delays each pair of a join until another caller, or all others, have ended.
#[derive(Drop)]
struct Holds {
    entered: AtomicU64,
    ended: AtomicU64,
    failed: AtomicU64,
}

impl Holds {
    fn new() -> Holds {
        Holds {
            entered: AtomicU64::new(0),
            ended: AtomicU64::new(0),
            failed: AtomicU64::new(0),
        }
    }
}

impl Gate for Holds {
    fn enter(&self, _pair: PairName) {
        self.entered.store(1, Ordering::SeqCst);
        if !comes(&self.ended) {
            self.failed.store(1, Ordering::SeqCst);
        }
    }

    fn leave(&self, _pair: PairName) {}
}

// Joins a snapshot's table with itself.
fn join_itself<R: Threads + Sync>(
    rt: &R,
    alloc: Global,
    snapshot: &Snapshot,
    gate: &Holds,
) -> Option<JoinAnswer> {
    let table = Name::parse(b"t").ok()?;
    let (schema, rows) = (snapshot.schema(table).ok()?, snapshot.rows(table).ok()?);
    let side = Side {
        schema,
        rows: &rows,
    };
    join(rt, alloc, side, side, &[], 2, gate).ok()
}

// Returns how many rows a snapshot's table has, and how many its join with itself.
fn join_rows<R: Threads + Wait + Sync>(
    rt: &R,
    alloc: Global,
    store: &Store,
    mut pass: Pass,
    gate: &Holds,
) -> Option<(usize, usize)>
    requires { IsPassOf store.now pass }
{
    let snapshot = store.snapshot(rt, &mut pass, None).ok()?;
    let joined = join_itself(rt, alloc, &snapshot, gate)?;
    let rows = snapshot.rows(Name::parse(b"t").ok()?).ok()?;
    Some((rows.len(), joined.rows.len()))
}

// Waits until the join is delayed, commits a load and takes a snapshot. Returns its number, and how many rows it shows.
fn commit_and_look<R: Wait>(
    rt: &R,
    alloc: Global,
    store: &Store,
    mut pass: Pass,
    gate: &Holds,
) -> Option<(u64, usize)>
    requires { IsPassOf store.now pass }
{
    if !comes(&gate.entered) {
        return None;
    }
    store.commit(rt, &mut pass, load(alloc, b"t").ok()?).ok()?;
    let snapshot = store.snapshot(rt, &mut pass, None).ok()?;
    let rows = snapshot.rows(Name::parse(b"t").ok()?).ok()?;
    gate.ended.store(1, Ordering::SeqCst);
    Some((snapshot.number(), rows.len()))
}

// Returns a store whose table has one row, and its two passes.
fn one_row<R: Wait>(rt: &R, alloc: Global) -> Result<(Store, Pass, Pass), Fail>
    ensures { IfOk result (λ made. IsPassOf made.0 made.1 × IsPassOf made.0 made.2) }
{
    let (store, mut first, second) = two_passes(alloc)?;
    store.commit(rt, &mut first, make(alloc, b"t")?)?;
    store.commit(rt, &mut first, load(alloc, b"t")?)?;
    Ok((store, first, second))
}

#[test]
fn a_join_holds_no_commit_up(rt: HostRuntime) -> Result<(), Fail> {
    let alloc = rt.alloc();
    let (store, first, second) = one_row(&rt, alloc)?;
    let gate = Holds::new();
    let (joined, committed) = thread::join(
        &rt,
        || join_rows(&rt, alloc, &store, first, &gate),
        || commit_and_look(&rt, alloc, &store, second, &gate),
    );
    assert_eq!(rt; gate.failed.load(Ordering::SeqCst), 0);
    assert_eq!(rt; committed, Some((3, 2)));
    assert_eq!(rt; joined, Some((1, 1)));
    Ok(())
}

// Returns the rows of a snapshot's table that hold on the day of the tests' rows.
fn rows_of_day(alloc: Global, snapshot: &Snapshot) -> Option<SharedRows> {
    let table = Name::parse(b"t").ok()?;
    let point = Point::parse(b"2024-01-01").ok()?;
    let (schema, rows) = (snapshot.schema(table).ok()?, snapshot.rows(table).ok()?);
    let side = Side {
        schema,
        rows: &rows,
    };
    at(alloc, side, point).ok()
}

// Waits until the join is delayed, and queries two snapshots at once.
fn query_two<R: Threads + Sync>(
    rt: &R,
    alloc: Global,
    early: &Snapshot,
    late: &Snapshot,
    gate: &Holds,
) -> (Option<SharedRows>, Option<SharedRows>) {
    if !comes(&gate.entered) {
        return (None, None);
    }
    let found = thread::join(
        rt,
        || rows_of_day(alloc, early),
        || rows_of_day(alloc, late),
    );
    gate.ended.store(1, Ordering::SeqCst);
    found
}

// Returns the snapshots of a store's second and third commit, each of which added a row of one day.
fn two_snapshots<R: Wait>(rt: &R, alloc: Global) -> Result<(Snapshot, Snapshot), Fail> {
    let (store, mut first, mut second) = one_row(rt, alloc)?;
    store.commit(rt, &mut first, load(alloc, b"t")?)?;
    let early = store.snapshot(rt, &mut second, Some(2))?;
    let late = store.snapshot(rt, &mut second, None)?;
    Ok((early, late))
}

// Checks that `count` rows of the tests' day were found, with ids from 1 on.
fn check_rows(rt: &impl Abort, found: Option<SharedRows>, count: usize) {
    let rows = found.expect(rt, "rows");
    assert!(rt; rows.len() == count);
    for place in 0..rows.len() {
        assert!(rt; is_row(rows.at(place), place as u64 + 1));
    }
}

fn is_row(row: RowRef<'_>, id: u64) -> bool {
    row.id() == id && is_day(row.period()) && row.width() == 0
}

// Returns whether the period is the day of the tests' rows.
fn is_day(period: Period) -> bool {
    match (Point::parse(b"2024-01-01"), Point::parse(b"2024-01-02")) {
        (Ok(from), Ok(to)) => Period::new(from, to) == Ok(period),
        _ => false,
    }
}

// The pairs of a join of two rows of one day with themselves.
const PAIRS: [(u64, u64); 4] = [(1, 1), (1, 2), (2, 1), (2, 2)];

// Checks the ids of the rows that were joined.
fn check_pairs(rt: &impl Abort, joined: Option<JoinAnswer>, pairs: &[(u64, u64)]) {
    let rows = joined.expect(rt, "a join").rows;
    assert!(rt; rows.len() == pairs.len());
    assert!(rt;
        rows.as_slice()
            .iter()
            .zip(pairs)
            .all(|(row, pair)| is_pair(row, *pair))
    );
}

fn is_pair(row: &JoinRow, pair: (u64, u64)) -> bool {
    (row.left, row.right) == pair && is_day(row.period)
}

#[test]
fn a_join_holds_no_query_of_other_snapshots_up(rt: HostRuntime) -> Result<(), Fail> {
    let alloc = rt.alloc();
    let (early, late) = two_snapshots(&rt, alloc)?;
    assert!(rt; (early.number(), early.commits()) == (2, 3));
    let gate = Holds::new();
    let (joined, (of_early, of_late)) = thread::join(
        &rt,
        || join_itself(&rt, alloc, &late, &gate),
        || query_two(&rt, alloc, &early, &late, &gate),
    );
    assert!(rt; gate.failed.load(Ordering::SeqCst) == 0);
    check_pairs(&rt, joined, &PAIRS);
    check_rows(&rt, of_early, 1);
    check_rows(&rt, of_late, 2);
    Ok(())
}

// Delays two joins, of an earlier snapshot and of a later one.
#[derive(Drop)]
struct TwoHolds {
    early: Holds,
    late: Holds,
}

// Joins the tables of two snapshots with themselves, at once.
fn join_two<R: Threads + Sync>(
    rt: &R,
    alloc: Global,
    early: &Snapshot,
    late: &Snapshot,
    gates: &TwoHolds,
) -> (Option<JoinAnswer>, Option<JoinAnswer>) {
    thread::join(
        rt,
        || join_itself(rt, alloc, early, &gates.early),
        || join_itself(rt, alloc, late, &gates.late),
    )
}

// Waits until both joins are delayed, commits a load and takes a snapshot, and only then lets the joins continue.
// Returns the snapshot's number, and how many rows it shows.
fn commit_beside<R: Wait>(
    rt: &R,
    alloc: Global,
    store: &Store,
    pass: Pass,
    gates: &TwoHolds,
) -> Option<(u64, usize)>
    requires { IsPassOf store.now pass }
{
    if !comes(&gates.early.entered) {
        return None;
    }
    let looked = commit_and_look(rt, alloc, store, pass, &gates.late);
    gates.early.ended.store(1, Ordering::SeqCst);
    looked
}

#[test]
fn two_held_joins_end_with_the_rows_of_their_snapshots(rt: HostRuntime) -> Result<(), Fail> {
    let alloc = rt.alloc();
    let (store, mut pass) = one_pass(alloc, 7)?;
    store.commit(&rt, &mut pass, make(alloc, b"t")?)?;
    store.commit(&rt, &mut pass, load(alloc, b"t")?)?;
    let early = store.snapshot(&rt, &mut pass, None)?;
    store.commit(&rt, &mut pass, load(alloc, b"t")?)?;
    let late = store.snapshot(&rt, &mut pass, None)?;
    let gates = TwoHolds {
        early: Holds::new(),
        late: Holds::new(),
    };
    let ((of_early, of_late), committed) = thread::join(
        &rt,
        || join_two(&rt, alloc, &early, &late, &gates),
        || commit_beside(&rt, alloc, &store, pass, &gates),
    );
    assert!(rt; gates.early.failed.load(Ordering::SeqCst) == 0);
    assert!(rt; gates.late.failed.load(Ordering::SeqCst) == 0);
    assert_eq!(rt; committed, Some((4, 3)));
    check_pairs(&rt, of_early, &[(1, 1)]);
    check_pairs(&rt, of_late, &PAIRS);
    Ok(())
}
