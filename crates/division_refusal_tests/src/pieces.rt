//! Collects the pieces of a job's pairs in any order, and runs all its pairs.

ghost use Rattle.std.specs.Prelude.{◌<◌, ◌≤◌};

use crate::items::item;
use dip_core::{Division, Item, create_dip};
use join_core::{JoinOut, JoinPairs};
use refusal_core::{Ended, Fault, holds, take_all, try_each};
use std::alloc::Global;
use std::process::Abort;
use std::test::Fail;
use std::thread::Threads;
use work_core::{Collector, OpenGate, Outs, PairName, PairWork, Piece, Why, run_pairs};

// The pair that is collected last, and the other pairs.
const LAST: PairName = PairName { left: 0, right: 1 };

const OTHERS: [PairName; 3] = [
    PairName { left: 1, right: 1 },
    PairName { left: 0, right: 0 },
    PairName { left: 1, right: 0 },
];

// Divides the items, which need two parts.
fn divide(rt: &(impl Abort + Alloc<A = Global> + Threads + Sync), items: &[Item]) -> Division {
    assert!(rt; items.len() <= 1_000_000);
    let items = Vec::from_slice(rt.alloc(), items).expect(rt, "memory");
    let division = create_dip(rt, rt.alloc(), items, 4).expect(rt, "memory");
    assert!(rt; division.parts() == 2);
    division
}

// Divides the left side: two items that overlap.
fn divide_left(rt: &(impl Abort + Alloc<A = Global> + Threads + Sync)) -> Division {
    divide(rt, &[item(rt, 1, 1, 10, 1), item(rt, 2, 5, 8, 2)])
}

// Divides the right side: three items. The third overlaps the second and has this class.
fn divide_right(rt: &(impl Abort + Alloc<A = Global> + Threads + Sync), class: u64) -> Division {
    let items = [
        item(rt, 1, 3, 6, 1),
        item(rt, 2, 6, 20, 1),
        item(rt, 3, 7, 8, class),
    ];
    divide(rt, &items)
}

// Returns the piece of one of the job's pairs.
fn piece<'j, W: PairWork>(
    alloc: Global,
    job: &'j W,
    name: PairName,
) -> Result<Piece<'j, W>, Ended> {
    holds(job.place(name).is_some())?;
    Ok(Piece::make(alloc, job, name)?)
}

// Checks the values of the four pairs: two hits, none, none and one.
fn check_values(outs: &Outs<JoinOut>) -> Result<(), Ended> {
    holds(outs.len() == 4)?;
    for (number, want) in [(0, 2), (1, 0), (2, 0), (3, 1)] {
        let out = outs.get(number).ok_or(Ended::Wrong)?;
        holds(out.hits.len() == want)?;
    }
    Ok(())
}

// Checks that the collector refuses the job's piece for this reason.
fn refuse<'j, W: PairWork>(
    alloc: Global,
    collector: &mut Collector<'j, W>,
    job: &'j W,
    name: PairName,
    why: Why,
) -> Result<(), Ended> {
    match collector.accept(piece(alloc, job, name)?) {
        Ok(()) => Err(Ended::Wrong),
        Err(refused) => holds(refused.why == why && refused.piece.name() == name),
    }
}

// Collects all pieces except the last one. The other job differs in its inputs.
fn collect_others<'j, W: PairWork>(
    alloc: Global,
    job: &'j W,
    other: &'j W,
) -> Result<Collector<'j, W>, Ended> {
    let mut collector = Collector::new(alloc, job)?;
    for name in OTHERS {
        holds(collector.accept(piece(alloc, job, name)?).is_ok())?;
    }
    refuse(alloc, &mut collector, job, OTHERS[0], Why::Double)?;
    refuse(alloc, &mut collector, other, OTHERS[1], Why::Double)?;
    refuse(alloc, &mut collector, other, LAST, Why::Stranger)?;
    Ok(collector)
}

// Collects all pieces. Checks that finishing before the last one fails.
fn collect<'j>(
    alloc: Global,
    job: &'j JoinPairs<'j>,
    other: &'j JoinPairs<'j>,
) -> Result<(), Ended> {
    let Err(unfinished) = collect_others(alloc, job, other)?.finish() else {
        return Err(Ended::Wrong);
    };
    holds(unfinished.first == LAST)?;
    let mut collector = unfinished.collector;
    holds(collector.accept(piece(alloc, job, LAST)?).is_ok())?;
    match collector.finish() {
        Ok(outs) => check_values(&outs),
        Err(_) => Err(Ended::Wrong),
    }
}

#[test]
fn a_refused_piece_is_made_later(rt: HostRuntime) -> Result<(), Fault> {
    let left = divide_left(&rt);
    let (right, changed) = (divide_right(&rt, 2), divide_right(&rt, 1));
    let job = JoinPairs::new(&left, &right);
    let other = JoinPairs::new(&left, &changed);
    try_each(&rt, |alloc| collect(alloc, &job, &other))
}

// Runs all pairs with this number of workers.
fn run<R: Threads + Sync>(
    rt: &R,
    alloc: Global,
    job: &JoinPairs<'_>,
    workers: u32,
) -> Result<(), Ended>
    requires { (0 < workers) × (workers ≤ 64) }
{
    check_values(&run_pairs(rt, alloc, job, workers, &OpenGate)?)
}

#[test]
fn a_run_is_out_of_memory_or_whole(rt: HostRuntime) -> Result<(), Fault> {
    let (left, right) = (divide_left(&rt), divide_right(&rt, 2));
    let job = JoinPairs::new(&left, &right);
    try_each(&rt, |alloc| run(&rt, alloc, &job, 1))?;
    try_each(&rt, |alloc| run(&rt, alloc, &job, 4))
}

// Needs no memory once the collector and the pieces are made.
#[test]
fn collecting_needs_no_memory(rt: HostRuntime) -> Result<(), Fail> {
    let alloc = rt.alloc();
    let (left, right) = (divide_left(&rt), divide_right(&rt, 2));
    let job = JoinPairs::new(&left, &right);
    let mut collector = Collector::new(alloc, &job)?;
    let mut pieces = Vec::new(alloc);
    for name in OTHERS {
        pieces.push(piece(alloc, &job, name)?)?;
    }
    pieces.push(piece(alloc, &job, LAST)?)?;
    let taken = take_all(alloc)?;
    let mut accepted = 0u32;
    for piece in pieces {
        accepted = accepted.saturating_add(collector.accept(piece).is_ok() as u32);
    }
    let outs = collector.finish();
    let refused = Vec::<u8>::with_capacity(alloc, 1).is_err();
    drop(taken);
    assert!(rt; accepted == 4 && refused);
    let Ok(outs) = outs else {
        panic!(rt; "all pieces are there")
    };
    check_values(&outs)?;
    Ok(())
}
