//! Pieces that arrive in any order, twice, and from another job.

use crate::sums::{Sums, check_values};
use std::alloc::Global;
use std::process::Abort;
use std::test::Fail;
use work_core::{Collector, PairName, PairWork, Piece, Refused, Why};

// Returns the piece of a pair that the job has.
fn piece<'j>(
    rt: &(impl Abort + Alloc<A = Global>),
    job: &'j Sums<'j>,
    left: u32,
    right: u32,
) -> Result<Piece<'j, Sums<'j>>, Fail> {
    let name = PairName { left, right };
    assert!(rt; job.place(name).is_some());
    Ok(Piece::make(rt.alloc(), job, name)?)
}

// Checks that a piece is refused, for this reason, and is returned with its name.
fn check_refusal<'j>(
    rt: &impl Abort,
    answer: Result<(), Refused<'j, Sums<'j>>>,
    name: PairName,
    why: Why,
) {
    let Err(refused) = answer else {
        panic!(rt; "the piece is accepted")
    };
    assert_eq!(rt; refused.why, why);
    assert_eq!(rt; refused.piece.name(), name);
}

// Collects the pieces of a job of two times two pairs, with others that a changed job made.
fn collect<'j>(
    rt: &(impl Abort + Alloc<A = Global>),
    job: &'j Sums<'j>,
    changed: &'j Sums<'j>,
) -> Result<(), Fail> {
    let missing = PairName { left: 0, right: 1 };
    let mut collector = Collector::new(rt.alloc(), job)?;
    for (left, right) in [(1, 1), (0, 0), (1, 0)] {
        assert!(rt; collector.accept(piece(rt, job, left, right)?).is_ok());
    }
    let Err(unfinished) = collector.finish() else {
        panic!(rt; "a pair is missing")
    };
    assert_eq!(rt; unfinished.first, missing);
    let mut collector = unfinished.collector;
    let double = PairName { left: 1, right: 1 };
    check_refusal(
        rt,
        collector.accept(piece(rt, job, 1, 1)?),
        double,
        Why::Double,
    );
    check_refusal(
        rt,
        collector.accept(piece(rt, changed, 0, 1)?),
        missing,
        Why::Stranger,
    );
    let equal = PairName { left: 0, right: 0 };
    check_refusal(
        rt,
        collector.accept(piece(rt, changed, 0, 0)?),
        equal,
        Why::Double,
    );
    assert!(rt; collector.accept(piece(rt, job, 0, 1)?).is_ok());
    let Ok(outs) = collector.finish() else {
        panic!(rt; "all pieces are there")
    };
    check_values(rt, &outs, &[11, 21, 12, 22]);
    Ok(())
}

#[test]
fn refuses_strangers_and_doubles(rt: HostRuntime) -> Result<(), Fail> {
    let job = Sums {
        left: &[1, 2],
        right: &[10, 20],
        refused: None,
    };
    let changed = Sums {
        left: &[1, 2],
        right: &[10, 30],
        refused: None,
    };
    collect(&rt, &job, &changed)
}

// Accepts a piece of another job, whose pair has equal inputs, and refuses one of a pair that this job doesn't have.
fn take_from_another<'j>(
    rt: &(impl Abort + Alloc<A = Global>),
    job: &'j Sums<'j>,
    greater: &'j Sums<'j>,
) -> Result<(), Fail> {
    let mut collector = Collector::new(rt.alloc(), job)?;
    let beyond = PairName { left: 1, right: 0 };
    check_refusal(
        rt,
        collector.accept(piece(rt, greater, 1, 0)?),
        beyond,
        Why::Stranger,
    );
    assert!(rt; collector.accept(piece(rt, greater, 0, 0)?).is_ok());
    let Ok(outs) = collector.finish() else {
        panic!(rt; "all pieces are there")
    };
    check_values(rt, &outs, &[11]);
    Ok(())
}

#[test]
fn takes_a_pair_that_two_jobs_share(rt: HostRuntime) -> Result<(), Fail> {
    let job = Sums {
        left: &[1],
        right: &[10],
        refused: None,
    };
    let greater = Sums {
        left: &[1, 2],
        right: &[10],
        refused: None,
    };
    take_from_another(&rt, &job, &greater)
}
