//! Runs of jobs on some workers: their values, and the pairs that the gate saw.

ghost use Rattle.std.specs.Prelude.{◌<◌, length};

use crate::sums::{Sums, check_values};
use std::alloc::Global;
use std::process::Abort;
use std::sync::atomic::{AtomicU64, Ordering};
use std::test::Fail;
use std::thread::Threads;
use work_core::{Gate, OpenGate, PairName, run_pairs};

// Seven numbers. Each makes a pair with the number 10.
pub(crate) const SEVEN: &[u32] = &[1, 2, 3, 4, 5, 6, 7];

pub(crate) const TEN: &[u32] = &[10];

// Counts how often it was entered and left, by the pair's left half.
#[derive(Drop)]
struct Counts {
    entered: [AtomicU64; 7],
    left: [AtomicU64; 7],
}

pub(crate) fn zeros() -> [AtomicU64; 7] {
    [
        AtomicU64::new(0),
        AtomicU64::new(0),
        AtomicU64::new(0),
        AtomicU64::new(0),
        AtomicU64::new(0),
        AtomicU64::new(0),
        AtomicU64::new(0),
    ]
}

fn count(counts: &[AtomicU64; 7], pair: PairName) {
    if let Some(count) = counts.get(pair.left as usize) {
        count.fetch_add(1, Ordering::SeqCst);
    }
}

// Checks how often each pair was counted.
fn check_counts(rt: &impl Abort, counts: &[AtomicU64; 7], want: [u64; 7]) {
    for (count, want) in counts.iter().zip(want) {
        assert_eq!(rt; count.load(Ordering::SeqCst), want);
    }
}

impl Gate for Counts {
    fn enter(&self, pair: PairName) {
        count(&self.entered, pair);
    }

    fn leave(&self, pair: PairName) {
        count(&self.left, pair);
    }
}

// Delays one pair until `others` other pairs have left, for a limited time.
#[derive(Drop)]
struct Holds {
    held: PairName,
    others: u64,
    left: AtomicU64,
    turns: u64,
    failed: AtomicU64,
}

impl Gate for Holds {
    fn enter(&self, pair: PairName) {
        if pair != self.held {
            return;
        }
        for _ in 0..self.turns {
            if self.left.load(Ordering::SeqCst) == self.others {
                return;
            }
            std::thread::yield_now();
        }
        self.failed.store(1, Ordering::SeqCst);
    }

    fn leave(&self, pair: PairName) {
        if pair != self.held {
            self.left.fetch_add(1, Ordering::SeqCst);
        }
    }
}

#[test]
fn runs_each_pair_once_and_gives_its_value_by_number(rt: HostRuntime) -> Result<(), Fail> {
    let job = Sums {
        left: SEVEN,
        right: TEN,
        refused: None,
    };
    for workers in [1, 2, 7, 64] {
        let gate = Counts {
            entered: zeros(),
            left: zeros(),
        };
        let outs = run_pairs(&rt, rt.alloc(), &job, workers, &gate)?;
        check_values(&rt, &outs, &[11, 12, 13, 14, 15, 16, 17]);
        check_counts(&rt, &gate.entered, [1, 1, 1, 1, 1, 1, 1]);
        check_counts(&rt, &gate.left, [1, 1, 1, 1, 1, 1, 1]);
    }
    Ok(())
}

#[test]
fn numbers_pairs_row_by_row(rt: HostRuntime) -> Result<(), Fail> {
    let job = Sums {
        left: &[1, 2],
        right: &[10, 20, 30],
        refused: None,
    };
    let outs = run_pairs(&rt, rt.alloc(), &job, 3, &OpenGate)?;
    check_values(&rt, &outs, &[11, 21, 31, 12, 22, 32]);
    Ok(())
}

// Checks the values of a job on two workers. One is delayed at a pair until all others have left.
fn check_held(
    rt: &(impl Abort + Alloc<A = Global> + Threads + Sync),
    job: &Sums<'_>,
    held: u32,
    want: &[u64],
) -> Result<(), Fail>
    requires { 0 < length want.now }
{
    let gate = Holds {
        held: PairName {
            left: held,
            right: 0,
        },
        others: want.len() as u64 - 1,
        left: AtomicU64::new(0),
        turns: 10_000_000,
        failed: AtomicU64::new(0),
    };
    let outs = run_pairs(rt, rt.alloc(), job, 2, &gate)?;
    check_values(rt, &outs, want);
    assert_eq!(rt; gate.failed.load(Ordering::SeqCst), 0, "with {held} held");
    Ok(())
}

// A delayed worker keeps no other pair from being run, so pairs have no fixed worker.
#[test]
fn any_pair_may_wait_for_the_others(rt: HostRuntime) -> Result<(), Fail> {
    let job = Sums {
        left: SEVEN,
        right: TEN,
        refused: None,
    };
    for held in 0..7 {
        check_held(&rt, &job, held, &[11, 12, 13, 14, 15, 16, 17])?;
    }
    Ok(())
}

// With one worker for each pair, each of two pairs is run while the other is delayed.
#[test]
fn of_two_pairs_either_may_wait_for_the_other(rt: HostRuntime) -> Result<(), Fail> {
    let job = Sums {
        left: &[1, 2],
        right: TEN,
        refused: None,
    };
    for held in 0..2 {
        check_held(&rt, &job, held, &[11, 12])?;
    }
    Ok(())
}

#[test]
fn no_pairs_give_no_values(rt: HostRuntime) -> Result<(), Fail> {
    let job = Sums {
        left: &[],
        right: TEN,
        refused: None,
    };
    for workers in [1, 64] {
        assert!(rt; run_pairs(&rt, rt.alloc(), &job, workers, &OpenGate)?.is_empty());
    }
    Ok(())
}

// After a refused run its worker runs no further pair, and the call is out of memory.
#[test]
fn a_refused_run_is_out_of_memory(rt: HostRuntime) {
    let job = Sums {
        left: SEVEN,
        right: TEN,
        refused: Some(PairName { left: 2, right: 0 }),
    };
    for workers in [2, 7, 64] {
        assert!(rt; run_pairs(&rt, rt.alloc(), &job, workers, &OpenGate).is_err());
    }
    let gate = Counts {
        entered: zeros(),
        left: zeros(),
    };
    assert!(rt; run_pairs(&rt, rt.alloc(), &job, 1, &gate).is_err());
    check_counts(&rt, &gate.entered, [1, 1, 1, 0, 0, 0, 0]);
    check_counts(&rt, &gate.left, [1, 1, 1, 0, 0, 0, 0]);
}
