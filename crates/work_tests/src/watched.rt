//! A job that checks whether each of its runs is between the two calls of its gate.

ghost use Rattle.std.specs.Prelude.{◌≡◌, ℕ, ◌+◌, ◌*◌, length, slice_index};
ghost use Rattle.grid_core.specs.Grid.{grid_name, grid_place};
ghost use Rattle.grid_core.specs.GridLaws.{grid_placed, grid_named};
ghost use Rattle.work_tests.specs.Values.{equal_prop};

use crate::runs::{SEVEN, TEN, zeros};
use crate::sums::{Sums, check_values};
use std::alloc::{AllocError, Global};
use std::sync::atomic::{AtomicU64, Ordering};
use std::test::Fail;
use work_core::{Gate, PairName, PairWork, run_pairs};

// The stage of a pair: after 0 it is entered, run and left.
const ENTERED: u64 = 1;

const RUN: u64 = 2;

const LEFT: u64 = 3;

// The stage of each pair, by its left half. A step fails if it doesn't follow the one before.
#[derive(Drop)]
struct Stages {
    stages: [AtomicU64; 7],
    failed: AtomicU64,
}

impl Stages {
    fn new() -> Stages {
        Stages {
            stages: zeros(),
            failed: AtomicU64::new(0),
        }
    }

    // Moves a pair to a stage. The step fails unless the pair was at the stage before.
    fn step(&self, pair: PairName, stage: u64) {
        let before = match self.stages.get(pair.left as usize) {
            Some(place) => place.swap(stage, Ordering::SeqCst),
            None => LEFT,
        };
        if before.checked_add(1) != Some(stage) {
            self.failed.store(1, Ordering::SeqCst);
        }
    }

    // Returns whether all pairs have left, and no step has failed.
    fn are_left(&self) -> bool {
        self.failed.load(Ordering::SeqCst) == 0
            && self
                .stages
                .iter()
                .all(|stage| stage.load(Ordering::SeqCst) == LEFT)
    }
}

impl Gate for Stages {
    fn enter(&self, pair: PairName) {
        self.step(pair, ENTERED);
    }

    fn leave(&self, pair: PairName) {
        self.step(pair, LEFT);
    }
}

// Sums whose runs are steps of their pairs.
#[derive(Drop)]
struct Watched<'a> {
    sums: Sums<'a>,
    stages: &'a Stages,
}

impl<'a> PairWork for Watched<'a> {
    type Out = u64;

    ghost Inputs = { ℕ × ℕ };

    ghost pairs = { λ w. length w.sums.left.now * length w.sums.right.now };

    ghost name_of = { λ w i. grid_name (length w.sums.right.now) i };

    ghost place_of = { λ w p. grid_place (length w.sums.left.now) (length w.sums.right.now) p };

    ghost inputs_of = { λ w p.
        (slice_index w.sums.left.now p.left, slice_index w.sums.right.now p.right) };

    ghost IsValue = { λ x out. out ≡ x.0 + x.1 };

    ghost few = { λ w. w.sums.few };

    ghost placed = { λ w i h. grid_placed (length w.sums.left.now) (length w.sums.right.now) i h };

    ghost named = { λ w p i e. grid_named (length w.sums.left.now)
        (length w.sums.right.now) p i e };

    ghost value_prop = { λ x o. equal_prop o (x.0 + x.1) };

    fn count(&self) -> u64 {
        self.sums.count()
    }

    fn name(&self, i: u64) -> PairName {
        self.sums.name(i)
    }

    fn place(&self, pair: PairName) -> Option<u64> {
        self.sums.place(pair)
    }

    fn run(&self, alloc: Global, pair: PairName) -> Result<u64, AllocError> {
        self.stages.step(pair, RUN);
        self.sums.run(alloc, pair)
    }

    fn same(&self, other: &Self, pair: PairName) -> bool {
        self.sums.same(&other.sums, pair)
    }
}

#[test]
fn each_run_stands_between_the_calls_of_its_gate(rt: HostRuntime) -> Result<(), Fail> {
    for workers in [1, 2, 7, 64] {
        let stages = Stages::new();
        let job = Watched {
            sums: Sums {
                left: SEVEN,
                right: TEN,
                refused: None,
            },
            stages: &stages,
        };
        let outs = run_pairs(&rt, rt.alloc(), &job, workers, &stages)?;
        check_values(&rt, &outs, &[11, 12, 13, 14, 15, 16, 17]);
        assert!(rt; stages.are_left());
    }
    Ok(())
}
