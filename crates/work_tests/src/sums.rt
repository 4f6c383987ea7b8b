//! A job for tests: each pair is the sum of one number of each side.

ghost use Rattle.std.specs.Prelude.{◌≡◌, ℕ, ◌+◌, ◌*◌, ◌≤◌, ◌^◌, length, slice_index};
ghost use Rattle.work_core.specs.Limits.{pair_limit};
ghost use Rattle.grid_core.specs.Grid.{grid_name, grid_place};
ghost use Rattle.grid_core.specs.GridLaws.{grid_placed, grid_named};
ghost use Rattle.work_tests.specs.Values.{equal_prop};

use std::alloc::{AllocError, Global};
use std::process::Abort;
use work_core::{Outs, PairName, PairWork};

/// The sums of a number of the left side and one of the right, row by row. The run of the pair named by `refused`, if
/// there is one, is refused memory.
#[derive(Drop)]
pub struct Sums<'a> {
    pub left: &'a [u32],
    pub right: &'a [u32],
    pub refused: Option<PairName>,
    pub ghost few: { length left.now * length right.now ≤ pair_limit },
    pub ghost left_few: { length left.now ≤ 2 ^ 20 },
    pub ghost right_few: { length right.now ≤ 2 ^ 20 },
}

impl<'a> PairWork for Sums<'a> {
    type Out = u64;

    ghost Inputs = { ℕ × ℕ };

    ghost pairs = { λ w. length w.left.now * length w.right.now };

    ghost name_of = { λ w i. grid_name (length w.right.now) i };

    ghost place_of = { λ w p. grid_place (length w.left.now) (length w.right.now) p };

    ghost inputs_of = { λ w p. (slice_index w.left.now p.left, slice_index w.right.now p.right) };

    ghost IsValue = { λ x out. out ≡ x.0 + x.1 };

    ghost few = { λ w. w.few };

    ghost placed = { λ w i h. grid_placed (length w.left.now) (length w.right.now) i h };

    ghost named = { λ w p i e. grid_named (length w.left.now) (length w.right.now) p i e };

    ghost value_prop = { λ x o. equal_prop o (x.0 + x.1) };

    fn count(&self) -> u64 {
        self.left.len() as u64 * self.right.len() as u64
    }

    fn name(&self, i: u64) -> PairName {
        let n = self.right.len() as u64;
        PairName {
            left: (i / n) as u32,
            right: (i % n) as u32,
        }
    }

    fn place(&self, pair: PairName) -> Option<u64> {
        let (l, r) = (pair.left as usize, pair.right as usize);
        if l < self.left.len() && r < self.right.len() {
            Some((l * self.right.len() + r) as u64)
        } else {
            None
        }
    }

    fn run(&self, _alloc: Global, pair: PairName) -> Result<u64, AllocError> {
        if self.refused == Some(pair) {
            return Err(AllocError);
        }
        Ok(self.left[pair.left as usize] as u64 + self.right[pair.right as usize] as u64)
    }

    fn same(&self, other: &Self, pair: PairName) -> bool {
        let (l, r) = (pair.left as usize, pair.right as usize);
        self.place(pair).is_some()
            && other.place(pair).is_some()
            && self.left[l] == other.left[l]
            && self.right[r] == other.right[r]
    }
}

/// Checks that the values are exactly these, by number.
pub fn check_values(rt: &impl Abort, outs: &Outs<u64>, want: &[u64]) {
    assert_eq!(rt; outs.len(), want.len());
    for (i, value) in want.iter().enumerate() {
        assert_eq!(rt; outs.get(i), Some(value), "value {i}");
    }
}
