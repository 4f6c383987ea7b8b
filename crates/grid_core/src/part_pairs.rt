//! The pairs of two divisions' parts, as a job for workers.

ghost use Rattle.std.specs.Prelude.{◌≡◌, ◌*◌, ◌≤◌, ⊤, List, All, IfOk, length};
ghost use Rattle.dip_core.specs.declared.item.Item.{Item};
ghost use Rattle.dip_core.specs.Item.{IsChain, item_limit};
ghost use Rattle.dip_core.specs.Division.{all_of, part_at};
ghost use Rattle.grid_core.specs.Grid.{grid_name, grid_place};
ghost use Rattle.grid_core.specs.GridLaws.{grid_placed, grid_named, few_pairs, squashed_prop};

use crate::parts::{name_in, place_in, same_part};
use dip_core::{Division, Part};
use period_core::NoMemory;
use std::alloc::{AllocError, Global};
use std::marker::PhantomData;
use work_core::{PairName, PairWork};

/// The work on a pair of a left part and a right part.
pub trait PartWork: Sync {
    /// The result for a pair of parts.
    type Out: Send + Drop;

    // The meaning of a result for two parts.
    ghost IsValue: { List Item → List Item → Self.Out → Type 0 };

    /// Returns the result for two parts.
    fn find(alloc: Global, left: Part<'_>, right: Part<'_>) -> Result<Self::Out, NoMemory>
        ensures { IfOk result (IsValue left.entry.items.now right.entry.items.now) };
}

/// All pairs of a part of one division and a part of another. Pair (l, r) is left part l with right part r, and pairs
/// are numbered by left part and then by right part. A pair's value is the result of `W` for its two parts.
pub struct PartPairs<'a, W> {
    /// The division of the left side.
    pub left: &'a Division,
    /// The division of the right side.
    pub right: &'a Division,
    work: PhantomData<W>,
    pub ghost left_few: { length left.now ≤ item_limit },
    pub ghost right_few: { length right.now ≤ item_limit },
    pub ghost left_small: { length (all_of left.now) ≤ item_limit },
    pub ghost right_small: { length (all_of right.now) ≤ item_limit },
    pub ghost left_chained: { All IsChain left.now },
    pub ghost right_chained: { All IsChain right.now },
}

impl<'a, W> Copy for PartPairs<'a, W> {}

impl<'a, W> Clone for PartPairs<'a, W> {
    ghost is_clone = { λ w copy. copy ≡ w };

    ghost is_infallible = { λ _. ⊤ };

    fn clone(&self) -> Result<Self, AllocError> {
        Ok(*self)
    }
}

impl<'a, W> PartPairs<'a, W> {
    /// Returns the pairs of the two divisions.
    pub fn new(left: &'a Division, right: &'a Division) -> PartPairs<'a, W>
        ensures left { result.left.now ≡ left.entry.now }
        ensures right { result.right.now ≡ right.entry.now }
    {
        let _ = left.parts();
        let _ = right.parts();
        PartPairs {
            left,
            right,
            work: PhantomData,
        }
    }
}

impl<'a, W: PartWork> PairWork for PartPairs<'a, W> {
    type Out = W::Out;

    ghost Inputs = { List Item × List Item };

    ghost pairs = { λ w. length w.left.now * length w.right.now };

    ghost name_of = { λ w i. grid_name (length w.right.now) i };

    ghost place_of = { λ w p. grid_place (length w.left.now) (length w.right.now) p };

    ghost inputs_of = { λ w p. (part_at w.left.now p.left, part_at w.right.now p.right) };

    ghost IsValue = { λ x out. ∥ W.IsValue x.0 x.1 out ∥₁ };

    ghost few = { λ w. few_pairs (length w.left.now) (length w.right.now) w.left_few w.right_few };

    ghost placed = { λ w i h. grid_placed (length w.left.now) (length w.right.now) i h };

    ghost named = { λ w p i e. grid_named (length w.left.now) (length w.right.now) p i e };

    ghost value_prop = { λ x o. squashed_prop (W.IsValue x.0 x.1 o) };

    fn count(&self) -> u64 {
        self.left.parts() as u64 * self.right.parts() as u64
    }

    fn name(&self, i: u64) -> PairName {
        name_in(self.left, self.right, i)
    }

    fn place(&self, pair: PairName) -> Option<u64> {
        place_in(self.left, self.right, pair)
    }

    fn run(&self, alloc: Global, pair: PairName) -> Result<W::Out, NoMemory> {
        W::find(
            alloc,
            self.left.part(pair.left),
            self.right.part(pair.right),
        )
    }

    fn same(&self, other: &Self, pair: PairName) -> bool {
        self.place(pair).is_some()
            && other.place(pair).is_some()
            && same_part(self.left, other.left, pair.left)
            && same_part(self.right, other.right, pair.right)
    }
}
