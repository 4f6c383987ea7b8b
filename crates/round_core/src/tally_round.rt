//! Lists of steps in twos, as a job for workers.

ghost use Rattle.std.specs.Prelude.{◌≡◌, ◌↔◌, ◌/◌, ◌+◌, ◌<◌, ◌≤◌, length, IsTrue, IfOk};
ghost use Rattle.dip_core.specs.Item.{item_limit};
ghost use Rattle.merge_core.specs.Steps.{StepList, IsBoth};
ghost use Rattle.round_core.specs.Together.{all_weight};
ghost use Rattle.round_core.specs.TwoLaws.{both_prop, few_twos, two_named, two_placed};
ghost use Rattle.round_core.specs.Twos.{list_at, two_name, two_place};

use merge_core::{Step, Steps, combine};
use period_core::NoMemory;
use std::alloc::Global;
use work_core::{PairName, PairWork};

/// At most 1,000,000 lists of steps, with at most 1,000,000 items in total, in twos. Pair i is lists 2i and 2i + 1,
/// and its value is their sum. An odd last list is in no pair.
#[derive(Clone, Copy)]
pub struct TallyRound<'a> {
    /// The lists.
    pub lists: &'a [Steps],
    pub ghost few: { length lists.now ≤ item_limit },
    pub ghost light: { all_weight lists.now ≤ item_limit },
}

impl<'a> TallyRound<'a> {
    /// Returns the lists in twos.
    pub fn new(lists: &'a [Steps]) -> TallyRound<'a>
        requires few { length lists.now ≤ item_limit }
        requires light { all_weight lists.now ≤ item_limit }
        ensures { result.lists.now ≡ lists.entry.now }
    {
        TallyRound { lists }
    }
}

impl<'a> PairWork for TallyRound<'a> {
    type Out = Steps;

    ghost Inputs = { StepList × StepList };

    ghost pairs = { λ w. length w.lists.now / 2 };

    ghost name_of = { λ w i. two_name i };

    ghost place_of = { λ w p. two_place (length w.lists.now) p };

    ghost inputs_of = { λ w p. (list_at w.lists.now p.left, list_at w.lists.now p.right) };

    ghost IsValue = { λ x steps. IsBoth x.0 x.1 steps };

    ghost few = { λ w. few_twos (length w.lists.now) w.few };

    ghost placed = { λ w i h. two_placed (length w.lists.now) i h };

    ghost named = { λ w p i e. two_named (length w.lists.now) p i e };

    ghost value_prop = { λ x o. both_prop x.0 x.1 o };

    fn count(&self) -> u64 {
        (self.lists.len() / 2) as u64
    }

    fn name(&self, i: u64) -> PairName {
        let left = (i * 2) as u32;
        PairName {
            left,
            right: left + 1,
        }
    }

    fn place(&self, pair: PairName) -> Option<u64> {
        let number = pair.right as u64 / 2;
        if number < self.count() && self.name(number) == pair {
            Some(number)
        } else {
            None
        }
    }

    fn run(&self, alloc: Global, pair: PairName) -> Result<Steps, NoMemory> {
        combine_two(alloc, self.lists, pair)
    }

    fn same(&self, other: &Self, pair: PairName) -> bool {
        self.place(pair).is_some()
            && other.place(pair).is_some()
            && same_at(self.lists, other.lists, pair.left)
            && same_at(self.lists, other.lists, pair.right)
    }
}

/// Returns the sum of two of the lists.
fn combine_two(alloc: Global, lists: &[Steps], pair: PairName) -> Result<Steps, NoMemory>
    requires light { all_weight lists.now ≤ item_limit }
    requires order { pair.left < pair.right }
    requires within { pair.right < length lists.now }
    ensures { IfOk result (IsBoth (list_at lists.now pair.left) (list_at lists.now pair.right)) }
{
    combine(
        alloc,
        &lists[pair.left as usize],
        &lists[pair.right as usize],
    )
}

/// Returns whether both sides have the same list at index `place`.
fn same_at(some: &[Steps], others: &[Steps], place: u32) -> bool
    requires some { place < length some.now }
    requires others { place < length others.now }
    ensures { IsTrue result ↔ (list_at some.now place ≡ list_at others.now place) }
{
    same_list(&some[place as usize], &others[place as usize])
}

/// Returns whether two lists of steps are equal.
fn same_list(one: &Steps, other: &Steps) -> bool
    ensures { IsTrue result ↔ (one.now ≡ other.now) }
{
    one.weight() == other.weight() && same_steps(one.steps(), other.steps())
}

/// Returns whether steps are equal, one by one.
fn same_steps(some: &[Step], others: &[Step]) -> bool
    ensures { IsTrue result ↔ (some.now ≡ others.now) }
{
    some == others
}
