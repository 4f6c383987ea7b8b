//! Tallies of items, instant by instant.

ghost use Rattle.std.specs.Prelude.{◌≡◌, ◌==◌, ◌+◌, ◌++◌, ◌≤◌, List, IfOk, length, slice_get};
ghost use Rattle.dip_core.specs.declared.item.Item.{Item};
ghost use Rattle.dip_core.specs.Item.{item_limit};
ghost use Rattle.merge_core.specs.Steps.{tally_at, IsTallyHeldAt, IsStepListOf, IsBoth, IsStepList};
ghost use Rattle.merge_core.specs.Combining.{IsLoneStep, AreLoneSteps};

use crate::combining::combine_steps;
use crate::ends::holds;
use crate::{Step, Tally};
use dip_core::{Item, Part};
use period_core::{NoMemory, Point};
use std::alloc::Global;
use std::marker::Model;

/// The tally of some items at each instant: steps in ascending order of start, each of which ends at or before the
/// start of the next, and the number of items. Contracts see both.
#[derive(Drop)]
pub struct Steps {
    steps: Vec<Step>,
    weight: u64,
}

impl Model for Steps {
    ghost use Rattle.merge_core.specs.Steps.{StepList, IsStepList};

    ghost Value = { StepList };

    ghost view = { λ s. record { steps = s.steps.items; weight = s.weight } };

    ghost invariant = { λ s. IsStepList s.weight s.steps.items };
}

/// Returns the step of one item.
fn step_of(item: &Item) -> Step
    ensures { IsLoneStep item.now result }
{
    Step {
        period: item.period,
        tally: Tally {
            count: 1,
            sum: item.amount as i128,
            min: item.amount,
            max: item.amount,
        },
    }
}

/// Returns the step of each item.
fn steps_of(alloc: Global, items: &[Item]) -> Result<Vec<Step>, NoMemory>
    ensures { IfOk result (λ v. AreLoneSteps items.now v.items) }
{
    let mut steps = Vec::with_capacity(alloc, items.len())?;
    for item in items {
        steps.push(step_of(item))?;
    }
    Ok(steps)
}

/// Returns the tally of the first step that holds the instant.
fn find_tally(steps: &[Step], at: Point) -> Option<Tally>
    ensures { result ≡ tally_at steps.now at }
{
    for step in steps {
        if holds(step.period, at) {
            return Some(step.tally);
        }
    }
    None
}

impl Steps {
    /// Returns the steps of a part: at each instant the tally of the item that holds it.
    pub fn of_part(alloc: Global, part: Part<'_>) -> Result<Steps, NoMemory>
        ensures { IfOk result (IsStepListOf part.entry.items.now) }
    {
        let items = part.items();
        let steps = steps_of(alloc, items)?;
        let weight = items.len() as u64;
        Ok(Steps { steps, weight })
    }

    /// Returns the number of items.
    pub fn weight(&self) -> u64
        ensures { result ≡ self.now.weight }
    {
        self.weight
    }

    /// Returns the number of steps.
    pub fn len(&self) -> usize
        ensures { result ≡ length self.now.steps }
    {
        self.steps.len()
    }

    /// Returns whether the list has no step.
    pub fn is_empty(&self) -> bool
        ensures { result ≡ (length self.now.steps == 0) }
    {
        self.steps.is_empty()
    }

    /// Returns the step at index `place`, or `None` past the last one.
    pub fn get(&self, place: usize) -> Option<Step>
        ensures { result ≡ slice_get self.now.steps place }
    {
        self.steps.get(place).copied()
    }

    /// Returns the steps, in ascending order of start.
    pub fn steps(&self) -> &[Step]
        ensures value { result.now ≡ self.now.steps }
        ensures kept { IsStepList self.now.weight self.now.steps }
    {
        &self.steps
    }

    /// Returns the tally of the items that hold the instant, or `None` if no item does.
    pub fn tally_at(&self, at: Point) -> Option<Tally>
        ensures value { result ≡ tally_at self.now.steps at }
        ensures held { IsTallyHeldAt self.now.steps at result }
    {
        find_tally(&self.steps, at)
    }
}

/// Returns the steps of both lists' items together: at each instant the sum of both tallies. Both lists together may
/// count at most 1,000,000 items.
pub fn combine(alloc: Global, one: &Steps, other: &Steps) -> Result<Steps, NoMemory>
    requires { one.now.weight + other.now.weight ≤ item_limit }
    ensures both { IfOk result (IsBoth one.now other.now) }
    ensures items { IfOk result (λ steps. (xs ys : List Item)
        → IsStepListOf xs one.now → IsStepListOf ys other.now → IsStepListOf (xs ++ ys) steps) }
{
    let weight = one.weight + other.weight;
    let steps = combine_steps(alloc, &one.steps, &other.steps)?;
    Ok(Steps { steps, weight })
}
