//! Adding two lists of steps.

ghost use Rattle.std.specs.Prelude.{◌≡◌, ◌<ℤ◌, Some, [], ◌∷◌, drop, MatchOption, IfOk};
ghost use Rattle.std.specs.Int.{int_max};
ghost use Rattle.merge_core.specs.Tallies.{both};
ghost use Rattle.merge_core.specs.Steps.{AreStepsApart};
ghost use Rattle.merge_core.specs.Combining.{CanAddTallies, CanAdd, IsNextStep, StartsFrom, EndsFrom, EndsBeyond, IsHeadFrom, IsFirstOfBoth, IsBeyond, IsBothSteps};

use crate::ends::{earlier, is_before, later};
use crate::{Step, Tally};
use period_core::{NoMemory, Period, Point};
use std::alloc::Global;

/// Returns the tally of both tallies' items together.
fn add_tallies(x: &Tally, y: &Tally) -> Tally
    requires { CanAddTallies x.now y.now }
    ensures { Some result ≡ both (Some x.now) (Some y.now) }
{
    Tally {
        count: x.count + y.count,
        sum: x.sum + y.sum,
        min: x.min.min(y.min),
        max: x.max.max(y.max),
    }
}

/// Returns the first step of a list.
fn first_step(steps: &[Step]) -> Option<Step>
    ensures { MatchOption result (steps.now ≡ []) (λ x. steps.now ≡ x ∷ drop 1 steps.now) }
{
    steps.first().copied()
}

/// Returns a list without its first step.
fn later_steps(steps: &[Step]) -> &[Step]
    ensures { result.now ≡ drop 1 steps.now }
{
    if steps.is_empty() { steps } else { &steps[1..] }
}

/// Returns the end of a step.
fn end_of(step: &Step) -> Point
    ensures { result ≡ step.now.period.to }
{
    step.period.to
}

/// Returns the rest of a step from `at` on.
fn rest_from(at: Point, step: &Step) -> Step
    requires { at <ℤ step.now.period.to }
    ensures from { result.period.from ≡ int_max at step.now.period.from }
    ensures to { result.period.to ≡ step.now.period.to }
    ensures tally { result.tally ≡ step.now.tally }
{
    let from = later(at, step.period.from);
    let to = step.period.to;
    Step {
        period: Period { from, to },
        tally: step.tally,
    }
}

/// Returns the rest of the first step from `at` on.
fn head_from(at: Point, steps: &[Step]) -> Option<Step>
    requires apart { AreStepsApart steps.now }
    requires beyond { EndsBeyond at steps.now }
    ensures { MatchOption result (steps.now ≡ []) (IsHeadFrom at steps.now) }
{
    let first = first_step(steps)?;
    Some(rest_from(at, &first))
}

/// Returns the first step of the sum of two steps. It ends where one of them ends, or where the later one starts.
fn first_of_both(x: &Step, y: &Step) -> Step
    requires { CanAddTallies x.now.tally y.now.tally }
    ensures { IsFirstOfBoth x.now y.now result }
{
    if is_before(x.period.from, y.period.from) {
        let from = x.period.from;
        let to = earlier(x.period.to, y.period.from);
        return Step {
            period: Period { from, to },
            tally: x.tally,
        };
    }
    if is_before(y.period.from, x.period.from) {
        let from = y.period.from;
        let to = earlier(y.period.to, x.period.from);
        return Step {
            period: Period { from, to },
            tally: y.tally,
        };
    }
    let from = x.period.from;
    let to = earlier(x.period.to, y.period.to);
    Step {
        period: Period { from, to },
        tally: add_tallies(&x.tally, &y.tally),
    }
}

/// Returns the first step, from `at` on, of the sum of two lists.
fn next_step(at: Point, lefts: &[Step], rights: &[Step]) -> Option<Step>
    requires left_apart { AreStepsApart lefts.now }
    requires right_apart { AreStepsApart rights.now }
    requires left_beyond { EndsBeyond at lefts.now }
    requires right_beyond { EndsBeyond at rights.now }
    requires can_add { CanAdd lefts.now rights.now }
    ensures { MatchOption result ((lefts.now ≡ []) × (rights.now ≡ []))
        (IsNextStep at lefts.now rights.now) }
{
    let Some(x) = head_from(at, lefts) else {
        return head_from(at, rights);
    };
    let Some(y) = head_from(at, rights) else {
        return Some(x);
    };
    Some(first_of_both(&x, &y))
}

/// Returns the steps that end after `at`.
fn steps_beyond(at: Point, steps: &[Step]) -> &[Step]
    requires apart { AreStepsApart steps.now }
    requires ends { EndsFrom at steps.now }
    ensures { IsBeyond at steps.now result.now }
{
    let Some(first) = first_step(steps) else {
        return steps;
    };
    if is_before(at, end_of(&first)) {
        steps
    } else {
        later_steps(steps)
    }
}

/// Returns an instant before which neither list has a step, or `None` if both lists are empty.
fn start_of(lefts: &[Step], rights: &[Step]) -> Option<Point>
    requires left_apart { AreStepsApart lefts.now }
    requires right_apart { AreStepsApart rights.now }
    ensures { MatchOption result ((lefts.now ≡ []) × (rights.now ≡ []))
        (λ at. StartsFrom at lefts.now × StartsFrom at rights.now) }
{
    let Some(x) = first_step(lefts) else {
        let y = first_step(rights)?;
        return Some(y.period.from);
    };
    let Some(y) = first_step(rights) else {
        return Some(x.period.from);
    };
    Some(earlier(x.period.from, y.period.from))
}

/// Returns a capacity for the sum of two lists with `steps` steps together. A new step begins at most at each start of
/// a step, and at each end that no step of its list touches: the end of the list that ends first, and ends before
/// gaps, for which an eighth is added.
fn room_for_both(steps: usize) -> usize {
    steps.saturating_add(steps / 8).saturating_add(1)
}

/// Returns steps whose tally at each instant is the sum of both lists' tallies.
pub(crate) fn combine_steps(
    alloc: Global,
    one: &[Step],
    other: &[Step],
) -> Result<Vec<Step>, NoMemory>
    requires one_apart { AreStepsApart one.now }
    requires other_apart { AreStepsApart other.now }
    requires can_add { CanAdd one.now other.now }
    ensures { IfOk result (λ v. IsBothSteps one.now other.now v.items) }
{
    let Some(start) = start_of(one, other) else {
        return Ok(Vec::new(alloc));
    };
    let mut steps = Vec::with_capacity(alloc, room_for_both(one.len() + other.len()))?;
    let mut at = start;
    let mut lefts = one;
    let mut rights = other;
    while let Some(step) = next_step(at, lefts, rights) {
        steps.push(step)?;
        at = end_of(&step);
        let _ = at.number();
        lefts = steps_beyond(at, lefts);
        rights = steps_beyond(at, rights);
    }
    Ok(steps)
}
