//! Coalescing steps into constant intervals ("plateaus").

ghost use Rattle.std.specs.Prelude.{◌≡◌, MatchOption, IfOk, OnOk};
ghost use Rattle.list_core.specs.Wanted.{AddsAll, IsListOf};
ghost use Rattle.merge_core.specs.Steps.{AreStepsApart};
ghost use Rattle.round_core.specs.ClassLists.{HaveNoNeighbours, RisesFrom};
ghost use Rattle.round_core.specs.Closing.{Continues, IsJoined, IsPlateauOfSome, IsStepPlateau, valued_step};
ghost use Rattle.round_core.specs.Plateaus.{PlateauBefore, measured};

use crate::class_steps::ClassSteps;
use crate::measure::Measure;
use crate::plateau::Plateau;
use merge_core::{Step, Tally};
use period_core::{NoMemory, Period};
use std::alloc::Global;
use std::collections::VecDeque;

/// Returns the measured value of a tally.
fn measured(measure: Measure, tally: &Tally) -> i128
    ensures { result ≡ measured measure tally.now }
{
    match measure {
        Measure::Count => tally.count as i128,
        Measure::Sum => tally.sum,
        Measure::Min => tally.min as i128,
        Measure::Max => tally.max as i128,
    }
}

/// Returns a step as a constant interval of the measured value.
fn plateau_of(measure: Measure, class: u64, step: &Step) -> Plateau
    ensures { result ≡ valued_step measure class step.now }
{
    Plateau {
        class,
        period: step.period,
        value: measured(measure, &step.tally),
    }
}

/// Returns both intervals as one if the second starts where the first ends and has the same value.
pub(crate) fn joined(one: &Plateau, next: &Plateau) -> Option<Plateau>
    ensures { MatchOption result (Continues one.now next.now → ⊥)
        (λ joined. Continues one.now next.now × IsJoined one.now next.now joined) }
{
    if one.period.to == next.period.from && one.value == next.value {
        let from = one.period.from;
        let to = next.period.to;
        return Some(Plateau {
            class: one.class,
            period: Period { from, to },
            value: one.value,
        });
    }
    None
}

/// Adds the constant intervals of a class, by start, from steps as `Steps::steps` returns them. Two steps that touch
/// and have the same value are one interval.
///
/// # Errors
///
/// `NoMemory` if an allocation is refused.
pub fn add_plateaus(
    measure: Measure,
    class: u64,
    steps: &[Step],
    plateaus: &mut Vec<Plateau>,
) -> Result<(), NoMemory>
    requires { AreStepsApart steps.now }
    ensures { OnOk result (AddsAll PlateauBefore (IsStepPlateau measure class steps.now)
        plateaus.old.items plateaus.new.items) }
{
    let Some((first, later)) = steps.split_first() else {
        return Ok(());
    };
    let mut row = plateau_of(measure, class, first);
    let mut left = later;
    'steps: while let Some((step, later)) = left.split_first() {
        let next = plateau_of(measure, class, step);
        if let Some(both) = joined(&row, &next) {
            row = both;
        } else {
            plateaus.push(row)?;
            row = next;
        }
        left = later;
    }
    plateaus.push(row)?;
    Ok(())
}

/// Returns the constant intervals of lists of different classes.
pub(crate) fn plateaus_in(
    alloc: Global,
    measure: Measure,
    lists: VecDeque<ClassSteps>,
) -> Result<Vec<Plateau>, NoMemory>
    requires ones { HaveNoNeighbours lists.items }
    requires rise { RisesFrom 0 lists.items }
    ensures { IfOk result (λ plateaus.
        IsListOf PlateauBefore (IsPlateauOfSome measure lists.items) plateaus.items) }
{
    let mut lists = lists;
    let mut plateaus = Vec::new(alloc);
    'lists: while let Some(list) = lists.pop_front() {
        let steps = list.steps.steps();
        // Each step begins at most one constant interval.
        plateaus.reserve(steps.len())?;
        add_plateaus(measure, list.class, steps, &mut plateaus)?;
    }
    Ok(plateaus)
}
