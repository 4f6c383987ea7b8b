//! The items of each class as lists of steps.

ghost use Rattle.std.specs.Prelude.{◌≡◌, ◌<◌, ◌≤◌, length, take, All, AllPairs, IfOk, OnOk};
ghost use Rattle.std.specs.Thread.{IsSync};
ghost use Rattle.dip_core.specs.Item.{item_limit};
ghost use Rattle.dip_core.specs.Division.{all_of};
ghost use Rattle.work_core.specs.Pieces.{items_within};
ghost use Rattle.work_core.specs.Limits.{worker_limit};
ghost use Rattle.round_core.specs.ClassLists.{AddsSteps, AreStepLists};

use crate::class_steps::ClassSteps;
use dip_core::{Division, Item, Part};
use grid_core::divided;
use list_core::in_one_list;
use merge_core::Steps;
use period_core::NoMemory;
use std::alloc::Global;
use std::thread::Threads;
use work_core::{Crew, Gate, Range, Shares, items_within, shared_out};

/// Adds the steps of a part.
fn push_part(
    alloc: Global,
    class: u64,
    part: Part<'_>,
    lists: &mut Vec<ClassSteps>,
) -> Result<(), NoMemory>
    requires { 0 < length part.items.now }
    ensures { OnOk result (AddsSteps class part.entry.items.now lists.old.items lists.new.items) }
{
    let steps = Steps::of_part(alloc, part)?;
    lists.push(ClassSteps { class, steps })?;
    Ok(())
}

/// Adds the steps of each part.
fn push_parts(
    alloc: Global,
    class: u64,
    division: &Division,
    lists: &mut Vec<ClassSteps>,
) -> Result<(), NoMemory>
    ensures { OnOk result (AddsSteps class (all_of division.now) lists.old.items lists.new.items) }
{
    for number in 0..division.parts() {
        push_part(alloc, class, division.part(number), lists)?;
    }
    Ok(())
}

/// Adds the steps of a class's items. They are divided unless they are a part already.
fn push_run<R: Threads + Sync, G>(
    crew: &Crew<'_, R, G>,
    class: u64,
    items: &[Item],
    lists: &mut Vec<ClassSteps>,
) -> Result<(), NoMemory>
    requires some { 0 < length items.now }
    requires few { length items.now ≤ item_limit }
    ensures { OnOk result (AddsSteps class items.now lists.old.items lists.new.items) }
{
    if let Some(part) = Part::new(items) {
        return push_part(crew.alloc, class, part, lists);
    }
    let division = divided(crew, items)?;
    push_parts(crew.alloc, class, &division, lists)
}

/// Returns how many items of the class the list begins with.
fn run_len(class: u64, items: &[Item]) -> usize
    ensures inside { result ≤ length items.now }
    ensures own { All (λ x. x.class ≡ class) (take result items.now) }
{
    let mut len = 0;
    'items: while len < items.len() && items[len].class == class {
        len += 1;
    }
    len
}

/// Returns lists of steps for the items of each class, in ascending order of class.
fn class_lists<R: Threads + Sync, G>(
    crew: &Crew<'_, R, G>,
    items: &[Item],
) -> Result<Vec<ClassSteps>, NoMemory>
    requires few { length items.now ≤ item_limit }
    requires grouped { AllPairs (λ a b. a.class ≤ b.class) items.now }
    ensures { IfOk result (λ lists. AreStepLists items.now lists.items) }
{
    let mut lists = Vec::new(crew.alloc);
    let mut left = items;
    'runs: while let Some((first, later)) = left.split_first() {
        let class = first.class;
        let len = 1 + run_len(class, later);
        let (run, rest) = left.split_at(len);
        push_run(crew, class, run, &mut lists)?;
        left = rest;
    }
    Ok(lists)
}

/// Returns lists of steps for the items of each class, in ascending order of class. The workers partition the items by
/// index, so a class's items may be in several partitions, and each is divided separately.
pub(crate) fn shared_lists<R: Threads + Sync, G: Gate>(
    crew: &Crew<'_, R, G>,
    items: &[Item],
) -> Result<Vec<ClassSteps>, NoMemory>
    requires few { length items.now ≤ item_limit }
    requires grouped { AllPairs (λ a b. a.class ≤ b.class) items.now }
    ensures { IfOk result (λ lists. AreStepLists items.now lists.items) }
{
    let Crew {
        rt,
        alloc,
        gate,
        ..
    } = *crew;
    let shares = Shares::of(alloc, items.len(), crew.workers, &|place: usize| place)?;
    let lists = shared_out(
        rt,
        alloc,
        &shares,
        &|range: Range<usize>, workers: u32| -> Result<Vec<ClassSteps>, NoMemory>
            requires { IsSync R.row × IsSync G.row × (0 < workers) × (workers ≤ worker_limit)
                × (length items.now ≤ item_limit)
                × AllPairs (λ a b. a.class ≤ b.class) items.now }
            ensures { IfOk result (λ lists.
                AreStepLists (items_within range items.entry.now) lists.items) }
        {
            class_lists(
                &Crew::new(rt, alloc, workers, gate),
                items_within(range, items),
            )
        },
    )?;
    in_one_list(alloc, lists)
}
