//! The constant intervals of all classes.

ghost use Rattle.std.specs.Prelude.{◌<◌, ◌≤◌, length, AllPairs, IfOk};
ghost use Rattle.std.specs.Thread.{IsSync};
ghost use Rattle.dip_core.specs.Item.{item_limit};
ghost use Rattle.grid_core.specs.Bundles.{ClassesRise, items_in};
ghost use Rattle.work_core.specs.Limits.{worker_limit};
ghost use Rattle.round_core.specs.Plateaus.{ArePlateaus};

use crate::closing::plateaus_in;
use crate::measure::Measure;
use crate::plateau::Plateaus;
use crate::rounds::combine_all;
use crate::spans::plateaus_of_spans;
use crate::step_lists::shared_lists;
use dip_core::Item;
use grid_core::{class_shares, items_in};
use period_core::NoMemory;
use std::collections::VecDeque;
use std::thread::Threads;
use work_core::tuning::CUTS;
use work_core::{Crew, Gate, Range, shared_out};

/// Returns the constant intervals of all classes, whose lists go through the rounds together.
pub(crate) fn plateaus_by_rounds<R: Threads + Sync, G: Gate>(
    crew: &Crew<'_, R, G>,
    measure: Measure,
    items: &[Item],
) -> Result<Plateaus, NoMemory>
    requires few { length items.now ≤ item_limit }
    requires rise { ClassesRise items.now }
    ensures { IfOk result (λ plateaus. ArePlateaus measure items.now plateaus) }
{
    let lists = shared_lists(crew, items)?;
    let all = combine_all(crew, VecDeque::from_vec(lists))?;
    let plateaus = plateaus_in(crew.alloc, measure, all)?;
    Plateaus::of(crew.alloc, plateaus)
}

/// Returns the constant intervals of all classes, by class and start. They are the same for every number of workers.
/// The items must be in ascending order of class. If there are enough items of several classes, the workers partition
/// the classes. The gate is called before and after each addition of two lists of steps, which tests show.
///
/// # Errors
///
/// `NoMemory` if an allocation is refused.
pub fn plateaus_of<R: Threads + Sync, G: Gate>(
    crew: &Crew<'_, R, G>,
    measure: Measure,
    items: &[Item],
) -> Result<Plateaus, NoMemory>
    requires few { length items.now ≤ item_limit }
    requires grouped { AllPairs (λ a b. a.class ≤ b.class) items.now }
    ensures { IfOk result (λ plateaus. ArePlateaus measure items.now plateaus) }
{
    let Crew {
        rt,
        alloc,
        gate,
        ..
    } = *crew;
    let shares = class_shares(alloc, items, &[], crew.workers)?;
    let lists = shared_out(
        rt,
        alloc,
        &shares,
        &|classes: Range<u64>, workers: u32| -> Result<Plateaus, NoMemory>
            requires { IsSync R.row × IsSync G.row × (0 < workers) × (workers ≤ worker_limit)
                × (length items.now ≤ item_limit) × ClassesRise items.now }
            ensures { IfOk result (λ plateaus.
                ArePlateaus measure (items_in classes items.entry.now) plateaus) }
        {
            let own = items_in(classes, items);
            plateaus_of_spans(&Crew::new(rt, alloc, workers, gate), measure, own, CUTS)
        },
    )?;
    Plateaus::of_all(alloc, lists)
}
