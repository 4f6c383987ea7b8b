//! Adding all lists of a class, two at a time in rounds.

ghost use Rattle.std.specs.Prelude.{◌≡◌, ◌⊎◌, ◌%◌, ◌<◌, ◌≤◌, length, IfOk, IsTrue};
ghost use Rattle.dip_core.specs.Item.{item_limit};
ghost use Rattle.round_core.specs.ClassLists.{weight_of, HaveNoNeighbours, IsRound};
ghost use Rattle.round_core.specs.Rounds.{AreBoths};
ghost use Rattle.round_core.specs.Together.{all_weight};

use crate::class_steps::ClassSteps;
use crate::round::{Round, fill, sort_out};
use crate::tally_round::TallyRound;
use merge_core::Steps;
use period_core::NoMemory;
use std::collections::VecDeque;
use std::thread::Threads;
use work_core::{Crew, Gate, run_pairs};

/// The lists after a round.
#[derive(Drop)]
struct Rounded {
    lists: VecDeque<ClassSteps>,
    /// Whether no two lists are of one class.
    done: bool,
}

/// Returns the sum of each two lists, made by the workers. Starts no thread if `twos` is empty.
fn combine_twos<R: Threads + Sync, G: Gate>(
    crew: &Crew<'_, R, G>,
    twos: &[Steps],
) -> Result<Vec<Steps>, NoMemory>
    requires even { length twos.now % 2 ≡ 0 }
    requires few { length twos.now ≤ item_limit }
    requires light { all_weight twos.now ≤ item_limit }
    ensures { IfOk result (λ made. AreBoths twos.now made.items) }
{
    if twos.is_empty() {
        return Ok(Vec::new(crew.alloc));
    }
    let round = TallyRound::new(twos);
    let outs = run_pairs(crew.rt, crew.alloc, &round, crew.workers, crew.gate)?;
    outs.into_vec(crew.alloc)
}

/// Runs one round.
fn round<R: Threads + Sync, G: Gate>(
    crew: &Crew<'_, R, G>,
    lists: VecDeque<ClassSteps>,
) -> Result<Rounded, NoMemory>
    requires few { length lists.items ≤ item_limit }
    requires light { weight_of lists.items ≤ item_limit }
    ensures round { IfOk result (λ rounded. IsRound lists.items rounded.lists.items) }
    ensures done { IfOk result (λ rounded.
        IsTrue rounded.done → HaveNoNeighbours rounded.lists.items) }
    ensures fewer { IfOk result (λ rounded.
        IsTrue rounded.done ⊎ (length rounded.lists.items < length lists.items)) }
{
    let Round { slots, twos } = sort_out(crew.alloc, lists)?;
    let done = twos.is_empty();
    let made = combine_twos(crew, &twos)?;
    let lists = fill(crew.alloc, slots, made)?;
    Ok(Rounded { lists, done })
}

/// Returns one list per class: the sum of all its lists.
pub(crate) fn combine_all<R: Threads + Sync, G: Gate>(
    crew: &Crew<'_, R, G>,
    lists: VecDeque<ClassSteps>,
) -> Result<VecDeque<ClassSteps>, NoMemory>
    requires few { length lists.items ≤ item_limit }
    requires light { weight_of lists.items ≤ item_limit }
    ensures round { IfOk result (λ all. IsRound lists.items all.items) }
    ensures ones { IfOk result (λ all. HaveNoNeighbours all.items) }
{
    let mut lists = lists;
    let mut done = false;
    'rounds: while !done {
        let next = round(crew, lists)?;
        lists = next.lists;
        done = next.done;
    }
    Ok(lists)
}
