//! One round: of each class's lists, neighbours go to the workers in twos, and a list without a neighbour is set
//! aside.

ghost use Rattle.std.specs.Prelude.{◌≡◌, ◌≤◌, ◌+◌, ◌*◌, ◌++◌, List, [], ◌∷◌, length, IfOk, MatchOption};
ghost use Rattle.std.specs.Option.{option_to_list};
ghost use Rattle.std.specs.Vec.Iter.{into_iter_items};
ghost use Rattle.round_core.specs.ClassLists.{StartsOtherwise, HaveNoNeighbours};
ghost use Rattle.round_core.specs.Rounds.{twos_in, sorted_lists, filled};
ghost use Rattle.round_core.specs.declared.round.Slot.{Slot as AnySlot};

use crate::class_steps::ClassSteps;
use merge_core::Steps;
use period_core::NoMemory;
use std::alloc::Global;
use std::collections::VecDeque;
use std::vec::IntoIter;

/// The next list after a round.
#[derive(Drop)]
pub(crate) enum Slot {
    /// A list without a neighbour.
    Aside(ClassSteps),
    /// The sum of the next two lists; both are of this class.
    OfTwo(u64),
}

/// The lists of a round, sorted into slots and twos.
#[derive(Drop)]
pub(crate) struct Round {
    /// The next lists, in ascending order of class.
    pub slots: VecDeque<Slot>,
    /// The lists to add, in twos.
    pub twos: Vec<Steps>,
}

/// Takes the first list if it is of the class.
fn take_neighbour(lists: &mut VecDeque<ClassSteps>, class: u64) -> Option<ClassSteps>
    ensures split { lists.old.items ≡ option_to_list result ++ lists.new.items }
    ensures class { MatchOption result (StartsOtherwise class lists.new.items)
        (λ list. list.class ≡ class) }
{
    let first = lists.front()?;
    if first.class == class {
        lists.pop_front()
    } else {
        None
    }
}

/// Sorts the lists into slots and twos, from the first on. Two neighbours of one class will be added, any other list
/// is set aside.
pub(crate) fn sort_out(alloc: Global, lists: VecDeque<ClassSteps>) -> Result<Round, NoMemory>
    ensures lists { IfOk result (λ round.
        sorted_lists round.slots.items round.twos.items ≡ lists.items) }
    ensures count { IfOk result (λ round. length round.twos.items ≡ twos_in round.slots.items * 2) }
    ensures done { IfOk result (λ round. round.twos.items ≡ [] → HaveNoNeighbours lists.items) }
{
    let mut lists = lists;
    let mut slots = VecDeque::new(alloc);
    let mut twos = Vec::new(alloc);
    'lists: while let Some(first) = lists.pop_front() {
        let ClassSteps { class, steps } = first;
        if let Some(second) = take_neighbour(&mut lists, class) {
            twos.push(steps)?;
            twos.push(second.steps)?;
            slots.push_back(Slot::OfTwo(class))?;
        } else {
            slots.push_back(Slot::Aside(ClassSteps { class, steps }))?;
        }
    }
    Ok(Round { slots, twos })
}

/// Returns the list for a slot, which may be the next sum.
fn list_of(slot: Slot, made: &mut IntoIter<Steps>) -> ClassSteps
    requires { twos_in (slot ∷ []) ≤ length (into_iter_items made.old) }
    ensures list { (later : List AnySlot) → filled (slot ∷ later) (into_iter_items made.old)
        ≡ result ∷ filled later (into_iter_items made.new) }
    ensures count { length (into_iter_items made.old)
        ≡ twos_in (slot ∷ []) + length (into_iter_items made.new) }
{
    match slot {
        Slot::Aside(list) => list,
        Slot::OfTwo(class) => {
            let Some(steps) = made.next() else {
                unreachable!()
            };
            ClassSteps { class, steps }
        }
    }
}

/// Returns the lists that were set aside, and the sum of each two lists in its slot.
pub(crate) fn fill(
    alloc: Global,
    slots: VecDeque<Slot>,
    made: Vec<Steps>,
) -> Result<VecDeque<ClassSteps>, NoMemory>
    requires { length made.items ≡ twos_in slots.items }
    ensures { IfOk result (λ lists. lists.items ≡ filled slots.items made.items) }
{
    let mut slots = slots;
    let mut made = made.into_iter();
    let mut lists = VecDeque::new(alloc);
    'slots: while let Some(slot) = slots.pop_front() {
        lists.push_back(list_of(slot, &mut made))?;
    }
    Ok(lists)
}
