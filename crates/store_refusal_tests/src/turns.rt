//! A turn over numbers; each caller adds one, on a thread of its own, with memory refused.

ghost use Rattle.std.specs.Prelude.{◌≡◌, ◌+◌, ◌<◌, IfOk, IfSome};
ghost use Rattle.turn_core.specs.Calls.{IsSameCaller};
ghost use Rattle.turn_core.specs.Entries.{AddsAtMostOne};
ghost use Rattle.turn_core.specs.Seats.{IsSeatOf, view_of};

use refusal_core::{Ended, Fault, holds, try_each};
use std::alloc::Global;
use std::sync::Wait;
use std::thread::{Threads, join};
use turn_core::{Kept, Seat, Turn};

// A number, and the caller that added it.
#[derive(Clone, Copy, Debug, PartialEq, Eq)]
struct Added {
    by: u32,
    number: u64,
}

// The numbers that callers added, and the number of the turn's seats.
#[derive(Drop)]
struct Numbers {
    seats: u32,
    list: Vec<Added>,
}

impl Kept for Numbers {
    type Entry = Added;

    ghost entries = { λ numbers. numbers.list.items };

    ghost by = { λ added. added.by };

    ghost mark = { λ numbers. numbers.seats };
}

impl Numbers {
    // Adds a number. Returns false if memory is refused.
    fn add(&mut self, by: u32, number: u64) -> bool
        ensures seats { self.new.seats ≡ self.old.seats }
        ensures adds { AddsAtMostOne
            (λ added. added.by) by self.old.list.items self.new.list.items }
    {
        self.list.push(Added { by, number }).is_ok()
    }
}

// Returns a turn over no numbers, with two seats.
fn two_seats(alloc: Global) -> Result<(Turn<Numbers>, Seat<Numbers>, Seat<Numbers>), Ended>
    ensures turn { IfOk result (λ made. IsSeatOf made.0 made.1 × IsSeatOf made.0 made.2) }
    ensures numbers { IfOk result (λ made. ((view_of made.1).number ≡ 1)
        × ((view_of made.2).number ≡ 2)) }
    ensures left { IfOk result (λ made. (2 < (view_of made.1).left) × (2 < (view_of made.2).left)) }
{
    let numbers = Numbers {
        seats: 2,
        list: Vec::new(alloc),
    };
    let (turn, mut seats) = Turn::new(alloc, numbers, 2)?;
    match (seats.pop(), seats.pop()) {
        (Some(second), Some(first)) => Ok((turn, first, second)),
        _ => unreachable!(),
    }
}

// Adds a number as the seat's caller. Returns false if memory is refused.
fn add<R: Wait>(rt: &R, turn: &Turn<Numbers>, seat: &mut Seat<Numbers>, number: u64) -> bool
    requires turn { IsSeatOf turn.now seat.old }
    requires caller { 0 < (view_of seat.old).number }
    requires left { 0 < (view_of seat.old).left }
    ensures turn { IsSeatOf turn.now seat.new }
    ensures same { IsSameCaller (view_of seat.old) (view_of seat.new) }
    ensures left { (view_of seat.new).left + 1 ≡ (view_of seat.old).left }
{
    let by = seat.number();
    turn.with(
        rt,
        seat,
        move |numbers: &mut Numbers| -> bool
            ensures seats { numbers.new.seats ≡ numbers.old.seats }
            ensures adds { AddsAtMostOne
                (λ added. added.by) by numbers.old.list.items numbers.new.list.items }
        { numbers.add(by, number) },
    )
}

// Adds a number, a second time if memory was refused, and returns the seat; `None` if it is refused again.
fn add_alone<R: Wait>(
    rt: &R,
    turn: &Turn<Numbers>,
    mut seat: Seat<Numbers>,
    number: u64,
) -> Option<Seat<Numbers>>
    requires turn { IsSeatOf turn.now seat }
    requires caller { 0 < (view_of seat).number }
    requires left { 2 < (view_of seat).left }
    ensures turn { IfSome result (λ after. IsSeatOf turn.now after) }
    ensures same { IfSome result (λ after. IsSameCaller (view_of seat) (view_of after)) }
    ensures left { IfSome result (λ after. 0 < (view_of after).left) }
{
    if add(rt, turn, &mut seat, number) || add(rt, turn, &mut seat, number) {
        Some(seat)
    } else {
        None
    }
}

// Returns whether the numbers are these two, in some order.
fn are_both<R: Wait>(
    rt: &R,
    turn: &Turn<Numbers>,
    seat: &mut Seat<Numbers>,
    one: Added,
    other: Added,
) -> bool
    requires turn { IsSeatOf turn.now seat.old }
    requires caller { 0 < (view_of seat.old).number }
    requires left { 0 < (view_of seat.old).left }
{
    turn.with(
        rt,
        seat,
        move |numbers: &mut Numbers| -> bool
            ensures same { numbers.new ≡ numbers.old }
        {
            let list = numbers.list.as_slice();
            list == [one, other].as_slice() || list == [other, one].as_slice()
        },
    )
}

// Each caller adds a number; the first hears of the second's and sees both.
fn add_both<R: Threads + Wait + Sync>(rt: &R, alloc: Global) -> Result<(), Ended> {
    let (turn, first, second) = two_seats(alloc)?;
    let (first, second) = join(
        rt,
        || add_alone(rt, &turn, first, 10),
        || add_alone(rt, &turn, second, 20),
    );
    let (Some(mut first), Some(mut second)) = (first, second) else {
        return Err(Ended::NoMemory);
    };
    let heard = turn.split(&mut second);
    turn.join(&mut first, heard);
    let (one, other) = (Added { by: 1, number: 10 }, Added { by: 2, number: 20 });
    holds(are_both(rt, &turn, &mut first, one, other))
}

#[test]
fn a_refused_number_is_added_later(rt: HostRuntime) -> Result<(), Fault> {
    try_each(&rt, |alloc| add_both(&rt, alloc))
}
