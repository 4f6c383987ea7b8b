//! More callers than processors. Each holds its turn for a moment, and all are served.

ghost use Rattle.std.specs.Prelude.{◌≡◌, ℕ, ◌+◌, ◌<◌, IfOk, Some, slice_get};
ghost use Rattle.turn_core.specs.Calls.{IsSameCaller};
ghost use Rattle.turn_core.specs.Entries.{AddsAtMostOne};
ghost use Rattle.turn_core.specs.Seats.{IsSeatOf, view_of};

use crate::turns::{Added, Numbers, count, look};
use std::alloc::Global;
use std::sync::Wait;
use std::sync::atomic::{AtomicU64, Ordering};
use std::test::Fail;
use std::thread;
use turn_core::{Seat, Turn};

// The most seats of a turn.
const CALLERS: u32 = 16;

// How often a caller checks whether all others have added their numbers.
const LOOKS: u64 = 10_000_000;

// Returns a turn over no numbers, and its seats.
fn many_seats(alloc: Global) -> Result<(Turn<Numbers>, Vec<Seat<Numbers>>), Fail>
    ensures { IfOk result (λ made. (i : ℕ) (seat : _) → slice_get made.1.items i ≡ Some seat
        → IsSeatOf made.0 seat × (0 < (view_of seat).number) × (1 < (view_of seat).left)) }
{
    let numbers = Numbers {
        seats: CALLERS,
        list: Vec::new(alloc),
    };
    Ok(Turn::new(alloc, numbers, CALLERS)?)
}

// Lets the other threads run for a moment.
fn linger() {
    for _ in 0..100 {
        thread::yield_now();
    }
}

// Adds a number as the seat's caller, in a turn that it holds for a moment. Returns false if memory is refused.
fn add_slowly<R: Wait>(rt: &R, turn: &Turn<Numbers>, seat: &mut Seat<Numbers>, number: u64) -> bool
    requires turn { IsSeatOf turn.now seat.old }
    requires caller { 0 < (view_of seat.old).number }
    requires left { 0 < (view_of seat.old).left }
    ensures turn { IsSeatOf turn.now seat.new }
    ensures same { IsSameCaller (view_of seat.old) (view_of seat.new) }
    ensures left { (view_of seat.new).left + 1 ≡ (view_of seat.old).left }
{
    let by = seat.number();
    turn.with(
        rt,
        seat,
        move |numbers: &mut Numbers| -> bool
            ensures seats { numbers.new.seats ≡ numbers.old.seats }
            ensures adds { AddsAtMostOne
                (λ added. added.by) by numbers.old.list.items numbers.new.list.items }
        {
            linger();
            numbers.add(by, number)
        },
    )
}

// Waits until all callers have added their numbers. Returns false if they haven't before the checks are used up.
fn have_all_added(added: &AtomicU64) -> bool {
    for _ in 0..LOOKS {
        if added.load(Ordering::SeqCst) == CALLERS as u64 {
            return true;
        }
        thread::yield_now();
    }
    false
}

// Adds a number, and reads all numbers after all callers have added theirs. Returns `None` if memory is refused, or a
// caller hasn't added its number.
fn add_and_look<R: Wait>(
    rt: &R,
    turn: &Turn<Numbers>,
    mut seat: Seat<Numbers>,
    added: &AtomicU64,
) -> Option<Vec<Added>>
    requires turn { IsSeatOf turn.now seat }
    requires caller { 0 < (view_of seat).number }
    requires left { 1 < (view_of seat).left }
{
    if !add_slowly(rt, turn, &mut seat, 7) {
        return None;
    }
    added.fetch_add(1, Ordering::SeqCst);
    if !have_all_added(added) {
        return None;
    }
    look(rt, turn, &mut seat)
}

// Returns whether a caller saw the number of each caller once, and nothing else.
fn saw_all(seen: &Option<Vec<Added>>) -> bool {
    match seen {
        Some(list) => list.len() == CALLERS as usize
            && (1..=CALLERS).all(|by| count(list, by, 7) == 1),
        None => false,
    }
}

#[test]
fn sixteen_callers_who_hold_their_turns_are_all_served(rt: HostRuntime) -> Result<(), Fail> {
    let (turn, seats) = many_seats(rt.alloc())?;
    let added = AtomicU64::new(0);
    let seen = thread::map_vec(
        &rt,
        seats,
        &|seat: Seat<Numbers>| -> Option<Vec<Added>>
            requires { IsSeatOf turn seat × (0 < (view_of seat).number)
                × (1 < (view_of seat).left) }
        { add_and_look(&rt, &turn, seat, &added) },
    )?;
    assert!(rt; seen.len() == CALLERS as usize);
    assert!(rt; seen.iter().all(|list| saw_all(list)));
    Ok(())
}
