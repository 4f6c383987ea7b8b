//! A turn over numbers: each number that a caller adds is there once, and a caller that has heard of it has seen it.

ghost use Rattle.std.specs.Prelude.{◌≡◌, ◌+◌, ◌<◌, ◌∷◌, ◌++◌, [], Contains, IfOk, IfSome, IsTrue};
ghost use mathlib.Core.List.{IsPrefix};
ghost use Rattle.turn_core.specs.Calls.{IsSameCaller};
ghost use Rattle.turn_core.specs.Entries.{AddsAtMostOne};
ghost use Rattle.turn_core.specs.Seats.{IsSeatOf, view_of};

use std::alloc::Global;
use std::sync::Wait;
use std::test::Fail;
use std::thread::join;
use turn_core::{Kept, Seat, Turn};

// A number, and the caller that added it.
#[derive(Clone, Copy, Debug, PartialEq, Eq)]
pub(crate) struct Added {
    pub by: u32,
    pub number: u64,
}

// The numbers that callers added, and the number of the turn's seats.
#[derive(Drop)]
pub(crate) struct Numbers {
    pub seats: u32,
    pub list: Vec<Added>,
}

impl Kept for Numbers {
    type Entry = Added;

    ghost entries = { λ numbers. numbers.list.items };

    ghost by = { λ added. added.by };

    ghost mark = { λ numbers. numbers.seats };
}

impl Numbers {
    // Adds a number. Returns false if memory is refused.
    pub fn add(&mut self, by: u32, number: u64) -> bool
        ensures seats { self.new.seats ≡ self.old.seats }
        ensures adds { AddsAtMostOne
            (λ added. added.by) by self.old.list.items self.new.list.items }
        ensures added { IsTrue result
            → self.new.list.items ≡ self.old.list.items ++ record { by = by; number = number }
            ∷ [] }
    {
        self.list.push(Added { by, number }).is_ok()
    }
}

// Returns a turn over no numbers, with two seats.
fn two_seats(alloc: Global) -> Result<(Turn<Numbers>, Seat<Numbers>, Seat<Numbers>), Fail>
    ensures turn { IfOk result (λ made. IsSeatOf made.0 made.1 × IsSeatOf made.0 made.2) }
    ensures numbers { IfOk result (λ made. ((view_of made.1).number ≡ 1)
        × ((view_of made.2).number ≡ 2)) }
    ensures left { IfOk result (λ made. (2 < (view_of made.1).left) × (2 < (view_of made.2).left)) }
{
    let numbers = Numbers {
        seats: 2,
        list: Vec::new(alloc),
    };
    let (turn, mut seats) = Turn::new(alloc, numbers, 2)?;
    match (seats.pop(), seats.pop()) {
        (Some(second), Some(first)) => Ok((turn, first, second)),
        _ => unreachable!(),
    }
}

// Adds a number as the seat's caller, which has then seen it. Returns false if memory is refused.
fn add<R: Wait>(rt: &R, turn: &Turn<Numbers>, seat: &mut Seat<Numbers>, number: u64) -> bool
    requires turn { IsSeatOf turn.now seat.old }
    requires caller { 0 < (view_of seat.old).number }
    requires left { 0 < (view_of seat.old).left }
    ensures turn { IsSeatOf turn.now seat.new }
    ensures same { IsSameCaller (view_of seat.old) (view_of seat.new) }
    ensures left { (view_of seat.new).left + 1 ≡ (view_of seat.old).left }
    ensures seen { IsTrue result
        → Contains (view_of seat.new).seen
        (record { by = (view_of seat.old).number; number = number }) }
{
    let by = seat.number();
    turn.with(
        rt,
        seat,
        move |numbers: &mut Numbers| -> bool
            ensures seats { numbers.new.seats ≡ numbers.old.seats }
            ensures adds { AddsAtMostOne
                (λ added. added.by) by numbers.old.list.items numbers.new.list.items }
            ensures added { IsTrue result
                → numbers.new.list.items ≡ numbers.old.list.items
                ++ record { by = by; number = number } ∷ [] }
        { numbers.add(by, number) },
    )
}

// Adds a number, and returns the seat; `None` if memory is refused.
fn add_alone<R: Wait>(
    rt: &R,
    turn: &Turn<Numbers>,
    mut seat: Seat<Numbers>,
    number: u64,
) -> Option<Seat<Numbers>>
    requires turn { IsSeatOf turn.now seat }
    requires caller { 0 < (view_of seat).number }
    requires left { 0 < (view_of seat).left }
    ensures turn { IfSome result (λ after. IsSeatOf turn.now after) }
    ensures same { IfSome result (λ after. IsSameCaller (view_of seat) (view_of after)) }
    ensures left { IfSome result (λ after. (view_of after).left + 1 ≡ (view_of seat).left) }
    ensures seen { IfSome result (λ after.
        Contains (view_of after).seen (record { by = (view_of seat).number; number = number })) }
{
    if add(rt, turn, &mut seat, number) {
        Some(seat)
    } else {
        None
    }
}

// Returns a copy of the numbers, which begin with the numbers that the seat has seen; `None` if memory is refused.
pub(crate) fn look<R: Wait>(
    rt: &R,
    turn: &Turn<Numbers>,
    seat: &mut Seat<Numbers>,
) -> Option<Vec<Added>>
    requires turn { IsSeatOf turn.now seat.old }
    requires caller { 0 < (view_of seat.old).number }
    requires left { 0 < (view_of seat.old).left }
    ensures turn { IsSeatOf turn.now seat.new }
    ensures same { IsSameCaller (view_of seat.old) (view_of seat.new) }
    ensures left { (view_of seat.new).left + 1 ≡ (view_of seat.old).left }
    ensures begins { IfSome result (λ list. IsPrefix (view_of seat.old).seen list.items) }
    ensures seen { IfSome result (λ list. (view_of seat.new).seen ≡ list.items) }
{
    turn.with(
        rt,
        seat,
        move |numbers: &mut Numbers| -> Option<Vec<Added>>
            ensures same { numbers.new ≡ numbers.old }
            ensures copy { IfSome result (λ list. list.items ≡ numbers.old.list.items) }
        { numbers.list.clone().ok() },
    )
}

// Lets the first seat hear what the second has seen.
fn tell(turn: &Turn<Numbers>, first: &mut Seat<Numbers>, second: &mut Seat<Numbers>)
    requires turn { IsSeatOf turn.now first.old × IsSeatOf turn.now second.old }
    requires caller { 0 < (view_of first.old).number }
    ensures turn { IsSeatOf turn.now first.new × IsSeatOf turn.now second.new }
    ensures same { IsSameCaller (view_of first.old) (view_of first.new) }
    ensures left { (view_of first.new).left ≡ (view_of first.old).left }
    ensures stays { view_of second.new ≡ view_of second.old }
    ensures heard { IsPrefix (view_of second.old).seen (view_of first.new).seen }
{
    let other = turn.split(second);
    turn.join(first, other);
}

// Returns how often the list has this number of that caller.
pub(crate) fn count(list: &[Added], by: u32, number: u64) -> usize {
    let wanted = Added { by, number };
    list.iter().filter(|added| **added == wanted).count()
}

#[test]
fn each_of_two_callers_adds_a_number(rt: HostRuntime) -> Result<(), Fail> {
    let (turn, first, second) = two_seats(rt.alloc())?;
    let (one, other) = join(
        &rt,
        || add_alone(&rt, &turn, first, 10),
        || add_alone(&rt, &turn, second, 20),
    );
    let (Some(mut first), Some(mut second)) = (one, other) else {
        panic!(rt; "memory is refused")
    };
    tell(&turn, &mut first, &mut second);
    let Some(list) = look(&rt, &turn, &mut first) else {
        panic!(rt; "memory is refused")
    };
    assert_eq!(rt; list.len(), 2);
    assert_eq!(rt; count(&list, 1, 10), 1);
    assert_eq!(rt; count(&list, 2, 20), 1);
    Ok(())
}

#[test]
fn who_hears_of_the_other_sees_what_it_added(rt: HostRuntime) -> Result<(), Fail> {
    let (turn, mut first, mut second) = two_seats(rt.alloc())?;
    assert!(rt; add(&rt, &turn, &mut first, 10));
    assert!(rt; add(&rt, &turn, &mut second, 20));
    tell(&turn, &mut first, &mut second);
    let want = [Added { by: 1, number: 10 }, Added { by: 2, number: 20 }];
    let seen = look(&rt, &turn, &mut first);
    assert_eq!(rt; seen.as_deref(), Some(want.as_slice()));
    Ok(())
}
