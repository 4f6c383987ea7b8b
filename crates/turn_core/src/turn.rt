//! The turn: a word that counts the tickets drawn, a word that counts those served, and one slot for the state.

ghost use Rattle.std.specs.Prelude.{◌≡◌, ◌⊎◌, ℕ, ◌+◌, ◌-◌, ◌<◌, ◌≤◌, [], ◌∷◌, Some, None, slice_get, IfOk, vec_len, vec_capacity};
ghost use Rattle.turn_core.specs.declared.view.Stage.TheVariants.{Resting, Waiting, Serving};
ghost use mathlib.Core.List.{IsPrefix};
ghost use Rattle.turn_core.specs.Entries.{AddsAtMostOne, AreOfCallers, own};
ghost use Rattle.turn_core.specs.Limits.{seat_limit};
ghost use Rattle.turn_core.specs.Steps.{Lent, view_from, fresh, telling};
ghost use Rattle.turn_core.specs.Calls.{IsSameCaller, KeepsEntries, Ran};

use crate::kept::Kept;
use crate::plays::{Deal, Draw, Hear, InOrder, Learn, Look, PassOn, Tell};
use crate::seat::{Seat, TableSeat};
use crate::view::View;
use atomic_table::Table;
use std::alloc::{AllocError, Global};
use std::sync::Wait;
use std::thread;

/// The most seats of a turn.
pub const SEAT_LIMIT: u32 = 16;

/// The most calls of a seat.
pub const CALL_LIMIT: u64 = 1 << 40;

// The indexes of the two words in the table.
const TICKET: usize = 0;

const SERVING: usize = 1;

/// A state that callers take in turn.
#[derive(Drop)]
pub struct Turn<S: Kept> {
    table: Table<Option<S>, View<S::Entry>, u32, InOrder<S>, Global>,
    ghost words: { table.shared.table_id.words ≡ 2 },
    ghost slots: { table.shared.table_id.slots ≡ 1 },
}

impl<S: Kept> Turn<S> {
    ghost use Rattle.turn_core.specs.Seats.{IsSeatOf, table_in, view_of};

    /// Returns a turn over a state without entries, and its seats. The seat at index `i` has the number `i + 1`, and
    /// may make 2^40 calls.
    ///
    /// # Errors
    ///
    /// `AllocError` if an allocation is refused; the state is then dropped.
    pub fn new(alloc: Global, state: S, seats: u32) -> Result<(Turn<S>, Vec<Seat<S>>), AllocError>
        requires seats { (1 ≤ seats) × (seats ≤ seat_limit) }
        requires empty { S.entries state ≡ [] }
        requires mark { S.mark state ≡ seats }
        ensures count { IfOk result (λ made. vec_len made.1 ≡ seats) }
        ensures each { IfOk result (λ made. (i : ℕ) (seat : _) → slice_get made.1.items i
            ≡ Some seat
            → IsSeatOf made.0 seat × (view_of seat ≡ fresh (i + 1) seats)) }
    {
        let mut list = Vec::with_capacity(alloc, seats as usize)?;
        let mut slots = Vec::with_capacity(alloc, 1)?;
        slots.push_reserved(Some(state));
        let Ok((table, first)) = Table::new(alloc, &[0, 0], slots, &seats) else {
            return Err(AllocError);
        };
        let turn = Turn { table };
        turn.deal(first, seats, &mut list);
        Ok((turn, list))
    }

    // Makes a seat for each number.
    fn deal(&self, first: TableSeat<S>, seats: u32, list: &mut Vec<Seat<S>>)
        requires turn { first.table_id ≡ table_in self.now }
        requires seats { 1 ≤ seats }
        requires first { first.me ≡ (view_from 1 seats, []) }
        requires list { (list.old.items ≡ []) × (seats ≤ vec_capacity list.old) }
        ensures count { vec_len list.new ≡ seats }
        ensures each { (i : ℕ) (seat : _) → slice_get list.new.items i ≡ Some seat
            → IsSeatOf self.now seat × (view_of seat ≡ fresh (i + 1) seats) }
    {
        let mut last = first;
        let mut number = 1;
        while number < seats {
            let next = self.table.shared.split_seat::<Deal>(&mut last);
            list.push_reserved(Seat { number, seat: last });
            last = next;
            number += 1;
        }
        list.push_reserved(Seat { number, seat: last });
    }

    /// Waits for this caller's turn, and calls `f` with the state. The state has all entries added before, which begin
    /// with those that the caller had seen. `f` must keep them, and may add one with the caller's number.
    pub fn with<T, F: FnOnce(&mut S) -> T, R: Wait>(&self, rt: &R, seat: &mut Seat<S>, f: F) -> T
        requires turn { IsSeatOf self.now seat.old }
        requires number { 0 < (view_of seat.old).number }
        requires left { 0 < (view_of seat.old).left }
        requires keeps { KeepsEntries S.entries S.by S.mark F.FnOnce f (view_of seat.old) }
        ensures turn { IsSeatOf self.now seat.new }
        ensures same { IsSameCaller (view_of seat.old) (view_of seat.new) }
        ensures left { (view_of seat.new).left + 1 ≡ (view_of seat.old).left }
        ensures ran { Ran S.entries S.by S.mark F.FnOnce f (view_of seat.old) result
            (view_of seat.new) }
    {
        let ticket = self.draw(&mut seat.seat);
        let mut state = self.take(rt, &mut seat.seat, ticket);
        let result = f(&mut state);
        self.pass_on(&mut seat.seat, state);
        result
    }

    /// Returns a seat that carries what this one knows. It can only be used for `join`.
    pub fn split(&self, seat: &mut Seat<S>) -> Seat<S>
        requires turn { IsSeatOf self.now seat.old }
        ensures turn { IsSeatOf self.now seat.new × IsSeatOf self.now result }
        ensures same { view_of seat.new ≡ view_of seat.old }
        ensures passed { view_of result ≡ telling (view_of seat.old) }
    {
        let other = self.table.shared.split_seat::<Tell>(&mut seat.seat);
        Seat {
            number: 0,
            seat: other,
        }
    }

    /// Adds what a seat from `split` carries. What the two had seen are prefixes of one list, and the caller has now
    /// seen the longer one. Its remaining calls and its own entries don't change.
    pub fn join(&self, seat: &mut Seat<S>, other: Seat<S>)
        requires turn { IsSeatOf self.now seat.old × IsSeatOf self.now other }
        requires number { 0 < (view_of seat.old).number }
        ensures turn { IsSeatOf self.now seat.new }
        ensures same { IsSameCaller (view_of seat.old) (view_of seat.new) }
        ensures left { (view_of seat.new).left ≡ (view_of seat.old).left }
        ensures mine { (view_of seat.new).mine ≡ (view_of seat.old).mine }
        ensures before { IsPrefix (view_of seat.old).seen (view_of seat.new).seen }
        ensures heard { IsPrefix (view_of other).seen (view_of seat.new).seen }
        ensures one { ((view_of seat.new).seen ≡ (view_of seat.old).seen)
            ⊎ ((view_of seat.new).seen ≡ (view_of other).seen) }
    {
        let Seat {
            number: _,
            seat: heard,
        } = other;
        self.table.shared.join_seat::<Hear>(&mut seat.seat, heard);
        self.table.shared.load::<Learn>(&mut seat.seat, SERVING);
    }

    // Draws the next ticket.
    fn draw(&self, seat: &mut TableSeat<S>) -> u64
        requires turn { seat.old.table_id ≡ table_in self.now }
        requires left { 0 < seat.old.me.0.left }
        ensures turn { (seat.new.table_id ≡ seat.old.table_id) × (seat.new.id ≡ seat.old.id) }
        ensures drew { (seat.new.me.1 ≡ seat.old.me.1)
            × (seat.new.me.0 ≡ record seat.old.me.0
            { left = seat.old.me.0.left - 1; stage = Waiting result }) }
    {
        self.table.shared.fetch_add::<Draw>(seat, TICKET, 1)
    }

    // Waits for the ticket, and takes the state out.
    fn take<R: Wait>(&self, rt: &R, seat: &mut TableSeat<S>, ticket: u64) -> S
        requires turn { seat.old.table_id ≡ table_in self.now }
        requires number { 0 < seat.old.me.0.number }
        requires waits { seat.old.me.0.stage ≡ Waiting ticket }
        requires empty { seat.old.me.1 ≡ [] }
        ensures turn { (seat.new.table_id ≡ seat.old.table_id) × (seat.new.id ≡ seat.old.id) }
        ensures slot { seat.new.me.1 ≡ (0, None) ∷ [] }
        ensures view { seat.new.me.0
            ≡ record seat.old.me.0 { seen = S.entries result; stage = Serving ticket } }
        ensures lent { Lent S.entries S.by S.mark seat.old.me.0 result }
    {
        for _ in rt.forever() {
            if self.table.shared.load::<Look>(seat, SERVING) == ticket {
                let Some(state) = self.table.shared.exchange(seat, 0, None) else {
                    unreachable!()
                };
                return state;
            }
            thread::yield_now();
        }
        unreachable!()
    }

    // Puts the state back, and serves the next ticket.
    fn pass_on(&self, seat: &mut TableSeat<S>, state: S)
        requires turn { seat.old.table_id ≡ table_in self.now }
        requires number { 0 < seat.old.me.0.number }
        requires serves { (k : ℕ) × (seat.old.me.0.stage ≡ Serving k) }
        requires slot { seat.old.me.1 ≡ (0, None) ∷ [] }
        requires keeps { (S.mark state ≡ seat.old.me.0.mark)
            × AddsAtMostOne S.by seat.old.me.0.number seat.old.me.0.seen (S.entries state) }
        ensures turn { (seat.new.table_id ≡ seat.old.table_id) × (seat.new.id ≡ seat.old.id) }
        ensures slot { seat.new.me.1 ≡ [] }
        ensures view { seat.new.me.0 ≡ record seat.old.me.0 {
          seen = S.entries state;
          mine = own S.by seat.old.me.0.number (S.entries state);
          stage = Resting;
        } }
        ensures numbered { AreOfCallers S.by seat.old.me.0.mark (S.entries state) }
    {
        let None = self.table.shared.exchange(seat, 0, Some(state)) else {
            unreachable!()
        };
        self.table.shared.fetch_add::<PassOn>(seat, SERVING, 1);
    }
}
