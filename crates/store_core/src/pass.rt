//! Passes and notes: what a caller has seen of a store.

ghost use Rattle.std.specs.Prelude.{◌≡◌, ◌<◌, ◌≤◌};
ghost use Rattle.book_core.specs.History.{IsLegal};
ghost use Rattle.turn_core.specs.Seats.{view_of};
ghost use Rattle.store_core.specs.Histories.{IsLegal-prop};

use crate::shelf::Shelf;
use turn_core::Seat;

/// A caller's right to a number of calls of a store. Contracts see its number, the history that it has seen, and its
/// own changes in that history.
#[derive(Drop)]
pub struct Pass {
    pub(crate) left: u64,
    pub(crate) seat: Seat<Shelf>,
    ghost left_is: { left ≤ (view_of seat).left },
    // Its number is 1 or more.
    pub ghost some: { 0 < (view_of seat).number },
    // Each change that it has seen was accepted in the state before it.
    pub ghost legal: { IsLegal (view_of seat).seen } by { IsLegal-prop (view_of seat).seen },
}

/// What a pass had seen when it made the note, for another pass to hear.
#[derive(Drop)]
pub struct Note {
    pub(crate) seat: Seat<Shelf>,
    // Each change that was seen was accepted in the state before it.
    pub ghost legal: { IsLegal (view_of seat).seen } by { IsLegal-prop (view_of seat).seen },
}

impl Pass {
    ghost use Rattle.store_core.specs.Passes.{calls_left, mine, pass_number, passes_of, seen};

    /// Returns the pass's number, from 1 on.
    pub fn number(&self) -> u32
        ensures { result ≡ pass_number self.now }
    {
        self.seat.number()
    }

    /// Returns how many calls are left.
    pub fn left(&self) -> u64
        ensures { result ≡ calls_left self.now }
    {
        self.left
    }

    /// A law: in a store with one pass, all changes that the pass has seen are its own.
    pub fn has_seen_its_own(&self)
        ensures { passes_of self.now ≡ 1 → (pass_number self.now ≡ 1)
            × (seen self.now ≡ mine self.now) }
    {}
}
