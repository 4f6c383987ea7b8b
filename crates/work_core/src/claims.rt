//! The word from which workers draw the numbers of pairs.

ghost use Rattle.std.specs.Prelude.{◌≡◌, ◌<◌, ◌≤◌, [], ℕ, IfOk};
ghost use Rattle.work_core.specs.Claims.{IsClaimed, Draws, first_view, view_left, view_given, joined_view, spent_view, view_after, all_parts};
ghost use Rattle.work_core.specs.Counting.{times};
ghost use Rattle.work_core.specs.Limits.{draw_limit};

use crate::claim_view::ClaimView;
use atomic_table::{Join, Play, Seat, Split, Table, TableRule};
use std::alloc::{AllocError, Global};
use std::marker::Model;

// The rule of the word: the numbers drawn are all those below it, each once.
pub(crate) struct EachOnce;

impl TableRule<(), ClaimView, ()> for EachOnce {
    ghost holds = { λ _ s. IsClaimed s };

    ghost first = { λ _. first_view };
}

struct Draw;

impl Play<(), ClaimView> for Draw {
    ghost then = { Draws };
}

struct Cut;

impl Split<ClaimView> for Cut {
    ghost left = { view_left };

    ghost right = { view_given };
}

struct Merge;

impl Join<ClaimView> for Merge {
    ghost both = { joined_view };

    ghost spent = { spent_view };
}

/// The right to draw, and what its owner knows of the draws.
pub(crate) type ClaimSeat = Seat<(), ClaimView>;

/// The word, which counts the numbers drawn. Contracts see its table: a seat at that table may draw.
#[derive(Drop)]
pub(crate) struct Claims {
    table: Table<(), ClaimView, (), EachOnce, Global>,
}

impl Model for Claims {
    ghost use Rattle.std.specs.Prelude.{◌≡◌};
    ghost use Rattle.atomic_table.specs.Seated.{TableId};

    ghost Value = { TableId };

    ghost view = { λ c. c.table.shared.table_id };

    ghost invariant = { λ c. (c.table.shared.table_id.words ≡ 1)
        × (c.table.shared.table_id.slots ≡ 0) };
}

impl Claims {
    /// Returns a word from which nothing is drawn, and the seat that has all parts.
    pub(crate) fn new(alloc: Global) -> Result<(Claims, ClaimSeat), AllocError>
        ensures { IfOk result (λ r. (r.1.table_id ≡ r.0) × (r.1.me ≡ (first_view, []))) }
    {
        let (table, seat) = Table::of_words(alloc, &[0], &())?;
        Ok((Claims { table }, seat))
    }

    /// Returns a worker's seat, split off this one.
    pub(crate) fn split(&self, seat: &mut ClaimSeat) -> ClaimSeat
        requires table { seat.old.table_id ≡ self.now }
        requires part { 1 < seat.old.me.0.parts }
        requires room { draw_limit ≤ seat.old.me.0.room }
        ensures table { (seat.new.table_id ≡ seat.old.table_id)
            × (result.table_id ≡ seat.old.table_id) }
        ensures left { seat.new.me ≡ (view_left seat.old.me.0, seat.old.me.1) }
        ensures given { result.me ≡ (view_given seat.old.me.0, []) }
    {
        self.table.shared.split_seat::<Cut>(seat)
    }

    /// Draws the next number, in one atomic step.
    pub(crate) fn draw(&self, seat: &mut ClaimSeat) -> u64
        requires table { seat.old.table_id ≡ self.now }
        requires part { 0 < seat.old.me.0.parts }
        requires room { 0 < seat.old.me.0.room }
        ensures table { seat.new.table_id ≡ seat.old.table_id }
        ensures drawn { seat.new.me.0 ≡ view_after seat.old.me.0 result }
        ensures kept { seat.new.me.1 ≡ seat.old.me.1 }
        ensures rises { seat.old.me.0.least ≤ result }
    {
        self.table.shared.fetch_add::<Draw>(seat, 0, 1)
    }

    /// Adds to one seat what another knows.
    pub(crate) fn join(&self, seat: &mut ClaimSeat, other: ClaimSeat)
        requires table { seat.old.table_id ≡ self.now }
        requires other { other.table_id ≡ self.now }
        requires free { other.me.1 ≡ [] }
        ensures table { seat.new.table_id ≡ seat.old.table_id }
        ensures both { seat.new.me ≡ (joined_view seat.old.me.0 other.me.0, seat.old.me.1) }
    {
        self.table.shared.join_seat::<Merge>(seat, other)
    }

    /// Closes the table, if the seat has all parts: each number below its bound was drawn once.
    pub(crate) fn close(self, seat: ClaimSeat)
        requires table { seat.table_id ≡ self }
        requires all { seat.me.0.parts ≡ all_parts }
        ensures { (x : ℕ) → x < seat.me.0.least → times x seat.me.0.drawn ≡ 1 }
    {
        let Claims { table } = self;
        table.close_with(seat).free()
    }
}
