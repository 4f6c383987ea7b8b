//! A caller's seat at a turn.

ghost use Rattle.std.specs.Prelude.{◌≡◌, ◌<◌, ◌≤◌, []};
ghost use Rattle.turn_core.specs.declared.view.Stage.TheVariants.{Resting};
ghost use Rattle.turn_core.specs.Entries.{own, AreOfCallers};

use crate::kept::Kept;
use crate::view::View;

/// The seat at the underlying table.
pub(crate) type TableSeat<S> = atomic_table::Seat<Option<S>, View<<S as Kept>::Entry>>;

/// A caller's seat at a turn, or a seat that was split off. Contracts see what it knows.
#[derive(Drop)]
pub struct Seat<S: Kept> {
    pub(crate) number: u32,
    pub(crate) seat: TableSeat<S>,
    ghost number_is: { number ≡ seat.me.0.number },
    ghost rests: { seat.me.0.stage ≡ Resting },
    ghost empty: { seat.me.1 ≡ [] },
    // A caller's own number is the number of the entries that it calls its own.
    pub ghost source: { 0 < seat.me.0.number → seat.me.0.source ≡ seat.me.0.number },
    // It is not greater than the mark.
    pub ghost within: { seat.me.0.number ≤ seat.me.0.mark },
    // Among the entries seen, its source's are exactly its own ones, each once, in order.
    pub ghost own: { own S.by seat.me.0.source seat.me.0.seen ≡ seat.me.0.mine },
    // Each entry seen has a number from 1 to the mark.
    pub ghost numbered: { AreOfCallers S.by seat.me.0.mark seat.me.0.seen },
}

impl<S: Kept> Seat<S> {
    ghost use Rattle.turn_core.specs.Seats.{view_of};

    /// Returns the caller's number, from 1 on, or 0 for a seat that was split off.
    pub fn number(&self) -> u32
        ensures { result ≡ (view_of self.now).number }
    {
        self.number
    }
}
