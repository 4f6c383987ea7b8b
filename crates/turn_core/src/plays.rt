//! The rule of the table, and what each step on it proves. These types are for proofs only.

ghost use Rattle.turn_core.specs.Rule.{Serves};
ghost use Rattle.turn_core.specs.Steps.{view_from, sole, following, telling, hearing, spent_view, DrawsTicket, Looks, PassesOn, Learns};

use crate::kept::Kept;
use crate::view::View;
use atomic_table::{Join, Play, Split, TableRule};
use std::marker::PhantomData;

// The rule: callers are served in the order of their tickets, and the state is in its slot or with the caller being
// served.
pub(crate) struct InOrder<S> {
    state: PhantomData<S>,
}

impl<S: Kept> TableRule<Option<S>, View<S::Entry>, u32> for InOrder<S> {
    ghost holds = { λ seats. Serves S.entries S.by S.mark seats };

    ghost first = { λ seats. view_from 1 seats };
}

// Splits off a new seat, with the next number.
pub(crate) struct Deal;

impl<E> Split<View<E>> for Deal {
    ghost left = { λ v. sole v };

    ghost right = { λ v. following v };
}

// Draws a ticket.
pub(crate) struct Draw;

impl<S: Kept> Play<Option<S>, View<S::Entry>> for Draw {
    ghost then = { λ st m n w. DrawsTicket st m n w };
}

// Checks whether the ticket is served; if so, the state is taken out.
pub(crate) struct Look;

impl<S: Kept> Play<Option<S>, View<S::Entry>> for Look {
    ghost then = { Looks S.entries S.by S.mark };
}

// Puts the state back, and serves the next ticket.
pub(crate) struct PassOn;

impl<S: Kept> Play<Option<S>, View<S::Entry>> for PassOn {
    ghost then = { PassesOn S.entries S.by };
}

// Splits off a seat that carries what was seen.
pub(crate) struct Tell;

impl<E> Split<View<E>> for Tell {
    ghost left = { λ v. v };

    ghost right = { λ v. telling v };
}

// Adds what such a seat carries.
pub(crate) struct Hear;

impl<E> Join<View<E>> for Hear {
    ghost both = { λ v w. hearing v w };

    ghost spent = { spent_view };
}

// Concludes that everything seen is from one list.
pub(crate) struct Learn;

impl<S: Kept> Play<Option<S>, View<S::Entry>> for Learn {
    ghost then = { Learns S.by };
}
