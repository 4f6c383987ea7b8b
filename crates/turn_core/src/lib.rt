#![tactic(auto)]

//! A state that callers on several threads take in turn, in the order of their tickets.
//!
//! A `Turn` stores the state, which represents a list of entries (`Kept`), and each caller has a `Seat` at it. `with`
//! draws a ticket, waits until it is served, and passes the state to a closure, which may add one entry of the
//! caller's. The entries that a caller finds begin with all that it had seen, and the ones with its own number are
//! exactly the ones that it added. `split` makes a seat that carries what a caller has seen to another caller, which
//! has seen at least this after `join`.

mod kept;
mod plays;
mod seat;
mod turn;
mod view;

pub use kept::Kept;
pub use seat::Seat;
pub use turn::{CALL_LIMIT, SEAT_LIMIT, Turn};
pub use view::{Stage, View};
