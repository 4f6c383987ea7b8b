#![tactic(auto)]

//! Work of several workers: pairs that are run on 1 to 64 of them, ranges of values that are worked on by themselves, and
//! sorting.
//!
//! A job (`PairWork`) is a numbered list of pairs, each of which can be run independently. The workers draw the numbers
//! of pairs from an atomic counter, so no worker waits for another, and a free worker takes the next pair. A `Piece` is
//! a value that can't be mistaken for a value of another pair or another job. A `Collector` puts pieces in order,
//! whatever the order in which they arrive.
//!
//! `call_each` calls a function with each index in the same way. `Shares` are consecutive ranges of values with about
//! the same amount of work, and `shared_out` calls a function for each. `sort_unstable`, `sort_unstable_by_key` and
//! `sort_by_key` sort in place, on several threads if that pays.
//! `tuning` has the thresholds of all queries.

mod claim_view;
mod claims;
mod collector;
mod crew;
mod drawing;
mod gate;
mod job;
mod kept;
mod name;
mod numbered;
mod outs;
mod piece;
mod range;
mod run;
mod shares;
mod sort;
mod stretch;
pub mod tuning;
mod worker;

pub use collector::{Collector, Refused, Unfinished, Why};
pub use crew::Crew;
pub use drawing::call_each;
pub use gate::{Gate, OpenGate};
pub use job::PairWork;
pub use name::PairName;
pub use outs::Outs;
pub use piece::Piece;
pub use range::{Range, items_within, places_within};
pub use run::{WORKER_LIMIT, run_pairs};
pub use shares::{Cut, Shares, ranges_for, shared_out};
pub use sort::{sort_by_key, sort_unstable, sort_unstable_by_key};
pub use stretch::{Stretch, run_stretch};
