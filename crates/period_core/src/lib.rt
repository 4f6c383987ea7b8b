#![tactic(auto)]

//! Points in time and half-open periods of them: a period is the set of the points from its start on and before its
//! end.

mod period;
mod point;

pub use period::{BadPeriod, Period};
pub use point::{BadPoint, Point};

/// An allocation was refused. Every crate of the store returns this error then.
pub type NoMemory = std::alloc::AllocError;
