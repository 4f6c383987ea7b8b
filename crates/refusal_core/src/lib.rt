//! Refuses memory to tests: to a trial its first request, then its second, and so on, or all requests from one on.
#![tactic(auto)]

mod ended;
mod orders;
mod taking;

pub use ended::{Ended, holds, refuses};
pub use orders::{Fault, try_each};
pub use taking::take_all;
