//! A script that arrives in portions: each statement is answered as soon as its last record has arrived.
#![tactic(auto)]

mod blocks;
mod laws;
mod live;
mod running;
mod scan;
mod session;
mod steps;

pub use laws::portions_make_no_difference;
pub use live::Live;
pub use running::run;
