//! Streams: reading a script, writing bytes in full, and counting every failed call.
#![tactic(auto)]

mod counted;
mod fault;
mod input;
mod output;
mod patience;

pub use counted::Counted;
pub use fault::RunFault;
pub use input::{SCRIPT_LIMIT, read_on};
pub use output::write_all;
pub use patience::Patience;
