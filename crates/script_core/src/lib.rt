//! The script language: reads a script to its end, executes its commands in order, and writes the answers.
#![tactic(auto)]

mod changes;
mod claims;
mod failure;
mod input;
mod laws;
mod ledger;
mod outcome;
mod pairs;
mod performing;
mod queries;
mod rows;
mod session;
mod together;

pub use laws::{complete_runs_agree, script_has_one_output, statement_has_one_answer};
pub use ledger::Ledger;
pub use outcome::Outcome;
pub use session::{answer_each, run};
pub use stream_core::{Counted, RunFault};
