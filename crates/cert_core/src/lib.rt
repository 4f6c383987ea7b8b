#![tactic(auto)]

//! Checks whether a claimed division of items is one, and whether its certificate shows that it is least. It doesn't
//! matter who made them.

mod check;
mod claim;
mod laws;
mod marks;
mod overlap;
mod places;
mod verdict;

pub use check::check_division;
pub use claim::Claim;
pub use laws::{certified_division_is_least, claim_has_one_verdict};
pub use period_core::NoMemory;
pub use verdict::{Certificate, Verdict};
