#![tactic(auto)]

//! Queries over the rows of tables: the rows that hold at a point, and the division of a table's rows. It also exports
//! joins, anti-joins and aggregates from the crates that answer them, with the jobs that their workers run.

mod laws;
mod query;

pub use agg_core::{AggRow, AggRowRef, AggRows, AggShare, Func, Plateau, agg};
pub use anti_core::{AntiRow, AntiRows, GapPairs, anti};
pub use join_core::{JoinAnswer, JoinOut, JoinPairs, JoinRow, JoinRows, join, join_rows};
pub use laws::join_and_anti_share_left_rows;
pub use match_core::{QueryRefused, Side, items};
pub use period_core::NoMemory;
pub use query::{at, dip};
pub use round_core::TallyRound;
