#![tactic(auto)]

//! Finds when the rows of a table held and no matching row of another table did. The other table's rows are coalesced,
//! and both sides are divided, some classes at a time. Workers find the gaps of each left part against each right
//! part, and the gaps of one left part are intersected.

mod anti_joins;
mod bundle_gaps;
mod class_rows;
mod classed_rows;
mod gap_pairs;
mod item_rows;
mod laws;
mod ordering;
mod part_gaps;
mod rows;
mod side_items;
mod supply;
mod united;

pub use anti_joins::anti;
pub use gap_pairs::{GapPairs, GapWork};
pub use laws::{
    anti_has_one_list, anti_is_that_of_codes, anti_is_that_of_its_lots, anti_is_that_of_stand_ins,
    unmet_periods_are_bordered,
};
pub use rows::{AntiRow, AntiRows, add_rows};
pub use united::united_items;
