#![tactic(auto)]

//! Finds the aggregate of a table's rows, group by group: at each instant the number of rows that hold, or the sum,
//! minimum or maximum of their numbers, with the periods in which that value is constant.

mod aggregates;
mod entries;
mod func;
mod group_rows;
mod groups;
mod keys;
mod laws;
mod one_group;
mod rows;

pub use aggregates::agg;
pub use laws::{
    agg_has_one_list, agg_is_that_of_its_lots, agg_is_that_of_its_slices, agg_is_that_of_ranks,
    agg_is_that_of_stand_ins,
};
pub use round_core::{Plateau, Plateaus};
pub use row_core::Func;
pub use rows::{AggRow, AggRowRef, AggRows, AggShare};
