#![tactic(auto)]

//! Finds which rows of two tables match and share an instant. Both sides are divided, some classes at a time, and
//! several workers merge each part of one side with each part of the other.

mod advances;
mod bundle_joins;
mod crowds;
mod found;
mod join_pairs;
mod joins;
mod laws;
mod rows;
mod stretches;
mod tiles;

pub use join_pairs::{JoinOut, JoinPairs, JoinWork};
pub use joins::{JoinAnswer, join, join_rows};
pub use laws::{
    join_has_one_list, join_is_that_of_codes, join_is_that_of_its_lots, join_is_that_of_stand_ins,
};
pub use rows::{JoinRow, JoinRows};
pub use tiles::{Tile, are_read_often, cuts_of, tiles_cut_at};
