#![tactic(auto)]

//! Finds which rows of two tables match: tests the compared columns, and assigns a class to each row so that two rows
//! match exactly if their classes are equal.

mod cells;
mod classed;
mod classes;
mod columns;
mod comparable;
mod laws;
mod numbering;
mod ranks;
mod row_items;
mod side;
mod side_column;
mod side_values;
mod split;

pub use classes::{Classes, classes_of};
pub use columns::{QueryRefused, refusal_of_pairs};
pub use laws::matching_rows_have_equal_values;
pub use period_core::NoMemory;
pub use row_items::{ClassedPlace, items, items_in_piece, items_in_range, items_of_sides};
pub use side::Side;
