#![tactic(auto)]

//! The rows of a table, shared by lists of rows. A list that shows only some of them has their indexes.

mod row_ref;
mod shared_rows;
mod source;
mod table_rows;

pub use period_core::NoMemory;
pub use row_ref::RowRef;
pub use shared_rows::{SharedRows, as_place};
pub use table_rows::TableRows;
