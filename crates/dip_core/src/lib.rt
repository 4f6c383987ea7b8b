#![tactic(auto)]

//! Divides items into the least number of parts without overlaps, and finds an instant whose overlap count (the number
//! of items that hold it) equals the number of parts.

mod all_looks;
mod division;
mod ids;
mod item;
mod last_ends;
mod laws;
mod numbers;
mod part;
mod part_items;
mod parts;
mod placement;
mod placer;

pub use division::{Division, create_dip, divide_sorted};
pub use ids::ids_rise;
pub use item::Item;
pub use laws::{
    crowded_division_is_least, division_has_one_instant, items_have_one_dip,
    placed_division_is_unique, rising_ids_are_distinct,
};
pub use part::Part;
pub use period_core::NoMemory;
pub use placer::Placer;
