#![tactic(auto)]

//! The pairs of a part of one division and a part of another, numbered by left part and then by right part; and the
//! items of some classes, which are divided separately.

mod class_items;
mod part_pairs;
mod parts;
mod stretches;

pub use class_items::{
    class_shares, divided, items_from, items_in, last_class, order_by_class, parted_behind,
};
pub use part_pairs::{PartPairs, PartWork};
pub use parts::{name_in, place_in, same_part};
pub use stretches::stretch_len;
