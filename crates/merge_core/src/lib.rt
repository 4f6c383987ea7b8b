#![tactic(auto)]

//! Merges two parts, reading each once and in order. It finds the periods that items of equal class share, the periods
//! of left items in which no right item of their class holds, and the tallies of the items at each instant.

mod combining;
mod cursor;
mod ends;
mod from_hit;
mod gap;
mod gaps;
mod hit;
mod join;
mod laws;
mod meets;
mod step;
mod steps;
mod tally;

pub use cursor::Cursor;
pub use from_hit::FromHit;
pub use gap::Gap;
pub use gaps::merge_gaps;
pub use hit::Hit;
pub use join::{merge_join, merge_join_into};
pub use laws::parts_have_one_list_of_gaps;
pub use meets::{Gaps, meet_gaps};
pub use step::Step;
pub use steps::{Steps, combine};
pub use tally::Tally;
