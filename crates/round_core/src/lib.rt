#![tactic(auto)]

//! Finds the constant intervals of the items of each class: the maximal periods in which their count, sum, minimum or
//! maximum is constant. The items of a class are divided, each part becomes a list of steps, and workers add the lists
//! in rounds, two at a time.

mod class_steps;
mod closing;
mod laws;
mod measure;
mod parting;
mod plateau;
mod plateaus;
mod round;
mod rounds;
mod spans;
mod splicing;
mod step_lists;
mod tally_round;
mod within;

pub use closing::add_plateaus;
pub use laws::classes_have_one_list;
pub use measure::Measure;
pub use plateau::{Plateau, Plateaus};
pub use plateaus::plateaus_of;
pub use tally_round::TallyRound;
