//! Answers to commands, and the bytes that are written for them.
#![tactic(auto)]

mod answer;
mod joined;
mod kept_text;
mod print;
mod print_agg;
mod print_anti;
mod print_division;
mod print_join;
mod print_log;
mod ranges;
mod record_text;
mod row_values;
mod rows_by_id;
mod texts;
mod unmatched;
mod writer;

pub use answer::Answer;
pub use joined::Joined;
pub use unmatched::Unmatched;
pub use writer::AnswerWriter;
