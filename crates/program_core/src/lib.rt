//! What both programs have in common: reading the words of their command line, and ending.
#![tactic(auto)]

mod calling;
mod ending;
mod laws;
mod refused;
mod words;

pub use calling::{asked, show};
pub use ending::{Ending, ending_of};
pub use laws::words_ask_for_one_thing;
pub use refused::WordsRefused;
pub use words::{Words, read_words};
