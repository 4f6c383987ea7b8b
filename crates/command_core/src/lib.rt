//! The commands of a script: what their records mean, before any table is read.
#![tactic(auto)]

mod aggregate;
mod batch;
mod command;
mod fields;
mod flat_fields;
mod laws;
mod line;
mod line_iter;
mod lines;
mod pairs;
mod piece;
mod portions;
mod queries;
mod reading;
mod records;
mod refusal;
mod script_reader;
mod seams;
mod statement;
mod table_command;
mod words;

pub use aggregate::Aggregate;
pub use command::Command;
pub use fields::natural_in;
pub use flat_fields::FlatFields;
pub use laws::{records_have_one_first_statement, script_has_one_list_of_records};
pub use line::Line;
pub use line_iter::LineIter;
pub use lines::Lines;
pub use pairs::{NamePairs, TextPairs, TwoTables};
pub use reading::CommandCut;
pub use records::Records;
pub use refusal::{Fault, Refusal};
pub use script_reader::ScriptReader;
pub use statement::{Statement, StatementCut, first_load, next_inside, next_statement};
pub use words::begins;
