//! The answer to a command.
ghost use Rattle.std.specs.Prelude.{◌≡◌, ◌≤◌, List};
ghost use Rattle.command_core.specs.Records.{Record};
ghost use Rattle.answer_core.specs.PrintedRecords.{IsPrintedAs, errors_in};

use crate::joined::Joined;
use crate::unmatched::Unmatched;
use book_core::{Log, SharedVersions};
use cert_core::Verdict;
use command_core::Fault;
use dip_core::Division;
use query_core::AggRows;
use table_core::SharedRows;

/// The answer to a command.
#[derive(Drop)]
pub enum Answer {
    /// The command is refused.
    Refused(Fault),
    /// The change was made, by the commit of this number.
    Committed(u64),
    /// Rows, by ascending id.
    Rows(SharedRows),
    /// Versions of rows, by ascending id.
    Versions(SharedVersions),
    /// A division of `rows` rows.
    Division { rows: usize, division: Division },
    /// Pairs of rows of two tables, with the period in which both hold.
    Join(Joined),
    /// Rows of a table, with the periods in which no row of another table matches them.
    Anti(Unmatched),
    /// Aggregates, by group and start.
    Agg(AggRows),
    /// The verdict on a division.
    Verdict(Verdict),
    /// The log of commits.
    Log(Log),
}

impl Answer {
    /// Returns how many of the answer's records are refusals: 1 if the command is refused, otherwise 0.
    pub fn refusals(&self) -> u64
        ensures counted { (records : List Record) → IsPrintedAs self.now records
            → errors_in records ≡ result }
        ensures few { result ≤ 1 }
    {
        match self {
            Answer::Refused(_) => 1,
            _ => 0,
        }
    }
}
