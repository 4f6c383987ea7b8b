//! Commands: what the records of a script ask for.
ghost use Rattle.std.specs.Prelude.{◌≡◌};
ghost use Rattle.command_core.specs.Command.{meaning_of};
ghost use Rattle.command_core.specs.Meaning.{refuse};

use crate::aggregate::Aggregate;
use crate::lines::Lines;
use crate::pairs::{TextPairs, TwoTables};
use crate::refusal::{Fault, Refusal};
use period_core::{Period, Point};
use row_core::{Name, Schema};

/// A command that tables may still refuse, or the fault that it has whatever the tables are. A query's `asof` is the
/// commit that it reads; without one it reads the newest.
#[derive(Drop)]
pub enum Command<'a> {
    /// A command with a fault.
    Refused(Fault),
    /// Makes a new table.
    Make {
        table: Name,
        schema: Schema,
    },
    /// Adds rows. The body is the records between the command's own and its `end`.
    Load {
        table: Name,
        body: Lines<'a>,
    },
    /// Sets values in a portion of the rows that match the conditions.
    Update {
        table: Name,
        portion: Period,
        sets: TextPairs<'a>,
        conds: TextPairs<'a>,
    },
    /// Removes a portion of the rows that match the conditions.
    Delete {
        table: Name,
        portion: Period,
        conds: TextPairs<'a>,
    },
    /// Asks for all rows.
    Rows {
        table: Name,
        asof: Option<u64>,
    },
    /// Asks for the rows that hold at a point.
    At {
        table: Name,
        point: Point,
        asof: Option<u64>,
    },
    /// Asks for the versions that some commit in `first..=last` shows.
    Between {
        table: Name,
        first: u64,
        last: u64,
    },
    /// Asks for the versions that some commit in `first..end` shows.
    FromTo {
        table: Name,
        first: u64,
        end: u64,
    },
    /// Asks for the division of the rows.
    Dip {
        table: Name,
        asof: Option<u64>,
    },
    /// Asks for the pairs of rows of two tables that are equal in each pair of columns, with the period in which both
    /// hold.
    Join {
        tables: TwoTables<'a>,
        asof: Option<u64>,
    },
    /// Asks for the left table's rows, with the periods in which no right row holds that is equal in each pair of
    /// columns.
    Anti {
        tables: TwoTables<'a>,
        asof: Option<u64>,
    },
    /// Asks for an aggregate of each group's rows, at each instant.
    Agg {
        aggregate: Aggregate,
        asof: Option<u64>,
    },
    /// Asks whether a division is right: its number of parts, its instant, and in the body its parts.
    Check {
        table: Name,
        parts: u64,
        instant: Option<Point>,
        asof: Option<u64>,
        body: Lines<'a>,
    },
    /// Asks what each commit did.
    Log,
}

/// Returns the command that means this refusal of the record of this number.
pub(crate) fn refused<'a>(number: u64, refusal: Refusal) -> Command<'a>
    ensures { meaning_of result ≡ refuse number refusal }
{
    Command::Refused(Fault { number, refusal })
}
