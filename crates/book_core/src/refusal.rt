//! Reasons to refuse changes, and queries of rows and versions.

ghost use Rattle.std.specs.Prelude.{◌≡◌};
ghost use Rattle.row_core.specs.Refusals.{map_refused};
ghost use Rattle.book_core.specs.State.{overlap_refusal};

use row_core::Failure;
use std::{error, fmt};
use thiserror::Error;
use version_core::KeyOverlap;

/// Why a change is refused, in the order of the tests. Each pair is tested for `NoColumn` and then for `WrongKind`
/// before the next pair.
#[derive(Clone, Copy, Debug, PartialEq, Eq)]
pub enum BookRefused {
    /// A table with that name exists.
    TableExists,
    /// There are 64 tables.
    TooMany,
    /// No table has that name.
    NoTable,
    /// The table has no column with that name.
    NoColumn,
    /// A value is not of its column's kind, or a row does not fit the table's columns.
    WrongKind,
    /// There are 1,000,000 commits, or the table would have more than 1,000,000 versions.
    Full,
    /// The table has a key, and two of its rows would be equal in each column of the key and overlap.
    KeyOverlap,
}

impl fmt::Display for BookRefused {
    fn fmt<W: fmt::Write>(&self, f: &mut fmt::Formatter<W>) -> fmt::Result {
        f.write_str(match self {
            BookRefused::TableExists => "a table of that name is there",
            BookRefused::TooMany => "64 tables are there",
            BookRefused::NoTable => "no table of that name is there",
            BookRefused::NoColumn => "the table has no column of that name",
            BookRefused::WrongKind => {
                "a value is not of its column's kind, or a row does not fit the table's columns"
            }
            BookRefused::Full => {
                "1,000,000 commits are there, or the table would have more than 1,000,000 versions"
            }
            BookRefused::KeyOverlap => "two rows of one key would share an instant",
        })
    }
}

impl error::Error for BookRefused {}

/// Turns a failure of the test of keys into a failure of a change.
pub(crate) fn overlap_failure(why: Failure<KeyOverlap>) -> Failure<BookRefused>
    ensures { result ≡ map_refused overlap_refusal why }
{
    match why {
        Failure::Refused(KeyOverlap) => Failure::Refused(BookRefused::KeyOverlap),
        Failure::NoMemory => Failure::NoMemory,
    }
}

/// Why the rows of a table can't be read, in the order of the tests.
#[derive(Clone, Copy, Debug, PartialEq, Eq)]
pub enum RowsRefused {
    /// There are fewer commits.
    Future,
    /// No table has that name.
    NoTable,
}

impl fmt::Display for RowsRefused {
    fn fmt<W: fmt::Write>(&self, f: &mut fmt::Formatter<W>) -> fmt::Result {
        f.write_str(match self {
            RowsRefused::Future => "there are fewer commits",
            RowsRefused::NoTable => "no table of that name is there",
        })
    }
}

impl error::Error for RowsRefused {}

/// Why the versions of a table can't be read, in the order of the tests.
#[derive(Clone, Copy, Debug, PartialEq, Eq)]
pub enum VersionsRefused {
    /// There are fewer commits.
    Future,
    /// The two commits are not in order.
    BadPeriod,
    /// No table has that name.
    NoTable,
}

impl fmt::Display for VersionsRefused {
    fn fmt<W: fmt::Write>(&self, f: &mut fmt::Formatter<W>) -> fmt::Result {
        f.write_str(match self {
            VersionsRefused::Future => "there are fewer commits",
            VersionsRefused::BadPeriod => "the two commits are not in order",
            VersionsRefused::NoTable => "no table of that name is there",
        })
    }
}

impl error::Error for VersionsRefused {}

/// No table has that name.
#[derive(Clone, Copy, Debug, PartialEq, Eq, Error)]
#[error("no table of that name is there")]
pub struct NoTable;
