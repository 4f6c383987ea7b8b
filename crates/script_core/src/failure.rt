//! Why a command isn't executed: it is refused, or memory is.
ghost use Rattle.std.specs.Prelude.{◌≡◌};
ghost use Rattle.command_core.specs.declared.refusal.Refusal as command;
ghost use Rattle.script_core.specs.Failure.{failure_at, refused};
ghost use Rattle.script_core.specs.Refusal.{book_refusal, query_refusal, range_refusal, row_refusal, table_refusal, value_refusal};

use book_core::BookRefused;
use command_core::{Fault, Refusal};
use query_core::QueryRefused;
use row_core::{RowRefused, ValueRefused};
use store_core::{NoTable, RangeRefused};

/// Why a command isn't executed.
pub(crate) type Failure = row_core::Failure<Fault>;

/// Returns a refusal of the record of this number.
pub(crate) fn refused(number: u64, refusal: Refusal) -> Failure
    ensures { result ≡ refused number refusal }
{
    Failure::Refused(Fault { number, refusal })
}

/// Converts the failure of a call to a lower crate. A refusal is reported for the record of this number.
pub(crate) fn failure_at<E: Reported>(number: u64, why: row_core::Failure<E>) -> Failure
    ensures { result ≡ failure_at number E.name why }
{
    match why {
        row_core::Failure::Refused(refusal) => refused(number, refusal.reported()),
        row_core::Failure::NoMemory => Failure::NoMemory,
    }
}

/// A refusal of a lower crate, with the name that scripts have for it.
pub(crate) trait Reported: Drop {
    /// That name.
    ghost name: { Self → command.Refusal };

    /// Returns that name.
    fn reported(self) -> Refusal
        ensures { result ≡ name self };
}

impl Reported for RowRefused {
    ghost name = { row_refusal };

    fn reported(self) -> Refusal {
        match self {
            RowRefused::WrongWidth => Refusal::WrongWidth,
            RowRefused::BadPoint => Refusal::BadPoint,
            RowRefused::BadPeriod => Refusal::BadPeriod,
            RowRefused::BadNumber => Refusal::BadNumber,
            RowRefused::TooLong => Refusal::TooLong,
            RowRefused::BadUtf8 => Refusal::BadUtf8,
        }
    }
}

impl Reported for ValueRefused {
    ghost name = { value_refusal };

    fn reported(self) -> Refusal {
        match self {
            ValueRefused::BadNumber => Refusal::BadNumber,
            ValueRefused::TooLong => Refusal::TooLong,
            ValueRefused::BadUtf8 => Refusal::BadUtf8,
        }
    }
}

impl Reported for NoTable {
    ghost name = { table_refusal };

    fn reported(self) -> Refusal {
        Refusal::NoTable
    }
}

impl Reported for RangeRefused {
    ghost name = { range_refusal };

    fn reported(self) -> Refusal {
        match self {
            RangeRefused::BadPeriod => Refusal::BadPeriod,
            RangeRefused::NoTable => Refusal::NoTable,
        }
    }
}

impl Reported for BookRefused {
    ghost name = { book_refusal };

    fn reported(self) -> Refusal {
        match self {
            BookRefused::TableExists => Refusal::TableExists,
            BookRefused::TooMany => Refusal::TooMany,
            BookRefused::Full => Refusal::Full,
            BookRefused::NoTable => Refusal::NoTable,
            BookRefused::NoColumn => Refusal::NoColumn,
            BookRefused::WrongKind => Refusal::WrongKind,
            BookRefused::KeyOverlap => Refusal::KeyOverlap,
        }
    }
}

impl Reported for QueryRefused {
    ghost name = { query_refusal };

    fn reported(self) -> Refusal {
        match self {
            QueryRefused::NoColumn => Refusal::NoColumn,
            QueryRefused::WrongKind => Refusal::WrongKind,
        }
    }
}
