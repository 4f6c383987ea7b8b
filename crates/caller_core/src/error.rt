//! A single error type for callers.
ghost use Rattle.std.specs.Prelude.{◌≡◌};
ghost use Rattle.caller_core.specs.declared.error.StoreError.TheVariants as error;
ghost use Rattle.caller_core.specs.Errors.{of_failure, of_snapshot, of_store};

use book_core::{BookRefused, NoTable};
use period_core::{BadPeriod, BadPoint};
use row_core::{
    BadName, Failure, KeyRefused, NoMemory, RowRefused, SchemaRefused, TextRefused, ValueRefused,
};
use std::alloc::AllocFailed;
use store_core::{BadCount, Future, PassSpent, RangeRefused, SnapshotRefused, StoreRefused};
use thiserror::Error;

/// Any error of a store's caller. `?` converts each refusal and failure of a store, of a shelf and of a snapshot, and
/// those of the names, points, columns and rows passed to them.
#[derive(Clone, Copy, Debug, PartialEq, Eq, Error)]
pub enum StoreError {
    /// An allocation is refused.
    #[error("out of memory")]
    NoMemory,
    /// A store can't have this number of passes or calls.
    #[error(transparent)]
    Count(BadCount),
    /// A pass is spent.
    #[error(transparent)]
    Pass(PassSpent),
    /// A commit doesn't exist yet.
    #[error(transparent)]
    Commit(Future),
    /// The book refuses a change.
    #[error(transparent)]
    Book(BookRefused),
    /// A table doesn't exist.
    #[error(transparent)]
    Table(NoTable),
    /// A snapshot refuses a query of versions.
    #[error(transparent)]
    Range(RangeRefused),
    /// Columns are refused.
    #[error(transparent)]
    Schema(SchemaRefused),
    /// A key is refused.
    #[error(transparent)]
    Key(KeyRefused),
    /// Fields aren't a row.
    #[error(transparent)]
    Row(RowRefused),
    /// Bytes aren't a value of the kind.
    #[error(transparent)]
    Value(ValueRefused),
    /// Bytes aren't a text.
    #[error(transparent)]
    Text(TextRefused),
    /// Bytes aren't a name.
    #[error(transparent)]
    Name(BadName),
    /// A text or a number isn't a point.
    #[error(transparent)]
    Point(BadPoint),
    /// A period would have no instant.
    #[error(transparent)]
    Period(BadPeriod),
}

impl From<BadCount> for StoreError {
    ghost from_gives = { λ why e. e ≡ error.Count why };

    fn from(why: BadCount) -> StoreError {
        StoreError::Count(why)
    }
}

impl From<PassSpent> for StoreError {
    ghost from_gives = { λ why e. e ≡ error.Pass why };

    fn from(why: PassSpent) -> StoreError {
        StoreError::Pass(why)
    }
}

impl From<Future> for StoreError {
    ghost from_gives = { λ why e. e ≡ error.Commit why };

    fn from(why: Future) -> StoreError {
        StoreError::Commit(why)
    }
}

impl From<BookRefused> for StoreError {
    ghost from_gives = { λ why e. e ≡ error.Book why };

    fn from(why: BookRefused) -> StoreError {
        StoreError::Book(why)
    }
}

impl From<NoTable> for StoreError {
    ghost from_gives = { λ why e. e ≡ error.Table why };

    fn from(why: NoTable) -> StoreError {
        StoreError::Table(why)
    }
}

impl From<RangeRefused> for StoreError {
    ghost from_gives = { λ why e. e ≡ error.Range why };

    fn from(why: RangeRefused) -> StoreError {
        StoreError::Range(why)
    }
}

impl From<SchemaRefused> for StoreError {
    ghost from_gives = { λ why e. e ≡ error.Schema why };

    fn from(why: SchemaRefused) -> StoreError {
        StoreError::Schema(why)
    }
}

impl From<KeyRefused> for StoreError {
    ghost from_gives = { λ why e. e ≡ error.Key why };

    fn from(why: KeyRefused) -> StoreError {
        StoreError::Key(why)
    }
}

impl From<RowRefused> for StoreError {
    ghost from_gives = { λ why e. e ≡ error.Row why };

    fn from(why: RowRefused) -> StoreError {
        StoreError::Row(why)
    }
}

impl From<ValueRefused> for StoreError {
    ghost from_gives = { λ why e. e ≡ error.Value why };

    fn from(why: ValueRefused) -> StoreError {
        StoreError::Value(why)
    }
}

impl From<TextRefused> for StoreError {
    ghost from_gives = { λ why e. e ≡ error.Text why };

    fn from(why: TextRefused) -> StoreError {
        StoreError::Text(why)
    }
}

impl From<BadName> for StoreError {
    ghost from_gives = { λ why e. e ≡ error.Name why };

    fn from(why: BadName) -> StoreError {
        StoreError::Name(why)
    }
}

impl From<BadPoint> for StoreError {
    ghost from_gives = { λ why e. e ≡ error.Point why };

    fn from(why: BadPoint) -> StoreError {
        StoreError::Point(why)
    }
}

impl From<BadPeriod> for StoreError {
    ghost from_gives = { λ why e. e ≡ error.Period why };

    fn from(why: BadPeriod) -> StoreError {
        StoreError::Period(why)
    }
}

impl<E: Into<StoreError>> From<Failure<E>> for StoreError {
    ghost from_gives = { of_failure E.converts };

    fn from(failure: Failure<E>) -> StoreError {
        match failure {
            Failure::Refused(why) => why.into(),
            Failure::NoMemory => StoreError::NoMemory,
        }
    }
}

impl From<NoMemory> for StoreError {
    ghost from_gives = { λ _ e. e ≡ error.NoMemory };

    fn from(_error: NoMemory) -> StoreError {
        StoreError::NoMemory
    }
}

impl<T: Drop> From<AllocFailed<T>> for StoreError {
    ghost from_gives = { λ _ e. e ≡ error.NoMemory };

    fn from(_error: AllocFailed<T>) -> StoreError {
        StoreError::NoMemory
    }
}

impl From<StoreRefused> for StoreError {
    ghost from_gives = { λ why e. e ≡ of_store why };

    fn from(refused: StoreRefused) -> StoreError {
        match refused {
            StoreRefused::PassSpent => StoreError::Pass(PassSpent),
            StoreRefused::Book(why) => StoreError::Book(why),
        }
    }
}

impl From<SnapshotRefused> for StoreError {
    ghost from_gives = { λ why e. e ≡ of_snapshot why };

    fn from(refused: SnapshotRefused) -> StoreError {
        match refused {
            SnapshotRefused::PassSpent => StoreError::Pass(PassSpent),
            SnapshotRefused::Future => StoreError::Commit(Future),
        }
    }
}
