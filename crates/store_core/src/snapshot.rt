//! Snapshots of the first commits of a history.

ghost use Rattle.std.specs.Prelude.{◌≡◌, ◌≤◌, length, filter, map, All, IfOk, IsTrue, IfSome, OnErr, None, Some, nat_lt, nat_le};
ghost use Rattle.std.specs.Arc.{arc_value};
ghost use Rattle.period_core.specs.Period.{holds_at};
ghost use Rattle.row_core.specs.Refusals.{AnswersOr, IsAnswer, map_ok};
ghost use Rattle.row_core.specs.declared.row.Row.{Row};
ghost use Rattle.row_core.specs.Rows.{RowsRise};
ghost use Rattle.row_core.specs.Schema.{fits};
ghost use Rattle.version_core.specs.Limits.{version_limit};
ghost use Rattle.book_core.specs.History.{IsLegal, rows_at, schema_in};
ghost use Rattle.book_core.specs.Versions.{AreBetween, AreFromTo};
ghost use Rattle.store_core.specs.Histories.{IsLegal-prop};

use crate::refusal::{Future, RangeRefused};
use book_core::{Book, NoTable, RowsRefused, SharedRows, SharedVersions, VersionsRefused};
use period_core::Point;
use row_core::{Failure, Name, Schema};
use std::sync::Arc;

/// A view of the tables as of a commit. It shares the book, and doesn't change, whatever is committed later. Contracts
/// see the history as it was when the snapshot was taken, and the number of commits that it shows.
///
/// The newest state of that history determines which tables exist, and their columns. A table that was made after the
/// commits shown has no rows.
#[derive(Drop)]
pub struct Snapshot {
    number: u64,
    book: Arc<Book>,
    // It shows no more commits than there are.
    pub ghost within: { number ≤ length (arc_value book) },
    // Each commit was accepted in the state before it.
    pub ghost legal: { IsLegal (arc_value book) } by { IsLegal-prop (arc_value book) },
}

impl Snapshot {
    ghost use Rattle.store_core.specs.Snapshots.{history, number_shown, refusal_of_range, rows_of_snapshot, ShowsFirst};

    /// Returns a snapshot of the first commits of a shared book.
    pub(crate) fn of(number: u64, book: Arc<Book>) -> Snapshot
        requires within { number ≤ length (arc_value book) }
        requires legal { IsLegal (arc_value book) }
        ensures { (number_shown result ≡ number) × (history result ≡ arc_value book) }
    {
        Snapshot { number, book }
    }

    /// Returns how many commits it shows.
    pub fn number(&self) -> u64
        ensures number { result ≡ number_shown self.now }
        ensures within { result ≤ length (history self.now) }

        // Each commit was accepted in the state before it.
        ensures legal { IsLegal (history self.now) }
    {
        self.number
    }

    /// Returns how many commits there were when it was taken; it shows the first `number` of them.
    pub fn commits(&self) -> u64
        ensures { result ≡ length (history self.now) }
    {
        self.book.commits()
    }

    /// Returns a snapshot of the first `n` of its commits. The new snapshot shares the book, without copying it.
    ///
    /// # Errors
    ///
    /// `Future` if this one shows fewer than `n` commits; `NoMemory` if the book can't be shared once more. Nothing is
    /// allocated.
    pub fn as_of(&self, n: u64) -> Result<Snapshot, Failure<Future>>
        ensures { ShowsFirst (history self.now) (number_shown self.now) n result }
    {
        if n > self.number {
            return Err(Failure::Refused(Future));
        }
        match Arc::try_clone(&self.book) {
            Ok(book) => Ok(Snapshot::of(n, book)),
            Err(_) => Err(Failure::NoMemory),
        }
    }

    /// Returns the columns of a table.
    pub fn schema(&self, name: Name) -> Result<&Schema, NoTable>
        ensures found { IfOk result (λ schema. schema_in (history self.now) name
            ≡ Some schema.now) }
        ensures absent { OnErr result (schema_in (history self.now) name ≡ None) }
    {
        self.book.schema(name)
    }

    /// Returns the rows of a table, by rising id.
    ///
    /// # Errors
    ///
    /// `NoTable`; `NoMemory`, in this order.
    pub fn rows(&self, name: Name) -> Result<SharedRows, Failure<NoTable>>
        ensures given { IsAnswer
            (rows_of_snapshot (history self.now) (number_shown self.now) name) result }

        // There are at most 1,000,000 of them, and each fits the table's columns.
        ensures few { IfOk result (λ rows. length rows ≤ version_limit) }
        ensures rise { IfOk result RowsRise }
        ensures fit { IfOk result (λ rows. IfSome (schema_in (history self.now) name)
            (λ columns. All (λ row. IsTrue (fits columns row.values)) rows)) }
    {
        match self.book.rows_at(self.number, name) {
            Ok(rows) => Ok(rows),
            Err(Failure::Refused(RowsRefused::Future)) => unreachable!(),
            Err(Failure::Refused(RowsRefused::NoTable)) => Err(Failure::Refused(NoTable)),
            Err(Failure::NoMemory) => Err(Failure::NoMemory),
        }
    }

    /// Returns the rows of a table that hold at the point, by rising id.
    ///
    /// # Errors
    ///
    /// `NoTable`; `NoMemory`, in this order.
    pub fn rows_holding(&self, name: Name, point: Point) -> Result<SharedRows, Failure<NoTable>>
        // The rows of `rows` that hold at the point.
        ensures given { IsAnswer (map_ok (filter (λ (row : Row). holds_at point row.period))
            (rows_of_snapshot (history self.now) (number_shown self.now) name)) result }

        ensures few { IfOk result (λ rows. length rows ≤ version_limit) }
        ensures rise { IfOk result RowsRise }
        ensures fit { IfOk result (λ rows. IfSome (schema_in (history self.now) name)
            (λ columns. All (λ row. IsTrue (fits columns row.values)) rows)) }
    {
        match self.book.rows_holding(self.number, name, point) {
            Ok(rows) => Ok(rows),
            Err(Failure::Refused(RowsRefused::Future)) => unreachable!(),
            Err(Failure::Refused(RowsRefused::NoTable)) => Err(Failure::Refused(NoTable)),
            Err(Failure::NoMemory) => Err(Failure::NoMemory),
        }
    }

    /// Returns the versions visible as of some commit from `m` to `n`, by rising id. An end after the snapshot counts
    /// as open. `m` and `n` may be after the snapshot: an open version counts as visible there.
    ///
    /// # Errors
    ///
    /// `BadPeriod` if `m` is greater than `n`; `NoTable`; `NoMemory`, in this order.
    pub fn between(
        &self,
        m: u64,
        n: u64,
        name: Name,
    ) -> Result<SharedVersions, Failure<RangeRefused>>
        ensures given { AnswersOr (refusal_of_range (history self.now) (nat_lt n m) name)
            (AreBetween (history self.now) (number_shown self.now) m n name) result }

        // At a single commit, their rows are the ones visible as of it.
        ensures at_once { m ≡ n → n ≤ number_shown self.now
            → IfOk result (λ versions. map (λ v. v.row) versions
            ≡ rows_at (history self.now) n name) }
    {
        match self.book.between(self.number, m, n, name) {
            Ok(versions) => Ok(versions),
            Err(Failure::Refused(VersionsRefused::Future)) => unreachable!(),
            Err(Failure::Refused(VersionsRefused::BadPeriod)) => Err(Failure::Refused(
                RangeRefused::BadPeriod,
            )),
            Err(Failure::Refused(VersionsRefused::NoTable)) => Err(Failure::Refused(
                RangeRefused::NoTable,
            )),
            Err(Failure::NoMemory) => Err(Failure::NoMemory),
        }
    }

    /// Returns the versions visible as of some commit from `m` on and before `n`, by rising id. An end after the
    /// snapshot counts as open. `m` and `n` may be after the snapshot, as for `between`.
    ///
    /// # Errors
    ///
    /// `BadPeriod` if `m` isn't less than `n`; `NoTable`; `NoMemory`, in this order.
    pub fn from_to(
        &self,
        m: u64,
        n: u64,
        name: Name,
    ) -> Result<SharedVersions, Failure<RangeRefused>>
        ensures given { AnswersOr (refusal_of_range (history self.now) (nat_le n m) name)
            (AreFromTo (history self.now) (number_shown self.now) m n name) result }
    {
        match self.book.from_to(self.number, m, n, name) {
            Ok(versions) => Ok(versions),
            Err(Failure::Refused(VersionsRefused::Future)) => unreachable!(),
            Err(Failure::Refused(VersionsRefused::BadPeriod)) => Err(Failure::Refused(
                RangeRefused::BadPeriod,
            )),
            Err(Failure::Refused(VersionsRefused::NoTable)) => Err(Failure::Refused(
                RangeRefused::NoTable,
            )),
            Err(Failure::NoMemory) => Err(Failure::NoMemory),
        }
    }
}
