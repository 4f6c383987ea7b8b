//! Books: the history of accepted changes, the reasons to refuse another, and what is visible as of each commit.

ghost use Rattle.std.specs.Prelude.{◌≡◌, ◌+◌, ◌≤◌, ℕ, List, [], ◌∷◌, ◌++◌, filter, length, map, take, All, IfErr, IfOk, IsTrue, IfSome, IfNone, MatchOption, None, OnOk, OnErr, Some, IsOkUnless, nat_lt, nat_le};
ghost use Rattle.std.specs.Option.{option_copied};
ghost use Rattle.std.specs.Result.{result_err};
ghost use Rattle.book_core.specs.Rows.{is_touched};
ghost use Rattle.period_core.specs.Period.{holds_at};
ghost use Rattle.row_core.specs.Refusals.{IsAnswer, first_of, map_ok};
ghost use Rattle.row_core.specs.Rows.{RowsRise};
ghost use Rattle.row_core.specs.Schema.{fits};
ghost use Rattle.row_core.specs.declared.failure.Failure.TheVariants.{NoMemory, Refused};
ghost use Rattle.row_core.specs.declared.row.Row.{Row};
ghost use Rattle.version_core.specs.Limits.{version_limit};
ghost use Rattle.version_core.specs.Shown.{shown};
ghost use Rattle.book_core.specs.Bound.{Does, IsBound, portion_parts, portion_tests, rows_changed};
ghost use Rattle.book_core.specs.History.{History, IsLegal, state_after, rows_at, rows_given, between_refusal, schema_in};
ghost use Rattle.book_core.specs.Limits.{commit_limit};
ghost use Rattle.book_core.specs.State.{KeyHolds, first_refusal, refusal_of, table_named, table_of, with_table, IsRefusedAs};
ghost use Rattle.book_core.specs.StoredTables.{IsTableOf};
ghost use Rattle.book_core.specs.declared.change.Change.TheVariants.{Load, Make};
ghost use Rattle.row_core.specs.declared.schema.Column.{Column as AnyColumn};
ghost use Rattle.book_core.specs.Versions.{AreBetween, AreFromTo, log_of};

use crate::apply::{COMMIT_LIMIT, bind_portion, change_table, change_tables, load_refusal};
use crate::change::Change;
use crate::commit::{Commit, Commits};
use crate::log::{Entry, Log, change_kind, entry_of, table_of};
use crate::refusal::{BookRefused, NoTable, RowsRefused, VersionsRefused, overlap_failure};
use crate::table::{Table, find_table};
use draft_core::Drafts;
use list_core::copy_each;
use period_core::{Period, Point};
use row_core::{Failure, Name, NoMemory, Schema, Value};
use std::alloc::Global;
use std::fmt;
use std::marker::Model;
use version_core::{PortionChange, RowsChange, SharedRows, SharedVersions};

/// The most tables of a book.
const TABLE_LIMIT: usize = 64;

/// A book. Contracts see its history: the changes that it accepted, oldest first.
#[derive(Drop)]
pub struct Book {
    alloc: Global,
    /// The accepted changes. The log and the tables contain what code reads of them.
    history: Commits,
    tables: Vec<Table>,
    log: Vec<Entry>,
}

impl Model for Book {
    ghost use Rattle.book_core.specs.History.{History};
    ghost use Rattle.book_core.specs.StoredTables.{IsBook};

    ghost Value = { History };

    ghost view = { λ b. b.history.all };

    ghost invariant = { λ b. IsBook b.history.all b.tables.items b.log.items };
}

/// Formats the book by its name only.
impl fmt::Debug for Book {
    fn fmt<W: fmt::Write>(&self, f: &mut fmt::Formatter<W>) -> fmt::Result {
        f.write_str("Book { .. }")
    }
}

impl Book {
    /// Returns a book without tables.
    pub fn new(alloc: Global) -> Self
        ensures { result ≡ [] }
    {
        Book {
            alloc,
            history: Commits::new(),
            tables: Vec::new(alloc),
            log: Vec::new(alloc),
        }
    }

    /// Returns a book with the same history.
    pub fn copy(&self, alloc: Global) -> Result<Book, NoMemory>
        ensures { IfOk result (λ book. book ≡ self.now) }
    {
        Ok(Book {
            alloc,
            history: self.history.copy(),
            tables: copy_each(alloc, &self.tables)?,
            log: Vec::from_slice(alloc, &self.log)?,
        })
    }

    /// Returns the number of accepted changes.
    pub fn commits(&self) -> u64
        ensures count { result ≡ length self.now }
        ensures few { result ≤ commit_limit }

        // Each of them was accepted in the state before it.
        ensures legal { IsLegal self.now }
    {
        self.log.len() as u64
    }

    /// Makes a change of the caller with the number `by`, and returns the number of its commit. Commits are numbered
    /// from 1.
    ///
    /// # Errors
    ///
    /// - A new table: `TableExists`, `TooMany`, `Full`.
    /// - A load: `NoTable`, `WrongKind`, `Full`, `KeyOverlap`.
    /// - A change of a portion: `NoTable`; for each pair, settings before conditions, `NoColumn` and then `WrongKind`;
    ///   `Full`; for an update `KeyOverlap`.
    ///
    /// The first one that applies is returned. `NoMemory` comes last, but may replace `KeyOverlap` if the test of keys
    /// is refused memory. After an error the book is unchanged, and the change is dropped.
    pub fn apply(&mut self, by: u32, change: Change) -> Result<u64, Failure<BookRefused>>
        // It is refused if and only if the state says so, and for that reason; only `KeyOverlap` may be replaced by
        // `NoMemory`.
        ensures refused { IfSome (refusal_of (length self.old) (state_after self.old) change)
            (IsRefusedAs result) }
        ensures accepted { IfNone (refusal_of (length self.old) (state_after self.old) change)
            (IsOkUnless result NoMemory) }

        ensures number { IfOk result (λ number. number ≡ length self.old + 1) }
        ensures ok { OnOk result (self.new ≡ self.old ++ record { by = by; change = change } ∷ []) }
        ensures err { OnErr result (self.new ≡ self.old) }
    {
        let commits = self.commits();
        let kind = change_kind(&change);
        let table = table_of(&change);
        let commit = Commit { by, change };
        let bound = match self.bind(&commit.change) {
            Ok(bound) => bound,
            Err(refused) => return Err(Failure::Refused(refused)),
        };
        self.log.reserve(1)?;
        let history = self.history.followed_by(&commit);
        let made = match bound {
            Some(portion) => {
                let mut change = RowsChange::Portion(portion);
                change_table(self.alloc, &mut self.tables, commits, table, &mut change)
            }
            None => change_tables(self.alloc, &mut self.tables, commits, commit.change),
        };
        let counts = match made {
            Ok(counts) => counts,
            Err(why) => return Err(overlap_failure(why)),
        };
        self.history = history;
        let entry = entry_of(commits, by, kind, table, counts);
        match self.log.push(entry) {
            Ok(()) => Ok(commits + 1),
            Err(_) => unreachable!(),
        }
    }

    /// Returns the first reason to refuse a change, except overlaps of keys, which aren't tested here.
    pub fn refusal(&self, change: &Change) -> Option<BookRefused>
        ensures { result ≡ first_refusal (length self.now) (state_after self.now) change.now }
    {
        self.bind(change).err()
    }

    /// Binds a change of a portion to its table's columns, or returns the reason to refuse the change, except overlaps
    /// of keys. Other changes aren't bound to anything.
    fn bind<'a>(&self, change: &'a Change) -> Result<Option<PortionChange<'a>>, BookRefused>
        ensures refused { result_err result
            ≡ first_refusal (length self.now) (state_after self.now) change.entry.now }
        ensures bound { IfOk result (λ bound. MatchOption
            (table_of (state_after self.now) (table_named change.entry.now)) (bound ≡ None)
            (λ t. IsBound change.entry.now t.schema bound)) }
    {
        match change {
            Change::Make { table, .. } => match self.table_refusal(*table) {
                Some(refused) => Err(refused),
                None => Ok(None),
            },
            Change::Load { table, rows } => match self.load_refusal(*table, rows) {
                Some(refused) => Err(refused),
                None => Ok(None),
            },
            Change::Update {
                table,
                portion,
                sets,
                conds,
            } => self.bind_portion(*table, *portion, Some(sets.as_slice()), conds.as_slice()),
            Change::Delete {
                table,
                portion,
                conds,
            } => self.bind_portion(*table, *portion, None, conds.as_slice()),
        }
    }

    /// Returns the reason to refuse a new table with that name.
    fn table_refusal(&self, name: Name) -> Option<BookRefused>
        ensures { (schema : List AnyColumn) → result
            ≡ first_refusal (length self.now) (state_after self.now) (Make name schema) }
    {
        if self.table(name).is_some() {
            Some(BookRefused::TableExists)
        } else if self.tables.len() >= TABLE_LIMIT {
            Some(BookRefused::TooMany)
        } else if self.commits() as usize >= COMMIT_LIMIT {
            Some(BookRefused::Full)
        } else {
            None
        }
    }

    /// Returns the reason to refuse a load into the table with that name.
    fn load_refusal(&self, name: Name, rows: &Drafts) -> Option<BookRefused>
        ensures { result
            ≡ first_refusal (length self.now) (state_after self.now) (Load name rows.now) }
    {
        let commits = self.commits() as usize;
        match self.table(name) {
            None => Some(BookRefused::NoTable),
            Some(table) => load_refusal(table, commits, rows),
        }
    }

    /// Binds a change of a portion to the columns of the table with that name, or returns the reason to refuse it.
    fn bind_portion<'a>(
        &self,
        name: Name,
        portion: Period,
        sets: Option<&'a [(Name, Value)]>,
        conds: &'a [(Name, Value)],
    ) -> Result<Option<PortionChange<'a>>, BookRefused>
        ensures refused { result_err result ≡ with_table (table_of (state_after self.now) name)
            (λ t. first_of (portion_tests (length self.now) portion
            (option_copied sets.entry) conds.entry.now t)) }
        ensures bound { IfOk result (λ bound. MatchOption
            (table_of (state_after self.now) name) (bound ≡ None)
            (λ t. Does (is_touched t.schema portion conds.entry.now)
            (portion_parts t.schema portion (option_copied sets.entry) conds.entry.now)
            (rows_changed bound))) }
    {
        let commits = self.commits() as usize;
        match self.table(name) {
            None => Err(BookRefused::NoTable),
            Some(table) => bind_portion(table, commits, portion, sets, conds),
        }
    }

    /// Returns the table with that name. The clauses say how it follows from the history.
    fn table(&self, name: Name) -> Option<&Table>
        ensures found { IfSome result (λ table. IsTableOf self.now name table.now) }
        ensures absent { IfNone result (table_of (state_after self.now) name ≡ None) }
    {
        find_table(&self.tables, name)
    }

    /// Returns the columns of a table.
    pub fn schema(&self, name: Name) -> Result<&Schema, NoTable>
        ensures found { IfOk result (λ schema. schema_in self.now name ≡ Some schema.now) }
        ensures absent { OnErr result (schema_in self.now name ≡ None) }
    {
        match self.table(name) {
            Some(table) => Ok(table.schema()),
            None => Err(NoTable),
        }
    }

    /// Returns the rows of a table as of commit `n`, by rising id, without copying them.
    ///
    /// # Errors
    ///
    /// `Future` if there are fewer than `n` commits; `NoTable`; `NoMemory`, in this order.
    pub fn rows_at(&self, n: u64, name: Name) -> Result<SharedRows, Failure<RowsRefused>>
        ensures given { IsAnswer (rows_given self.now n name) result }

        // There are at most 1,000,000 of them, and each fits the table's columns.
        ensures few { IfOk result (λ rows. length rows ≤ version_limit) }
        ensures rise { IfOk result RowsRise }
        ensures fit { IfOk result (λ rows. IfSome (schema_in self.now name)
            (λ columns. All (λ row. IsTrue (fits columns row.values)) rows)) }
    {
        match self.table_at(n, name) {
            Ok(table) => Ok(table.versions().rows_shown(self.alloc, n)?),
            Err(refused) => Err(Failure::Refused(refused)),
        }
    }

    /// Returns the rows of a table as of commit `n` that hold at the point, by rising id, without copying them.
    ///
    /// # Errors
    ///
    /// `Future` if there are fewer than `n` commits; `NoTable`; `NoMemory`, in this order.
    pub fn rows_holding(
        &self,
        n: u64,
        name: Name,
        point: Point,
    ) -> Result<SharedRows, Failure<RowsRefused>>
        // The rows of `rows_at` that hold at the point.
        ensures given { IsAnswer
            (map_ok (filter (λ (row : Row). holds_at point row.period))
            (rows_given self.now n name)) result }

        ensures few { IfOk result (λ rows. length rows ≤ version_limit) }
        ensures rise { IfOk result RowsRise }
        ensures fit { IfOk result (λ rows. IfSome (schema_in self.now name)
            (λ columns. All (λ row. IsTrue (fits columns row.values)) rows)) }
    {
        match self.table_at(n, name) {
            Ok(table) => Ok(table.versions().rows_holding(self.alloc, n, point)?),
            Err(refused) => Err(Failure::Refused(refused)),
        }
    }

    /// Returns the table with that name, if commit `n` can be read.
    fn table_at(&self, n: u64, name: Name) -> Result<&Table, RowsRefused>
        ensures found { IfOk result (λ table. IsTableOf self.now name table.now) }
        ensures given { IfOk result (λ table.
            rows_given self.now n name ≡ Ok (shown n table.now.versions)) }
        ensures refused { IfErr result (λ refused. rows_given self.now n name ≡ Err refused) }
    {
        if n > self.commits() {
            return Err(RowsRefused::Future);
        }
        match self.table(name) {
            Some(table) => Ok(table),
            None => Err(RowsRefused::NoTable),
        }
    }

    /// Returns the versions, as of commit `at`, that are visible as of some commit from `m` to `n`, by rising id. An
    /// end after `at` counts as open. `m` and `n` may be greater than `at`: an open version counts as visible there.
    ///
    /// # Errors
    ///
    /// `Future` if there are fewer than `at` commits; `BadPeriod` if `m` is greater than `n`; `NoTable`; `NoMemory`, in
    /// this order.
    pub fn between(
        &self,
        at: u64,
        m: u64,
        n: u64,
        name: Name,
    ) -> Result<SharedVersions, Failure<VersionsRefused>>
        ensures refused { IfSome (between_refusal self.now at (nat_lt n m) name)
            (λ refused. result ≡ Err (Refused refused)) }
        ensures given { IfNone (between_refusal self.now at (nat_lt n m) name)
            (IsOkUnless result NoMemory) }
        ensures versions { IfOk result (λ versions. AreBetween self.now at m n name versions) }

        // At a single commit, their rows are the ones visible as of it.
        ensures at_once { m ≡ n → n ≤ at
            → IfOk result (λ versions. map (λ v. v.row) versions ≡ rows_at self.now n name) }
    {
        if at > self.commits() {
            return Err(Failure::Refused(VersionsRefused::Future));
        }
        if m > n {
            return Err(Failure::Refused(VersionsRefused::BadPeriod));
        }
        match self.table(name) {
            None => Err(Failure::Refused(VersionsRefused::NoTable)),
            Some(table) => Ok(table.versions().versions_seen(self.alloc, at, m, n)?),
        }
    }

    /// Returns the versions, as of commit `at`, that are visible as of some commit from `m` on and before `n`, by
    /// rising id. An end after `at` counts as open. `m` and `n` may be greater than `at`, as for `between`.
    ///
    /// # Errors
    ///
    /// `Future` if there are fewer than `at` commits; `BadPeriod` if `m` isn't less than `n`; `NoTable`; `NoMemory`, in
    /// this order.
    pub fn from_to(
        &self,
        at: u64,
        m: u64,
        n: u64,
        name: Name,
    ) -> Result<SharedVersions, Failure<VersionsRefused>>
        ensures refused { IfSome (between_refusal self.now at (nat_le n m) name)
            (λ refused. result ≡ Err (Refused refused)) }
        ensures given { IfNone (between_refusal self.now at (nat_le n m) name)
            (IsOkUnless result NoMemory) }
        ensures versions { IfOk result (λ versions. AreFromTo self.now at m n name versions) }
    {
        if at > self.commits() {
            return Err(Failure::Refused(VersionsRefused::Future));
        }
        if m >= n {
            return Err(Failure::Refused(VersionsRefused::BadPeriod));
        }
        match self.table(name) {
            None => Err(Failure::Refused(VersionsRefused::NoTable)),
            Some(table) => Ok(table.versions().versions_seen(self.alloc, at, m, n - 1)?),
        }
    }

    /// Returns the commits, oldest first, each with the numbers of versions that it added and closed.
    pub fn log(&self) -> Result<Log, NoMemory>
        ensures { IfOk result (λ log. log ≡ log_of self.now) }
    {
        Ok(Log::from(Vec::from_slice(self.alloc, &self.log)?))
    }
}

/// The past does not change: the rows as of a commit are the same in each history that continues one with that commit.
pub fn past_stays()
    ensures { (h more : History) (n : ℕ) (name : List ℕ)
        → n ≤ length h → rows_at (h ++ more) n name ≡ rows_at h n name }
{}

/// In each state of a legal history, if a table has a key, no two of its rows at different indexes are equal in each
/// column of the key and overlap.
pub fn keys_stay_apart()
    ensures { (h : History) (n : ℕ) → IsLegal h → All KeyHolds (state_after (take n h)) }
{}
