//! The log: what each commit did, and which caller made it.

ghost use Rattle.std.specs.Prelude.{◌≡◌, ◌+◌, ◌<◌, Some};
ghost use Rattle.book_core.specs.Limits.{commit_limit};
ghost use Rattle.book_core.specs.State.{table_named};
ghost use Rattle.book_core.specs.Versions.{change_kind};
ghost use Rattle.book_core.specs.Words.{word_of};

use crate::change::Change;
use list_core::List;
use row_core::Name;
use std::fmt;
use version_core::VersionCounts;

/// The kinds of change.
#[derive(Clone, Copy, Debug, PartialEq, Eq)]
pub enum ChangeKind {
    Make,
    Load,
    Update,
    Delete,
}

impl ChangeKind {
    /// Returns the word for a printed log.
    pub fn word(self) -> &'static str
        ensures { result.now ≡ word_of self }
    {
        match self {
            ChangeKind::Make => "table",
            ChangeKind::Load => "load",
            ChangeKind::Update => "update",
            ChangeKind::Delete => "delete",
        }
    }
}

/// Writes the word.
impl fmt::Display for ChangeKind {
    ghost output = { λ kind. Some (word_of kind) };

    fn fmt<W: fmt::Write>(&self, f: &mut fmt::Formatter<W>) -> fmt::Result {
        f.write_str(self.word())
    }
}

/// A commit in the log: its number, its caller's number, and the numbers of versions that it added and closed.
#[derive(Clone, Copy, Debug, PartialEq, Eq)]
pub struct Entry {
    pub number: u64,
    pub by: u32,
    pub kind: ChangeKind,
    pub table: Name,
    pub added: u64,
    pub closed: u64,
}

/// The commits of a book, oldest first.
pub type Log = List<Entry>;

/// Returns the log's entry for the next commit.
pub(crate) fn entry_of(
    commits: u64,
    by: u32,
    kind: ChangeKind,
    table: Name,
    counts: VersionCounts,
) -> Entry
    requires { commits < commit_limit }
    ensures { result ≡ record {
      number = commits + 1;
      by = by;
      kind = kind;
      table = table;
      added = counts.added;
      closed = counts.closed;
    } }
{
    Entry {
        number: commits + 1,
        by,
        kind,
        table,
        added: counts.added,
        closed: counts.closed,
    }
}

/// Returns the kind of the change.
pub(crate) fn change_kind(change: &Change) -> ChangeKind
    ensures { result ≡ change_kind change.now }
{
    match change {
        Change::Make { .. } => ChangeKind::Make,
        Change::Load { .. } => ChangeKind::Load,
        Change::Update { .. } => ChangeKind::Update,
        Change::Delete { .. } => ChangeKind::Delete,
    }
}

/// Returns the name of the table that the change creates or changes.
pub(crate) fn table_of(change: &Change) -> Name
    ensures { result ≡ table_named change.now }
{
    match change {
        Change::Make { table, .. } => *table,
        Change::Load { table, .. } => *table,
        Change::Update { table, .. } => *table,
        Change::Delete { table, .. } => *table,
    }
}
