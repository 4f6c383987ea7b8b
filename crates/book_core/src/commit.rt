//! Commits: changes that were accepted.

ghost use Rattle.std.specs.Prelude.{◌≡◌, [], ◌∷◌, ◌++◌};
ghost use Rattle.std.specs.Borrow.{ftrue};
ghost use Rattle.book_core.specs.History.{History};

use crate::change::Change;
use std::marker::Model;

/// An accepted change, and the number of its caller.
#[derive(Drop)]
pub struct Commit {
    pub by: u32,
    pub change: Change,
}

/// The commits of a book, oldest first. Only contracts see them: a value of this type has no bytes.
#[derive(Drop)]
pub(crate) struct Commits {
    pub ghost all: { History },
}

impl Model for Commits {
    ghost also_owns = { λ _. ftrue };
}

impl Commits {
    /// Returns an empty list of commits.
    pub fn new() -> Commits
        ensures { result.all ≡ [] }
    {
        Commits {}
    }

    /// Returns the same commits.
    pub fn copy(&self) -> Commits
        ensures { result.all ≡ self.now.all }
    {
        Commits {}
    }

    /// Returns these commits, followed by another one.
    pub fn followed_by(&self, commit: &Commit) -> Commits
        ensures { result.all ≡ self.now.all ++ commit.now ∷ [] }
    {
        Commits {}
    }
}

// A value has no bytes, so any thread may have it.
unsafe impl Send for Commits {}

unsafe impl Sync for Commits {}
