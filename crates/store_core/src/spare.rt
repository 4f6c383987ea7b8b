//! The book that takes turns with the current one, and the changes that it has missed.

ghost use Rattle.std.specs.Prelude.{◌≡◌, [], ◌∷◌, ◌++◌, IfSome};
ghost use Rattle.std.specs.Arc.{arc_value};
ghost use Rattle.store_core.specs.Histories.{commit};

use book_core::{Book, Change, Commit};
use list_core::DeepCopy;
use std::alloc::Global;
use std::marker::Model;
use std::sync::Arc;

// The most that a spare book may miss, counted in rows: 64 changes, or fewer if they load many rows.
const MOST_MISSED: usize = 65_536;

// A change counts as that many rows, and one that loads rows as them too: it may examine many rows of its table.
const ROWS_OF_CHANGE: usize = 1_024;

/// A book that was current before the last changes, and these changes. Contracts see the history with them.
#[derive(Drop)]
pub(crate) struct Spare {
    book: Arc<Book>,
    missed: Vec<Commit>,
    weight: usize,
}

impl Model for Spare {
    ghost use Rattle.std.specs.Prelude.{◌++◌};
    ghost use Rattle.std.specs.Arc.{arc_value};
    ghost use Rattle.book_core.specs.History.{History};

    ghost Value = { History };

    ghost view = { λ s. arc_value s.book ++ s.missed.items };
}

impl Spare {
    /// Returns a spare book that has missed no change.
    pub fn new(alloc: Global, book: Arc<Book>) -> Spare
        ensures { result ≡ arc_value book }
    {
        Spare {
            book,
            missed: Vec::new(alloc),
            weight: 0,
        }
    }

    /// Returns this book with one more change that it has missed, or `None` if these are too many, or memory is refused.
    pub fn missing(self, change: Commit) -> Option<Spare>
        ensures { IfSome result (λ spare. spare ≡ self ++ change ∷ []) }
    {
        let Spare {
            book,
            mut missed,
            weight,
        } = self;
        let weight = weight.saturating_add(weight_of(&change.change));
        if weight > MOST_MISSED {
            return None;
        }
        match missed.push(change) {
            Ok(()) => Some(Spare {
                book,
                missed,
                weight,
            }),
            Err(_) => None,
        }
    }

    /// Makes the changes that the book has missed. Returns `None` if a snapshot still shares the book, or memory is
    /// refused.
    pub fn caught_up(self) -> Option<Book>
        ensures { IfSome result (λ book. book ≡ self) }
    {
        let Spare { book, missed, .. } = self;
        match Arc::try_unwrap(book) {
            Ok(book) => changed_by(book, missed),
            Err(_) => None,
        }
    }
}

// Makes changes of a book, and returns it, or `None` if memory is refused.
fn changed_by(mut book: Book, changes: Vec<Commit>) -> Option<Book>
    ensures { IfSome result (λ changed. changed ≡ book ++ changes.items) }
{
    for commit in changes {
        match book.apply(commit.by, commit.change) {
            Ok(_) => {}
            Err(_) => return None,
        }
    }
    Some(book)
}

/// Returns a copy of a change for a spare book to make later, or `None` if it loads too many rows, or memory is refused.
pub(crate) fn made_later(alloc: Global, by: u32, change: &Change) -> Option<Commit>
    ensures { IfSome result (λ later. later ≡ commit by change.now) }
{
    if weight_of(change) > MOST_MISSED {
        return None;
    }
    match change.copy(alloc) {
        Ok(change) => Some(Commit { by, change }),
        Err(_) => None,
    }
}

// Returns how much a spare book misses by a change, counted in rows.
fn weight_of(change: &Change) -> usize {
    match change {
        Change::Load { rows, .. } => rows.len().saturating_add(ROWS_OF_CHANGE),
        _ => ROWS_OF_CHANGE,
    }
}
