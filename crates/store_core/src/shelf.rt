//! The shelf: a book, shared with snapshots.

ghost use Rattle.std.specs.Prelude.{◌≡◌, ◌<◌, ◌≤◌, [], IfOk};
ghost use Rattle.book_core.specs.History.{IsLegal};
ghost use Rattle.book_core.specs.Versions.{log_of};
ghost use Rattle.turn_core.specs.Entries.{AreOfCallers};
ghost use Rattle.turn_core.specs.Limits.{seat_limit};
ghost use Rattle.store_core.specs.Histories.{by_of, CommitsTo, IsLegal-prop};
ghost use Rattle.store_core.specs.Snapshots.{Shows};

use crate::refusal::Future;
use crate::shared_book::SharedBook;
use crate::snapshot::Snapshot;
use book_core::{BookRefused, Change, Commit, Log};
use row_core::{Failure, NoMemory};
use std::alloc::Global;
use std::sync::Arc;
use turn_core::Kept;

/// The book of a store, and the number of the store's passes. Snapshots share the book. Contracts see the book's
/// history and the number of passes.
#[derive(Drop)]
pub struct Shelf {
    alloc: Global,
    passes: u32,
    book: SharedBook,
    // Each commit was accepted in the state before it.
    pub ghost legal: { IsLegal book } by { IsLegal-prop book },
    // Each commit has a pass's number.
    pub ghost numbered: { AreOfCallers by_of passes book },
}

impl Kept for Shelf {
    ghost use Rattle.store_core.specs.Shelves.{passes_in, shelf_history};

    type Entry = Commit;

    ghost entries = { shelf_history };

    ghost by = { by_of };

    ghost mark = { passes_in };
}

impl Shelf {
    ghost use Rattle.store_core.specs.Shelves.{passes_in, shelf_history};

    /// Returns the shelf of a book without tables, for that many passes.
    pub fn new(alloc: Global, passes: u32) -> Result<Shelf, NoMemory>
        requires { (1 ≤ passes) × (passes ≤ seat_limit) }
        ensures { IfOk result (λ shelf. (shelf_history shelf ≡ []) × (passes_in shelf ≡ passes)) }
    {
        let book = SharedBook::new(alloc)?;
        let _ = book.current().commits();
        Ok(Shelf {
            alloc,
            passes,
            book,
        })
    }

    /// Makes a change of the pass with the number `by`, and returns the number of its commit. Commits are numbered from
    /// 1. If a snapshot shares the book, the change is made in the spare book, or in a copy if the spare book can't be
    /// used.
    ///
    /// # Errors
    ///
    /// The book's, in the same order; `NoMemory` also if a copy is refused memory. After an error the shelf is
    /// unchanged, and the change is dropped.
    pub fn commit(&mut self, by: u32, change: Change) -> Result<u64, Failure<BookRefused>>
        requires { (0 < by) × (by ≤ passes_in self.old) }
        ensures reply { CommitsTo (shelf_history self.old) by change result
            (shelf_history self.new) }
        ensures passes { passes_in self.new ≡ passes_in self.old }
        ensures legal { IsLegal (shelf_history self.new) }
    {
        let Shelf { alloc, book, .. } = self;
        book.change(*alloc, by, change)?;
        Ok(book.current().commits())
    }

    /// Returns a snapshot of the first `n` commits, or of all commits without a number.
    ///
    /// # Errors
    ///
    /// `Future` if there are fewer than `n` commits; `NoMemory` if the book can't be shared once more. It allocates
    /// nothing.
    pub fn snapshot(&self, n: Option<u64>) -> Result<Snapshot, Failure<Future>>
        ensures { Shows (shelf_history self.now) n result }
    {
        let newest = self.book.current().commits();
        let number = n.unwrap_or(newest);
        if number > newest {
            return Err(Failure::Refused(Future));
        }
        match Arc::try_clone(self.book.current()) {
            Ok(book) => Ok(Snapshot::of(number, book)),
            Err(_) => Err(Failure::NoMemory),
        }
    }

    /// Returns the commits, oldest first, each with the numbers of versions that it added and closed.
    pub fn log(&self) -> Result<Log, NoMemory>
        ensures { IfOk result (λ log. log ≡ log_of (shelf_history self.now)) }
    {
        self.book.current().log()
    }
}
