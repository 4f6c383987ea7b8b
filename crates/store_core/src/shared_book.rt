//! The book of a store, which snapshots share.

ghost use Rattle.std.specs.Prelude.{◌≡◌, [], ◌∷◌, ◌++◌, None, IfErr, IfOk, IfSome, OnOk};
ghost use Rattle.std.specs.Arc.{arc_value};
ghost use Rattle.book_core.specs.History.{History};
ghost use Rattle.book_core.specs.declared.commit.Commit.{Commit as AnyCommit};
ghost use Rattle.store_core.specs.Histories.{commit, refusal_after, RefusesCommit};

use crate::spare::{Spare, made_later};
use book_core::{Book, BookRefused, Change, Commit};
use row_core::{Failure, NoMemory};
use std::alloc::Global;
use std::marker::Model;
use std::mem;
use std::sync::Arc;

/// A book that snapshots share. Two books take turns: if a snapshot shares the current one, a change is made in the
/// spare one, which becomes current. Until a change meets a snapshot, there is no spare book. Contracts see the history
/// of the current one.
#[derive(Drop)]
pub(crate) struct SharedBook {
    current: Arc<Book>,
    spare: Option<Spare>,
}

impl Model for SharedBook {
    ghost use Rattle.std.specs.Prelude.{◌≡◌, IfSome};
    ghost use Rattle.std.specs.Arc.{arc_value};
    ghost use Rattle.book_core.specs.History.{History};

    ghost Value = { History };

    ghost view = { λ b. arc_value b.current };

    // With the changes that it has missed, the spare book has the same history.
    ghost invariant = { λ b. IfSome b.spare (λ spare. spare ≡ arc_value b.current) };
}

impl SharedBook {
    /// Returns a book without tables.
    pub fn new(alloc: Global) -> Result<SharedBook, NoMemory>
        ensures { IfOk result (λ book. book ≡ []) }
    {
        Ok(SharedBook {
            current: Arc::new(alloc, Book::new(alloc))?,
            spare: None,
        })
    }

    /// Returns the current book.
    pub fn current(&self) -> &Arc<Book>
        ensures { arc_value result.now ≡ self.now }
    {
        &self.current
    }

    /// Makes a change. If a snapshot shares the current book, it is made in the spare one, or in a copy if the spare
    /// book can't be used.
    pub fn change(
        &mut self,
        alloc: Global,
        by: u32,
        change: Change,
    ) -> Result<(), Failure<BookRefused>>
        ensures ok { OnOk result ((refusal_after self.old change ≡ None)
            × (self.new ≡ self.old ++ commit by change ∷ [])) }
        ensures err { IfErr result (λ why. (self.new ≡ self.old)
            × RefusesCommit self.old change why) }
    {
        let SharedBook { current, spare } = self;
        match Arc::get_mut(current) {
            Some(book) => change_alone(alloc, book, spare, by, change),
            None => change_shared(alloc, current, spare, by, change),
        }
    }
}

// Makes a change of a book that no snapshot shares.
fn change_alone(
    alloc: Global,
    book: &mut Book,
    spare: &mut Option<Spare>,
    by: u32,
    change: Change,
) -> Result<(), Failure<BookRefused>>
    requires { IfSome spare.old (λ spare. spare ≡ book.old) }
    ensures ok { OnOk result ((refusal_after book.old change ≡ None)
        × (book.new ≡ book.old ++ commit by change ∷ [])) }
    ensures err { IfErr result (λ why. (book.new ≡ book.old)
        × RefusesCommit book.old change why) }
    ensures spare { IfSome spare.new (λ spare. spare ≡ book.new) }
{
    let later = if spare.is_some() {
        made_later(alloc, by, &change)
    } else {
        None
    };
    book.apply(by, change)?;
    *spare = lagging(spare.take(), later);
    Ok(())
}

// Makes a change of a book that a snapshot shares: the spare book, or a copy, replaces it here. A change that the book
// refuses without testing keys is refused before anything else is done.
fn change_shared(
    alloc: Global,
    current: &mut Arc<Book>,
    spare: &mut Option<Spare>,
    by: u32,
    change: Change,
) -> Result<(), Failure<BookRefused>>
    requires { IfSome spare.old (λ spare. spare ≡ arc_value current.old) }
    ensures ok { OnOk result ((refusal_after (arc_value current.old) change ≡ None)
        × (arc_value current.new ≡ arc_value current.old ++ commit by change ∷ [])) }
    ensures err { IfErr result (λ why. (arc_value current.new ≡ arc_value current.old)
        × RefusesCommit (arc_value current.old) change why) }
    ensures spare { IfSome spare.new (λ spare. spare ≡ arc_value current.new) }
{
    if let Some(refused) = current.refusal(&change) {
        return Err(Failure::Refused(refused));
    }
    let later = made_later(alloc, by, &change);
    let mut next = same_book(alloc, current, spare.take())?;
    let made = next.apply(by, change);
    let next = Arc::new(alloc, next)?;
    match made {
        Ok(_) => {
            let before = Spare::new(alloc, mem::replace(current, next));
            *spare = lagging(Some(before), later);
            Ok(())
        }
        Err(why) => {
            *spare = Some(Spare::new(alloc, next));
            Err(why)
        }
    }
}

// Returns a book with the history of the current one: the spare book, if it can catch up, or a copy.
fn same_book(alloc: Global, current: &Book, spare: Option<Spare>) -> Result<Book, NoMemory>
    requires { IfSome spare (λ spare. spare ≡ current.now) }
    ensures { IfOk result (λ book. book ≡ current.now) }
{
    if let Some(spare) = spare {
        if let Some(book) = spare.caught_up() {
            return Ok(book);
        }
    }
    current.copy(alloc)
}

// Returns the spare book, which has missed one more change. If no copy of the change could be kept, there is no spare
// book.
fn lagging(spare: Option<Spare>, missed: Option<Commit>) -> Option<Spare>
    ensures { (h : History) (c : AnyCommit) → IfSome spare (λ spare. spare ≡ h)
        → IfSome missed (λ missed. missed ≡ c)
        → IfSome result (λ spare. spare ≡ h ++ c ∷ []) }
{
    spare?.missing(missed?)
}
