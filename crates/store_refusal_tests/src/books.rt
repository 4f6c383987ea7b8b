//! A book, its changes and its queries, with memory refused.

use crate::fixtures::{name, period, text};
use book_core::{Book, BookRefused, Change, Pairs, RowsRefused};
use draft_core::Drafts;
use list_core::DeepCopy;
use refusal_core::{Ended, Fault, holds, refuses, try_each};
use row_core::{Draft, Failure, Kind, Name, Schema, Value, Values};
use std::alloc::Global;

// Returns a load of one row with that value.
fn load(alloc: Global, table: Name, value: Value) -> Result<Change, Ended> {
    let mut values = Values::new(alloc);
    values.push(value)?;
    let mut rows = Drafts::new(alloc);
    rows.push(Draft {
        period: period(b"2024-01-01", b"2024-01-10")?,
        values,
    })?;
    Ok(Change::Load { table, rows })
}

// Returns an update of two days of it. If adding its setting is refused memory, checks that none was added, and adds it
// again.
fn update(alloc: Global, table: Name, column: Name) -> Result<Change, Ended> {
    let mut sets = Pairs::new(alloc);
    if sets.push((column, text(alloc, b"y")?)).is_err() {
        holds(sets.is_empty())?;
        sets.push((column, text(alloc, b"y")?))?;
    }
    Ok(Change::Update {
        table,
        portion: period(b"2024-01-04", b"2024-01-06")?,
        sets,
        conds: Pairs::new(alloc),
    })
}

// Returns the change with that number: a table with a text column, its row, and an update.
fn change(alloc: Global, number: u64) -> Result<Change, Ended> {
    let (table, column) = (name(b"u")?, name(b"v")?);
    match number {
        1 => Ok(Change::Make {
            table,
            schema: Schema::new(alloc, &[(column, Kind::Text)])?,
        }),
        2 => load(alloc, table, text(alloc, b"x")?),
        _ => update(alloc, table, column),
    }
}

// Makes the change with that number. If memory is refused, checks that the number of commits is unchanged, and makes it
// again.
fn apply(alloc: Global, book: &mut Book, number: u64) -> Result<(), Ended> {
    let before = book.commits();
    let change = change(alloc, number)?;
    let made = match book.apply(1, change.copy(alloc)?) {
        Err(Failure::NoMemory) => {
            holds(book.commits() == before && book.log()?.len() as u64 == before)?;
            book.apply(1, change)?
        }
        made => made?,
    };
    holds(made == number && book.commits() == number)
}

// Checks the versions as of some commits: the row before it was updated.
fn ask_versions(alloc: Global, book: &Book, table: Name) -> Result<(), Ended> {
    let open = book.between(2, 2, 9, table)?.list(alloc)?;
    holds(open.len() == 1)?;
    let version = open.get(0).ok_or(Ended::Wrong)?;
    holds(version.row.id == 1 && version.systo.is_none())?;
    let closed = book.from_to(3, 2, 3, table)?;
    holds(closed.len() == 1)?;
    let version = closed.at(0);
    holds(version.row().id() == 1 && version.systo() == Some(3))
}

// Checks the queries of the book with three changes, and its refusals.
fn ask(alloc: Global, book: &mut Book) -> Result<(), Ended> {
    let table = name(b"u")?;
    let rows = book.rows_at(2, table)?;
    holds(rows.len() == 1 && rows.at(0).id() == 1)?;
    ask_versions(alloc, book, table)?;
    holds(book.log()?.len() == 3)?;
    refuses(book.rows_at(4, table), RowsRefused::Future)?;
    let wrong = load(alloc, table, Value::Int(1))?;
    refuses(book.apply(1, wrong), BookRefused::WrongKind)?;
    holds(book.commits() == 3)
}

// Makes a book by its changes, and queries it and its copy.
fn change_and_ask(alloc: Global) -> Result<(), Ended> {
    let mut book = Book::new(alloc);
    for number in 1..4 {
        apply(alloc, &mut book, number)?;
    }
    ask(alloc, &mut book)?;
    let mut copy = book.copy(alloc)?;
    ask(alloc, &mut copy)
}

#[test]
fn a_refused_change_is_made_later(rt: HostRuntime) -> Result<(), Fault> {
    try_each(&rt, change_and_ask)
}
