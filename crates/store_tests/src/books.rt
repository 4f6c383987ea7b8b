//! Books: the rows as of each commit, copies of books, and their limits.

use crate::fixtures::{day, name, period, schema};
use book_core::{Book, BookRefused, Change, Pairs};
use draft_core::Drafts;
use list_core::DeepCopy;
use period_core::Period;
use row_core::{Draft, Failure, Kind, Value, Values};
use std::alloc::Global;
use std::process::Abort;
use table_core::SharedRows;

// Returns the change that makes a table without columns.
fn make(rt: &(impl Abort + Alloc<A = Global>), table: &[u8]) -> Change {
    Change::Make {
        table: name(rt, table),
        schema: schema(rt, &[]),
    }
}

// Returns `rows` rows with the same period, without values.
fn drafts(rt: &(impl Abort + Alloc<A = Global>), period: &Period, rows: usize) -> Drafts {
    let mut drafts = Drafts::new(rt.alloc());
    for _ in 0..rows {
        let draft = Draft {
            period: *period,
            values: Values::new(rt.alloc()),
        };
        drafts.push(draft).expect(rt, "memory");
    }
    drafts
}

// Returns the change that adds `rows` rows of one day to the table `t`.
fn load(rt: &(impl Abort + Alloc<A = Global>), rows: usize) -> Change {
    Change::Load {
        table: name(rt, b"t"),
        rows: drafts(rt, &day(rt), rows),
    }
}

// Makes a change, and checks the book's answer.
pub(crate) fn check_apply(
    rt: &impl Abort,
    book: &mut Book,
    change: Change,
    want: Result<u64, BookRefused>,
) {
    let answer = book.apply(1, change);
    assert_eq!(rt; answer, want.map_err(Failure::Refused));
}

fn check_load(
    rt: &(impl Abort + Alloc<A = Global>),
    book: &mut Book,
    rows: usize,
    want: Result<u64, BookRefused>,
) {
    check_apply(rt, book, load(rt, rows), want);
}

// Returns whether the ids are the numbers from 1 on.
fn are_counted(rows: &SharedRows) -> bool {
    for place in 0..rows.len() {
        if rows.at(place).id() != place as u64 + 1 {
            return false;
        }
    }
    true
}

// Checks that the table has `count` rows as of a commit, with ids from 1 on.
fn check_rows(rt: &impl Abort, book: &Book, table: &[u8], commit: u64, count: usize) {
    let rows = book.rows_at(commit, name(rt, table)).expect(rt, "rows");
    assert!(rt; rows.len() == count);
    assert!(rt; are_counted(&rows));
}

#[test]
fn shows_each_commit(rt: HostRuntime) {
    let mut book = Book::new(rt.alloc());
    check_load(&rt, &mut book, 1, Err(BookRefused::NoTable));
    check_apply(&rt, &mut book, make(&rt, b"t"), Ok(1));
    check_apply(
        &rt,
        &mut book,
        make(&rt, b"t"),
        Err(BookRefused::TableExists),
    );
    check_load(&rt, &mut book, 2, Ok(2));
    check_load(&rt, &mut book, 1, Ok(3));
    check_rows(&rt, &book, b"t", 0, 0);
    check_rows(&rt, &book, b"t", 1, 0);
    check_rows(&rt, &book, b"t", 2, 2);
    check_rows(&rt, &book, b"t", 3, 3);
}

// Returns the change that makes the table `u`, with a column of texts.
fn make_texts(rt: &(impl Abort + Alloc<A = Global>)) -> Change {
    let column = (name(rt, b"v"), Kind::Text);
    Change::Make {
        table: name(rt, b"u"),
        schema: schema(rt, &[column]),
    }
}

// Returns the change that adds a row with a number to the table `u`.
fn load_number(rt: &(impl Abort + Alloc<A = Global>)) -> Change {
    let mut values = Values::new(rt.alloc());
    values.push(Value::Int(1)).expect(rt, "memory");
    let period = day(rt);
    let mut rows = Drafts::new(rt.alloc());
    rows.push(Draft { period, values }).expect(rt, "memory");
    Change::Load {
        table: name(rt, b"u"),
        rows,
    }
}

#[test]
fn refuses_values_of_another_kind(rt: HostRuntime) {
    let mut book = Book::new(rt.alloc());
    check_apply(&rt, &mut book, make_texts(&rt), Ok(1));
    check_apply(
        &rt,
        &mut book,
        load_number(&rt),
        Err(BookRefused::WrongKind),
    );
    assert!(rt; book.commits() == 1);
    check_rows(&rt, &book, b"u", 1, 0);
}

// Makes a copy of a change, and checks the book's answer.
fn check_copy(
    rt: &(impl Abort + Alloc<A = Global>),
    book: &mut Book,
    change: &Change,
    want: Result<u64, BookRefused>,
) {
    let copy = change.copy(rt.alloc()).expect(rt, "memory");
    check_apply(rt, book, copy, want);
}

fn have_same_logs(rt: &impl Abort, a: &Book, b: &Book) -> bool {
    let a = a.log().expect(rt, "memory");
    let b = b.log().expect(rt, "memory");
    a.as_slice() == b.as_slice()
}

#[test]
fn copies_go_their_own_way(rt: HostRuntime) {
    let mut book = Book::new(rt.alloc());
    check_copy(&rt, &mut book, &make(&rt, b"t"), Ok(1));
    check_copy(&rt, &mut book, &load(&rt, 3), Ok(2));
    let mut copy = book.copy(rt.alloc()).expect(&rt, "memory");
    assert!(rt; have_same_logs(&rt, &copy, &book));
    check_load(&rt, &mut copy, 3, Ok(3));
    assert!(rt; book.commits() == 2);
    check_rows(&rt, &book, b"t", 2, 3);
    check_rows(&rt, &copy, b"t", 2, 3);
    check_rows(&rt, &copy, b"t", 3, 6);
}

// Returns the day after the other rows' day.
fn next_day(rt: &impl Abort) -> Period {
    period(rt, b"2024-01-02", b"2024-01-03")
}

// Returns the change that adds a row of the next day to the table `t`.
fn load_next(rt: &(impl Abort + Alloc<A = Global>)) -> Change {
    Change::Load {
        table: name(rt, b"t"),
        rows: drafts(rt, &next_day(rt), 1),
    }
}

// Returns the change that deletes the rows of that day.
fn delete_next(rt: &(impl Abort + Alloc<A = Global>)) -> Change {
    Change::Delete {
        table: name(rt, b"t"),
        portion: next_day(rt),
        conds: Pairs::new(rt.alloc()),
    }
}

// After a change has closed a row, a list has the indexes of the remaining rows, like each list of earlier rows.
#[test]
fn lists_thousands_of_rows(rt: HostRuntime) {
    let mut book = Book::new(rt.alloc());
    check_apply(&rt, &mut book, make(&rt, b"t"), Ok(1));
    check_load(&rt, &mut book, 5_000, Ok(2));
    check_apply(&rt, &mut book, load_next(&rt), Ok(3));
    check_rows(&rt, &book, b"t", 2, 5_000);
    check_rows(&rt, &book, b"t", 3, 5_001);
    check_apply(&rt, &mut book, delete_next(&rt), Ok(4));
    check_rows(&rt, &book, b"t", 3, 5_001);
    check_rows(&rt, &book, b"t", 4, 5_000);
}

#[test]
fn a_table_has_a_million_rows(rt: HostRuntime) {
    let mut book = Book::new(rt.alloc());
    check_apply(&rt, &mut book, make(&rt, b"t"), Ok(1));
    check_load(&rt, &mut book, 1_000_001, Err(BookRefused::Full));
    check_rows(&rt, &book, b"t", 1, 0);
    check_load(&rt, &mut book, 1_000_000, Ok(2));
    check_load(&rt, &mut book, 1, Err(BookRefused::Full));
    check_load(&rt, &mut book, 0, Ok(3));
    check_rows(&rt, &book, b"t", 3, 1_000_000);
}

#[test]
fn has_a_million_commits(rt: HostRuntime) {
    let mut book = Book::new(rt.alloc());
    check_apply(&rt, &mut book, make(&rt, b"t"), Ok(1));
    for number in 2..=1_000_000 {
        check_load(&rt, &mut book, 1, Ok(number));
    }
    check_load(&rt, &mut book, 0, Err(BookRefused::Full));
    check_apply(&rt, &mut book, make(&rt, b"u"), Err(BookRefused::Full));
    check_rows(&rt, &book, b"t", 2, 1);
    check_rows(&rt, &book, b"t", 1_000_000, 999_999);
}
