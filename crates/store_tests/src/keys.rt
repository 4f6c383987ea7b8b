//! Keys of books: overlapping rows with the same key are refused as `KeyOverlap` while memory is available.

use crate::books::check_apply;
use crate::fixtures::{day, name, schema};
use book_core::{Book, BookRefused, Change};
use draft_core::Drafts;
use row_core::{Draft, Kind, Value, Values};
use std::alloc::Global;
use std::process::Abort;

// Returns the change that makes the table `t`, whose key is a column of numbers.
fn make(rt: &(impl Abort + Alloc<A = Global>)) -> Change {
    let k = name(rt, b"k");
    let keyed = schema(rt, &[(k, Kind::Int)]).with_key(rt.alloc(), &[k]);
    Change::Make {
        table: name(rt, b"t"),
        schema: keyed.expect(rt, "a key"),
    }
}

// Returns the change that adds rows of one day with these numbers.
fn load(rt: &(impl Abort + Alloc<A = Global>), numbers: &[i64]) -> Change {
    let mut rows = Drafts::new(rt.alloc());
    for number in numbers {
        let mut values = Values::new(rt.alloc());
        values.push(Value::Int(*number)).expect(rt, "memory");
        let period = day(rt);
        rows.push(Draft { period, values }).expect(rt, "memory");
    }
    Change::Load {
        table: name(rt, b"t"),
        rows,
    }
}

// Many new rows are sorted together with the old ones. A single row is looked up among the sixteen old ones.
#[test]
fn refuses_rows_of_one_key_by_name(rt: HostRuntime) {
    let mut book = Book::new(rt.alloc());
    let numbers = [1, 2, 3, 4, 5, 6, 7, 8, 9, 10, 11, 12, 13, 14, 15, 16];
    check_apply(&rt, &mut book, make(&rt), Ok(1));
    let overlap = Err(BookRefused::KeyOverlap);
    check_apply(&rt, &mut book, load(&rt, &[1, 2, 1]), overlap);
    check_apply(&rt, &mut book, load(&rt, &numbers), Ok(2));
    check_apply(&rt, &mut book, load(&rt, &numbers), overlap);
    check_apply(&rt, &mut book, load(&rt, &[7]), overlap);
    check_apply(&rt, &mut book, load(&rt, &[17]), Ok(3));
    check_apply(&rt, &mut book, load(&rt, &[17]), overlap);
}
