//! Tests of the classes of rows by a text and a number, and of the items that the rows become.

use crate::tables::{Table, TablePair, january, push_row, side, table_with};
use dip_core::Item;
use match_core::{classes_of, items_of_sides, refusal_of_pairs};
use row_core::{Kind, Name, RowList, Text, Value, Values};
use std::alloc::Global;
use std::process::Abort;
use std::test::Fail;
use std::thread::Threads;
use work_core::{Crew, OpenGate};

fn values(rt: &(impl Abort + Alloc<A = Global>), text: &[u8], number: i64) -> Values {
    let text = Text::new(rt.alloc(), text).expect(rt, "a text");
    let mut values = Values::new(rt.alloc());
    values.push(Value::Text(text)).expect(rt, "memory");
    values.push(Value::Int(number)).expect(rt, "memory");
    values
}

// Returns a table with a column `t` of texts and a column `n` of numbers. Its rows are of one day and have these
// values.
fn table(rt: &(impl Abort + Alloc<A = Global>), rows: &[(&[u8], i64)]) -> Table {
    let mut list = RowList::new(rt.alloc());
    for (text, number) in rows {
        let values = values(rt, text, *number);
        push_row(rt, &mut list, january(rt, 1, 2), values);
    }
    let text = (Name::parse(b"t").expect(rt, "a name"), Kind::Text);
    let number = (Name::parse(b"n").expect(rt, "a name"), Kind::Int);
    table_with(rt, &[text, number], list)
}

// Returns the columns with these names, for both sides.
fn names(rt: &(impl Abort + Alloc<A = Global>), names: &[&[u8]]) -> Vec<(Name, Name)> {
    let mut on = Vec::new(rt.alloc());
    for name in names {
        let name = Name::parse(name).expect(rt, "a name");
        on.push((name, name)).expect(rt, "memory");
    }
    on
}

// Returns the classes of the rows of both tables.
fn classes(
    rt: &(impl Abort + Alloc<A = Global> + Threads + Sync),
    pair: &TablePair,
    on: &[(Name, Name)],
) -> Vec<u64> {
    let (one, other) = (side(rt, &pair.left), side(rt, &pair.right));
    assert!(rt; refusal_of_pairs(one.schema, other.schema, on).is_none());
    let crew = Crew::new(rt, rt.alloc(), 1, &OpenGate);
    let both = classes_of(&crew, one, other, on).expect(rt, "memory");
    let mut classes = both.left;
    classes.extend_from_slice(&both.right).expect(rt, "memory");
    classes
}

// Checks that, by the columns with these names, rows have equal classes if and only if these numbers are equal.
fn check_classes(
    rt: &(impl Abort + Alloc<A = Global> + Threads + Sync),
    pair: &TablePair,
    on: &[&[u8]],
    want: &[u64],
) {
    let classes = classes(rt, pair, &names(rt, on));
    assert!(rt; classes.len() == want.len());
    for (class, number) in classes.iter().zip(want) {
        check_class(rt, *class, *number, &classes, want);
    }
}

// Checks that the rows with this class are exactly the rows with this number.
fn check_class(rt: &impl Abort, class: u64, number: u64, classes: &[u64], want: &[u64]) {
    for (other, wanted) in classes.iter().zip(want) {
        assert!(rt; (*other == class) == (*wanted == number));
    }
}

const LEFT: &[(&[u8], i64)] = &[(b"x", 1), (b"y", 1), (b"x", 2)];

const RIGHT: &[(&[u8], i64)] = &[(b"x", 2), (b"x", 1), (b"", 1), (b"y", 2)];

fn tables(rt: &(impl Abort + Alloc<A = Global>)) -> TablePair {
    TablePair {
        left: table(rt, LEFT),
        right: table(rt, RIGHT),
        on: Vec::new(rt.alloc()),
    }
}

#[test]
fn classes_by_text_and_number(rt: HostRuntime) {
    let pair = tables(&rt);
    check_classes(&rt, &pair, &[], &[0, 0, 0, 0, 0, 0, 0]);
    check_classes(&rt, &pair, &[b"t"], &[0, 1, 0, 0, 0, 2, 1]);
    check_classes(&rt, &pair, &[b"n"], &[0, 0, 1, 1, 0, 0, 1]);
    check_classes(&rt, &pair, &[b"t", b"n"], &[0, 1, 2, 2, 0, 3, 4]);
}

// Checks the item of a row of the first of January.
fn check_item(rt: &impl Abort, item: Option<&Item>, id: u64, class: u64) {
    let item = item.expect(rt, "an item");
    assert!(rt; item.id == id);
    assert!(rt; item.class == class);
    assert!(rt; item.period == january(rt, 1, 2));
}

#[test]
fn items_of_lower_classes_come_first(rt: HostRuntime) -> Result<(), Fail> {
    let left = table(&rt, &[(b"x", 2), (b"y", 1)]);
    let right = table(&rt, &[(b"x", 3), (b"y", 1)]);
    let (one, other) = (side(&rt, &left), side(&rt, &right));
    let on = names(&rt, &[b"n"]);
    assert!(rt; refusal_of_pairs(one.schema, other.schema, &on).is_none());
    let crew = Crew::new(&rt, rt.alloc(), 1, &OpenGate);
    let classes = classes_of(&crew, one, other, &on)?;
    let (lefts, rights) = items_of_sides(&crew, one.rows, other.rows, classes)?;
    assert!(rt; lefts.len() == 2 && rights.len() == 2);
    check_item(&rt, lefts.first(), 2, 0);
    check_item(&rt, lefts.get(1), 1, 1);
    check_item(&rt, rights.first(), 2, 0);
    check_item(&rt, rights.get(1), 1, 3);
    Ok(())
}
