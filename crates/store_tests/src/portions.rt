//! Changes of a portion of time: rows as of commits, versions, the log, and copies.

use crate::fixtures::{name, period, schema, text};
use book_core::{
    Book, Change, ChangeKind, Entry, Pairs, RowsRefused, SharedVersions, VersionsRefused,
};
use draft_core::Drafts;
use list_core::DeepCopy;
use period_core::Period;
use row_core::{Draft, Failure, Kind, Name, Value, ValueRef, Values};
use std::alloc::Global;
use std::process::Abort;
use table_core::{RowRef, SharedRows};

// Returns the pairs of the column `v` with a text, and of the column `k` with a number.
fn pairs(rt: &(impl Abort + Alloc<A = Global>), v: Option<&[u8]>, k: Option<i64>) -> Pairs {
    let mut pairs = Pairs::new(rt.alloc());
    if let Some(bytes) = v {
        let pair = (name(rt, b"v"), text(rt, bytes));
        pairs.push(pair).expect(rt, "memory");
    }
    if let Some(number) = k {
        let pair = (name(rt, b"k"), Value::Int(number));
        pairs.push(pair).expect(rt, "memory");
    }
    pairs
}

// Returns the change that sets the text `y` on two days, under conditions.
fn update(rt: &(impl Abort + Alloc<A = Global>), v: Option<&[u8]>, k: Option<i64>) -> Change {
    Change::Update {
        table: name(rt, b"u"),
        portion: period(rt, b"2024-01-04", b"2024-01-06"),
        sets: pairs(rt, Some(b"y"), None),
        conds: pairs(rt, v, k),
    }
}

fn delete(rt: &(impl Abort + Alloc<A = Global>), v: Option<&[u8]>) -> Change {
    Change::Delete {
        table: name(rt, b"u"),
        portion: period(rt, b"2024-01-04", b"2024-01-07"),
        conds: pairs(rt, v, None),
    }
}

// Returns the change that makes the table, with a column `v` of texts and a column `k` of numbers.
fn make(rt: &(impl Abort + Alloc<A = Global>)) -> Change {
    let columns = [(name(rt, b"v"), Kind::Text), (name(rt, b"k"), Kind::Int)];
    Change::Make {
        table: name(rt, b"u"),
        schema: schema(rt, &columns),
    }
}

// Returns a row of nine days, with the text `x` and a number.
fn draft(rt: &(impl Abort + Alloc<A = Global>), k: i64) -> Draft {
    let mut values = Values::new(rt.alloc());
    values.push(text(rt, b"x")).expect(rt, "memory");
    values.push(Value::Int(k)).expect(rt, "memory");
    Draft {
        period: period(rt, b"2024-01-01", b"2024-01-10"),
        values,
    }
}

// Returns the change that adds `rows` rows, with the numbers from 0 to 99 in turn.
fn load(rt: &(impl Abort + Alloc<A = Global>), rows: i64) -> Change {
    let mut drafts = Drafts::new(rt.alloc());
    for k in 0..rows {
        drafts.push(draft(rt, k % 100)).expect(rt, "memory");
    }
    Change::Load {
        table: name(rt, b"u"),
        rows: drafts,
    }
}

fn apply(rt: &impl Abort, book: &mut Book, by: u32, change: Change) {
    book.apply(by, change).expect(rt, "a commit");
}

// Returns a book whose table has `rows` rows.
fn book(rt: &(impl Abort + Alloc<A = Global>), rows: i64) -> Book {
    let mut book = Book::new(rt.alloc());
    apply(rt, &mut book, 1, make(rt));
    apply(rt, &mut book, 1, load(rt, rows));
    book
}

// Returns a book whose table has one row, which was updated.
fn updated_book(rt: &(impl Abort + Alloc<A = Global>)) -> Book {
    let mut book = book(rt, 1);
    apply(rt, &mut book, 1, update(rt, None, None));
    book
}

// Returns whether the rows have these ids and periods.
fn are_portions(rows: &SharedRows, want: &[(u64, Period)]) -> bool {
    if rows.len() != want.len() {
        return false;
    }
    for place in 0..rows.len() {
        let row = rows.at(place);
        if (row.id(), row.period()) != want[place] {
            return false;
        }
    }
    true
}

// Returns whether the rows have these texts.
fn are_texts(rows: &SharedRows, want: &[&[u8]]) -> bool {
    if rows.len() != want.len() {
        return false;
    }
    for place in 0..rows.len() {
        if !is_text(rows.at(place), want[place]) {
            return false;
        }
    }
    true
}

fn is_text(row: RowRef<'_>, want: &[u8]) -> bool {
    match row.value(0) {
        Some(ValueRef::Text(text)) => text.as_bytes() == want,
        _ => false,
    }
}

// Checks the ids, periods and texts of the rows as of a commit.
fn check_rows(
    rt: &impl Abort,
    book: &Book,
    commit: u64,
    portions: &[(u64, Period)],
    texts: &[&[u8]],
) {
    let rows = book.rows_at(commit, name(rt, b"u")).expect(rt, "rows");
    assert!(rt; are_portions(&rows, portions));
    assert!(rt; are_texts(&rows, texts));
}

#[test]
fn puts_parts_in_place_of_a_row(rt: HostRuntime) {
    let before = [(1, period(&rt, b"2024-01-01", b"2024-01-10"))];
    let after = [
        (2, period(&rt, b"2024-01-01", b"2024-01-04")),
        (3, period(&rt, b"2024-01-04", b"2024-01-06")),
        (4, period(&rt, b"2024-01-06", b"2024-01-10")),
    ];
    let book = updated_book(&rt);
    check_rows(&rt, &book, 1, &[], &[]);
    check_rows(&rt, &book, 2, &before, &[b"x"]);
    check_rows(&rt, &book, 3, &after, &[b"x", b"y", b"x"]);
}

// The id of a version, its first commit, and the commit that closed it.
type SystemPeriod = (u64, u64, Option<u64>);

// Returns whether the versions have these ids and commits.
fn have_system_periods(versions: &SharedVersions, want: &[SystemPeriod]) -> bool {
    if versions.len() != want.len() {
        return false;
    }
    for place in 0..versions.len() {
        let version = versions.at(place);
        if (version.row().id(), version.sysfrom(), version.systo()) != want[place] {
            return false;
        }
    }
    true
}

fn check_between(rt: &impl Abort, book: &Book, [at, m, n]: [u64; 3], want: &[SystemPeriod]) {
    let versions = book
        .between(at, m, n, name(rt, b"u"))
        .expect(rt, "versions");
    assert!(rt; have_system_periods(&versions, want));
}

fn check_from_to(rt: &impl Abort, book: &Book, [at, m, n]: [u64; 3], want: &[SystemPeriod]) {
    let versions = book
        .from_to(at, m, n, name(rt, b"u"))
        .expect(rt, "versions");
    assert!(rt; have_system_periods(&versions, want));
}

#[test]
fn gives_versions(rt: HostRuntime) {
    let book = updated_book(&rt);
    let after = [(2, 3, None), (3, 3, None), (4, 3, None)];
    let all = [(1, 2, Some(3)), (2, 3, None), (3, 3, None), (4, 3, None)];
    check_between(&rt, &book, [2, 2, 9], &[(1, 2, None)]);
    check_between(&rt, &book, [3, 3, 3], &after);
    check_between(&rt, &book, [3, 0, 9], &all);
    check_from_to(&rt, &book, [3, 2, 3], &[(1, 2, Some(3))]);
    check_from_to(&rt, &book, [3, 0, 2], &[]);
}

#[test]
fn refuses_versions(rt: HostRuntime) {
    let other = name(&rt, b"t");
    let book = updated_book(&rt);
    for (refused, want) in [
        (book.between(4, 3, 2, other).err(), VersionsRefused::Future),
        (book.from_to(4, 3, 3, other).err(), VersionsRefused::Future),
        (
            book.between(3, 3, 2, other).err(),
            VersionsRefused::BadPeriod,
        ),
        (
            book.from_to(3, 3, 3, other).err(),
            VersionsRefused::BadPeriod,
        ),
        (book.between(3, 3, 3, other).err(), VersionsRefused::NoTable),
        (book.from_to(3, 3, 4, other).err(), VersionsRefused::NoTable),
    ] {
        assert!(rt; refused == Some(Failure::Refused(want)));
    }
}

#[test]
fn refuses_rows(rt: HostRuntime) {
    let table = name(&rt, b"u");
    let other = name(&rt, b"t");
    let book = updated_book(&rt);
    for (commit, table, want) in [
        (4, table, RowsRefused::Future),
        (4, other, RowsRefused::Future),
        (3, other, RowsRefused::NoTable),
    ] {
        let refused = book.rows_at(commit, table).err();
        assert!(rt; refused == Some(Failure::Refused(want)));
    }
}

// Returns the expected log entry of a commit.
fn entry(
    rt: &impl Abort,
    number: u64,
    by: u32,
    kind: ChangeKind,
    [added, closed]: [u64; 2],
) -> Entry {
    Entry {
        number,
        by,
        kind,
        table: name(rt, b"u"),
        added,
        closed,
    }
}

#[test]
fn logs_what_commits_did(rt: HostRuntime) {
    let mut book = updated_book(&rt);
    apply(&rt, &mut book, 2, delete(&rt, None));
    let want = [
        entry(&rt, 1, 1, ChangeKind::Make, [0, 0]),
        entry(&rt, 2, 1, ChangeKind::Load, [1, 0]),
        entry(&rt, 3, 1, ChangeKind::Update, [3, 1]),
        entry(&rt, 4, 2, ChangeKind::Delete, [1, 2]),
    ];
    let log = book.log().expect(&rt, "a log");
    assert!(rt; log.as_slice() == want.as_slice());
}

// Returns whether the commits added and closed these numbers of versions.
fn are_counts(entries: &[Entry], want: &[(u64, u64)]) -> bool {
    entries.len() == want.len()
        && entries
            .iter()
            .zip(want)
            .all(|(entry, want)| (entry.added, entry.closed) == *want)
}

// The table is long enough for indexes of its columns.
#[test]
fn finds_rows_by_their_values(rt: HostRuntime) {
    let mut book = book(&rt, 300);
    apply(&rt, &mut book, 1, update(&rt, None, Some(7)));
    apply(&rt, &mut book, 1, update(&rt, Some(b"y"), None));
    apply(&rt, &mut book, 1, update(&rt, Some(b"y"), Some(7)));
    apply(&rt, &mut book, 1, update(&rt, None, Some(100)));
    apply(&rt, &mut book, 1, update(&rt, Some(b"x"), None));
    let want = [(0, 0), (300, 0), (9, 3), (3, 3), (3, 3), (0, 0), (891, 297)];
    let log = book.log().expect(&rt, "a log");
    assert!(rt; are_counts(log.as_slice(), &want));
}

// Returns whether the pair at the given index is this name and number.
fn is_pair(pairs: &Pairs, place: usize, want: (Name, i64)) -> bool {
    match pairs.get(place) {
        Some((name, Value::Int(number))) => (*name, *number) == want,
        _ => false,
    }
}

#[test]
fn adds_pairs_at_the_end(rt: HostRuntime) {
    let name = name(&rt, b"v");
    let mut pairs = Pairs::new(rt.alloc());
    pairs.push((name, Value::Int(1))).expect(&rt, "memory");
    pairs.push((name, Value::Int(2))).expect(&rt, "memory");
    let copy = pairs.copy(rt.alloc()).expect(&rt, "memory");
    assert!(rt; copy.len() == 2);
    assert!(rt; is_pair(&copy, 0, (name, 1)));
    assert!(rt; is_pair(&copy, 1, (name, 2)));
    assert!(rt; copy.as_slice() == pairs.as_slice());
}

// Returns the table, portion, settings and conditions of a change of a portion. A delete has no settings.
fn parts_of(change: &Change) -> Option<(Name, Period, &[(Name, Value)], &[(Name, Value)])> {
    match change {
        Change::Update {
            table,
            portion,
            sets,
            conds,
        } => Some((*table, *portion, sets.as_slice(), conds.as_slice())),
        Change::Delete {
            table,
            portion,
            conds,
        } => Some((*table, *portion, &[], conds.as_slice())),
        Change::Make { .. } => None,
        Change::Load { .. } => None,
    }
}

fn check_copy(rt: &(impl Abort + Alloc<A = Global>), change: &Change) {
    let copy = change.copy(rt.alloc()).expect(rt, "memory");
    assert!(rt; parts_of(&copy).is_some());
    assert!(rt; parts_of(&copy) == parts_of(change));
}

#[test]
fn copies_changes_of_a_portion(rt: HostRuntime) {
    check_copy(&rt, &update(&rt, Some(b"x"), None));
    check_copy(&rt, &delete(&rt, Some(b"x")));
}
