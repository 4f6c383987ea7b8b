//! Joins of tables: their rows for each number of workers, and how often cursors advance.

use crate::queries::{check_joins, joined};
use crate::tables::{TablePair, january, number_pair, periods_twice, side, table_of, table_with};
use query_core::{JoinRow, QueryRefused, join};
use row_core::{Failure, Kind, Name, RowList};
use std::alloc::Global;
use std::process::Abort;
use std::test::Fail;
use std::thread::Threads;
use work_core::OpenGate;

/// Returns the worked join: tables of two rows and of three.
pub fn worked_join(rt: &(impl Abort + Alloc<A = Global>)) -> TablePair {
    let rights = [(3, 6, 1), (6, 20, 1), (7, 8, 2)];
    number_pair(rt, &[(1, 10, 1), (5, 8, 2)], &rights)
}

/// Returns the rows of the worked join on a column.
pub fn worked_rows(rt: &impl Abort) -> [JoinRow; 3] {
    [
        JoinRow {
            period: january(rt, 3, 6),
            left: 1,
            right: 1,
        },
        JoinRow {
            period: january(rt, 6, 10),
            left: 1,
            right: 2,
        },
        JoinRow {
            period: january(rt, 7, 8),
            left: 2,
            right: 3,
        },
    ]
}

// Checks that the cursors of the worked join advance at least four and at most ten times, with this number of workers.
fn check_turns(
    rt: &(impl Abort + Alloc<A = Global> + Threads + Sync),
    pair: &TablePair,
    workers: u32,
) {
    let turns = joined(rt, pair, workers, &OpenGate).turns;
    assert!(rt; turns >= 4);
    assert!(rt; turns <= 10);
}

#[test]
fn joins_on_a_column(rt: HostRuntime) {
    let pair = worked_join(&rt);
    check_joins(&rt, &pair, &[1, 2, 7, 64], &OpenGate, &worked_rows(&rt));
    for workers in [1, 2, 7, 64] {
        check_turns(&rt, &pair, workers);
    }
}

// Checks that a join has `want` rows, with this number of workers.
fn check_count(
    rt: &(impl Abort + Alloc<A = Global> + Threads + Sync),
    pair: &TablePair,
    workers: u32,
    want: usize,
) {
    let count = joined(rt, pair, workers, &OpenGate).rows.len();
    assert!(rt; count == want, "{count} rows with {workers} workers");
}

#[test]
fn joins_without_columns(rt: HostRuntime) {
    let mut pair = worked_join(&rt);
    pair.on.clear();
    for workers in [1, 2, 7, 64] {
        check_count(&rt, &pair, workers, 6);
    }
}

// Returns a table of one row, and a table without rows that also has a column of texts.
fn table_without_rows(rt: &(impl Abort + Alloc<A = Global>), c: Name, d: Name) -> TablePair {
    let columns = [(c, Kind::Int), (d, Kind::Text)];
    TablePair {
        left: table_of(rt, &[(1, 10, 1)]),
        right: table_with(rt, &columns, RowList::new(rt.alloc())),
        on: Vec::from_slice(rt.alloc(), &[(c, c)]).expect(rt, "memory"),
    }
}

// Checks that a join on these columns is refused.
fn check_refusal(
    rt: &(impl Abort + Alloc<A = Global> + Threads + Sync),
    pair: &TablePair,
    on: (Name, Name),
    want: QueryRefused,
) {
    let (left, right) = (side(rt, &pair.left), side(rt, &pair.right));
    let answer = join(rt, rt.alloc(), left, right, &[on], 2, &OpenGate);
    assert!(rt; answer.err() == Some(Failure::Refused(want)));
}

#[test]
fn refuses_columns(rt: HostRuntime) -> Result<(), Fail> {
    let (c, d) = (Name::parse(b"c")?, Name::parse(b"d")?);
    let pair = table_without_rows(&rt, c, d);
    check_refusal(&rt, &pair, (c, d), QueryRefused::WrongKind);
    check_refusal(&rt, &pair, (d, c), QueryRefused::NoColumn);
    check_refusal(&rt, &pair, (d, d), QueryRefused::NoColumn);
    check_joins(&rt, &pair, &[2], &OpenGate, &[]);
    Ok(())
}

// Returns `count` rows of one day, on both sides.
fn one_day_twice(rt: &(impl Abort + Alloc<A = Global>), count: usize) -> TablePair {
    let periods = vec![in rt.alloc(); january(rt, 1, 2); count].expect(rt, "memory");
    periods_twice(rt, &periods)
}

// All rows are of one day, so each is a part of its own.
#[test]
fn joins_rows_of_one_day(rt: HostRuntime) {
    let pair = one_day_twice(&rt, 200);
    let answer = joined(&rt, &pair, 2, &OpenGate);
    assert!(rt; answer.rows.len() == 40_000);
    assert!(rt; answer.turns >= 40_000);
    assert!(rt; answer.turns <= 80_000);
}

// Checks that each of 300 rows is joined with each of 300 others, all of one day, by left id and right id.
fn check_pairs(rt: &impl Abort, rows: &[JoinRow]) {
    assert!(rt; rows.len() == 90_000);
    let day = january(rt, 1, 2);
    for (i, row) in (0..90_000u64).zip(rows) {
        assert!(rt; row.period == day);
        assert!(rt; row.left == i / 300 + 1);
        assert!(rt; row.right == i % 300 + 1);
    }
}

// There are more pairs of parts than are run at once.
#[test]
fn joins_ninety_thousand_pairs(rt: HostRuntime) {
    let pair = one_day_twice(&rt, 300);
    let answer = joined(&rt, &pair, 2, &OpenGate);
    check_pairs(&rt, answer.rows.as_slice());
}
