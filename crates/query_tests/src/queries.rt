//! Queries of tables by several workers, compared with the expected rows.

use crate::tables::{Table, TablePair, january, listed, side};
use query_core::{AggRow, AntiRow, Func, JoinAnswer, JoinRow, agg, anti, join};
use row_core::Name;
use std::alloc::Global;
use std::process::Abort;
use std::thread::Threads;
use work_core::Gate;

/// Returns the join of both tables, by this number of workers.
pub fn joined<G: Gate>(
    rt: &(impl Abort + Alloc<A = Global> + Threads + Sync),
    pair: &TablePair,
    workers: u32,
    gate: &G,
) -> JoinAnswer {
    assert!(rt; workers > 0);
    assert!(rt; workers <= 64);
    let (left, right) = (side(rt, &pair.left), side(rt, &pair.right));
    join(rt, rt.alloc(), left, right, &pair.on, workers, gate).expect(rt, "an answer")
}

/// Checks that the join of both tables has these rows, with each of these numbers of workers.
pub fn check_joins<G: Gate>(
    rt: &(impl Abort + Alloc<A = Global> + Threads + Sync),
    pair: &TablePair,
    numbers: &[u32],
    gate: &G,
    want: &[JoinRow],
) {
    for workers in numbers {
        let answer = joined(rt, pair, *workers, gate);
        assert_eq!(rt; answer.rows.as_slice(), want, "with {workers} workers");
    }
}

// Returns the rows of the anti-join of both tables, by this number of workers.
fn unmet<G: Gate>(
    rt: &(impl Abort + Alloc<A = Global> + Threads + Sync),
    pair: &TablePair,
    workers: u32,
    gate: &G,
) -> Vec<AntiRow> {
    assert!(rt; workers > 0);
    assert!(rt; workers <= 64);
    let (left, right) = (side(rt, &pair.left), side(rt, &pair.right));
    let rows = anti(rt, rt.alloc(), left, right, &pair.on, workers, gate);
    listed(rt, &rows.expect(rt, "an answer"))
}

/// Checks that the anti-join of both tables has these rows, with each of these numbers of workers.
pub fn check_antis<G: Gate>(
    rt: &(impl Abort + Alloc<A = Global> + Threads + Sync),
    pair: &TablePair,
    numbers: &[u32],
    gate: &G,
    want: &[AntiRow],
) {
    for workers in numbers {
        let rows = unmet(rt, pair, *workers, gate);
        assert_eq!(rt; rows.as_slice(), want, "with {workers} workers");
    }
}

/// A function of a table's rows, and the column that they are grouped by.
#[derive(Clone, Copy)]
pub struct Question {
    pub func: Func,
    pub group: Option<Name>,
}

// Returns the rows of the aggregate, by this number of workers.
fn aggregated<G: Gate>(
    rt: &(impl Abort + Alloc<A = Global> + Threads + Sync),
    table: &Table,
    question: &Question,
    workers: u32,
    gate: &G,
) -> Vec<AggRow> {
    assert!(rt; workers > 0);
    assert!(rt; workers <= 64);
    let Question { func, group } = *question;
    let rows = agg(rt, rt.alloc(), side(rt, table), func, group, workers, gate);
    let rows = rows.expect(rt, "an answer").to_vec(rt.alloc());
    rows.expect(rt, "memory")
}

/// Checks that the aggregate has these rows, with each of these numbers of workers.
pub fn check_aggs<G: Gate>(
    rt: &(impl Abort + Alloc<A = Global> + Threads + Sync),
    table: &Table,
    question: &Question,
    numbers: &[u32],
    gate: &G,
    want: &[AggRow],
) {
    for workers in numbers {
        let rows = aggregated(rt, table, question, *workers, gate);
        assert_eq!(rt; rows.as_slice(), want, "with {workers} workers");
    }
}

/// Returns the rows of an aggregate of one group, from days of January 2024, from one to before another, and values.
pub fn ungrouped(rt: &(impl Abort + Alloc<A = Global>), values: &[(u8, u8, i128)]) -> Vec<AggRow> {
    let mut rows = Vec::new(rt.alloc());
    for (from, to, value) in values {
        let row = AggRow {
            group: None,
            period: january(rt, *from, *to),
            value: *value,
        };
        rows.push(row).expect(rt, "memory");
    }
    rows
}
