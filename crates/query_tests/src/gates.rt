//! Tests with gates: which pairs of parts queries run, and that no pair waits for another.

use crate::joins::{worked_join, worked_rows};
use crate::queries::{Question, check_aggs, check_antis, check_joins, joined, ungrouped};
use crate::tables::{TablePair, days, january, periods_twice, without_columns};
use period_core::{Period, Point};
use query_core::{AntiRow, Func, JoinRow};
use std::alloc::Global;
use std::process::Abort;
use std::sync::atomic::{AtomicU64, Ordering};
use std::test::Fail;
use std::thread::Threads;
use work_core::{Gate, OpenGate, PairName};

// Counts how often each of ten times ten pairs is entered, by left and then right part, and also all other pairs.
#[derive(Drop)]
struct Counts {
    entered: [[AtomicU64; 10]; 10],
    others: AtomicU64,
}

fn zeros() -> [AtomicU64; 10] {
    [
        AtomicU64::new(0),
        AtomicU64::new(0),
        AtomicU64::new(0),
        AtomicU64::new(0),
        AtomicU64::new(0),
        AtomicU64::new(0),
        AtomicU64::new(0),
        AtomicU64::new(0),
        AtomicU64::new(0),
        AtomicU64::new(0),
    ]
}

fn ten_by_ten() -> [[AtomicU64; 10]; 10] {
    [
        zeros(),
        zeros(),
        zeros(),
        zeros(),
        zeros(),
        zeros(),
        zeros(),
        zeros(),
        zeros(),
        zeros(),
    ]
}

// Counts a pair by its right part.
fn count(counts: &[AtomicU64; 10], others: &AtomicU64, right: u32) {
    match counts.get(right as usize) {
        Some(count) => {
            count.fetch_add(1, Ordering::SeqCst);
        }
        None => {
            others.fetch_add(1, Ordering::SeqCst);
        }
    }
}

impl Gate for Counts {
    fn enter(&self, pair: PairName) {
        match self.entered.get(pair.left as usize) {
            Some(counts) => count(counts, &self.others, pair.right),
            None => {
                self.others.fetch_add(1, Ordering::SeqCst);
            }
        }
    }

    fn leave(&self, _pair: PairName) {}
}

// Checks that each pair was entered once, and no other.
fn check_counts(rt: &impl Abort, counts: &Counts) {
    assert!(rt; counts.others.load(Ordering::SeqCst) == 0);
    for rights in &counts.entered {
        for count in rights {
            assert!(rt; count.load(Ordering::SeqCst) == 1);
        }
    }
}

// Holds one pair until another has left, but not forever.
#[derive(Drop)]
struct Holds {
    held: PairName,
    awaited: PairName,
    left: AtomicU64,
    turns: u64,
    failed: AtomicU64,
}

impl Gate for Holds {
    fn enter(&self, pair: PairName) {
        if pair != self.held {
            return;
        }
        for _ in 0..self.turns {
            if self.left.load(Ordering::SeqCst) == 1 {
                return;
            }
            std::thread::yield_now();
        }
        self.failed.store(1, Ordering::SeqCst);
    }

    fn leave(&self, pair: PairName) {
        if pair == self.awaited {
            self.left.store(1, Ordering::SeqCst);
        }
    }
}

impl Holds {
    // Returns a gate that holds a pair until another has left. Pairs are given by left and right part.
    fn new(held: (u32, u32), awaited: (u32, u32)) -> Holds {
        Holds {
            held: PairName {
                left: held.0,
                right: held.1,
            },
            awaited: PairName {
                left: awaited.0,
                right: awaited.1,
            },
            left: AtomicU64::new(0),
            turns: 10_000_000,
            failed: AtomicU64::new(0),
        }
    }
}

// Returns two gates: each holds one of the two pairs until the other has left.
fn both_ways(one: (u32, u32), other: (u32, u32)) -> [Holds; 2] {
    [Holds::new(one, other), Holds::new(other, one)]
}

// Checks that the awaited pair has left, and that no pair stopped waiting.
fn check_left(rt: &impl Abort, gate: &Holds) {
    assert!(rt; gate.left.load(Ordering::SeqCst) == 1);
    let failed = gate.failed.load(Ordering::SeqCst);
    assert!(rt; failed == 0, "with {:?} held", gate.held);
}

// Either of two pairs may wait for the other.
#[test]
fn joins_while_a_pair_is_held(rt: HostRuntime) {
    let pair = worked_join(&rt);
    let want = worked_rows(&rt);
    for gate in &both_ways((0, 0), (0, 1)) {
        check_joins(&rt, &pair, &[2], gate, &want);
        check_left(&rt, gate);
    }
}

// Returns the rows of the worked anti-join on a column.
fn worked_antis(rt: &impl Abort) -> [AntiRow; 2] {
    [
        AntiRow {
            id: 1,
            period: january(rt, 1, 3),
        },
        AntiRow {
            id: 2,
            period: january(rt, 5, 7),
        },
    ]
}

#[test]
fn anti_joins_while_a_pair_is_held(rt: HostRuntime) {
    let pair = worked_join(&rt);
    let want = worked_antis(&rt);
    for gate in &both_ways((0, 0), (0, 1)) {
        check_antis(&rt, &pair, &[2], gate, &want);
        check_left(&rt, gate);
    }
}

// Four rows of one day, which are aggregated to one row. Each is a list of its own, and two pairs of lists are
// combined.
#[test]
fn aggregates_while_a_pair_is_held(rt: HostRuntime) {
    let table = without_columns(&rt, &[january(&rt, 1, 2); 4]);
    let want = ungrouped(&rt, &[(1, 2, 4)]);
    let question = Question {
        func: Func::Count,
        group: None,
    };
    for gate in &both_ways((0, 1), (2, 3)) {
        check_aggs(&rt, &table, &question, &[2], gate, &want);
        check_left(&rt, gate);
    }
}

// Returns `count` periods of ten days. Each starts a day after the previous one.
fn ten_days(rt: &(impl Abort + Alloc<A = Global>), days: &[Point], count: usize) -> Vec<Period> {
    let mut periods = Vec::new(rt.alloc());
    for i in 0..count {
        let from = days.get(i).expect(rt, "a day");
        let to = days.get(i.saturating_add(10)).expect(rt, "a day");
        let period = Period::new(*from, *to).expect(rt, "a period");
        periods.push(period).expect(rt, "memory");
    }
    periods
}

// Checks that the join has these rows with this number of workers, and that each pair of parts is entered once.
fn check_entered(
    rt: &(impl Abort + Alloc<A = Global> + Threads + Sync),
    pair: &TablePair,
    workers: u32,
    want: &[JoinRow],
) {
    let gate = Counts {
        entered: ten_by_ten(),
        others: AtomicU64::new(0),
    };
    check_joins(rt, pair, &[workers], &gate, want);
    check_counts(rt, &gate);
}

#[test]
fn runs_each_pair_of_parts_once(rt: HostRuntime) -> Result<(), Fail> {
    let days = days(rt.alloc())?;
    let pair = periods_twice(&rt, &ten_days(&rt, &days, 300));
    let first = joined(&rt, &pair, 1, &OpenGate);
    assert!(rt; first.rows.len() == 5_610);
    for workers in [1, 2, 7, 64] {
        check_entered(&rt, &pair, workers, first.rows.as_slice());
    }
    Ok(())
}
