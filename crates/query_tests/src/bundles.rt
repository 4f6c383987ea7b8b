//! Joins of tables with many different numbers, which are divided a few numbers at a time.

use crate::queries::joined;
use crate::tables::{Table, TablePair, compared, days, january, number_pair, numbers_of};
use period_core::{Period, Point};
use query_core::JoinRow;
use std::alloc::Global;
use std::process::Abort;
use std::sync::atomic::{AtomicU64, Ordering};
use std::test::Fail;
use std::thread::Threads;
use work_core::{Gate, OpenGate, PairName};

// Counts the pairs of parts that are run.
#[derive(Drop)]
struct Pairs {
    run: AtomicU64,
}

impl Gate for Pairs {
    fn enter(&self, _pair: PairName) {
        self.run.fetch_add(1, Ordering::SeqCst);
    }

    fn leave(&self, _pair: PairName) {}
}

// Returns the period of `len` days from a day on.
fn spell(rt: &impl Abort, days: &[Point], day: u32, len: u32) -> Period {
    let from = days.get(day as usize).expect(rt, "a day");
    let to = days
        .get(day.saturating_add(len) as usize)
        .expect(rt, "a day");
    Period::new(*from, *to).expect(rt, "a period")
}

// Returns a table of 9,000 rows of `len` days each. Row `i` starts on day `i % 364` of the year. Each nine consecutive
// rows have one number.
fn in_nines(rt: &(impl Abort + Alloc<A = Global>), days: &[Point], len: u32) -> Table {
    let mut rows = Vec::new(rt.alloc());
    for i in 0..9_000u32 {
        let row = (spell(rt, days, i % 364, len), i64::from(i / 9));
        rows.push(row).expect(rt, "memory");
    }
    numbers_of(rt, &rows)
}

// Checks that the left row shares its day with the right row at the same index, or with the one before it that has the
// same number.
fn check_row(rt: &impl Abort, row: &JoinRow, days: &[Point]) {
    let place = row.left.saturating_sub(1);
    let day = (place % 364) as u32;
    assert!(rt; row.period == spell(rt, days, day, 1));
    assert!(rt; row.right == row.left || (row.right == place && place % 9 != 0 && day != 0));
}

// Every left row is joined with the right row at its index. It is also joined with the right row before, unless it is
// the first with its number (1,000 rows) or starts the year again (25 rows; 3 do both). If all rows were divided
// together, there would be 25 and 50 parts, and each pair of parts would take about 1,000 advances. Instead only rows
// of one number are merged with each other.
fn check_nines(
    rt: &(impl Abort + Alloc<A = Global> + Threads + Sync),
    pair: &TablePair,
    workers: u32,
    days: &[Point],
) {
    let gate = Pairs {
        run: AtomicU64::new(0),
    };
    let answer = joined(rt, pair, workers, &gate);
    assert!(rt; answer.rows.len() == 16_978, "with {workers} workers");
    for row in answer.rows.as_slice() {
        check_row(rt, row, days);
    }
    assert!(rt; answer.turns >= 1_250);
    assert!(rt; answer.turns < 30_000);
    assert!(rt; gate.run.load(Ordering::SeqCst) < 3_000);
}

#[test]
fn joins_few_values_at_a_time(rt: HostRuntime) -> Result<(), Fail> {
    let days = days(rt.alloc())?;
    let pair = compared(&rt, in_nines(&rt, &days, 1), in_nines(&rt, &days, 2));
    for workers in [1, 2, 7] {
        check_nines(&rt, &pair, workers, &days);
    }
    Ok(())
}

// Returns 600 rows of one day, each with a number of its own.
fn of_one_day(rt: &(impl Abort + Alloc<A = Global>)) -> Vec<(u8, u8, i64)> {
    let mut rows = Vec::new(rt.alloc());
    for number in 0..600 {
        rows.push((1, 2, number)).expect(rt, "memory");
    }
    rows
}

// If all rows were divided together, there would be 600 parts on each side. The answered turns are the number of pairs
// of these parts; far fewer pairs are run.
#[test]
fn joins_few_values_of_one_day(rt: HostRuntime) {
    let rows = of_one_day(&rt);
    let pair = number_pair(&rt, &rows, &rows);
    let gate = Pairs {
        run: AtomicU64::new(0),
    };
    let answer = joined(&rt, &pair, 2, &gate);
    assert!(rt; answer.rows.len() == 600);
    for row in answer.rows.as_slice() {
        assert!(rt; row.period == january(&rt, 1, 2));
        assert!(rt; row.left == row.right);
    }
    assert!(rt; answer.turns == 360_000);
    assert!(rt; gate.run.load(Ordering::SeqCst) < 12_000);
}

// Returns 800 rows of these days and one row of the whole month, all with one number.
fn of_days_and_a_month(
    rt: &(impl Abort + Alloc<A = Global>),
    from: u8,
    to: u8,
) -> Vec<(u8, u8, i64)> {
    let mut rows = Vec::new(rt.alloc());
    for _ in 0..800 {
        rows.push((from, to, 7)).expect(rt, "memory");
    }
    rows.push((1, 31, 7)).expect(rt, "memory");
    rows
}

// Rows of different days aren't joined: each is joined only with the other side's row of the month, which is the last.
fn check_month(rt: &impl Abort, row: &JoinRow) {
    assert!(rt; row.left == 801 || row.right == 801);
    let (from, to) = if row.left < 801 {
        (3, 4)
    } else if row.right < 801 {
        (20, 21)
    } else {
        (1, 31)
    };
    assert!(rt; row.period == january(rt, from, to));
}

// Each side has 801 rows in 801 parts. Hardly any of their pairs are run: rows of one day are merged only with the
// row of the month.
#[test]
fn joins_a_value_of_different_days(rt: HostRuntime) {
    let lefts = of_days_and_a_month(&rt, 3, 4);
    let rights = of_days_and_a_month(&rt, 20, 21);
    let pair = number_pair(&rt, &lefts, &rights);
    for workers in [1, 2, 7] {
        let gate = Pairs {
            run: AtomicU64::new(0),
        };
        let answer = joined(&rt, &pair, workers, &gate);
        assert!(rt; answer.rows.len() == 1_601, "with {workers} workers");
        for row in answer.rows.as_slice() {
            check_month(&rt, row);
        }
        assert!(rt; answer.turns == 641_601);
        assert!(rt; gate.run.load(Ordering::SeqCst) < 2_000);
    }
}

// Adds `count` rows of these days, all with one number.
fn push_rows(rt: &impl Abort, from: u8, to: u8, count: u32, rows: &mut Vec<(u8, u8, i64)>) {
    for _ in 0..count {
        rows.push((from, to, 7)).expect(rt, "memory");
    }
}

// Returns 260 rows of these days, and 180 rows of each of three other days.
fn of_own_and_common_days(
    rt: &(impl Abort + Alloc<A = Global>),
    from: u8,
    to: u8,
) -> Vec<(u8, u8, i64)> {
    let mut rows = Vec::new(rt.alloc());
    push_rows(rt, from, to, 260, &mut rows);
    push_rows(rt, 10, 11, 180, &mut rows);
    push_rows(rt, 12, 13, 180, &mut rows);
    push_rows(rt, 14, 15, 180, &mut rows);
    rows
}

// Each side has 260 parts, so there are 67,600 pairs of parts. Only the rows of a common day are merged, each with each
// by one advance. These advances are more than the pairs, and are answered as turns.
#[test]
fn answers_the_advances_that_were_made(rt: HostRuntime) {
    let lefts = of_own_and_common_days(&rt, 3, 4);
    let rights = of_own_and_common_days(&rt, 20, 21);
    let pair = number_pair(&rt, &lefts, &rights);
    for workers in [1, 2, 7] {
        let answer = joined(&rt, &pair, workers, &OpenGate);
        assert!(rt; answer.rows.len() == 97_200, "with {workers} workers");
        assert!(rt; answer.turns == 97_200);
    }
}
