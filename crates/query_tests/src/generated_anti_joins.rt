//! Anti-joins of tables of random rows, compared with the days on which each left row has no match. Also anti-joins of
//! tables with many values.

use crate::generated::{DAYS, Pair, PlainRow, period, runs};
use crate::queries::check_antis;
use crate::tables::{days, january, number_pair};
use period_core::Point;
use query_core::AntiRow;
use rand_core::SeedableRng;
use rand_pcg::Pcg32;
use std::alloc::Global;
use std::process::Abort;
use std::test::Fail;
use std::thread::Threads;
use work_core::OpenGate;

// Returns 0 for each day on which the left row holds and no matching right row does.
fn unmet_by_day(
    rt: &(impl Abort + Alloc<A = Global>),
    pair: &Pair,
    left: &PlainRow,
) -> Vec<Option<i128>> {
    let mut unmet = Vec::new(rt.alloc());
    for day in 0..DAYS {
        let met = pair
            .rights
            .iter()
            .any(|right| right.holds(day) && left.matches(right, &pair.on));
        let value = (left.holds(day) && !met).then_some(0);
        unmet.push(value).expect(rt, "memory");
    }
    unmet
}

// Returns the expected rows, by id and start.
fn unmet_rows(rt: &(impl Abort + Alloc<A = Global>), pair: &Pair, days: &[Point]) -> Vec<AntiRow> {
    let mut rows = Vec::new(rt.alloc());
    for left in &pair.lefts {
        for run in &runs(rt, &unmet_by_day(rt, pair, left)) {
            let row = AntiRow {
                id: left.id,
                period: period(rt, days, run.from, run.to),
            };
            rows.push(row).expect(rt, "memory");
        }
    }
    rows
}

// Checks the anti-join of two random tables with 1, 2 and 7 workers, on `count` columns, beginning with column `first`.
// Returns its number of rows.
fn check_random(
    rt: &(impl Abort + Alloc<A = Global> + Threads + Sync),
    rng: &mut Pcg32,
    first: usize,
    count: usize,
    days: &[Point],
) -> usize {
    let pair = Pair::random(rt, rng, first, count, days);
    let want = unmet_rows(rt, &pair, days);
    check_antis(rt, &pair.tables, &[1, 2, 7], &OpenGate, &want);
    want.len()
}

// Ten pairs of tables are compared by no columns, and ten each by one, by two and by three.
#[test]
fn leaves_what_each_day_shows(rt: HostRuntime) -> Result<(), Fail> {
    let days = days(rt.alloc())?;
    let mut rng = Pcg32::seed_from_u64(3);
    for count in 0..4 {
        let mut rows = 0usize;
        for first in 0..10 {
            let found = check_random(&rt, &mut rng, first, count, &days);
            rows = rows.saturating_add(found);
        }
        assert!(rt;
            rows >= 20,
            "anti-joins on {count} columns have only {rows} rows"
        );
    }
    Ok(())
}

// Returns three rows for each of `values` values. They hold for two days.
fn in_threes(rt: &(impl Abort + Alloc<A = Global>), values: i64) -> Vec<(u8, u8, i64)> {
    let mut rows = Vec::new(rt.alloc());
    for value in 0..values {
        let three = [(1, 3, value); 3];
        rows.extend_from_slice(&three).expect(rt, "memory");
    }
    rows
}

// Returns a row for every other of `values` values, which holds on the second of the two days.
fn every_other(rt: &(impl Abort + Alloc<A = Global>), values: i64) -> Vec<(u8, u8, i64)> {
    let mut rows = Vec::new(rt.alloc());
    for value in 0..values {
        if value % 2 == 0 {
            rows.push((2, 4, value)).expect(rt, "memory");
        }
    }
    rows
}

// Returns the anti-join's rows for `rows` rows in threes.
fn left_of_threes(rt: &(impl Abort + Alloc<A = Global>), rows: u64) -> Vec<AntiRow> {
    let mut left = Vec::new(rt.alloc());
    for i in 0..rows {
        let to = if i / 3 % 2 == 0 { 2 } else { 3 };
        let row = AntiRow {
            id: i + 1,
            period: january(rt, 1, to),
        };
        left.push(row).expect(rt, "memory");
    }
    left
}

// Three rows for each of six thousand values. These are more values than are processed at a time, and enough rows for
// several workers to sort. Every other value has a right row, which holds on the second of the two days.
#[test]
fn leaves_rows_of_many_values(rt: HostRuntime) {
    let lefts = in_threes(&rt, 6_000);
    let rights = every_other(&rt, 6_000);
    let pair = number_pair(&rt, &lefts, &rights);
    let want = left_of_threes(&rt, 18_000);
    check_antis(&rt, &pair, &[1, 2, 7], &OpenGate, &want);
}
