//! Joins of tables of random rows, compared with the days on which each two rows hold.

use crate::generated::{DAYS, Pair, PlainRow, period};
use crate::queries::check_joins;
use crate::tables::days;
use period_core::Point;
use query_core::JoinRow;
use rand_core::SeedableRng;
use rand_pcg::Pcg32;
use std::alloc::Global;
use std::process::Abort;
use std::test::Fail;
use std::thread::Threads;
use work_core::OpenGate;

// Returns the first day on which both rows hold, and the day after the last. These days must be consecutive.
fn shared_days(rt: &impl Abort, left: &PlainRow, right: &PlainRow) -> Option<(u64, u64)> {
    let mut shared = None;
    for day in 0..DAYS {
        if left.holds(day) && right.holds(day) {
            let (from, to) = shared.unwrap_or((day, day));
            assert!(rt; to == day);
            shared = Some((from, day + 1));
        }
    }
    shared
}

// The first day that two rows share, the day after the last, and the ids of both rows.
type Shared = (u64, u64, u64, u64);

// Returns the periods that matching rows share, by start, end, left id and right id.
fn shared_by_day(rt: &(impl Abort + Alloc<A = Global>), pair: &Pair) -> Vec<Shared> {
    let mut found = Vec::new(rt.alloc());
    for left in &pair.lefts {
        for right in &pair.rights {
            if left.matches(right, &pair.on)
                && let Some((from, to)) = shared_days(rt, left, right)
            {
                found
                    .push((from, to, left.id, right.id))
                    .expect(rt, "memory");
            }
        }
    }
    found.sort_unstable();
    found
}

// Returns the expected rows.
fn joined_by_day(
    rt: &(impl Abort + Alloc<A = Global>),
    pair: &Pair,
    days: &[Point],
) -> Vec<JoinRow> {
    let mut rows = Vec::new(rt.alloc());
    for (from, to, left, right) in &shared_by_day(rt, pair) {
        let row = JoinRow {
            period: period(rt, days, *from, *to),
            left: *left,
            right: *right,
        };
        rows.push(row).expect(rt, "memory");
    }
    rows
}

// Checks the join of two random tables with 1, 2 and 7 workers, on `count` columns, beginning with column `first`.
// Returns its number of rows.
fn check_random(
    rt: &(impl Abort + Alloc<A = Global> + Threads + Sync),
    rng: &mut Pcg32,
    first: usize,
    count: usize,
    days: &[Point],
) -> usize {
    let pair = Pair::random(rt, rng, first, count, days);
    let want = joined_by_day(rt, &pair, days);
    check_joins(rt, &pair.tables, &[1, 2, 7], &OpenGate, &want);
    want.len()
}

// Ten pairs of tables are compared by no columns, and ten each by one, by two and by three.
#[test]
fn joins_what_each_day_shows(rt: HostRuntime) -> Result<(), Fail> {
    let days = days(rt.alloc())?;
    let mut rng = Pcg32::seed_from_u64(3);
    for count in 0..4 {
        let mut rows = 0usize;
        for first in 0..10 {
            let found = check_random(&rt, &mut rng, first, count, &days);
            rows = rows.saturating_add(found);
        }
        assert!(rt;
            rows >= 10,
            "joins on {count} columns have only {rows} rows"
        );
    }
    Ok(())
}
