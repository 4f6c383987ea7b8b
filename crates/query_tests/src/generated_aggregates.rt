//! Aggregates of tables of random rows, compared with the values of each group on each day. Also the greatest and the
//! least sums.

use crate::generated::{
    Cell, DAYS, Field, LEFT, PlainRow, Run, groups, name, period, random_rows, runs, table,
};
use crate::queries::{Question, check_aggs, ungrouped};
use crate::tables::{Table, days, table_of};
use period_core::Point;
use query_core::{AggRow, Func};
use rand_core::SeedableRng;
use rand_pcg::Pcg32;
use row_core::{Name, Value};
use std::alloc::Global;
use std::process::Abort;
use std::test::Fail;
use std::thread::Threads;
use work_core::OpenGate;

// A function of the rows' sizes, and the column that rows are grouped by.
#[derive(Clone, Copy)]
struct Asked {
    func: Func,
    by: Option<Field>,
}

impl Asked {
    // Returns the same question with the column's name.
    fn question(&self, rt: &impl Abort) -> Question {
        Question {
            func: self.func,
            group: self.by.map(|field| name(rt, &LEFT, field)),
        }
    }
}

// Returns the sum of a few numbers.
fn sum(numbers: &[i64]) -> i128 {
    let mut sum = 0i128;
    for number in numbers {
        sum = sum.saturating_add(*number as i128);
    }
    sum
}

// Returns the aggregate of these numbers, or `None` without numbers.
fn come_to(func: &Func, numbers: &[i64]) -> Option<i128> {
    let least = numbers.iter().min()?;
    let greatest = numbers.iter().max()?;
    Some(match func {
        Func::Count => numbers.len() as i128,
        Func::Sum(_) => sum(numbers),
        Func::Min(_) => *least as i128,
        Func::Max(_) => *greatest as i128,
    })
}

// Returns the sizes of the rows of a group that hold on the day.
fn sizes_on(
    rt: &(impl Abort + Alloc<A = Global>),
    rows: &[PlainRow],
    by: Option<Field>,
    group: Option<Cell>,
    day: u64,
) -> Vec<i64> {
    let mut sizes = Vec::new(rt.alloc());
    for row in rows {
        if row.holds(day) && row.group(by) == group {
            sizes.push(row.size).expect(rt, "memory");
        }
    }
    sizes
}

// Returns the aggregate of a group on each day.
fn values_by_day(
    rt: &(impl Abort + Alloc<A = Global>),
    rows: &[PlainRow],
    asked: &Asked,
    group: Option<Cell>,
) -> Vec<Option<i128>> {
    let mut values = Vec::new(rt.alloc());
    for day in 0..DAYS {
        let sizes = sizes_on(rt, rows, asked.by, group, day);
        let value = come_to(&asked.func, &sizes);
        values.push(value).expect(rt, "memory");
    }
    values
}

// Returns the group as an aggregate's row has it.
fn value(rt: &(impl Abort + Alloc<A = Global>), group: Option<Cell>) -> Option<Value> {
    match group {
        None => None,
        Some(cell) => Some(cell.value(rt)),
    }
}

// Returns the expected row of a group.
fn agg_row(
    rt: &(impl Abort + Alloc<A = Global>),
    group: Option<Cell>,
    run: &Run,
    days: &[Point],
) -> AggRow {
    AggRow {
        group: value(rt, group),
        period: period(rt, days, run.from, run.to),
        value: run.value,
    }
}

// Returns the expected rows, by group and start.
fn wanted(
    rt: &(impl Abort + Alloc<A = Global>),
    rows: &[PlainRow],
    asked: &Asked,
    days: &[Point],
) -> Vec<AggRow> {
    let mut wanted = Vec::new(rt.alloc());
    for group in groups(asked.by) {
        for run in &runs(rt, &values_by_day(rt, rows, asked, *group)) {
            let row = agg_row(rt, *group, run, days);
            wanted.push(row).expect(rt, "memory");
        }
    }
    wanted
}

// Checks the aggregate of a random table with 1, 2 and 7 workers. Returns its number of rows.
fn check_random(
    rt: &(impl Abort + Alloc<A = Global> + Threads + Sync),
    rng: &mut Pcg32,
    asked: &Asked,
    days: &[Point],
) -> usize {
    let rows = random_rows(rt, rng);
    let want = wanted(rt, &rows, asked, days);
    let table = table(rt, &LEFT, &rows, days);
    let question = asked.question(rt);
    check_aggs(rt, &table, &question, &[1, 2, 7], &OpenGate, &want);
    want.len()
}

// Checks the aggregates of ten random tables.
fn check_ten(
    rt: &(impl Abort + Alloc<A = Global> + Threads + Sync),
    rng: &mut Pcg32,
    asked: &Asked,
    days: &[Point],
) {
    let mut rows = 0usize;
    for _ in 0..10 {
        rows = rows.saturating_add(check_random(rt, rng, asked, days));
    }
    assert!(rt; rows >= 10, "{:?} has only {rows} rows", asked.func);
}

// Checks a function of twenty tables as one group, of ten grouped by a number, and of ten grouped by a text.
fn check_func(
    rt: &(impl Abort + Alloc<A = Global> + Threads + Sync),
    rng: &mut Pcg32,
    func: &Func,
    days: &[Point],
) {
    for by in [None, Some(Field::Code), None, Some(Field::Word)] {
        check_ten(rt, rng, &Asked { func: *func, by }, days);
    }
}

#[test]
fn comes_to_what_each_day_shows(rt: HostRuntime) -> Result<(), Fail> {
    let days = days(rt.alloc())?;
    let size = name(&rt, &LEFT, Field::Size);
    let mut rng = Pcg32::seed_from_u64(3);
    for func in [
        Func::Count,
        Func::Sum(size),
        Func::Min(size),
        Func::Max(size),
    ] {
        check_func(&rt, &mut rng, &func, &days);
    }
    Ok(())
}

// Returns the sum of a number table's column.
fn sum_of(rt: &impl Abort) -> Func {
    Func::Sum(Name::parse(b"c").expect(rt, "a name"))
}

// Checks an aggregate of all rows of a number table, with each of these numbers of workers. The expected rows are given
// as days of January 2024, from one to before another, and values.
fn check_one_group(
    rt: &(impl Abort + Alloc<A = Global> + Threads + Sync),
    table: &Table,
    func: Func,
    workers: &[u32],
    want: &[(u8, u8, i128)],
) {
    let want = ungrouped(rt, want);
    let question = Question { func, group: None };
    check_aggs(rt, table, &question, workers, &OpenGate, &want);
}

// The sums don't fit into 64 bits, neither signed nor unsigned.
#[test]
fn sums_are_wider_than_numbers(rt: HostRuntime) {
    let rows = [
        (1, 2, i64::MAX),
        (1, 2, i64::MAX),
        (1, 2, i64::MAX),
        (2, 3, i64::MIN),
        (2, 3, i64::MIN),
        (2, 3, i64::MIN),
    ];
    let want = [
        (1, 2, 27_670_116_110_564_327_421),
        (2, 3, -27_670_116_110_564_327_424),
    ];
    check_one_group(&rt, &table_of(&rt, &rows), sum_of(&rt), &[2], &want);
}

// Returns rows that hold for three days: `count` rows from each of 27 days on.
fn three_days(rt: &(impl Abort + Alloc<A = Global>), count: usize) -> Table {
    let mut rows = Vec::new(rt.alloc());
    for _ in 0..count {
        for day in 1..28u8 {
            rows.push((day, day + 3, 1)).expect(rt, "memory");
        }
    }
    table_of(rt, &rows)
}

// There are enough rows for several workers, and each takes a span of time. A value continues across the end of a span.
#[test]
fn a_value_goes_on_from_span_to_span(rt: HostRuntime) {
    let table = three_days(&rt, 700);
    let want = [
        (1, 2, 700),
        (2, 3, 1_400),
        (3, 28, 2_100),
        (28, 29, 1_400),
        (29, 30, 700),
    ];
    check_one_group(&rt, &table, Func::Count, &[1, 2, 7], &want);
}

// Checks the sum of a million rows, the most that a table may have. All hold on one day and have this number.
fn check_bound(rt: &(impl Abort + Alloc<A = Global> + Threads + Sync), number: i64, want: i128) {
    let rows = vec![in rt.alloc(); (1, 2, number); 1_000_000].expect(rt, "memory");
    let table = table_of(rt, &rows);
    check_one_group(rt, &table, sum_of(rt), &[2], &[(1, 2, want)]);
}

// The greatest number, and the least.
#[test]
fn sums_reach_their_bounds(rt: HostRuntime) {
    check_bound(&rt, i64::MAX, 9_223_372_036_854_775_807_000_000);
    check_bound(&rt, i64::MIN, -9_223_372_036_854_775_808_000_000);
}
