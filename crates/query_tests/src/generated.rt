//! Random rows and their tables, and runs of days with one value.

use crate::tables::{Table, TablePair, table_with};
use period_core::{Period, Point};
use rand::RngExt;
use rand_pcg::Pcg32;
use row_core::{Kind, Name, Row, RowList, Text, Value, Values};
use std::alloc::Global;
use std::process::Abort;

/// The number of days on which rows may hold. The first is 2024-01-01.
pub const DAYS: u64 = 20;

/// A column, whatever its name is.
#[derive(Clone, Copy, PartialEq, Eq)]
pub enum Field {
    Code,
    Word,
    Size,
}

impl Field {
    fn kind(self) -> Kind {
        match self {
            Field::Word => Kind::Text,
            Field::Code | Field::Size => Kind::Int,
        }
    }
}

/// The columns of left tables.
pub const LEFT: [(&[u8], Field); 3] = [
    (b"code", Field::Code),
    (b"word", Field::Word),
    (b"size", Field::Size),
];

// The columns of right tables, which have other names and another order.
const RIGHT: [(&[u8], Field); 3] = [
    (b"w", Field::Word),
    (b"s", Field::Size),
    (b"c", Field::Code),
];

/// A row's value in a column.
#[derive(Clone, Copy, PartialEq, Eq)]
pub enum Cell {
    Number(i64),
    Word(&'static [u8]),
}

impl Cell {
    /// Returns the value of a table's row.
    pub fn value(self, rt: &(impl Abort + Alloc<A = Global>)) -> Value {
        match self {
            Cell::Number(number) => Value::Int(number),
            Cell::Word(word) => Value::Text(Text::new(rt.alloc(), word).expect(rt, "a text")),
        }
    }
}

/// A row, given by the numbers of its first day and of the day after its last.
#[derive(Clone, Copy)]
pub struct PlainRow {
    pub id: u64,
    pub from: u64,
    pub to: u64,
    pub code: i64,
    pub word: &'static [u8],
    pub size: i64,
}

impl PlainRow {
    /// Returns whether the row holds on the day.
    pub fn holds(&self, day: u64) -> bool {
        self.from <= day && day < self.to
    }

    /// Returns the row's value in the column.
    pub fn cell(&self, field: Field) -> Cell {
        match field {
            Field::Code => Cell::Number(self.code),
            Field::Word => Cell::Word(self.word),
            Field::Size => Cell::Number(self.size),
        }
    }

    /// Returns the row's value in the column that rows are grouped by, or `None` if they aren't grouped.
    pub fn group(&self, by: Option<Field>) -> Option<Cell> {
        by.map(|field| self.cell(field))
    }

    /// Returns whether both rows have the same value in each of the columns.
    pub fn matches(&self, other: &PlainRow, on: &[Field]) -> bool {
        on.iter()
            .all(|field| self.cell(*field) == other.cell(*field))
    }
}

// Returns a row of one to eight days, with one of few values in each column.
fn random_row(rng: &mut Pcg32, id: u64) -> PlainRow {
    let len = rng.random_range(1..=8);
    let from = rng.random_range(0..=DAYS - len);
    PlainRow {
        id,
        from,
        to: from + len,
        code: rng.random_range(-1..=0),
        word: &b"xy"[..rng.random_range(0..=2)],
        size: 3 * rng.random_range(0..=1) - 1,
    }
}

/// Returns up to twelve rows, by ascending ids.
pub fn random_rows(rt: &(impl Abort + Alloc<A = Global>), rng: &mut Pcg32) -> Vec<PlainRow> {
    let mut rows = Vec::new(rt.alloc());
    for i in 0..rng.random_range(0..=12) {
        let id = 3 * i + rng.random_range(1..=3);
        rows.push(random_row(rng, id)).expect(rt, "memory");
    }
    rows
}

/// Returns all values of the column that rows are grouped by, in their order; only `None` if they aren't grouped.
pub fn groups(by: Option<Field>) -> &'static [Option<Cell>] {
    match by {
        None => UNGROUPED,
        Some(Field::Code) => CODES,
        Some(Field::Size) => SIZES,
        Some(Field::Word) => WORDS,
    }
}

const UNGROUPED: &[Option<Cell>] = &[None];

const CODES: &[Option<Cell>] = &[Some(Cell::Number(-1)), Some(Cell::Number(0))];

const SIZES: &[Option<Cell>] = &[Some(Cell::Number(-1)), Some(Cell::Number(2))];

const WORDS: &[Option<Cell>] = &[
    Some(Cell::Word(b"")),
    Some(Cell::Word(b"x")),
    Some(Cell::Word(b"xy")),
];

/// Returns the period from one day to before another.
pub fn period(rt: &impl Abort, days: &[Point], from: u64, to: u64) -> Period {
    let from = days.get(from as usize).expect(rt, "a day");
    let to = days.get(to as usize).expect(rt, "a day");
    Period::new(*from, *to).expect(rt, "a period")
}

// Returns the names and kinds of the columns.
fn named(rt: &(impl Abort + Alloc<A = Global>), columns: &[(&[u8], Field)]) -> Vec<(Name, Kind)> {
    let mut pairs = Vec::new(rt.alloc());
    for (name, field) in columns {
        let name = Name::parse(name).expect(rt, "a name");
        pairs.push((name, field.kind())).expect(rt, "memory");
    }
    pairs
}

// Returns the row's values in the columns.
fn values(
    rt: &(impl Abort + Alloc<A = Global>),
    columns: &[(&[u8], Field)],
    row: &PlainRow,
) -> Values {
    let mut values = Values::new(rt.alloc());
    for (_, field) in columns {
        let value = row.cell(*field).value(rt);
        values.push(value).expect(rt, "memory");
    }
    values
}

/// Returns a table of the rows, with these columns.
pub fn table(
    rt: &(impl Abort + Alloc<A = Global>),
    columns: &[(&[u8], Field)],
    rows: &[PlainRow],
    days: &[Point],
) -> Table {
    let mut list = RowList::new(rt.alloc());
    for row in rows {
        let row = Row {
            id: row.id,
            period: period(rt, days, row.from, row.to),
            values: values(rt, columns, row),
        };
        list.push(row).expect(rt, "memory");
    }
    table_with(rt, &named(rt, columns), list)
}

/// Returns the column's name among these.
pub fn name(rt: &impl Abort, columns: &[(&[u8], Field)], field: Field) -> Name {
    let column = columns.iter().find(|column| column.1 == field);
    Name::parse(column.expect(rt, "a column").0).expect(rt, "a name")
}

// Returns `count` columns, beginning with column `first`.
fn fields(rt: &(impl Abort + Alloc<A = Global>), first: usize, count: usize) -> Vec<Field> {
    let mut fields = Vec::new(rt.alloc());
    for i in 0..count {
        let (_, field) = LEFT[first.wrapping_add(i) % 3];
        fields.push(field).expect(rt, "memory");
    }
    fields
}

// Returns the columns' names on both sides.
fn names(rt: &(impl Abort + Alloc<A = Global>), on: &[Field]) -> Vec<(Name, Name)> {
    let mut names = Vec::new(rt.alloc());
    for field in on {
        let pair = (name(rt, &LEFT, *field), name(rt, &RIGHT, *field));
        names.push(pair).expect(rt, "memory");
    }
    names
}

/// The rows of two tables, the compared columns, and the tables.
#[derive(Drop)]
pub struct Pair {
    pub lefts: Vec<PlainRow>,
    pub rights: Vec<PlainRow>,
    pub on: Vec<Field>,
    pub tables: TablePair,
}

impl Pair {
    /// Returns two tables of random rows, compared by `count` columns, beginning with column `first`.
    pub fn random(
        rt: &(impl Abort + Alloc<A = Global>),
        rng: &mut Pcg32,
        first: usize,
        count: usize,
        days: &[Point],
    ) -> Pair {
        let lefts = random_rows(rt, rng);
        let rights = random_rows(rt, rng);
        let on = fields(rt, first, count);
        let tables = TablePair {
            left: table(rt, &LEFT, &lefts, days),
            right: table(rt, &RIGHT, &rights, days),
            on: names(rt, &on),
        };
        Pair {
            lefts,
            rights,
            on,
            tables,
        }
    }
}

/// Consecutive days with one value, given by the numbers of the first day and of the day after the last.
#[derive(Clone, Copy)]
pub struct Run {
    pub from: u64,
    pub to: u64,
    pub value: i128,
}

/// Returns the maximal runs of days with one value, by ascending start, from the value of each day.
pub fn runs(rt: &(impl Abort + Alloc<A = Global>), values: &[Option<i128>]) -> Vec<Run> {
    let mut runs = Vec::new(rt.alloc());
    for day in 0..DAYS {
        if let Some(Some(value)) = values.get(day as usize) {
            push_day(rt, &mut runs, day, *value);
        }
    }
    runs
}

// Adds a day: to the last run if it continues that, otherwise as a new run.
fn push_day(rt: &impl Abort, runs: &mut Vec<Run>, day: u64, value: i128) {
    let to = day.saturating_add(1);
    match runs.last_mut() {
        Some(run) if run.to == day && run.value == value => run.to = to,
        _ => runs
            .push(Run {
                from: day,
                to,
                value,
            })
            .expect(rt, "memory"),
    }
}
