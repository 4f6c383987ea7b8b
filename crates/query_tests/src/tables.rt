//! Days of 2024, items and tables for tests.

ghost use Rattle.std.specs.Prelude.{◌≡◌, All, IsTrue};
ghost use Rattle.row_core.specs.Schema.{fits};

use dip_core::{Item, Part};
use merge_core::Steps;
use period_core::{BadPoint, Period, Point};
use query_core::{AntiRow, AntiRows, Side};
use row_core::{Kind, Name, Row, RowList, RowOrder, Schema, Value, Values};
use std::alloc::Global;
use std::process::Abort;
use std::test::Fail;
use table_core::SharedRows;

/// Columns, and rows with a value for each of them.
#[derive(Drop)]
pub struct Table {
    pub schema: Schema,
    pub rows: SharedRows,
}

/// Two tables, and the pairs of columns that are compared.
#[derive(Drop)]
pub struct TablePair {
    pub left: Table,
    pub right: Table,
    pub on: Vec<(Name, Name)>,
}

/// Returns midnight at the start of a day of 2024, or `Err` if the month has no such day.
pub fn date(month: u8, day: u8) -> Result<Point, BadPoint> {
    Point::parse(&[
        b'2',
        b'0',
        b'2',
        b'4',
        b'-',
        b'0' + month / 10,
        b'0' + month % 10,
        b'-',
        b'0' + day / 10,
        b'0' + day % 10,
    ])
}

/// Returns the days of 2024, from the first of January on.
pub fn days(alloc: Global) -> Result<Vec<Point>, Fail> {
    let mut days = Vec::new(alloc);
    for month in 1..13 {
        push_days(month, &mut days)?;
    }
    Ok(days)
}

fn push_days(month: u8, days: &mut Vec<Point>) -> Result<(), Fail> {
    for day in 1..32 {
        if let Ok(point) = date(month, day) {
            days.push(point)?;
        }
    }
    Ok(())
}

/// Returns the period from one day of January 2024 to before another.
pub fn january(rt: &impl Abort, from: u8, to: u8) -> Period {
    let from = date(1, from).expect(rt, "a day");
    let to = date(1, to).expect(rt, "a day");
    Period::new(from, to).expect(rt, "a period")
}

/// Returns an item of some days of January 2024.
pub fn item(rt: &impl Abort, id: u64, from: u8, to: u8, class: u64) -> Item {
    Item {
        period: january(rt, from, to),
        id,
        class,
        amount: 0,
    }
}

/// Returns the rows of an anti-join in one list.
pub fn listed(rt: &(impl Abort + Alloc<A = Global>), rows: &AntiRows) -> Vec<AntiRow> {
    let mut listed = Vec::new(rt.alloc());
    for i in 0..rows.len() {
        let row = rows.get(i).expect(rt, "a row");
        listed.push(*row).expect(rt, "memory");
    }
    listed
}

/// Returns the steps of one item.
pub fn steps_of(rt: &(impl Abort + Alloc<A = Global>), item: Item) -> Steps
    ensures { result.weight ≡ 1 }
{
    let items = [item];
    let part = Part::new(&items).expect(rt, "an item");
    Steps::of_part(rt.alloc(), part).expect(rt, "memory")
}

/// Adds a row with these values. Its id is its number, counted from 1.
pub fn push_row(rt: &impl Abort, rows: &mut RowList, period: Period, values: Values) {
    assert!(rt; rows.len() < 1_000_000);
    let id = rows.len() as u64 + 1;
    let row = Row { id, period, values };
    rows.push(row).expect(rt, "memory");
}

// Returns the values of a row that has a number.
fn number_values(rt: &(impl Abort + Alloc<A = Global>), number: i64) -> Values {
    let mut values = Values::new(rt.alloc());
    values.push(Value::Int(number)).expect(rt, "memory");
    values
}

/// Returns a table with these columns and rows.
pub fn table_with(
    rt: &(impl Abort + Alloc<A = Global>),
    columns: &[(Name, Kind)],
    rows: RowList,
) -> Table {
    Table {
        schema: Schema::new(rt.alloc(), columns).expect(rt, "a schema"),
        rows: SharedRows::of(rt.alloc(), rows).expect(rt, "memory"),
    }
}

// Returns a table with a column `c` of numbers.
fn number_table(rt: &(impl Abort + Alloc<A = Global>), rows: RowList) -> Table {
    let name = Name::parse(b"c").expect(rt, "a name");
    table_with(rt, &[(name, Kind::Int)], rows)
}

/// Returns a table with a column `c` of numbers. Its rows, with ids from 1 on, hold from one day of January 2024 to
/// before another, and have a number.
pub fn table_of(rt: &(impl Abort + Alloc<A = Global>), rows: &[(u8, u8, i64)]) -> Table {
    let mut list = RowList::new(rt.alloc());
    for (from, to, number) in rows {
        let values = number_values(rt, *number);
        push_row(rt, &mut list, january(rt, *from, *to), values);
    }
    number_table(rt, list)
}

/// The same for rows that hold in these periods.
pub fn numbers_of(rt: &(impl Abort + Alloc<A = Global>), rows: &[(Period, i64)]) -> Table {
    let mut list = RowList::new(rt.alloc());
    for (period, number) in rows {
        push_row(rt, &mut list, *period, number_values(rt, *number));
    }
    number_table(rt, list)
}

/// Returns two tables that are compared by a column `c` of numbers.
pub fn compared(rt: &(impl Abort + Alloc<A = Global>), left: Table, right: Table) -> TablePair {
    let name = Name::parse(b"c").expect(rt, "a name");
    let on = Vec::from_slice(rt.alloc(), &[(name, name)]).expect(rt, "memory");
    TablePair { left, right, on }
}

/// Returns two number tables that are compared.
pub fn number_pair(
    rt: &(impl Abort + Alloc<A = Global>),
    lefts: &[(u8, u8, i64)],
    rights: &[(u8, u8, i64)],
) -> TablePair {
    compared(rt, table_of(rt, lefts), table_of(rt, rights))
}

/// Returns a table without columns. Its rows, with ids from 1 on, hold in these periods.
pub fn without_columns(rt: &(impl Abort + Alloc<A = Global>), periods: &[Period]) -> Table {
    let mut rows = RowList::new(rt.alloc());
    for period in periods {
        push_row(rt, &mut rows, *period, Values::new(rt.alloc()));
    }
    table_with(rt, &[], rows)
}

/// Returns two equal tables without columns, whose rows hold in these periods. No columns are compared.
pub fn periods_twice(rt: &(impl Abort + Alloc<A = Global>), periods: &[Period]) -> TablePair {
    TablePair {
        left: without_columns(rt, periods),
        right: without_columns(rt, periods),
        on: Vec::new(rt.alloc()),
    }
}

// Returns whether each row has a value for each column.
fn all_fit(schema: &Schema, rows: &[Row]) -> bool
    ensures { IsTrue result → All (λ row. IsTrue (fits schema.now row.values)) rows.now }
{
    rows.iter().all(|row| schema.fits(&row.values))
}

/// Returns the table as a query sees it.
pub fn side<'a>(rt: &(impl Abort + Alloc<A = Global>), table: &'a Table) -> Side<'a> {
    let rows = table.rows.list(rt.alloc()).expect(rt, "memory");
    assert!(rt; rows.ids_rise());
    assert!(rt; all_fit(&table.schema, rows.as_slice()));
    assert!(rt; rows.len() <= 1_000_000);
    Side {
        schema: &table.schema,
        rows: &table.rows,
    }
}
