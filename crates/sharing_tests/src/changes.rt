//! Changes for the tests, and checks of a store's answers.

ghost use Rattle.store_core.specs.Passes.{IsPassOf};

use book_core::Change;
use draft_core::Drafts;
use period_core::{Period, Point};
use row_core::{Draft, Failure, Name, Schema, Values};
use std::alloc::Global;
use std::process::Abort;
use std::sync::Wait;
use store_core::{Pass, Store, StoreRefused};

// A change can't be made: its table's name is wrong, or memory is refused.
#[derive(Clone, Copy, Debug, PartialEq, Eq)]
pub(crate) struct NoChange;

// Returns the change that makes a table without columns.
pub(crate) fn make(alloc: Global, table: &[u8]) -> Result<Change, NoChange> {
    table_change(alloc, table).ok_or(NoChange)
}

fn table_change(alloc: Global, table: &[u8]) -> Option<Change> {
    Some(Change::Make {
        table: Name::parse(table).ok()?,
        schema: Schema::new(alloc, &[]).ok()?,
    })
}

// Returns the change that adds a row of one day to the table.
pub(crate) fn load(alloc: Global, table: &[u8]) -> Result<Change, NoChange> {
    row_change(alloc, table).ok_or(NoChange)
}

fn row_change(alloc: Global, table: &[u8]) -> Option<Change> {
    let from = Point::parse(b"2024-01-01").ok()?;
    let to = Point::parse(b"2024-01-02").ok()?;
    let mut rows = Drafts::new(alloc);
    let draft = Draft {
        period: Period::new(from, to).ok()?,
        values: Values::new(alloc),
    };
    rows.push(draft).ok()?;
    Some(Change::Load {
        table: Name::parse(table).ok()?,
        rows,
    })
}

// Makes a table, and checks the store's answer.
pub(crate) fn check_make(
    rt: &(impl Abort + Alloc<A = Global> + Wait),
    store: &Store,
    pass: &mut Pass,
    table: &[u8],
    want: Result<u64, StoreRefused>,
)
    requires { IsPassOf store.now pass.old }
    ensures { IsPassOf store.now pass.new }
{
    let change = make(rt.alloc(), table).expect(rt, "a change");
    let answer = store.commit(rt, pass, change);
    assert_eq!(rt; answer, want.map_err(Failure::Refused));
}

// Adds a row to the table `t`, and checks the store's answer.
pub(crate) fn check_load(
    rt: &(impl Abort + Alloc<A = Global> + Wait),
    store: &Store,
    pass: &mut Pass,
    want: Result<u64, StoreRefused>,
)
    requires { IsPassOf store.now pass.old }
    ensures { IsPassOf store.now pass.new }
{
    let change = load(rt.alloc(), b"t").expect(rt, "a change");
    let answer = store.commit(rt, pass, change);
    assert_eq!(rt; answer, want.map_err(Failure::Refused));
}
