//! Names, periods, values and columns for the tests. The test ends if memory is refused.

use period_core::{Period, Point};
use row_core::{Kind, Name, Schema, Text, Value};
use std::alloc::Global;
use std::process::Abort;

pub(crate) fn name(rt: &impl Abort, text: &[u8]) -> Name {
    Name::parse(text).expect(rt, "a name")
}

pub(crate) fn period(rt: &impl Abort, from: &[u8], to: &[u8]) -> Period {
    let from = Point::parse(from).expect(rt, "a point");
    let to = Point::parse(to).expect(rt, "a point");
    Period::new(from, to).expect(rt, "a period")
}

pub(crate) fn day(rt: &impl Abort) -> Period {
    period(rt, b"2024-01-01", b"2024-01-02")
}

pub(crate) fn text(rt: &(impl Abort + Alloc<A = Global>), bytes: &[u8]) -> Value {
    Value::Text(Text::new(rt.alloc(), bytes).expect(rt, "a text"))
}

pub(crate) fn schema(rt: &(impl Abort + Alloc<A = Global>), columns: &[(Name, Kind)]) -> Schema {
    Schema::new(rt.alloc(), columns).expect(rt, "columns")
}
