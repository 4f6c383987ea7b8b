//! Names, periods and values for the trials.

use period_core::{Period, Point};
use refusal_core::Ended;
use row_core::{Name, Text, Value};
use std::alloc::Global;

pub(crate) fn name(text: &[u8]) -> Result<Name, Ended> {
    Ok(Name::parse(text)?)
}

fn point(text: &[u8]) -> Result<Point, Ended> {
    Ok(Point::parse(text)?)
}

pub(crate) fn period(from: &[u8], to: &[u8]) -> Result<Period, Ended> {
    Ok(Period::new(point(from)?, point(to)?)?)
}

pub(crate) fn day() -> Result<Period, Ended> {
    period(b"2024-01-01", b"2024-01-02")
}

pub(crate) fn text(alloc: Global, bytes: &[u8]) -> Result<Value, Ended> {
    Ok(Value::Text(Text::new(alloc, bytes)?))
}
