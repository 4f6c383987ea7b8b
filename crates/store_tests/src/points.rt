//! Points and periods: texts, numbers, and the parts of periods.

use crate::fixtures::period;
use period_core::{BadPoint, Point};
use std::alloc::Global;
use std::process::Abort;

// Checks the number of a text, and how the point is written and shown.
fn check_point(rt: &(impl Abort + Alloc<A = Global>), text: &[u8], number: i64, written: &[u8]) {
    let point = Point::parse(text).expect(rt, "a point");
    assert!(rt; point.number() == number);
    let mut out = Vec::new(rt.alloc());
    point.write(&mut out).expect(rt, "memory");
    assert!(rt; out.as_slice() == written);
    let shown = format!(in rt.alloc(); "{point}").expect(rt, "memory");
    assert!(rt; shown.as_bytes() == written);
}

#[test]
fn numbers_and_texts(rt: HostRuntime) {
    for (text, number) in [
        (&b"1970-01-01"[..], 0),
        (b"2024-01-01", 1_704_067_200),
        (b"2024-02-29", 1_709_164_800),
        (b"0001-01-01", -62_135_596_800),
        (b"9999-12-31", 253_402_214_400),
        (b"9999-12-31T23:59:59", 253_402_300_799),
        (b"1969-12-31T23:59:59", -1),
        (b"2024-01-01T12:34:56", 1_704_112_496),
    ] {
        check_point(&rt, text, number, text);
    }
    check_point(&rt, b"2024-01-01T00:00:00", 1_704_067_200, b"2024-01-01");
}

#[test]
fn texts_of_no_point(rt: HostRuntime) {
    for text in [
        &b"2023-02-29"[..],
        b"0000-01-01",
        b"2024-1-01",
        b"2024-01-010",
        b"",
        b"2024/01/01",
        b"2024-13-01",
        b"2024-00-10",
        b"2024-01-00",
        b"+024-01-01",
        b"2024-01-01T24:00:00",
        b"2024-01-01T23:59:60",
        b"2024-01-01T12:00",
        b"2024-01-01 12:00:00",
        b"2024-01-01t12:00:00",
        b"2024-01-01T12:00:00Z",
        b"2023-02-29T00:00:00",
    ] {
        assert!(rt; Point::parse(text) == Err(BadPoint));
    }
}

#[test]
fn parts_of_periods(rt: HostRuntime) {
    let whole = period(&rt, b"2024-01-01", b"2024-01-10");
    let inside = period(&rt, b"2024-01-04", b"2024-01-06");
    let first = period(&rt, b"2024-01-01", b"2024-01-04");
    let last = period(&rt, b"2024-01-06", b"2024-01-10");
    let later = period(&rt, b"2024-01-20", b"2024-01-21");
    for (other, parts) in [
        (inside, (Some(first), Some(last))),
        (whole, (None, None)),
        (later, (Some(whole), None)),
    ] {
        assert!(rt; whole.minus(&other) == parts);
    }
}

#[test]
fn compares_periods_that_touch(rt: HostRuntime) {
    let left = period(&rt, b"2024-01-01", b"2024-01-05");
    let right = period(&rt, b"2024-01-05", b"2024-01-06");
    assert!(rt; left.meet(&right).is_none());
    assert!(rt; !left.overlaps(right));
    assert!(rt; left.precedes(right));
    assert!(rt; left.immediately_precedes(right));
}

#[test]
fn orders_periods_by_start_and_then_by_end(rt: HostRuntime) {
    let short = period(&rt, b"2024-01-01", b"2024-01-03");
    let long = period(&rt, b"2024-01-01", b"2024-01-05");
    let later = period(&rt, b"2024-01-02", b"2024-01-03");
    assert!(rt; short < long);
    assert!(rt; long < later);
}
