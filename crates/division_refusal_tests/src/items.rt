//! Items of January 2024. They need no memory, so every trial can have them.

use dip_core::Item;
use period_core::{Period, Point};
use std::process::Abort;

// Returns midnight at the start of the day.
pub(crate) fn day(rt: &impl Abort, day: u8) -> Point {
    assert!(rt; day < 32);
    let (tens, ones) = (b'0' + day / 10, b'0' + day % 10);
    let text = [b'2', b'0', b'2', b'4', b'-', b'0', b'1', b'-', tens, ones];
    Point::parse(&text).expect(rt, "a day")
}

// Returns the period from one day to before another.
pub(crate) fn january(rt: &impl Abort, from: u8, to: u8) -> Period {
    Period::new(day(rt, from), day(rt, to)).expect(rt, "a period")
}

// Returns an item with this id and class.
pub(crate) fn item(rt: &impl Abort, id: u64, from: u8, to: u8, class: u64) -> Item {
    Item {
        period: january(rt, from, to),
        id,
        class,
        amount: 0,
    }
}

// Five items, in the order of their placing. Three of them hold on the third.
pub(crate) fn five(rt: &impl Abort) -> [Item; 5] {
    [
        item(rt, 1, 1, 5, 0),
        item(rt, 2, 2, 4, 0),
        item(rt, 5, 3, 9, 0),
        item(rt, 3, 4, 8, 0),
        item(rt, 4, 5, 6, 0),
    ]
}
