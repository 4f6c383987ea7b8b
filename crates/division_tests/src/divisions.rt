//! Tests of divisions: the parts into which a placer puts consecutive rows, and the definition of a part.

ghost use Rattle.std.specs.Prelude.{IsTrue};
ghost use Rattle.std.specs.Option.{ForSome};
ghost use Rattle.dip_core.specs.Item.{IsBelow};

use dip_core::{Division, Item, Part, Placer, create_dip};
use jiff::civil::Date;
use period_core::{Period, Point};
use std::alloc::Global;
use std::cmp::Ordering;
use std::process::Abort;
use std::test::Fail;
use std::thread::Threads;

/// A row of January 2024, given by the days of its start and its end.
pub fn item(rt: &impl Abort, id: u64, from: &[u8; 2], to: &[u8; 2]) -> Item {
    let from = Point::parse(&[
        b'2', b'0', b'2', b'4', b'-', b'0', b'1', b'-', from[0], from[1],
    ])
    .expect(rt, "a date");
    let to = Point::parse(&[b'2', b'0', b'2', b'4', b'-', b'0', b'1', b'-', to[0], to[1]]).expect(
        rt, "a date",
    );
    Item {
        period: Period::new(from, to).expect(rt, "a period"),
        id,
        class: 0,
        amount: 0,
    }
}

// Returns whether the item isn't below the last one.
fn may_follow(last: Option<Item>, item: &Item) -> bool
    ensures { IsTrue result → ForSome last (λ last. IsBelow item.now last → ⊥) }
{
    match last {
        Some(last) => item.cmp(&last) != Ordering::Less,
        None => true,
    }
}

// Places the items, checks that each goes into the part with this number, and returns their division. Only the first
// item is placed without a comparison.
fn placed(
    rt: &(impl Abort + Alloc<A = Global>),
    items: &[Item],
    places: &[u32],
) -> Result<Division, Fail> {
    let mut placer = Placer::new(rt.alloc());
    for (item, place) in items.iter().zip(places) {
        assert!(rt; may_follow(placer.last(), item));
        assert!(rt; placer.len() < 1_000_000);
        assert!(rt; placer.place(*item)? == *place);
        assert!(rt; (placer.looks() == 0) == (placer.len() == 1));
    }
    assert!(rt; placer.len() == items.len() as u64);
    Ok(placer.finish())
}

// Checks that both divisions have the same parts.
fn check_same(rt: &impl Abort, one: &Division, other: &Division) {
    assert!(rt; one.instant() == other.instant());
    assert!(rt; one.parts() == other.parts());
    for number in 0..one.parts() {
        assert!(rt; number < other.parts());
        assert!(rt; one.part(number).items() == other.part(number).items());
    }
}

// Checks that a placer puts the items into the parts with these numbers, and that this is their division.
fn check_placing(
    rt: &(impl Abort + Alloc<A = Global> + Threads + Sync),
    items: &[Item],
    places: &[u32],
) -> Result<(), Fail> {
    assert!(rt; items.len() <= 1_000_000);
    let divided = create_dip(rt, rt.alloc(), Vec::from_slice(rt.alloc(), items)?, 1)?;
    check_same(rt, &placed(rt, items, places)?, &divided);
    Ok(())
}

#[test]
fn places_rows(rt: HostRuntime) -> Result<(), Fail> {
    let rows = [
        item(&rt, 1, b"01", b"05"),
        item(&rt, 2, b"02", b"04"),
        item(&rt, 5, b"03", b"09"),
        item(&rt, 3, b"04", b"08"),
        item(&rt, 4, b"05", b"06"),
    ];
    check_placing(&rt, &rows, &[0, 1, 2, 1, 0])?;
    let division = create_dip(&rt, rt.alloc(), Vec::from_slice(rt.alloc(), &rows)?, 1)?;
    let third = Point::parse(b"2024-01-03")?;
    assert_eq!(rt; division.instant(), Some(third));
    Ok(())
}

#[test]
fn takes_the_part_that_ended_first(rt: HostRuntime) -> Result<(), Fail> {
    let later = [
        item(&rt, 1, b"01", b"05"),
        item(&rt, 2, b"02", b"04"),
        item(&rt, 3, b"05", b"06"),
    ];
    check_placing(&rt, &later, &[0, 1, 1])?;
    let together = [
        item(&rt, 1, b"01", b"03"),
        item(&rt, 2, b"02", b"03"),
        item(&rt, 3, b"03", b"04"),
    ];
    check_placing(&rt, &together, &[0, 1, 0])
}

// Returns the first `count` days from 1970-01-01 on.
fn days(rt: &impl Alloc<A = Global>, count: u32) -> Result<Vec<Point>, Fail> {
    let mut days = Vec::new(rt.alloc());
    let mut date = Date::new(1970, 1, 1)?;
    for _ in 0..count {
        let text = format!(in rt.alloc(); "{date}")?;
        days.push(Point::parse(text.as_bytes())?)?;
        date = date.tomorrow()?;
    }
    Ok(days)
}

// Returns 20,000 items of ten days each, in descending order: each starts a day before the previous one.
fn falling(rt: &impl Alloc<A = Global>) -> Result<Vec<Item>, Fail> {
    let days = days(rt, 20_010)?;
    let mut items = Vec::new(rt.alloc());
    for (id, (from, to)) in (1..=20_000).zip(days.iter().zip(days.iter().skip(10))) {
        items.push(Item {
            period: Period::new(*from, *to)?,
            id,
            class: 0,
            amount: 0,
        })?;
    }
    items.reverse();
    Ok(items)
}

#[test]
fn divides_a_row_of_20_000(rt: HostRuntime) -> Result<(), Fail> {
    let items = falling(&rt)?;
    assert_eq!(rt; items.len(), 20_000);
    let division = create_dip(&rt, rt.alloc(), items, 4)?;
    assert_eq!(rt; division.parts(), 10);
    for number in 0..10 {
        assert!(rt; number < division.parts());
        let part = division.part(number).items();
        assert_eq!(rt; part.len(), 2_000);
        for (place, item) in (0..2_000u32).zip(part) {
            assert_eq!(rt; item.id, number as u64 + 10 * place as u64 + 1);
        }
    }
    let tenth = Point::parse(b"1970-01-10")?;
    assert_eq!(rt; division.instant(), Some(tenth));
    Ok(())
}

#[test]
fn knows_parts(rt: HostRuntime) {
    let touching = [item(&rt, 1, b"01", b"05"), item(&rt, 2, b"05", b"06")];
    let overlapping = [item(&rt, 1, b"01", b"05"), item(&rt, 2, b"04", b"06")];
    assert!(rt; Part::new(&touching).is_some());
    assert!(rt; Part::new(&overlapping).is_none());
    assert!(rt; Part::new(&[]).is_some());
}
