//! Worked examples of hits and gaps of two parts, and of combined steps.

ghost use Rattle.std.specs.Prelude.{◌≡◌};

use crate::tables::{date, item, january, steps_of};
use dip_core::{Item, Part};
use merge_core::{
    Cursor, Gap, Gaps, Hit, Steps, Tally, combine, meet_gaps, merge_gaps, merge_join,
};
use std::alloc::Global;
use std::process::Abort;

// The only item of the left part.
fn left(rt: &impl Abort) -> [Item; 1] {
    [item(rt, 1, 1, 10, 1)]
}

// The two items of the right part, with this class.
fn right(rt: &impl Abort, class: u64) -> [Item; 2] {
    [item(rt, 1, 3, 6, class), item(rt, 2, 6, 20, class)]
}

fn cursor<'a>(rt: &impl Abort, items: &'a [Item]) -> Cursor<'a> {
    Cursor::new(Part::new(items).expect(rt, "items without overlaps"))
}

// Checks the hits of two parts, which take at most 3 advances.
fn check_hits(
    rt: &(impl Abort + Alloc<A = Global>),
    lefts: &[Item],
    rights: &[Item],
    want: &[Hit],
) {
    let mut hits = Vec::new(rt.alloc());
    let advances = merge_join(cursor(rt, lefts), cursor(rt, rights), &mut hits);
    assert!(rt; advances.expect(rt, "memory") <= 3);
    assert!(rt; hits.as_slice() == want);
}

// Checks the gaps of two parts, which take at most 3 advances.
fn check_gaps(
    rt: &(impl Abort + Alloc<A = Global>),
    lefts: &[Item],
    rights: &[Item],
    want: &[Gap],
) {
    let mut gaps = Vec::new(rt.alloc());
    let advances = merge_gaps(cursor(rt, lefts), cursor(rt, rights), &mut gaps);
    assert!(rt; advances.expect(rt, "memory") <= 3);
    assert!(rt; gaps.as_slice() == want);
}

#[test]
fn finds_hits(rt: HostRuntime) {
    let lefts = left(&rt);
    let rights = right(&rt, 1);
    let want = [
        Hit {
            left: lefts[0],
            right: rights[0],
            period: january(&rt, 3, 6),
        },
        Hit {
            left: lefts[0],
            right: rights[1],
            period: january(&rt, 6, 10),
        },
    ];
    check_hits(&rt, &lefts, &rights, &want);
    check_hits(&rt, &lefts, &right(&rt, 2), &[]);
}

#[test]
fn finds_gaps(rt: HostRuntime) {
    let lefts = left(&rt);
    let before = Gap {
        left: lefts[0],
        period: january(&rt, 1, 3),
    };
    check_gaps(&rt, &lefts, &right(&rt, 1), &[before]);
    let whole = Gap {
        left: lefts[0],
        period: january(&rt, 1, 10),
    };
    check_gaps(&rt, &lefts, &right(&rt, 2), &[whole]);
}

// Checks that the list has one gap of the left item, from its first day to this one.
fn check_gap(rt: &impl Abort, gaps: &Gaps, to: u8) {
    let want = Gap {
        left: item(rt, 1, 1, 10, 1),
        period: january(rt, 1, to),
    };
    assert!(rt; gaps.len() == 1);
    assert!(rt; gaps.get(0) == Some(want));
}

#[test]
fn meets_gaps(rt: HostRuntime) {
    let lefts = left(&rt);
    let rights = right(&rt, 1);
    let part = Part::new(&lefts).expect(&rt, "items without overlaps");
    let whole = Gaps::whole(rt.alloc(), part).expect(&rt, "memory");
    check_gap(&rt, &whole, 10);
    let gaps = Gaps::of(rt.alloc(), cursor(&rt, &lefts), cursor(&rt, &rights));
    let gaps = gaps.expect(&rt, "memory");
    check_gap(&rt, &gaps, 3);
    let shared = meet_gaps(rt.alloc(), &whole, &gaps).expect(&rt, "memory");
    check_gap(&rt, &shared, 3);
}

// Returns the steps of one item with this amount.
fn amount_steps(rt: &(impl Abort + Alloc<A = Global>), item: Item, amount: i64) -> Steps
    ensures { result.weight ≡ 1 }
{
    steps_of(rt, Item { amount, ..item })
}

// Combines the steps of two items that hold at the same time for three days.
fn combined(rt: &(impl Abort + Alloc<A = Global>)) -> Steps {
    let one = amount_steps(rt, item(rt, 1, 1, 10, 1), 1);
    let other = amount_steps(rt, item(rt, 2, 5, 8, 1), 2);
    combine(rt.alloc(), &one, &other).expect(rt, "memory")
}

#[test]
fn combines_steps(rt: HostRuntime) {
    let steps = combined(&rt);
    assert!(rt; steps.weight() == 2);
    let alone = Tally {
        count: 1,
        sum: 1,
        min: 1,
        max: 1,
    };
    let together = Tally {
        count: 2,
        sum: 3,
        min: 1,
        max: 2,
    };
    for (day, want) in [
        (1, Some(alone)),
        (5, Some(together)),
        (8, Some(alone)),
        (10, None),
    ] {
        let at = date(1, day).expect(&rt, "a day");
        assert!(rt; steps.tally_at(at) == want);
    }
}
