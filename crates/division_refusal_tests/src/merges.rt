//! Hits and gaps of two parts, and steps that are combined.

use crate::items::{day, item, january};
use dip_core::{Item, Part};
use merge_core::{
    Cursor, Gap, Gaps, Hit, Steps, Tally, combine, meet_gaps, merge_gaps, merge_join,
};
use period_core::Point;
use refusal_core::{Ended, Fault, holds, take_all, try_each};
use std::alloc::Global;
use std::test::Fail;

fn part(items: &[Item]) -> Result<Part<'_>, Ended> {
    Part::new(items).ok_or(Ended::Wrong)
}

fn cursor(items: &[Item]) -> Result<Cursor<'_>, Ended> {
    Ok(Cursor::new(part(items)?))
}

// Two sides, their hits, and the gaps of the left side.
#[derive(Drop)]
struct Case<'a> {
    lefts: &'a [Item],
    rights: &'a [Item],
    hits: &'a [Hit],
    gaps: &'a [Gap],
}

// Finds the hits, in a list that already has one. If memory is refused, checks that only that one is left, and tries
// again.
fn find_hits(alloc: Global, case: &Case<'_>, first: Hit) -> Result<(), Ended> {
    let mut hits = Vec::with_capacity(alloc, 1)?;
    hits.push(first)?;
    let advances = match merge_join(cursor(case.lefts)?, cursor(case.rights)?, &mut hits) {
        Ok(advances) => advances,
        Err(_) => {
            holds(hits.as_slice() == [first].as_slice())?;
            merge_join(cursor(case.lefts)?, cursor(case.rights)?, &mut hits)?
        }
    };
    holds(advances <= 3 && hits.first() == Some(&first))?;
    holds(hits.get(1..) == Some(case.hits))
}

// The same for gaps.
fn find_gaps(alloc: Global, case: &Case<'_>, first: Gap) -> Result<(), Ended> {
    let mut gaps = Vec::with_capacity(alloc, 1)?;
    gaps.push(first)?;
    let advances = match merge_gaps(cursor(case.lefts)?, cursor(case.rights)?, &mut gaps) {
        Ok(advances) => advances,
        Err(_) => {
            holds(gaps.as_slice() == [first].as_slice())?;
            merge_gaps(cursor(case.lefts)?, cursor(case.rights)?, &mut gaps)?
        }
    };
    holds(advances <= 3 && gaps.first() == Some(&first))?;
    holds(gaps.get(1..) == Some(case.gaps))
}

// Finds the gaps of the whole left part, its gaps against the right part, and what these have in common.
fn share_gaps(alloc: Global, case: &Case<'_>, whole: Gap) -> Result<(), Ended> {
    let alone = Gaps::whole(alloc, part(case.lefts)?)?;
    let beside = Gaps::of(alloc, cursor(case.lefts)?, cursor(case.rights)?)?;
    let shared = meet_gaps(alloc, &alone, &beside)?;
    holds(alone.as_slice() == [whole].as_slice())?;
    holds(beside.as_slice() == case.gaps && shared.as_slice() == case.gaps)
}

#[test]
fn hits_and_gaps_are_found_later(rt: HostRuntime) -> Result<(), Fault> {
    let left = item(&rt, 1, 1, 10, 1);
    let whole = Gap {
        left,
        period: left.period,
    };
    let before = Gap {
        left,
        period: january(&rt, 1, 3),
    };
    let rights = [item(&rt, 1, 3, 6, 1), item(&rt, 2, 6, 20, 1)];
    let strangers = [item(&rt, 1, 3, 6, 2), item(&rt, 2, 6, 20, 2)];
    let hit = |right: Item, from: u8, to: u8| Hit {
        left,
        right,
        period: january(&rt, from, to),
    };
    let hits = [hit(rights[0], 3, 6), hit(rights[1], 6, 10)];
    for case in [
        Case {
            lefts: &[left],
            rights: &rights,
            hits: &hits,
            gaps: &[before],
        },
        Case {
            lefts: &[left],
            rights: &strangers,
            hits: &[],
            gaps: &[whole],
        },
    ] {
        try_each(&rt, |alloc| find_hits(alloc, &case, hits[1]))?;
        try_each(&rt, |alloc| find_gaps(alloc, &case, before))?;
        try_each(&rt, |alloc| share_gaps(alloc, &case, whole))?;
    }
    Ok(())
}

// Returns the steps of one item with an amount.
fn steps(alloc: Global, item: &Item, amount: i64) -> Result<Steps, Ended> {
    let items = [Item { amount, ..*item }];
    Ok(Steps::of_part(alloc, part(&items)?)?)
}

// Returns the aggregates of some items.
fn tally(count: u64, sum: i128, min: i64, max: i64) -> Tally {
    Tally {
        count,
        sum,
        min,
        max,
    }
}

// Combines the steps of two items that hold at the same time for three days, with the amounts 1 and 2.
fn take_together(alloc: Global, items: &[Item; 2], days: &[Point; 4]) -> Result<(), Ended> {
    let one = steps(alloc, &items[0], 1)?;
    let other = steps(alloc, &items[1], 2)?;
    holds(one.weight() == 1 && other.weight() == 1)?;
    let both = combine(alloc, &one, &other)?;
    holds(both.weight() == 2)?;
    let alone = Some(tally(1, 1, 1, 1));
    for (day, want) in days
        .iter()
        .zip([alone, Some(tally(2, 3, 1, 2)), alone, None])
    {
        holds(both.tally_at(*day) == want)?;
    }
    Ok(())
}

#[test]
fn steps_are_taken_together_later(rt: HostRuntime) -> Result<(), Fault> {
    let items = [item(&rt, 1, 1, 10, 1), item(&rt, 2, 5, 8, 1)];
    let days = [day(&rt, 1), day(&rt, 5), day(&rt, 8), day(&rt, 10)];
    try_each(&rt, |alloc| take_together(alloc, &items, &days))
}

// Finds no hit of items of two classes while no memory is left.
#[test]
fn no_hit_needs_no_memory(rt: HostRuntime) -> Result<(), Fail> {
    let lefts = [item(&rt, 1, 1, 10, 1)];
    let rights = [item(&rt, 1, 3, 6, 2), item(&rt, 2, 6, 20, 2)];
    let mut hits = Vec::new(rt.alloc());
    let taken = take_all(rt.alloc())?;
    let found = merge_join(cursor(&lefts)?, cursor(&rights)?, &mut hits);
    let refused = hits.try_reserve(1).is_err();
    drop(taken);
    assert!(rt; found.is_ok() && hits.is_empty() && refused);
    Ok(())
}
