//! Items that are placed one by one, or divided at once.

ghost use Rattle.std.specs.Prelude.{IsTrue};
ghost use Rattle.std.specs.Option.{ForSome};
ghost use Rattle.dip_core.specs.Item.{IsBelow};

use crate::items::{day, five, item};
use dip_core::{Division, Item, Placer, create_dip};
use period_core::Point;
use refusal_core::{Ended, Fault, holds, try_each};
use std::alloc::Global;
use std::cmp::Ordering;
use std::thread::Threads;

// Returns whether the item isn't below the last one.
fn may_follow(last: Option<Item>, item: &Item) -> bool
    ensures { IsTrue result → ForSome last (λ last. IsBelow item.now last → ⊥) }
{
    match last {
        Some(last) => item.cmp(&last) != Ordering::Less,
        None => true,
    }
}

// Places the item. If memory is refused, checks that nothing changed, and tries again.
fn place(placer: &mut Placer, item: &Item) -> Result<u32, Ended> {
    let (len, looks, last) = (placer.len(), placer.looks(), placer.last());
    holds(may_follow(placer.last(), item))?;
    holds(placer.len() < 1_000_000)?;
    if let Ok(number) = placer.place(*item) {
        return Ok(number);
    }
    holds(placer.len() == len && placer.looks() == looks && placer.last() == last)?;
    Ok(placer.place(*item)?)
}

// Checks that the divisions are the same, and have this instant.
fn check_same(placed: &Division, divided: &Division, instant: Point) -> Result<(), Ended> {
    holds(placed.instant() == Some(instant) && divided.instant() == Some(instant))?;
    holds(placed.parts() == divided.parts())?;
    for number in 0..placed.parts() {
        holds(placed.part(number).items() == divided.part(number).items())?;
    }
    Ok(())
}

// Places the items, each into the part with this number, and also divides them at once.
fn divide<R: Threads + Sync>(
    rt: &R,
    alloc: Global,
    items: &[Item],
    numbers: &[u32],
    instant: Point,
) -> Result<(), Ended> {
    let mut placer = Placer::new(alloc);
    for (item, number) in items.iter().zip(numbers) {
        holds(place(&mut placer, item)? == *number)?;
    }
    let items = Vec::from_slice(alloc, items)?;
    holds(items.len() <= 1_000_000)?;
    let divided = create_dip(rt, alloc, items, 4)?;
    check_same(&placer.finish(), &divided, instant)
}

#[test]
fn a_refused_item_is_placed_later(rt: HostRuntime) -> Result<(), Fault> {
    let five = five(&rt);
    let touching = [
        item(&rt, 1, 1, 5, 0),
        item(&rt, 2, 2, 4, 0),
        item(&rt, 3, 5, 6, 0),
    ];
    let tied = [
        item(&rt, 1, 1, 3, 0),
        item(&rt, 2, 2, 3, 0),
        item(&rt, 3, 3, 4, 0),
    ];
    for (items, numbers, instant) in [
        (&five[..], &[0, 1, 2, 1, 0][..], 3),
        (&touching, &[0, 1, 1], 2),
        (&tied, &[0, 1, 0], 2),
    ] {
        let instant = day(&rt, instant);
        try_each(&rt, |alloc| divide(&rt, alloc, items, numbers, instant))?;
    }
    Ok(())
}
