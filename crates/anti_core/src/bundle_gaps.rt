//! The rows of items, one bundle at a time. A bundle is all items of some classes. Items of other classes don't match
//! them, so only parts of the same bundle are paired. There are few right parts: right items of one class don't
//! overlap, and a bundle of several classes has few items.

ghost use Rattle.std.specs.Prelude.{◌<◌, ◌≤◌, length, IfOk};
ghost use Rattle.std.specs.Thread.{IsSync};
ghost use Rattle.dip_core.specs.Item.{item_limit, HasDistinctIds};
ghost use Rattle.grid_core.specs.Bundles.{ClassesRise, items_in};
ghost use Rattle.work_core.specs.Limits.{worker_limit};
ghost use Rattle.anti_core.specs.ItemAnti.{AreItemsRows};

use crate::item_rows::rows_of_items;
use crate::rows::AntiRow;
use dip_core::Item;
use grid_core::{class_shares, items_from, items_in, last_class, parted_behind};
use list_core::in_one_list;
use period_core::NoMemory;
use std::thread::Threads;
use work_core::tuning::ITEMS_FOR_THREADS;
use work_core::{Crew, Gate, Range, shared_out};

/// Returns the rows of all left items. If there are many, of several classes, the workers partition them by ranges of
/// classes.
pub(crate) fn rows_by_class<R: Threads + Sync, G: Gate>(
    crew: &Crew<'_, R, G>,
    left: &[Item],
    right: &[Item],
) -> Result<Vec<AntiRow>, NoMemory>
    requires left_few { length left.now ≤ item_limit }
    requires right_few { length right.now ≤ item_limit }
    requires left_rise { ClassesRise left.now }
    requires right_rise { ClassesRise right.now }
    requires ids { HasDistinctIds left.now }
    ensures { IfOk result (λ rows. AreItemsRows left.now right.now rows.items) }
{
    let (rt, alloc, gate) = (crew.rt, crew.alloc, crew.gate);
    let shares = class_shares(alloc, left, right, crew.workers)?;
    if shares.len() == 1 {
        return rows_of_bundles(crew, left, right);
    }
    let lists = shared_out(
        rt,
        alloc,
        &shares,
        &|classes: Range<u64>, workers: u32| -> Result<Vec<AntiRow>, NoMemory>
            requires { IsSync R.row × IsSync G.row × (0 < workers) × (workers ≤ worker_limit)
                × (length left.now ≤ item_limit) × (length right.now ≤ item_limit)
                × ClassesRise left.now × ClassesRise right.now × HasDistinctIds left.now }
            ensures { IfOk result (λ rows. AreItemsRows
                (items_in classes left.entry.now) (items_in classes right.entry.now) rows.items) }
        {
            let crew = Crew::new(rt, alloc, workers, gate);
            rows_of_bundles(&crew, items_in(classes, left), items_in(classes, right))
        },
    )?;
    in_one_list(alloc, lists)
}

/// Returns how many workers find the rows of a bundle: one if it is small and isn't the only bundle.
fn workers_for(bundle: &[Item], all: &[Item], workers: u32) -> u32
    requires { 0 < workers }
    ensures { (0 < result) × (result ≤ workers) }
{
    if bundle.len() < all.len() && bundle.len() < ITEMS_FOR_THREADS {
        1
    } else {
        workers
    }
}

/// Returns the rows of all left items, found bundle by bundle.
fn rows_of_bundles<R: Threads + Sync, G: Gate>(
    crew: &Crew<'_, R, G>,
    left: &[Item],
    right: &[Item],
) -> Result<Vec<AntiRow>, NoMemory>
    requires left_few { length left.now ≤ item_limit }
    requires right_few { length right.now ≤ item_limit }
    requires left_rise { ClassesRise left.now }
    requires right_rise { ClassesRise right.now }
    requires ids { HasDistinctIds left.now }
    ensures { IfOk result (λ rows. AreItemsRows left.now right.now rows.items) }
{
    let mut rows = Vec::with_capacity(crew.alloc, left.len())?;
    let mut lefts = left;
    let mut rights = right;
    'bundles: while let Some(first) = lefts.first() {
        // Right items of lower classes match none of the remaining left items.
        let matching = items_from(first.class, rights);
        let class = last_class(first, lefts, matching);
        let (low_lefts, high_lefts) = parted_behind(class, lefts);
        let (low_rights, high_rights) = parted_behind(class, matching);
        let few = workers_for(low_lefts, left, crew.workers);
        let few = Crew::new(crew.rt, crew.alloc, few, crew.gate);
        let mut found = rows_of_items(&few, low_lefts, low_rights)?;
        rows.append(&mut found)?;
        lefts = high_lefts;
        rights = high_rights;
    }
    Ok(rows)
}
