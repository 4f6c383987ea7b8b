//! The rows of items, one bundle at a time. A bundle is all items of some classes, which are divided separately. Items
//! of other classes don't match them, so only parts of the same bundle are paired.

ghost use Rattle.std.specs.Prelude.{◌≡◌, ◌<◌, ◌≤◌, ◌*◌, ◌++◌, ◌^◌, length, All, AllPairs, IfOk};
ghost use Rattle.std.specs.Thread.{IsSync};
ghost use Rattle.dip_core.specs.Item.{item_limit, HasDistinctIds};
ghost use Rattle.grid_core.specs.Bundles.{ClassesRise, items_in};
ghost use Rattle.work_core.specs.Limits.{worker_limit};
ghost use Rattle.join_core.specs.Found.{AddsItemsRows, AreMade, IsFound};
ghost use Rattle.join_core.specs.Tiles.{AddsTilesRows, HaveNoRow, IsDivisible, reads_in};

use crate::advances::Advances;
use crate::found::FoundRows;
use crate::join_pairs::RowPairs;
use crate::rows::JoinRow;
use crate::stretches::add_rows_of_pairs;
use crate::tiles::{Tile, tiles_of};
use dip_core::Item;
use grid_core::{class_shares, divided, items_in, last_class, parted_behind};
use period_core::NoMemory;
use std::thread::Threads;
use work_core::tuning::ITEMS_FOR_THREADS;
use work_core::{Crew, Gate, Range, shared_out};

/// Returns how many workers join some items: one if there are few items.
fn workers_for(left: &[Item], right: &[Item], workers: u32) -> u32
    requires { 0 < workers }
    ensures { (0 < result) × (result ≤ workers) }
{
    if left.len().saturating_mul(right.len()) < ITEMS_FOR_THREADS {
        1
    } else {
        workers
    }
}

/// Adds the rows of a tile, and returns the advances for them.
fn add_rows_of_tile<R: Threads + Sync, G: Gate>(
    crew: &Crew<'_, R, G>,
    tile: &Tile,
    rows: &mut Vec<JoinRow>,
) -> Result<u64, NoMemory>
    requires { IsDivisible tile.now }
    ensures rows { IfOk result
        (λ _. AddsItemsRows tile.now.left.items tile.now.right.items rows.old.items
        rows.new.items) }
    ensures few { IfOk result
        (λ made. made ≤ 2 * (length tile.now.left.items * length tile.now.right.items)) }
{
    let few = workers_for(&tile.left, &tile.right, crew.workers);
    let crew = Crew::new(crew.rt, crew.alloc, few, crew.gate);
    let lefts = divided(&crew, &tile.left)?;
    let rights = divided(&crew, &tile.right)?;
    add_rows_of_pairs(&crew, &RowPairs::new(&lefts, &rights), rows)
}

/// Adds the rows of the tiles, and returns the advances for them.
fn add_rows_of_tiles<R: Threads + Sync, G: Gate>(
    crew: &Crew<'_, R, G>,
    tiles: &[Tile],
    rows: &mut Vec<JoinRow>,
) -> Result<u64, NoMemory>
    requires tiles { All IsDivisible tiles.now }
    requires apart { AllPairs HaveNoRow tiles.now }
    requires few { reads_in tiles.now < 2 ^ 64 }
    ensures rows { IfOk result (λ _. AddsTilesRows tiles.now rows.old.items rows.new.items) }
    ensures few { IfOk result (λ made. made ≤ reads_in tiles.now) }
{
    let mut made = 0;
    for tile in tiles {
        made += add_rows_of_tile(crew, tile, rows)?;
    }
    Ok(made)
}

/// Adds the rows of a bundle, and returns the advances for them. It uses tiles if they pay (see `tiles_of`).
fn add_rows_of_bundle<R: Threads + Sync, G: Gate>(
    crew: &Crew<'_, R, G>,
    left: &[Item],
    right: &[Item],
    rows: &mut Vec<JoinRow>,
) -> Result<Advances, NoMemory>
    requires left_few { length left.now ≤ item_limit }
    requires right_few { length right.now ≤ item_limit }
    requires left_ids { HasDistinctIds left.now }
    requires right_ids { HasDistinctIds right.now }
    ensures rows { IfOk result
        (λ _. AddsItemsRows left.now right.now rows.old.items rows.new.items) }
    ensures advances { IfOk result (AreMade left.now right.now) }
{
    let lefts = divided(crew, left)?;
    let rights = divided(crew, right)?;
    let left_parts = lefts.parts() as u64;
    let right_parts = rights.parts() as u64;
    let most = right_parts * left.len() as u64 + left_parts * right.len() as u64;
    let made = match tiles_of(crew, left, right, most)? {
        Some(tiles) => add_rows_of_tiles(crew, &tiles, rows)?,
        None => add_rows_of_pairs(crew, &RowPairs::new(&lefts, &rights), rows)?,
    };
    Ok(Advances {
        made,
        left_parts,
        right_parts,
    })
}

/// Returns the rows of all items, bundle by bundle. The last bundle has the right items whose classes are above all
/// left ones. They match nothing, but count for the least number of parts.
fn rows_of_bundles<R: Threads + Sync, G: Gate>(
    crew: &Crew<'_, R, G>,
    left: &[Item],
    right: &[Item],
) -> Result<FoundRows, NoMemory>
    requires left_few { length left.now ≤ item_limit }
    requires right_few { length right.now ≤ item_limit }
    requires left_rise { ClassesRise left.now }
    requires right_rise { ClassesRise right.now }
    requires left_ids { HasDistinctIds left.now }
    requires right_ids { HasDistinctIds right.now }
    ensures { IfOk result (IsFound left.now right.now) }
{
    let mut rows = Vec::new(crew.alloc);
    let mut advances = Advances::none();
    let mut lefts = left;
    let mut rights = right;
    'bundles: while let Some(first) = lefts.first() {
        let class = last_class(first, lefts, rights);
        let (low_lefts, high_lefts) = parted_behind(class, lefts);
        let (low_rights, high_rights) = parted_behind(class, rights);
        let few = if low_lefts.len() < left.len() {
            workers_for(low_lefts, low_rights, crew.workers)
        } else {
            crew.workers
        };
        let some = Crew::new(crew.rt, crew.alloc, few, crew.gate);
        let more = add_rows_of_bundle(&some, low_lefts, low_rights, &mut rows)?;
        advances = advances.plus(more);
        lefts = high_lefts;
        rights = high_rights;
    }
    let more = add_rows_of_bundle(crew, lefts, rights, &mut rows)?;
    Ok(FoundRows {
        rows,
        advances: advances.plus(more),
    })
}

/// Returns the rows of the items whose classes are within a range.
fn rows_of_range<R: Threads + Sync, G: Gate>(
    crew: &Crew<'_, R, G>,
    range: Range<u64>,
    left: &[Item],
    right: &[Item],
) -> Result<FoundRows, NoMemory>
    requires left_few { length left.now ≤ item_limit }
    requires right_few { length right.now ≤ item_limit }
    requires left_rise { ClassesRise left.now }
    requires right_rise { ClassesRise right.now }
    requires left_ids { HasDistinctIds left.now }
    requires right_ids { HasDistinctIds right.now }
    ensures { IfOk result (IsFound (items_in range left.now) (items_in range right.now)) }
{
    rows_of_bundles(crew, items_in(range, left), items_in(range, right))
}

/// Returns the rows of items in ascending order of class. The workers partition them by ranges of classes.
pub(crate) fn rows_of_classes<R: Threads + Sync, G: Gate>(
    crew: &Crew<'_, R, G>,
    left: &[Item],
    right: &[Item],
) -> Result<FoundRows, NoMemory>
    requires left_few { length left.now ≤ item_limit }
    requires right_few { length right.now ≤ item_limit }
    requires left_rise { ClassesRise left.now }
    requires right_rise { ClassesRise right.now }
    requires left_ids { HasDistinctIds left.now }
    requires right_ids { HasDistinctIds right.now }
    ensures { IfOk result (IsFound left.now right.now) }
{
    let Crew {
        rt,
        alloc,
        gate,
        ..
    } = *crew;
    let shares = class_shares(alloc, left, right, crew.workers)?;
    let found = shared_out(
        rt,
        alloc,
        &shares,
        &|range: Range<u64>, workers: u32| -> Result<FoundRows, NoMemory>
            requires { IsSync R.row × IsSync G.row × (0 < workers) × (workers ≤ worker_limit)
                × (length left.now ≤ item_limit) × (length right.now ≤ item_limit)
                × ClassesRise left.now × ClassesRise right.now
                × HasDistinctIds left.now × HasDistinctIds right.now }
            ensures { IfOk result
                (IsFound (items_in range left.entry.now) (items_in range right.entry.now)) }
        { rows_of_range(&Crew::new(rt, alloc, workers, gate), range, left, right) },
    )?;
    FoundRows::of_all(alloc, found)
}
