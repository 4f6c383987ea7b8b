//! Tiles: the items of a bundle, cut by time. They pay off if many items of one side hold at once, but few of the other
//! side at the same time.

ghost use Rattle.std.specs.Prelude.{All, ◌≡◌, ◌≤◌, length, AllPairs, IfOk, IfSome, IsPermutation, IsSorted};
ghost use Rattle.dip_core.specs.Item.{item_limit, HasDistinctIds};
ghost use Rattle.join_core.specs.Found.{AddsItemsRows};
ghost use Rattle.join_core.specs.Tiles.{AddsTilesRows, AreTiles, HaveNoRow, IsDivisible, StartsRise};

use crate::dip::divided;
use crate::join::{RowPairs, add_rows_of_pairs};
use dip_core::{Item, NoMemory};
use join_core::{JoinRow, Tile, are_read_often, cuts_of, tiles_cut_at};
use period_core::Point;
use std::alloc::Global;

/// Appends the rows of a tile.
fn add_rows_of_tile(alloc: Global, tile: &Tile, rows: &mut Vec<JoinRow>) -> Result<(), NoMemory>
    requires { IsDivisible tile.now }
    ensures { IfOk result
        (λ _. AddsItemsRows tile.now.left.items tile.now.right.items rows.old.items
        rows.new.items) }
{
    let lefts = divided(alloc, &tile.left)?;
    let rights = divided(alloc, &tile.right)?;
    add_rows_of_pairs(alloc, &RowPairs::new(&lefts, &rights), rows)
}

/// Appends the rows of all tiles.
pub(crate) fn add_rows_of_tiles(
    alloc: Global,
    tiles: &[Tile],
    rows: &mut Vec<JoinRow>,
) -> Result<(), NoMemory>
    requires tiles { All IsDivisible tiles.now }
    requires apart { AllPairs HaveNoRow tiles.now }
    ensures { IfOk result (λ _. AddsTilesRows tiles.now rows.old.items rows.new.items) }
{
    for tile in tiles {
        add_rows_of_tile(alloc, tile, rows)?;
    }
    Ok(())
}

/// Returns the items, sorted by start.
fn by_start(alloc: Global, items: &[Item]) -> Result<Vec<Item>, NoMemory>
    ensures same { IfOk result (λ sorted. IsPermutation items.now sorted.items) }
    ensures rise { IfOk result (λ sorted. StartsRise sorted.items) }
{
    let mut sorted = Vec::from_slice(alloc, items)?;
    sorted.sort_unstable();
    Ok(sorted)
}

/// Returns the points where both sides are cut.
fn cuts_between(alloc: Global, left: &[Item], right: &[Item]) -> Result<Vec<Point>, NoMemory> {
    let mut starts = Vec::new(alloc);
    let mut ends = Vec::new(alloc);
    for item in left.iter().chain(right) {
        starts.push(item.period.from)?;
        ends.push(item.period.to)?;
    }
    starts.sort_unstable();
    ends.sort_unstable();
    cuts_of(alloc, &starts, &ends)
}

/// Returns the tiles of some items, if reading them takes at most half of `most`, the number of items to read for all
/// pairs of parts.
pub(crate) fn tiles_of(
    alloc: Global,
    left: &[Item],
    right: &[Item],
    most: u64,
) -> Result<Option<Vec<Tile>>, NoMemory>
    requires left_few { length left.now ≤ item_limit }
    requires right_few { length right.now ≤ item_limit }
    requires left_ids { HasDistinctIds left.now }
    requires right_ids { HasDistinctIds right.now }
    ensures { IfOk result (λ found. IfSome found (λ tiles. AreTiles left.now right.now tiles.items)) }
{
    if !are_read_often(left.len() + right.len(), most) {
        return Ok(None);
    }
    let cuts = cuts_between(alloc, left, right)?;
    let lefts = by_start(alloc, left)?;
    let rights = by_start(alloc, right)?;
    tiles_cut_at(alloc, &lefts, &rights, &cuts, most)
}
