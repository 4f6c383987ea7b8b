//! Left and right items in tiles, which are cut by time so that items far from each other aren't in one tile. That
//! pays if many items of a side hold at once, but at other times than the other side's. Then each side has many parts
//! with few items, and almost no pair of parts has overlapping items.

ghost use Rattle.std.specs.Prelude.{All, ◌≡◌, ◌≤◌, ◌++◌, length, filter, int_lt, IfOk, IfSome, IsPermutation, IsTrue, OnOk};
ghost use Rattle.dip_core.specs.Item.{item_limit, HasDistinctIds};
ghost use Rattle.join_core.specs.Tiles.{AddsTiles, AreCutAt, AreTiles, IsDivisible, StartsRise, reads_in};

use dip_core::Item;
use period_core::{NoMemory, Point};
use std::alloc::Global;
use std::thread::Threads;
use work_core::tuning::{MORE_PASSED, READS};
use work_core::{Crew, sort_unstable};

/// Left and right items that are compared with each other.
#[derive(Drop)]
pub struct Tile {
    /// The left items.
    pub left: Vec<Item>,
    /// The right items.
    pub right: Vec<Item>,
}

/// The items of one side between two cuts.
#[derive(Clone, Copy)]
struct Between<'a> {
    /// The items that started before the first cut and may still hold.
    earlier: &'a [Item],
    /// The items that start from the first cut on, before the second.
    started: &'a [Item],
}

/// Adds the starts and the ends of some items.
fn add_ends(
    items: &[Item],
    starts: &mut Vec<Point>,
    ends: &mut Vec<Point>,
) -> Result<(), NoMemory> {
    for item in items {
        starts.push(item.period.from)?;
        ends.push(item.period.to)?;
    }
    Ok(())
}

/// Returns the starts at which to cut left and right items, from all starts and all ends, both in order. A cut is made
/// at a start if at least `MORE_PASSED` fewer items hold than have started since the previous cut, or than half of the
/// most that held at once since then. So the items carried over all cuts are no more than all starts and ends
/// together.
///
/// # Errors
///
/// `NoMemory` if an allocation is refused.
pub fn cuts_of(alloc: Global, starts: &[Point], ends: &[Point]) -> Result<Vec<Point>, NoMemory> {
    let mut cuts = Vec::new(alloc);
    let (mut cut, mut most) = (0, 0);
    let (mut started, mut ended) = (0, 0);
    while started < starts.len() {
        if ended < ends.len() && ends[ended] <= starts[started] {
            ended += 1;
        } else {
            let holding = started.saturating_sub(ended);
            most = most.max(holding);
            let passed = started.saturating_sub(cut).max(most / 2);
            if holding.saturating_add(MORE_PASSED) <= passed {
                cuts.push(starts[started])?;
                (cut, most) = (started, holding);
            }
            started += 1;
        }
    }
    Ok(cuts)
}

/// Returns the points at which both sides are cut.
fn cuts_between<R: Threads + Sync, G>(
    crew: &Crew<'_, R, G>,
    left: &[Item],
    right: &[Item],
) -> Result<Vec<Point>, NoMemory> {
    let mut starts = Vec::new(crew.alloc);
    let mut ends = Vec::new(crew.alloc);
    add_ends(left, &mut starts, &mut ends)?;
    add_ends(right, &mut starts, &mut ends)?;
    sort_unstable(crew.rt, &mut starts, crew.workers);
    sort_unstable(crew.rt, &mut ends, crew.workers);
    cuts_of(crew.alloc, &starts, &ends)
}

/// Returns the items in ascending order of start.
fn by_start<R: Threads + Sync, G>(
    crew: &Crew<'_, R, G>,
    items: &[Item],
) -> Result<Vec<Item>, NoMemory>
    ensures same { IfOk result (λ sorted. IsPermutation items.now sorted.items) }
    ensures rise { IfOk result (λ sorted. StartsRise sorted.items) }
{
    let mut sorted = Vec::from_slice(crew.alloc, items)?;
    sort_unstable(crew.rt, &mut sorted, crew.workers);
    Ok(sorted)
}

/// Returns the items that start before the cut, and the others.
fn cut_at(cut: Point, items: &[Item]) -> (&[Item], &[Item])
    requires { StartsRise items.now }
    ensures { AreCutAt cut items.now result.0.now result.1.now }
{
    let started = items.partition_point(|item| item.period.from < cut);
    items.split_at(started)
}

/// Returns both lists as one.
fn one_behind_other(alloc: Global, some: &[Item], others: &[Item]) -> Result<Vec<Item>, NoMemory>
    ensures { IfOk result (λ all. all.items ≡ some.now ++ others.now) }
{
    let mut all = Vec::from_slice(alloc, some)?;
    all.extend_from_slice(others)?;
    Ok(all)
}

/// Adds the started items to the earlier ones, and removes the items that end at or before the cut.
fn keep_holding(earlier: &mut Vec<Item>, started: &[Item], cut: Point) -> Result<(), NoMemory>
    ensures { OnOk result (earlier.new.items
        ≡ filter (λ x. int_lt cut x.period.to) (earlier.old.items ++ started.now)) }
{
    earlier.extend_from_slice(started)?;
    earlier.retain(|item| cut < item.period.to);
    Ok(())
}

/// Adds the two tiles between two cuts: the left items that start there with all right items, and the earlier left
/// items with the right items that start there.
fn push_tiles(
    alloc: Global,
    left: Between<'_>,
    right: Between<'_>,
    tiles: &mut Vec<Tile>,
) -> Result<(), NoMemory>
    ensures { OnOk result (AddsTiles left.entry.earlier.now left.entry.started.now
        right.entry.earlier.now right.entry.started.now tiles.old.items tiles.new.items) }
{
    tiles.push(Tile {
        left: Vec::from_slice(alloc, left.started)?,
        right: one_behind_other(alloc, right.earlier, right.started)?,
    })?;
    tiles.push(Tile {
        left: Vec::from_slice(alloc, left.earlier)?,
        right: Vec::from_slice(alloc, right.started)?,
    })?;
    Ok(())
}

/// Returns the tiles of items that are in order of start, two from each cut to the next.
fn tiles_at(
    alloc: Global,
    left: &[Item],
    right: &[Item],
    cuts: &[Point],
) -> Result<Vec<Tile>, NoMemory>
    requires left_few { length left.now ≤ item_limit }
    requires right_few { length right.now ≤ item_limit }
    requires left_ids { HasDistinctIds left.now }
    requires right_ids { HasDistinctIds right.now }
    requires left_rise { StartsRise left.now }
    requires right_rise { StartsRise right.now }
    ensures { IfOk result (λ tiles. AreTiles left.now right.now tiles.items) }
{
    let mut tiles = Vec::new(alloc);
    let mut early_lefts = Vec::new(alloc);
    let mut early_rights = Vec::new(alloc);
    let mut lefts = left;
    let mut rights = right;
    for cut in cuts {
        let (started_lefts, later_lefts) = cut_at(*cut, lefts);
        let (started_rights, later_rights) = cut_at(*cut, rights);
        let left_between = Between {
            earlier: &early_lefts,
            started: started_lefts,
        };
        let right_between = Between {
            earlier: &early_rights,
            started: started_rights,
        };
        push_tiles(alloc, left_between, right_between, &mut tiles)?;
        keep_holding(&mut early_lefts, started_lefts, *cut)?;
        keep_holding(&mut early_rights, started_rights, *cut)?;
        lefts = later_lefts;
        rights = later_rights;
    }
    let left_between = Between {
        earlier: &early_lefts,
        started: lefts,
    };
    let right_between = Between {
        earlier: &early_rights,
        started: rights,
    };
    push_tiles(alloc, left_between, right_between, &mut tiles)?;
    Ok(tiles)
}

/// Returns whether at most `most` items are read in the tiles.
fn reads_upto(tiles: &[Tile], most: u64) -> bool
    requires { All IsDivisible tiles.now }
    ensures { IsTrue result → reads_in tiles.now ≤ most }
{
    let mut left = most;
    for tile in tiles {
        let reads = 2 * (tile.left.len() as u64 * tile.right.len() as u64);
        if left < reads {
            return false;
        }
        left -= reads;
    }
    true
}

/// Returns whether it pays to look for tiles: whether each of `items` items is read often if all pairs of parts read
/// `most` items.
pub fn are_read_often(items: usize, most: u64) -> bool {
    items as u64 <= most / READS
}

/// Returns the tiles of left and right items, both in ascending order of start, cut at these points. A left and a
/// right item that share an instant are in exactly one tile together. Returns `None` if the tiles would read more than
/// half of `most` items.
///
/// # Errors
///
/// `NoMemory` if an allocation is refused.
pub fn tiles_cut_at(
    alloc: Global,
    left: &[Item],
    right: &[Item],
    cuts: &[Point],
    most: u64,
) -> Result<Option<Vec<Tile>>, NoMemory>
    requires left_few { length left.now ≤ item_limit }
    requires right_few { length right.now ≤ item_limit }
    requires left_ids { HasDistinctIds left.now }
    requires right_ids { HasDistinctIds right.now }
    requires left_rise { StartsRise left.now }
    requires right_rise { StartsRise right.now }
    ensures { IfOk result (λ found. IfSome found (λ tiles. AreTiles left.now right.now tiles.items
        × (reads_in tiles.items ≤ most))) }
{
    let tiles = tiles_at(alloc, left, right, cuts)?;
    if !reads_upto(&tiles, most / 2) {
        return Ok(None);
    }
    Ok(Some(tiles))
}

/// Returns the tiles of the items, or `None` if tiles don't pay. `most` is the number of items that all pairs of parts
/// read at most.
pub(crate) fn tiles_of<R: Threads + Sync, G>(
    crew: &Crew<'_, R, G>,
    left: &[Item],
    right: &[Item],
    most: u64,
) -> Result<Option<Vec<Tile>>, NoMemory>
    requires left_few { length left.now ≤ item_limit }
    requires right_few { length right.now ≤ item_limit }
    requires left_ids { HasDistinctIds left.now }
    requires right_ids { HasDistinctIds right.now }
    ensures { IfOk result (λ found. IfSome found (λ tiles. AreTiles left.now right.now tiles.items
        × (reads_in tiles.items ≤ most))) }
{
    if !are_read_often(left.len() + right.len(), most) {
        return Ok(None);
    }
    let cuts = cuts_between(crew, left, right)?;
    let lefts = by_start(crew, left)?;
    let rights = by_start(crew, right)?;
    tiles_cut_at(crew.alloc, &lefts, &rights, &cuts, most)
}
