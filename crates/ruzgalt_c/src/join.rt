//! The join of two lists of items. A bundle is all items of some classes. In each bundle both sides are divided, and
//! each left part is merged with each right part.

ghost use Rattle.std.specs.Prelude.{◌≡◌, ◌<◌, ◌≤◌, ◌^◌, ◌*◌, ℕ, length, All, IfOk};
ghost use Rattle.dip_core.specs.Item.{item_limit, HasDistinctIds};
ghost use Rattle.grid_core.specs.Bundles.{ClassesRise};
ghost use Rattle.join_core.specs.Found.{AddsItemsRows, AreMade};
ghost use Rattle.join_core.specs.ItemJoin.{AreItemsRows, IsItemsJoin};
ghost use Rattle.join_core.specs.PairValues.{AddsFirstPairs};
ghost use Rattle.ruzgalt_c.specs.Join.{AreWritten};

use crate::dip::divided;
use crate::rows::order_by_class;
use crate::tiles::{add_rows_of_tiles, tiles_of};
use dip_core::{Item, NoMemory};
use grid_core::{PartPairs, last_class, parted_behind};
use join_core::{JoinRow, JoinWork};
use std::alloc::Global;
use work_core::PairWork;

/// The pairs of parts of two divisions, with the rows that each pair adds.
pub(crate) type RowPairs<'a> = PartPairs<'a, JoinWork<JoinRow>>;

/// Appends the rows of all pairs of parts.
pub(crate) fn add_rows_of_pairs(
    alloc: Global,
    pairs: &RowPairs<'_>,
    rows: &mut Vec<JoinRow>,
) -> Result<(), NoMemory>
    ensures { IfOk result (λ _. (turns : ℕ) × AddsFirstPairs pairs.now.left.now pairs.now.right.now
        (length pairs.now.left.now * length pairs.now.right.now) rows.old.items
        rows.new.items turns) }
{
    for number in 0..pairs.count() {
        let out = pairs.run(alloc, pairs.name(number))?;
        rows.extend_from_slice(&out.hits)?;
    }
    Ok(())
}

/// Appends the rows of a bundle. Uses tiles if these have fewer items to read than all pairs of parts.
fn add_rows_of_bundle(
    alloc: Global,
    left: &[Item],
    right: &[Item],
    rows: &mut Vec<JoinRow>,
) -> Result<(), NoMemory>
    requires left_few { length left.now ≤ item_limit }
    requires right_few { length right.now ≤ item_limit }
    requires left_ids { HasDistinctIds left.now }
    requires right_ids { HasDistinctIds right.now }
    ensures { IfOk result (λ _. AddsItemsRows left.now right.now rows.old.items rows.new.items
        × ((made : _) × AreMade left.now right.now made)) }
{
    let lefts = divided(alloc, left)?;
    let rights = divided(alloc, right)?;
    let left_parts = lefts.parts() as u64;
    let right_parts = rights.parts() as u64;
    let most = right_parts * left.len() as u64 + left_parts * right.len() as u64;
    match tiles_of(alloc, left, right, most)? {
        Some(tiles) => add_rows_of_tiles(alloc, &tiles, rows),
        None => add_rows_of_pairs(alloc, &RowPairs::new(&lefts, &rights), rows),
    }
}

/// Returns the rows of all items, bundle by bundle.
fn rows_of_bundles(alloc: Global, left: &[Item], right: &[Item]) -> Result<Vec<JoinRow>, NoMemory>
    requires left_few { length left.now ≤ item_limit }
    requires right_few { length right.now ≤ item_limit }
    requires left_rise { ClassesRise left.now }
    requires right_rise { ClassesRise right.now }
    requires left_ids { HasDistinctIds left.now }
    requires right_ids { HasDistinctIds right.now }
    ensures { IfOk result (λ rows. AreItemsRows left.now right.now rows.items) }
{
    let mut rows = Vec::new(alloc);
    let mut lefts = left;
    let mut rights = right;
    'bundles: while let Some(first) = lefts.first() {
        let class = last_class(first, lefts, rights);
        let (low_lefts, high_lefts) = parted_behind(class, lefts);
        let (low_rights, high_rights) = parted_behind(class, rights);
        add_rows_of_bundle(alloc, low_lefts, low_rights, &mut rows)?;
        lefts = high_lefts;
        rights = high_rights;
    }
    add_rows_of_bundle(alloc, lefts, rights, &mut rows)?;
    Ok(rows)
}

/// Returns the join of two lists of items, which match if their classes are equal.
pub(crate) fn join_items(
    alloc: Global,
    mut left: Vec<Item>,
    mut right: Vec<Item>,
) -> Result<Vec<JoinRow>, NoMemory>
    requires left_few { length left.items ≤ item_limit }
    requires right_few { length right.items ≤ item_limit }
    requires left_ids { HasDistinctIds left.items }
    requires right_ids { HasDistinctIds right.items }
    ensures { IfOk result (λ rows. IsItemsJoin left.items right.items rows.items) }
{
    order_by_class(&mut left);
    order_by_class(&mut right);
    let mut rows = rows_of_bundles(alloc, &left, &right)?;
    rows.sort_unstable();
    Ok(rows)
}

/// Writes the rows' indices, starts and ends.
pub(crate) fn write_rows(
    rows: &[JoinRow],
    left: &mut [u32],
    right: &mut [u32],
    from: &mut [i64],
    to: &mut [i64],
)
    requires ids { All (λ row. (row.left < item_limit) × (row.right < item_limit)) rows.now }
    requires left { length rows.now ≤ length left.old }
    requires right { length rows.now ≤ length right.old }
    requires from { length rows.now ≤ length from.old }
    requires to { length rows.now ≤ length to.old }
    ensures { AreWritten rows.now (length rows.now) left.new right.new from.new to.new }
{
    for k in 0..rows.len() {
        let row = rows[k];
        left[k] = row.left as u32;
        right[k] = row.right as u32;
        from[k] = row.period.from.number();
        to[k] = row.period.to.number();
    }
}
