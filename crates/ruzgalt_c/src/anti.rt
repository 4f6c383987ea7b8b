//! The anti-join of two lists of items, class by class. The right items are coalesced first, so that each class has one
//! right part, which each left part of the class is compared with.

ghost use Rattle.std.specs.Prelude.{◌≡◌, ◌≤◌, ◌<◌, ◌++◌, List, length, map, All, IfOk, OnOk};
ghost use Rattle.dip_core.specs.Division.{all_of};
ghost use Rattle.dip_core.specs.Item.{item_limit, HasDistinctIds};
ghost use Rattle.grid_core.specs.Bundles.{ClassesRise};
ghost use Rattle.merge_core.specs.declared.gap.Gap.{Gap};
ghost use Rattle.merge_core.specs.Gaps.{ListsGaps};
ghost use Rattle.anti_core.specs.ItemAnti.{IsItemsAnti, AreItemsRows, row_of_gap};
ghost use Rattle.ruzgalt_c.specs.Anti.{AddsAntiRows, AreAntiWritten, HoldApart};

use crate::dip::divided;
use crate::rows::order_by_class;
use anti_core::{AntiRow, add_rows, united_items};
use dip_core::{Division, Item, NoMemory, Part};
use grid_core::{items_from, parted_behind};
use merge_core::{Cursor, Gaps};
use std::alloc::Global;

/// Appends the rows of a left part, against a right part.
fn add_rows_of_part(
    alloc: Global,
    left: Part<'_>,
    right: Part<'_>,
    rows: &mut Vec<AntiRow>,
) -> Result<(), NoMemory>
    ensures { OnOk result ((gaps : List Gap)
        × ListsGaps left.entry.items.now right.entry.items.now gaps
        × (rows.new.items ≡ rows.old.items ++ map row_of_gap gaps)) }
{
    let gaps = Gaps::of(alloc, Cursor::new(left), Cursor::new(right))?;
    add_rows(gaps.as_slice(), rows)?;
    Ok(())
}

/// Appends the rows of all left parts, against a right part.
fn add_rows_of_parts(
    alloc: Global,
    lefts: &Division,
    right: Part<'_>,
    rows: &mut Vec<AntiRow>,
) -> Result<(), NoMemory>
    requires { HasDistinctIds (all_of lefts.now) }
    ensures { OnOk result
        (AddsAntiRows (all_of lefts.now) right.entry.items.now rows.old.items rows.new.items) }
{
    for number in 0..lefts.parts() {
        add_rows_of_part(alloc, lefts.part(number), right, rows)?;
    }
    Ok(())
}

/// Appends the rows of some left items, against a right part. The items are divided, unless they already are one part.
fn add_rows_of_class(
    alloc: Global,
    left: &[Item],
    right: Part<'_>,
    rows: &mut Vec<AntiRow>,
) -> Result<(), NoMemory>
    requires few { length left.now ≤ item_limit }
    requires ids { HasDistinctIds left.now }
    ensures { OnOk result
        (AddsAntiRows left.now right.entry.items.now rows.old.items rows.new.items) }
{
    if let Some(part) = Part::new(left) {
        return add_rows_of_part(alloc, part, right, rows);
    }
    let lefts = divided(alloc, left)?;
    add_rows_of_parts(alloc, &lefts, right, rows)
}

/// Returns the rows of all left items, class by class. No two right items of a class may overlap.
fn rows_of_classes(alloc: Global, left: &[Item], right: &[Item]) -> Result<Vec<AntiRow>, NoMemory>
    requires left_few { length left.now ≤ item_limit }
    requires left_rise { ClassesRise left.now }
    requires right_rise { ClassesRise right.now }
    requires right_apart { HoldApart right.now }
    requires ids { HasDistinctIds left.now }
    ensures { IfOk result (λ rows. AreItemsRows left.now right.now rows.items) }
{
    let mut rows = Vec::new(alloc);
    let mut lefts = left;
    let mut rights = right;
    'classes: while let Some(first) = lefts.first() {
        let matching = items_from(first.class, rights);
        let (own_lefts, later_lefts) = parted_behind(first.class, lefts);
        let (own_rights, later_rights) = parted_behind(first.class, matching);
        let Some(part) = Part::new(own_rights) else {
            unreachable!()
        };
        add_rows_of_class(alloc, own_lefts, part, &mut rows)?;
        lefts = later_lefts;
        rights = later_rights;
    }
    Ok(rows)
}

/// Returns the anti-join of two lists of items, which match if their classes are equal.
pub(crate) fn anti_items(
    alloc: Global,
    mut left: Vec<Item>,
    right: Vec<Item>,
) -> Result<Vec<AntiRow>, NoMemory>
    requires few { length left.items ≤ item_limit }
    requires ids { HasDistinctIds left.items }
    ensures { IfOk result (λ rows. IsItemsAnti left.items right.items rows.items) }
{
    order_by_class(&mut left);
    let united = united_items(right);
    let mut rows = rows_of_classes(alloc, &left, &united)?;
    rows.sort_unstable();
    Ok(rows)
}

/// Writes the rows' indices, starts and ends.
pub(crate) fn write_anti_rows(rows: &[AntiRow], left: &mut [u32], from: &mut [i64], to: &mut [i64])
    requires ids { All (λ row. row.id < item_limit) rows.now }
    requires left { length rows.now ≤ length left.old }
    requires from { length rows.now ≤ length from.old }
    requires to { length rows.now ≤ length to.old }
    ensures { AreAntiWritten rows.now (length rows.now) left.new from.new to.new }
{
    for k in 0..rows.len() {
        let row = rows[k];
        left[k] = row.id as u32;
        from[k] = row.period.from.number();
        to[k] = row.period.to.number();
    }
}
