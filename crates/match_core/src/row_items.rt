//! Rows as items, for dividing and merging.

ghost use Rattle.std.specs.Prelude.{◌≡◌, ◌<◌, ◌≤◌, All, IfOk, IsPermutation, IsTrue, Some, length, map};
ghost use Rattle.std.specs.List.Sorted.{IsNonDecreasingBy};
ghost use Rattle.std.specs.Thread.{IsSync};
ghost use Rattle.match_core.specs.declared.row_items.ClassedPlace.{ClassedPlace};
ghost use Rattle.match_core.specs.ClassedPlaces.{AreByClass, item_placed, placed_from};
ghost use Rattle.match_core.specs.Items.{AreItemsByClass, item_with, items_in_range, items_of};
ghost use Rattle.work_core.specs.Pieces.{items_within};
ghost use Rattle.table_core.specs.Lent.{lent_row};

use crate::NoMemory;
use crate::classes::Classes;
use dip_core::Item;
use list_core::in_one_list;
use std::alloc::Global;
use std::thread::{Threads, join};
use table_core::{RowRef, SharedRows};
use work_core::tuning::ROWS_FOR_THREAD;
use work_core::{
    Crew, Range, Shares, items_within, places_within, shared_out, sort_unstable_by_key,
};

/// A row's index and its class. Sorting moves these instead of the row's item, which is more than twice as large.
#[derive(Clone, Copy, Debug)]
pub struct ClassedPlace {
    /// The class of the row.
    pub class: u64,
    /// The index of the row, from 0.
    pub place: usize,
}

/// Returns the rows as items of one class, in order.
///
/// # Errors
///
/// `NoMemory` if an allocation is refused.
pub fn items(alloc: Global, rows: &SharedRows) -> Result<Vec<Item>, NoMemory>
    ensures { IfOk result (λ items. items.items ≡ items_of rows.now) }
{
    let mut items = Vec::with_capacity(alloc, rows.len())?;
    for i in 0..rows.len() {
        items.push(item_with(rows.at(i), 0))?;
    }
    Ok(items)
}

/// Returns the rows of both sides as items with their classes, lower classes first. With many rows, half of the workers
/// make the left items and the others the right ones.
///
/// # Errors
///
/// `NoMemory` if an allocation is refused.
pub fn items_of_sides<R: Threads + Sync, G>(
    crew: &Crew<'_, R, G>,
    left: &SharedRows,
    right: &SharedRows,
    classes: Classes,
) -> Result<(Vec<Item>, Vec<Item>), NoMemory>
    requires left { length classes.left.items ≡ length left.now }
    requires right { length classes.right.items ≡ length right.now }
    requires left_places { AreByClass classes.left.items classes.left_places.items }
    requires right_places { AreByClass classes.right.items classes.right_places.items }
    ensures left { IfOk result (λ both.
        AreItemsByClass left.now classes.left.items both.0.items) }
    ensures right { IfOk result (λ both.
        AreItemsByClass right.now classes.right.items both.1.items) }
{
    let (rt, alloc, workers) = (crew.rt, crew.alloc, crew.workers);
    // Frees the classes by row before it allocates items.
    let Classes {
        left_places,
        right_places,
        ..
    } = classes;
    let lefts = left_places.as_slice();
    let rights = right_places.as_slice();
    if workers < 2 || lefts.len().min(rights.len()) < ROWS_FOR_THREAD {
        let lefts = items_by_range(rt, alloc, left, lefts, workers)?;
        let rights = items_by_range(rt, alloc, right, rights, workers)?;
        return Ok((lefts, rights));
    }
    let few = workers / 2;
    let others = workers - few;
    let (lefts, rights) = join(
        rt,
        || -> Result<Vec<Item>, NoMemory>
            requires { IsSync R.row × (0 < few) × All (λ at. at.place < length left.now) lefts.now }
            ensures { IfOk result (λ items.
                map Some items.items ≡ map (item_placed left.entry.now) lefts.entry.now) }
        { items_by_range(rt, alloc, left, lefts, few) },
        || -> Result<Vec<Item>, NoMemory>
            requires { IsSync R.row × (0 < others)
                × All (λ at. at.place < length right.now) rights.now }
            ensures { IfOk result (λ items.
                map Some items.items ≡ map (item_placed right.entry.now) rights.entry.now) }
        { items_by_range(rt, alloc, right, rights, others) },
    );
    let lefts = lefts?;
    let rights = rights?;
    Ok((lefts, rights))
}

/// Sorts the indices by class. They often are in order already.
pub(crate) fn by_class<R: Threads + Sync>(
    rt: &R,
    mut places: Vec<ClassedPlace>,
    workers: u32,
) -> Vec<ClassedPlace>
    ensures same { IsPermutation places.items result.items }
    ensures rise { IsNonDecreasingBy (λ (at : ClassedPlace). at.class) result.items }
{
    if are_by_class(&places) {
        return places;
    }
    sort_unstable_by_key(rt, &mut places, |it| it.class, workers);
    places
}

/// Returns whether the indices are in ascending order of class.
fn are_by_class(places: &[ClassedPlace]) -> bool
    ensures { IsTrue result → IsNonDecreasingBy (λ (at : ClassedPlace). at.class) places.now }
{
    places.is_sorted_by_key(|at| at.class)
}

/// Returns the indices of the rows in order, each with its class.
pub(crate) fn classed_places(alloc: Global, classes: &[u64]) -> Result<Vec<ClassedPlace>, NoMemory>
    ensures { IfOk result (λ places. places.items ≡ placed_from 0 classes.now) }
{
    let mut places = Vec::with_capacity(alloc, classes.len())?;
    for place in 0..classes.len() {
        places.push(ClassedPlace {
            class: classes[place],
            place,
        })?;
    }
    Ok(places)
}

/// Returns the rows at these indices as items, in the order of the indices. With many indices, each worker makes the
/// items of a range of them.
fn items_by_range<R: Threads + Sync>(
    rt: &R,
    alloc: Global,
    rows: &SharedRows,
    places: &[ClassedPlace],
    workers: u32,
) -> Result<Vec<Item>, NoMemory>
    requires some { 0 < workers }
    requires within { All (λ at. at.place < length rows.now) places.now }
    ensures { IfOk result (λ items. map Some items.items ≡ map (item_placed rows.now) places.now) }
{
    let shares = Shares::of(alloc, places.len(), workers, &|i: usize| i)?;
    let lists = shared_out(
        rt,
        alloc,
        &shares,
        &|range: Range<usize>, _workers: u32| -> Result<Vec<Item>, NoMemory>
            requires { All (λ at. at.place < length rows.now) places.now }
            ensures { IfOk result (λ items. map Some items.items
                ≡ map (item_placed rows.entry.now) (items_within range places.entry.now)) }
        { items_at(alloc, rows, items_within(range, places)) },
    )?;
    in_one_list(alloc, lists)
}

/// Returns the rows at these indices as items, in the order of the indices.
fn items_at(
    alloc: Global,
    rows: &SharedRows,
    places: &[ClassedPlace],
) -> Result<Vec<Item>, NoMemory>
    requires { All (λ at. at.place < length rows.now) places.now }
    ensures { IfOk result (λ items. map Some items.items ≡ map (item_placed rows.now) places.now) }
{
    let mut items = Vec::with_capacity(alloc, places.len())?;
    for i in 0..places.len() {
        let at = &places[i];
        items.push(item_with(rows.at(at.place), at.class))?;
    }
    Ok(items)
}

/// Returns the rows as items with their classes, in order, but only rows whose class is within a range.
///
/// # Errors
///
/// `NoMemory` if an allocation is refused.
pub fn items_in_range(
    alloc: Global,
    rows: &SharedRows,
    classes: &[u64],
    range: Range<u64>,
) -> Result<Vec<Item>, NoMemory>
    requires { length rows.now ≤ length classes.now }
    ensures { IfOk result (λ items. items.items ≡ items_in_range range rows.now classes.now) }
{
    let whole = Range {
        from: None,
        before: None,
    };
    items_in_piece(alloc, rows, classes, range, whole)
}

/// Returns the rows at the given indices as items with their classes, in order, but only rows whose class is within a
/// range.
///
/// # Errors
///
/// `NoMemory` if an allocation is refused.
pub fn items_in_piece(
    alloc: Global,
    rows: &SharedRows,
    classes: &[u64],
    range: Range<u64>,
    places: Range<usize>,
) -> Result<Vec<Item>, NoMemory>
    requires { length rows.now ≤ length classes.now }
    ensures { IfOk result (λ items. items.items
        ≡ items_in_range range (items_within places rows.now) (items_within places classes.now)) }
{
    let (start, end) = places_within(places, rows.len());
    let mut items = Vec::with_capacity(alloc, count_in(range, items_within(places, classes)))?;
    for i in start..end {
        let class = classes[i];
        if range.has(&class) {
            items.push(item_with(rows.at(i), class))?;
        }
    }
    Ok(items)
}

/// Returns how many of the classes are within a range.
fn count_in(range: Range<u64>, classes: &[u64]) -> usize
    ensures { result ≤ length classes.now }
{
    if range.from.is_none() && range.before.is_none() {
        return classes.len();
    }
    classes.iter().filter(|class| range.has(*class)).count()
}

/// Returns the row as an item of the class.
fn item_with(row: RowRef<'_>, class: u64) -> Item
    ensures { result ≡ item_with (lent_row row.entry) class }
{
    Item {
        period: row.period(),
        id: row.id(),
        class,
        amount: 0,
    }
}
