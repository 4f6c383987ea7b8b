//! Lists that share the rows of a table.

ghost use Rattle.std.specs.Prelude.{◌≡◌, ◌<◌, ◌^◌, All, Some, filter, length, slice_get, IfOk, IsOk};
ghost use Rattle.period_core.specs.Period.{holds_at};
ghost use Rattle.table_core.specs.Lent.{lent_row};
ghost use Rattle.table_core.specs.Places.{AreWithin, at_places, shown_at};
ghost use Rattle.table_core.specs.Source.{rows_from};

use crate::NoMemory;
use crate::row_ref::RowRef;
use crate::source::{RowsWithIds, Source};
use period_core::Point;
use row_core::RowList;
use std::alloc::{AllocError, Global};
use std::marker::Model;
use std::sync::Arc;

/// Rows of a table, by rising id, shared by reference count. A list that doesn't show all rows has the indexes of those
/// that it shows. Contracts see the list of the shown rows.
#[derive(Debug, Drop)]
pub struct SharedRows {
    pub(crate) source: Source,
    pub(crate) places: Option<Vec<u32>>,
}

impl Model for SharedRows {
    ghost use Rattle.std.specs.Prelude.{List};
    ghost use Rattle.row_core.specs.declared.row.Row.{Row};
    ghost use Rattle.table_core.specs.Places.{shown_at, AreWithin};
    ghost use Rattle.table_core.specs.Source.{rows_from};

    ghost Value = { List Row };

    ghost view = { λ s. shown_at s.places (rows_from s.source) };

    ghost invariant = { λ s. AreWithin s.places (rows_from s.source) };
}

impl SharedRows {
    /// Returns a list of these rows, which nothing else shares yet.
    pub fn of(alloc: Global, rows: RowList) -> Result<SharedRows, NoMemory>
        ensures { IfOk result (λ shared. shared ≡ rows) }
    {
        Ok(SharedRows {
            source: Source::WithIds(Arc::new(alloc, RowsWithIds::of(alloc, rows)?)?),
            places: None,
        })
    }

    /// Returns the number of rows.
    pub fn len(&self) -> usize
        ensures { result ≡ length self.now }
    {
        count_of(&self.source, &self.places)
    }

    /// Returns the row at the given index.
    pub fn at(&self, place: usize) -> RowRef<'_>
        requires { place < length self.now }
        ensures { slice_get self.now place ≡ Some (lent_row result) }
    {
        row_at(&self.source, &self.places, place)
    }

    /// Returns copies of the rows.
    ///
    /// # Errors
    ///
    /// `NoMemory` if an allocation is refused.
    pub fn list(&self, alloc: Global) -> Result<RowList, NoMemory>
        ensures { IfOk result (λ list. list ≡ self.now) }
    {
        let mut list = Vec::with_capacity(alloc, self.len())?;
        for i in 0..self.len() {
            list.push(self.at(i).copy(alloc)?)?;
        }
        Ok(RowList::from(list))
    }

    /// Returns the rows that hold at the point, without copying them.
    ///
    /// # Errors
    ///
    /// `NoMemory` if an allocation is refused, or if such a row's index is 2^32 or more; no table has as many rows as
    /// that.
    pub fn holding(&self, alloc: Global, point: Point) -> Result<SharedRows, NoMemory>
        ensures { IfOk result (λ rows. rows ≡ filter (λ row. holds_at point row.period) self.now) }
    {
        let places = places_holding(alloc, &self.source, &self.places, point)?;
        Ok(SharedRows {
            source: self.source.share()?,
            places: Some(places),
        })
    }
}

/// Returns how many rows a list shows: one for each index, or all.
fn count_of(source: &Source, places: &Option<Vec<u32>>) -> usize
    requires { AreWithin places.now (rows_from source.now) }
    ensures { result ≡ length (shown_at places.now (rows_from source.now)) }
{
    match places {
        None => source.len(),
        Some(places) => places.len(),
    }
}

/// Returns the row at the given index of a list that shows the rows at `places`, or all.
fn row_at<'a>(source: &'a Source, places: &Option<Vec<u32>>, place: usize) -> RowRef<'a>
    requires within { AreWithin places.now (rows_from source.now) }
    requires there { place < length (shown_at places.now (rows_from source.now)) }
    ensures { slice_get (shown_at places.now (rows_from source.entry.now)) place
        ≡ Some (lent_row result) }
{
    source.at(place_among(source, places, place))
}

/// Returns the index, among all rows, of the row at the given index of the list.
fn place_among(source: &Source, places: &Option<Vec<u32>>, place: usize) -> usize
    requires within { AreWithin places.now (rows_from source.now) }
    requires there { place < length (shown_at places.now (rows_from source.now)) }
    ensures row { slice_get (rows_from source.now) result
        ≡ slice_get (shown_at places.now (rows_from source.now)) place }
    ensures within { result < length (rows_from source.now) }
{
    match places {
        None => place,
        Some(places) => places[place] as usize,
    }
}

/// Returns the indexes of the list's rows that hold at the point. 32 bits are enough for the rows of a table.
fn places_holding(
    alloc: Global,
    source: &Source,
    places: &Option<Vec<u32>>,
    point: Point,
) -> Result<Vec<u32>, NoMemory>
    requires within { AreWithin places.now (rows_from source.now) }
    ensures within { IfOk result
        (λ held. All (λ place. place < length (rows_from source.now)) held.items) }
    ensures held { IfOk result (λ held. at_places held.items (rows_from source.now)
        ≡ filter (λ row. holds_at point row.period) (shown_at places.now (rows_from source.now))) }
{
    let mut held = Vec::new(alloc);
    for i in 0..count_of(source, places) {
        if holds_at(row_at(source, places, i), point) {
            held.push(as_place(place_among(source, places, i))?)?;
        }
    }
    Ok(held)
}

/// Returns whether the row holds at the point.
fn holds_at(row: RowRef<'_>, point: Point) -> bool
    ensures { result ≡ holds_at point (lent_row row.entry).period }
{
    row.period().holds(point)
}

/// Returns the index in 32 bits. They are enough for each table, but a list that a caller made may be longer.
///
/// # Errors
///
/// `NoMemory` if it doesn't fit; no allocation was refused then.
pub fn as_place(place: usize) -> Result<u32, NoMemory>
    ensures index { IfOk result (λ p. p ≡ place) }
    ensures fits { place < 2 ^ 32 → IsOk result }
{
    u32::try_from(place).map_err(|_| AllocError)
}
