//! Finding rows by id.

ghost use Rattle.std.specs.Prelude.{◌≡◌, ◌==◌, ℕ, ◌*◌, ◌<◌, ◌≤◌, All, IfOk, find, length, option_map, slice_index_or};
ghost use Rattle.row_core.specs.Rows.{RowsRise};
ghost use Rattle.row_core.specs.declared.row.Row.{Row};
ghost use Rattle.table_core.specs.Lent.{lent_row};
ghost use Rattle.answer_core.specs.Places.{ArePlacesOfRows, ArePlacesFrom, place_limit};

use period_core::NoMemory;
use std::alloc::Global;
use std::marker::Model;
use table_core::{RowRef, SharedRows};

/// The most ids, from the first row's on, whose rows are found without a search.
const PLACE_LIMIT: usize = 1_000_000;

/// The most of these ids per row, so that few rows with distant ids need little memory.
const PLACES_PER_ROW: usize = 4;

/// Rows by ascending id, and their indices by id. Contracts see the list of rows.
#[derive(Drop)]
pub(crate) struct RowsById<'a> {
    rows: &'a SharedRows,
    /// The first row's id.
    first: u64,
    /// The index of the row for each id from `first` on; any number if there is no such row.
    places: Vec<u32>,
}

impl<'a> Model for RowsById<'a> {
    ghost use Rattle.std.specs.Prelude.{List};
    ghost use Rattle.row_core.specs.declared.row.Row.{Row as AnyRow};
    ghost use Rattle.answer_core.specs.Places.{ArePlacesOfRows};

    ghost Value = { List AnyRow };

    ghost view = { λ r. r.rows.now };

    ghost invariant = { λ r. ArePlacesOfRows r.first r.rows.now r.places.items };
}

impl<'a> RowsById<'a> {
    /// Prepares the rows for a search by id. If the ids aren't consecutive, it stores at most 4 numbers of 32 bits for
    /// each row, and at most 1,000,000, whatever the ids are.
    ///
    /// # Errors
    ///
    /// `NoMemory` if an allocation is refused.
    pub(crate) fn new(alloc: Global, rows: &'a SharedRows) -> Result<RowsById<'a>, NoMemory>
        requires { RowsRise rows.now }
        ensures { IfOk result (λ found. found ≡ rows.entry.now) }
    {
        let first = first_id(rows);
        let places = places_of(alloc, rows, first)?;
        Ok(RowsById {
            rows,
            first,
            places,
        })
    }

    /// Returns the row with the id, or `None`. The time is constant if the ids are consecutive, or if the id's distance
    /// from the first id is below the number of stored indices; otherwise it is a binary search.
    pub(crate) fn get(&self, id: u64) -> Option<RowRef<'a>>
        ensures { option_map lent_row result ≡ find (λ row. row.id == id) self.now }
    {
        row_with(self.rows, self.first, &self.places, id)
    }
}

/// Returns the first row's id, or 0 without rows.
fn first_id(rows: &SharedRows) -> u64
    requires { RowsRise rows.now }
    ensures { All (λ row. result ≤ row.id) rows.now }
{
    if rows.len() == 0 {
        return 0;
    }
    rows.at(0).id()
}

/// Returns how many indices are stored: none if the ids are consecutive, for example of rows that never changed.
fn count_of_places(rows: &SharedRows, first: u64) -> usize
    ensures limit { result ≤ place_limit }
    ensures few { result ≤ 4 * length rows.now }
{
    let len = rows.len();
    if len == 0 {
        return 0;
    }
    let apart = rows.at(len - 1).id().saturating_sub(first);
    if apart == len as u64 - 1 {
        // The ids are consecutive, and each row's index is its distance from the first.
        return 0;
    }
    let most = len.min(PLACE_LIMIT / PLACES_PER_ROW) * PLACES_PER_ROW;
    if apart < most as u64 {
        apart as usize + 1
    } else {
        most
    }
}

/// Returns the indices of the rows by id.
fn places_of(alloc: Global, rows: &SharedRows, first: u64) -> Result<Vec<u32>, NoMemory>
    requires rise { RowsRise rows.now }
    requires low { All (λ row. first ≤ row.id) rows.now }
    ensures { IfOk result (λ places. ArePlacesFrom first rows.now places.items) }
{
    let count = count_of_places(rows, first);
    let mut places = vec![in alloc; 0; count]?;
    put_places(rows, first, &mut places);
    Ok(places)
}

/// Stores the index of each row for its id.
fn put_places(rows: &SharedRows, first: u64, places: &mut [u32])
    requires rise { RowsRise rows.now }
    requires low { All (λ row. first ≤ row.id) rows.now }
    requires few { length places.old ≤ place_limit }
    ensures count { length places.new ≡ length places.old }
    ensures places { ArePlacesFrom first rows.now places.new }
{
    for i in 0..rows.len() {
        let at = rows.at(i).id().saturating_sub(first);
        if at < places.len() as u64 {
            places[at as usize] = i as u32;
        }
    }
}

/// Returns the row with the id.
fn row_with<'a>(rows: &'a SharedRows, first: u64, places: &[u32], id: u64) -> Option<RowRef<'a>>
    requires { ArePlacesOfRows first rows.now places.now }
    ensures { option_map lent_row result ≡ find (λ row. row.id == id) rows.entry.now }
{
    let place = place_of(rows, first, places, id);
    if place >= rows.len() {
        return None;
    }
    let row = rows.at(place);
    if row.id() == id { Some(row) } else { None }
}

/// Returns the index of the row with the id. Without such a row it returns any index, or the number of rows.
fn place_of(rows: &SharedRows, first: u64, places: &[u32], id: u64) -> usize
    requires { ArePlacesOfRows first rows.now places.now }
    ensures { (k : ℕ) (d : Row) → k < length rows.now → (slice_index_or rows.now k d).id ≡ id
        → result ≡ k }
{
    let at = id.saturating_sub(first);
    if at < rows.len() as u64 && rows.at(at as usize).id() == id {
        at as usize
    } else if at < places.len() as u64 {
        places[at as usize] as usize
    } else {
        place_by_halves(rows, id)
    }
}

/// Returns the index of the first row whose id isn't below `id`, by binary search.
fn place_by_halves(rows: &SharedRows, id: u64) -> usize
    requires { RowsRise rows.now }
    ensures { (k : ℕ) (d : Row) → k < length rows.now → (slice_index_or rows.now k d).id ≡ id
        → result ≡ k }
{
    let mut low = 0;
    let mut high = rows.len();
    while low < high {
        let middle = low + (high - low) / 2;
        if rows.at(middle).id() < id {
            low = middle + 1;
        } else {
            high = middle;
        }
    }
    low
}
