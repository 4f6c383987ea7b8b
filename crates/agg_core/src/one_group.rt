//! The aggregate of all rows as one group.

ghost use Rattle.std.specs.Prelude.{◌≡◌, ◌≤◌, IfOk, None, length, map};
ghost use Rattle.dip_core.specs.Item.{item_limit};
ghost use Rattle.work_core.specs.Pieces.{items_within};
ghost use Rattle.agg_core.specs.Agg.{AreAggRows};
ghost use Rattle.agg_core.specs.Entries.{amount_at, value_at_place};
ghost use Rattle.agg_core.specs.Grouping.{amount_item};

use crate::func::Asked;
use crate::groups::amount_item;
use crate::rows::{AggRows, AggShare};
use dip_core::Item;
use list_core::in_one_list;
use period_core::NoMemory;
use round_core::plateaus_of;
use std::alloc::Global;
use std::thread::Threads;
use table_core::SharedRows;
use work_core::{Crew, Gate, Range, Shares, places_within, shared_out};

/// Returns the rows at the given indices as items of one class, with their numbers in the column at index `amount`.
fn items_of_piece(
    alloc: Global,
    rows: &SharedRows,
    places: Range<usize>,
    amount: Option<u32>,
) -> Result<Vec<Item>, NoMemory>
    ensures { IfOk result (λ items.
        items.items ≡ map (amount_item (amount_at amount) 0) (items_within places rows.now)) }
{
    let (start, end) = places_within(places, rows.len());
    let mut items = Vec::with_capacity(alloc, end - start)?;
    for i in start..end {
        items.push(amount_item(rows.at(i), amount, 0))?;
    }
    Ok(items)
}

/// Returns the rows as items of one class, with their numbers in the column at index `amount`. The workers partition
/// them by index.
fn items_of_rows<R: Threads + Sync, G>(
    crew: &Crew<'_, R, G>,
    rows: &SharedRows,
    amount: Option<u32>,
) -> Result<Vec<Item>, NoMemory>
    ensures { IfOk result (λ items.
        items.items ≡ map (amount_item (amount_at amount) 0) rows.now) }
{
    let Crew { rt, alloc, .. } = *crew;
    let shares = Shares::of(alloc, rows.len(), crew.workers, &|place: usize| place)?;
    let lists = shared_out(
        rt,
        alloc,
        &shares,
        &|places: Range<usize>, _workers: u32| -> Result<Vec<Item>, NoMemory>
            ensures { IfOk result (λ items. items.items
                ≡ map (amount_item (amount_at amount) 0) (items_within places rows.entry.now)) }
        { items_of_piece(alloc, rows, places, amount) },
    )?;
    in_one_list(alloc, lists)
}

/// Returns the aggregate of all rows as one group.
pub(crate) fn rows_of_one_group<R: Threads + Sync, G: Gate>(
    crew: &Crew<'_, R, G>,
    asked: Asked,
    rows: &SharedRows,
) -> Result<AggRows, NoMemory>
    requires few { length rows.now ≤ item_limit }
    ensures { IfOk result (λ answer.
        AreAggRows asked.measure (amount_at asked.amount) (value_at_place None) rows.now answer) }
{
    let items = items_of_rows(crew, rows, asked.amount)?;
    let plateaus = plateaus_of(crew, asked.measure, &items)?;
    let mut groups = Vec::new(crew.alloc);
    groups.push(None)?;
    let mut shares = Vec::new(crew.alloc);
    shares.push(AggShare { groups, plateaus })?;
    AggRows::of_shares(shares)
}
