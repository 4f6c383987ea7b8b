//! The rows of items, from the gaps of the parts of their divisions.

ghost use Rattle.std.specs.Prelude.{◌≡◌, ◌<◌, ◌≤◌, ◌++◌, List, length, map, IfOk, OnOk};
ghost use Rattle.std.specs.Option.{ForSome};
ghost use Rattle.std.specs.Thread.{IsSync};
ghost use Rattle.dip_core.specs.Item.{item_limit, HasDistinctIds};
ghost use Rattle.dip_core.specs.Division.{all_of, part_at};
ghost use Rattle.merge_core.specs.declared.gap.Gap.{Gap};
ghost use Rattle.merge_core.specs.Gaps.{ListsGaps};
ghost use Rattle.merge_core.specs.Meets.{IdsTell};
ghost use Rattle.work_core.specs.Pieces.{items_within};
ghost use Rattle.work_core.specs.Limits.{worker_limit};
ghost use Rattle.anti_core.specs.ItemAnti.{AreItemsRows, row_of_gap};
ghost use Rattle.anti_core.specs.PairGaps.{AreGapsFrom};

use crate::gap_pairs::GapPairs;
use crate::part_gaps::{add_rows_of_pair, gaps_of_part};
use crate::rows::{AntiRow, add_rows};
use crate::supply::Supply;
use dip_core::{Division, Item};
use grid_core::divided;
use list_core::in_one_list;
use period_core::NoMemory;
use std::thread::Threads;
use work_core::{Crew, Gate, Range, Shares, items_within, shared_out};

/// Adds the rows of the left part with that number.
fn add_rows_of_part<R: Threads + Sync, G: Gate>(
    crew: &Crew<'_, R, G>,
    pairs: &GapPairs<'_>,
    supply: &mut Option<Supply>,
    number: u32,
    rows: &mut Vec<AntiRow>,
) -> Result<(), NoMemory>
    requires supply { ForSome supply.old
        (λ s. AreGapsFrom pairs.now.left.now pairs.now.right.now s.first s.values) }
    requires part { number < length pairs.now.left.now }
    requires tell { IdsTell (part_at pairs.now.left.now number) }
    ensures rows { OnOk result ((gaps : List Gap)
        × ListsGaps (part_at pairs.now.left.now number) (all_of pairs.now.right.now) gaps
        × (rows.new.items ≡ rows.old.items ++ map row_of_gap gaps)) }
    ensures supply { OnOk result (ForSome supply.new
        (λ s. AreGapsFrom pairs.now.left.now pairs.now.right.now s.first s.values)) }
{
    if pairs.right.parts() == 1 {
        return add_rows_of_pair(crew, pairs, supply, number, rows);
    }
    let gaps = gaps_of_part(crew, pairs, supply, number)?;
    add_rows(gaps.as_slice(), rows)?;
    Ok(())
}

/// Returns the rows of all left parts, part by part.
fn rows_of_parts<R: Threads + Sync, G: Gate>(
    crew: &Crew<'_, R, G>,
    pairs: &GapPairs<'_>,
) -> Result<Vec<AntiRow>, NoMemory>
    requires ids { HasDistinctIds (all_of pairs.now.left.now) }
    ensures { IfOk result (λ rows.
        AreItemsRows (all_of pairs.now.left.now) (all_of pairs.now.right.now) rows.items) }
{
    let mut rows = Vec::new(crew.alloc);
    let mut supply = None;
    for number in 0..pairs.left.parts() {
        add_rows_of_part(crew, pairs, &mut supply, number, &mut rows)?;
    }
    Ok(rows)
}

/// Returns the rows of some left items, against right items that are divided. If there are many left items, the
/// workers partition them by index, so items of one class are shared among the workers, too.
fn rows_of_lefts<R: Threads + Sync, G: Gate>(
    crew: &Crew<'_, R, G>,
    left: &[Item],
    rights: &Division,
) -> Result<Vec<AntiRow>, NoMemory>
    requires left_few { length left.now ≤ item_limit }
    requires ids { HasDistinctIds left.now }
    ensures { IfOk result (λ rows. AreItemsRows left.now (all_of rights.now) rows.items) }
{
    let (rt, alloc, gate) = (crew.rt, crew.alloc, crew.gate);
    let shares = Shares::of(alloc, left.len(), crew.workers, &|i: usize| i)?;
    if shares.len() == 1 {
        return rows_of_piece(crew, left, rights);
    }
    let lists = shared_out(
        rt,
        alloc,
        &shares,
        &|places: Range<usize>, workers: u32| -> Result<Vec<AntiRow>, NoMemory>
            requires { IsSync R.row × IsSync G.row × (0 < workers) × (workers ≤ worker_limit)
                × (length left.now ≤ item_limit) × HasDistinctIds left.now }
            ensures { IfOk result (λ rows.
                AreItemsRows (items_within places left.entry.now) (all_of rights.entry.now) rows.items) }
        {
            let crew = Crew::new(rt, alloc, workers, gate);
            rows_of_piece(&crew, items_within(places, left), rights)
        },
    )?;
    in_one_list(alloc, lists)
}

/// Divides a partition of the left items and returns its rows.
fn rows_of_piece<R: Threads + Sync, G: Gate>(
    crew: &Crew<'_, R, G>,
    left: &[Item],
    rights: &Division,
) -> Result<Vec<AntiRow>, NoMemory>
    requires left_few { length left.now ≤ item_limit }
    requires ids { HasDistinctIds left.now }
    ensures { IfOk result (λ rows. AreItemsRows left.now (all_of rights.now) rows.items) }
{
    let lefts = divided(crew, left)?;
    rows_of_parts(crew, &GapPairs::new(&lefts, rights))
}

/// Returns the rows of some left items, against the right items of their classes. Both sides are divided.
pub(crate) fn rows_of_items<R: Threads + Sync, G: Gate>(
    crew: &Crew<'_, R, G>,
    left: &[Item],
    right: &[Item],
) -> Result<Vec<AntiRow>, NoMemory>
    requires left_few { length left.now ≤ item_limit }
    requires right_few { length right.now ≤ item_limit }
    requires ids { HasDistinctIds left.now }
    ensures { IfOk result (λ rows. AreItemsRows left.now right.now rows.items) }
{
    let rights = divided(crew, right)?;
    rows_of_lefts(crew, left, &rights)
}
