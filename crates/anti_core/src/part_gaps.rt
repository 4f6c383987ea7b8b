//! The gaps of one left part against all right parts.

ghost use Rattle.std.specs.Prelude.{◌≡◌, ℕ, ◌<◌, ◌≤◌, ◌+◌, ◌*◌, ◌++◌, List, length, map, take, drop, IfOk, OnOk};
ghost use Rattle.std.specs.Option.{ForSome};
ghost use Rattle.dip_core.specs.declared.item.Item.{Item};
ghost use Rattle.dip_core.specs.Division.{all_of, part_at};
ghost use Rattle.merge_core.specs.declared.gap.Gap.{Gap};
ghost use Rattle.merge_core.specs.Gaps.{ListsGaps};
ghost use Rattle.merge_core.specs.Meets.{IdsTell};
ghost use Rattle.anti_core.specs.ItemAnti.{row_of_gap};
ghost use Rattle.anti_core.specs.PairGaps.{AreGapsFrom, AreGapsAgainst};

use crate::gap_pairs::GapPairs;
use crate::rows::{AntiRow, add_rows};
use crate::supply::{Supply, supply_at};
use dip_core::Part;
use merge_core::{Gaps, meet_gaps};
use period_core::NoMemory;
use std::alloc::Global;
use std::thread::Threads;
use work_core::{Crew, Gate, Outs};

/// Returns the gaps of a part against the items of `count` right parts. `values` has the gaps against each of them,
/// from index `from` on. Halves are intersected recursively, so each list is read about log2(`count`) times.
fn meet_values(
    alloc: Global,
    part: Part<'_>,
    values: &Outs<Gaps>,
    from: usize,
    count: usize,
) -> Result<Gaps, NoMemory>
    requires some { 0 < count }
    requires inside { from + count ≤ length values.now }
    requires tell { IdsTell part.items.now }
    ensures { (rights : List (List Item)) (start : ℕ) → start + count ≤ length rights
        → AreGapsAgainst part.entry.items.now rights start values.now from count
        → IfOk result (ListsGaps part.entry.items.now (all_of (take count (drop start rights)))) }
{
    // The length of the list bounds its indices.
    let _ = values.len();
    if count == 1 {
        // The list is only borrowed. Intersecting it with the whole periods makes an owned equal list.
        let Some(only) = values.get(from) else {
            unreachable!()
        };
        return meet_gaps(alloc, &Gaps::whole(alloc, part)?, only);
    }
    if count == 2 {
        let Some(one) = values.get(from) else {
            unreachable!()
        };
        let Some(other) = values.get(from + 1) else {
            unreachable!()
        };
        return meet_gaps(alloc, one, other);
    }
    let half = count / 2;
    let front = meet_values(alloc, part, values, from, half)?;
    let back = meet_values(alloc, part, values, from + half, count - half)?;
    meet_gaps(alloc, &front, &back)
}

/// Returns the gaps of the left part with that number against the items of all right parts. It intersects the gaps
/// against the right parts until now with the gaps against more right parts, as they are supplied.
pub(crate) fn gaps_of_part<R: Threads + Sync, G: Gate>(
    crew: &Crew<'_, R, G>,
    pairs: &GapPairs<'_>,
    supply: &mut Option<Supply>,
    number: u32,
) -> Result<Gaps, NoMemory>
    requires supply { ForSome supply.old
        (λ s. AreGapsFrom pairs.now.left.now pairs.now.right.now s.first s.values) }
    requires part { number < length pairs.now.left.now }
    requires tell { IdsTell (part_at pairs.now.left.now number) }
    ensures gaps { IfOk result
        (ListsGaps (part_at pairs.now.left.now number) (all_of pairs.now.right.now)) }
    ensures supply { OnOk result (ForSome supply.new
        (λ s. AreGapsFrom pairs.now.left.now pairs.now.right.now s.first s.values)) }
{
    let part = pairs.left.part(number);
    let rights = pairs.right.parts();
    let first = number as u64 * rights as u64;
    let mut gaps = Gaps::whole(crew.alloc, part)?;
    let mut done = 0;
    while done < rights {
        let at = first + done as u64;
        let ready = supply_at(crew, pairs, supply.take(), at)?;
        let from = (at - ready.first) as usize;
        let count = (ready.values.len() - from).min((rights - done) as usize);
        let more = meet_values(crew.alloc, part, &ready.values, from, count)?;
        gaps = meet_gaps(crew.alloc, &gaps, &more)?;
        done += count as u32;
        *supply = Some(ready);
    }
    Ok(gaps)
}

/// Adds the rows of the left part with that number if there is only one right part: they are the gaps of one pair,
/// without any intersection.
pub(crate) fn add_rows_of_pair<R: Threads + Sync, G: Gate>(
    crew: &Crew<'_, R, G>,
    pairs: &GapPairs<'_>,
    supply: &mut Option<Supply>,
    number: u32,
    rows: &mut Vec<AntiRow>,
) -> Result<(), NoMemory>
    requires supply { ForSome supply.old
        (λ s. AreGapsFrom pairs.now.left.now pairs.now.right.now s.first s.values) }
    requires part { number < length pairs.now.left.now }
    requires one { length pairs.now.right.now ≡ 1 }
    ensures rows { OnOk result ((gaps : List Gap)
        × ListsGaps (part_at pairs.now.left.now number) (all_of pairs.now.right.now) gaps
        × (rows.new.items ≡ rows.old.items ++ map row_of_gap gaps)) }
    ensures supply { OnOk result (ForSome supply.new
        (λ s. AreGapsFrom pairs.now.left.now pairs.now.right.now s.first s.values)) }
{
    let at = number as u64;
    let ready = supply_at(crew, pairs, supply.take(), at)?;
    let Some(gaps) = ready.values.get((at - ready.first) as usize) else {
        unreachable!()
    };
    add_rows(gaps.as_slice(), rows)?;
    *supply = Some(ready);
    Ok(())
}
