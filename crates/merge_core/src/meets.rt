//! Lists of gaps, and what two of them share.

ghost use Rattle.std.specs.Prelude.{◌≡◌, ◌==◌, ◌++◌, List, [], ◌∷◌, drop, length, map, MatchOption, IfOk, IsOk, OnOk, slice_get};
ghost use Rattle.std.specs.Option.{option_to_list};
ghost use Rattle.dip_core.specs.declared.item.Item.{Item};
ghost use Rattle.list_core.specs.Wanted.{IsListOf, AddsAll};
ghost use Rattle.merge_core.specs.declared.gap.Gap.{Gap};
ghost use Rattle.merge_core.specs.Gaps.{IsGap, ListsGaps, GapStartsBefore};
ghost use Rattle.merge_core.specs.Meets.{IsMeet, AreGapsApart, IdsTell};

use crate::ends::ends_first;
use crate::{Cursor, Gap, merge_gaps};
use dip_core::{Item, Part};
use period_core::NoMemory;
use std::alloc::Global;
use std::marker::Model;

/// Gaps in ascending order of start, each of which ends at or before the start of the next. Contracts see their list.
#[derive(Drop)]
pub struct Gaps {
    gaps: Vec<Gap>,
}

impl Model for Gaps {
    ghost use Rattle.std.specs.Prelude.{List};
    ghost use Rattle.merge_core.specs.declared.gap.Gap.{Gap};
    ghost use Rattle.merge_core.specs.Meets.{AreGapsApart};

    ghost Value = { List Gap };

    ghost view = { λ g. g.gaps.items };

    ghost invariant = { λ g. AreGapsApart g.gaps.items };
}

impl Gaps {
    /// Returns the gaps of the left part against the right part. Parts without a gap need no memory.
    pub fn of(alloc: Global, left: Cursor, right: Cursor) -> Result<Gaps, NoMemory>
        ensures gaps { IfOk result (ListsGaps left.entry right.entry) }
        ensures no_gap { ((gap : Gap) → IsGap left.entry right.entry gap → ⊥) → IsOk result }
    {
        let _ = left.len();
        let mut gaps = Vec::new(alloc);
        merge_gaps(left, right, &mut gaps)?;
        Ok(Gaps { gaps })
    }

    /// Returns the gaps against no right items: each item with its whole period.
    pub fn whole(alloc: Global, part: Part<'_>) -> Result<Gaps, NoMemory>
        ensures { IfOk result (ListsGaps part.entry.items.now []) }
    {
        let gaps = whole_periods(alloc, part.items())?;
        Ok(Gaps { gaps })
    }

    /// Returns the number of gaps.
    pub fn len(&self) -> usize
        ensures { result ≡ length self.now }
    {
        self.gaps.len()
    }

    /// Returns whether the list is empty.
    pub fn is_empty(&self) -> bool
        ensures { result ≡ (length self.now == 0) }
    {
        self.gaps.is_empty()
    }

    /// Returns the gap at index `i`, or `None` past the last one.
    pub fn get(&self, i: usize) -> Option<Gap>
        ensures { result ≡ slice_get self.now i }
    {
        self.gaps.get(i).copied()
    }

    /// Returns all gaps, in ascending order of start.
    pub fn as_slice(&self) -> &[Gap]
        ensures { result.now ≡ self.now }
    {
        &self.gaps
    }
}

/// Returns each item with its whole period.
fn whole_periods(alloc: Global, items: &[Item]) -> Result<Vec<Gap>, NoMemory>
    ensures { IfOk result (λ v. v.items
        ≡ map (λ x. record { left = x; period = x.period }) items.now) }
{
    items
        .iter()
        .map(|x| Gap {
            left: *x,
            period: x.period,
        })
        .collect(alloc)
}

/// Returns the first gap of a list.
fn first_gap(gaps: &[Gap]) -> Option<Gap>
    ensures { MatchOption result (gaps.now ≡ []) (λ x. gaps.now ≡ x ∷ drop 1 gaps.now) }
{
    gaps.first().copied()
}

/// Returns a list without its first gap.
fn later_gaps(gaps: &[Gap]) -> &[Gap]
    ensures { result.now ≡ drop 1 gaps.now }
{
    if gaps.is_empty() { gaps } else { &gaps[1..] }
}

/// Returns the period that two gaps share, as a gap, or `None` if they share no instant, or if their left ids differ.
fn meet_of(x: &Gap, y: &Gap) -> Option<Gap>
    ensures { IsListOf GapStartsBefore (IsMeet (x.now ∷ []) (y.now ∷ [])) (option_to_list result) }
{
    if x.left.id != y.left.id {
        return None;
    }
    let period = x.period.meet(&y.period)?;
    Some(Gap {
        left: x.left,
        period,
    })
}

/// Adds the gap that two gaps of one left id share, if they share an instant.
fn push_meet(x: &Gap, y: &Gap, gaps: &mut Vec<Gap>) -> Result<(), NoMemory>
    ensures { OnOk result
        (AddsAll GapStartsBefore (IsMeet (x.now ∷ []) (y.now ∷ [])) gaps.old.items gaps.new.items) }
{
    if let Some(gap) = meet_of(x, y) {
        gaps.push(gap)?;
    }
    Ok(())
}

/// Returns what gaps of both lists share if they have the same left id.
fn meets_of(alloc: Global, one: &[Gap], other: &[Gap]) -> Result<Vec<Gap>, NoMemory>
    requires one { AreGapsApart one.now }
    requires other { AreGapsApart other.now }
    ensures { IfOk result (λ v. IsListOf GapStartsBefore (IsMeet one.now other.now) v.items) }
{
    let mut gaps = Vec::new(alloc);
    let mut lefts = one;
    let mut rights = other;
    while let Some(x) = first_gap(lefts) {
        let Some(y) = first_gap(rights) else {
            break;
        };
        push_meet(&x, &y, &mut gaps)?;
        if ends_first(&x.period, &y.period) {
            lefts = later_gaps(lefts);
        } else {
            rights = later_gaps(rights);
        }
    }
    Ok(gaps)
}

/// Returns what gaps of both lists share if they have the same left id, in ascending order of start. If the lists are
/// the gaps of one part against two lists of items, the result is its gaps against both lists together.
pub fn meet_gaps(alloc: Global, one: &Gaps, other: &Gaps) -> Result<Gaps, NoMemory>
    ensures meets { IfOk result (IsListOf GapStartsBefore (IsMeet one.now other.now)) }
    ensures both { IfOk result (λ gaps. (left right more : List Item) → IdsTell left
        → ListsGaps left right one.now → ListsGaps left more other.now
        → ListsGaps left (right ++ more) gaps) }
{
    let gaps = meets_of(alloc, &one.gaps, &other.gaps)?;
    Ok(Gaps { gaps })
}
