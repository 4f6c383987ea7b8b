//! The gaps of the items of a part.

ghost use Rattle.std.specs.Prelude.{◌≡◌, ℤ, ◌<ℤ◌, IfOk, IsOk, OnOk, OnErr};
ghost use Rattle.list_core.specs.Wanted.{AddsAll};
ghost use Rattle.merge_core.specs.declared.gap.Gap.{Gap};
ghost use Rattle.merge_core.specs.Gaps.{IsGap, GapStartsBefore, AreGapAdvances};
ghost use Rattle.merge_core.specs.Sweep.{IsGapOf, IsBetween, Covers, HasGapBefore, PassesUpto, EndLater, Extends};
ghost use Rattle.merge_core.specs.Advances.{gap_advances_of};

use crate::ends::{ends_before, follows, later};
use crate::{Cursor, Gap};
use dip_core::Item;
use period_core::{NoMemory, Period, Point};

/// Adds the gap of `x` between two points, unless it would be empty.
fn push_gap(x: &Item, from: Point, to: Point, gaps: &mut Vec<Gap>) -> Result<(), NoMemory>
    ensures ok { OnOk result
        (AddsAll GapStartsBefore (IsBetween x.now from to) gaps.old.items gaps.new.items) }
    ensures err { OnErr result (gaps.new.items ≡ gaps.old.items) }
    ensures gap { OnErr result ((gap : Gap) × IsBetween x.now from to gap) }
{
    if let Ok(period) = Period::new(from, to) {
        gaps.push(Gap { left: *x, period })?;
    }
    Ok(())
}

/// Removes the period of `y` from the uncovered rest of `x`, which starts at `at`. Returns the start of the new rest.
fn cover(x: &Item, y: &Item, at: Point, gaps: &mut Vec<Gap>) -> Result<Point, NoMemory>
    requires { y.now.period.from <ℤ x.now.period.to }
    ensures ok { IfOk result (Covers x.now y.now at gaps.old.items gaps.new.items) }
    ensures err { OnErr result (gaps.new.items ≡ gaps.old.items) }
    ensures gap { OnErr result (HasGapBefore x.now y.now at) }
{
    if y.class != x.class {
        return Ok(at);
    }
    push_gap(x, at, y.period.from, gaps)?;
    Ok(later(at, y.period.to))
}

/// Adds the gaps of one left item, and returns how many right items it passed. An item that ends after `x` stays for
/// the next left item.
fn gaps_of(x: &Item, right: &mut Cursor, gaps: &mut Vec<Gap>) -> Result<u64, NoMemory>
    ensures gaps { OnOk result
        (AddsAll GapStartsBefore (IsGapOf right.old x.now) gaps.old.items gaps.new.items) }
    ensures passes { IfOk result (PassesUpto x.now.period.to right.old right.new) }
    ensures leaves { OnOk result (EndLater x.now.period.to right.new) }
    ensures keeps { Extends gaps.old.items gaps.new.items }
    ensures gap { OnErr result ((gap : Gap) × IsGapOf right.old x.now gap) }
{
    let most = right.len() as u64;
    let mut at = x.period.from;
    let mut passed = 0u64;
    while let Some(y) = right.peek() {
        if follows(&y.period, &x.period) {
            break;
        }
        at = cover(x, &y, at, gaps)?;
        if ends_before(&x.period, &y.period) {
            break;
        }
        right.advance();
        prove!(passed < most);
        passed += 1;
    }
    push_gap(x, at, x.period.to, gaps)?;
    Ok(passed)
}

/// Adds the gaps of the left part against the right part, in ascending order of start. Returns how many items were
/// passed: each left item, and each right item that ends at or before the end of some left item.
///
/// # Errors
///
/// `NoMemory` if the list can't grow; then it is unchanged. Parts without a gap need no memory.
pub fn merge_gaps(mut left: Cursor, mut right: Cursor, gaps: &mut Vec<Gap>) -> Result<u64, NoMemory>
    ensures gaps { OnOk result
        (AddsAll GapStartsBefore (IsGap left.entry right.entry) gaps.old.items gaps.new.items) }
    ensures advances { IfOk result (AreGapAdvances left.entry right.entry) }
    ensures exact { IfOk result (λ n. n ≡ gap_advances_of left.entry right.entry) }
    ensures unchanged { OnErr result (gaps.new.items ≡ gaps.old.items) }
    ensures no_gap { ((gap : Gap) → IsGap left.entry right.entry gap → ⊥) → IsOk result }
{
    let before = gaps.len();
    let most = left.len() as u64 + right.len() as u64;
    let mut advances = 0u64;
    while let Some(x) = left.peek() {
        let ended = right.pass_ended(&x);
        match gaps_of(&x, &mut right, gaps) {
            Ok(passed) => {
                left.advance();
                prove!(advances + ended + passed < most);
                advances += ended + passed + 1;
            }
            Err(refused) => {
                gaps.truncate(before);
                return Err(refused);
            }
        }
    }
    Ok(advances)
}
