//! The functions that C calls. Each returns a code: `DONE` with an answer, or the reason why it has no answer.

ghost use Rattle.std.specs.Prelude.{◌≡◌, ◌<◌, ◌≤◌, ◌⊎◌, ◌↔◌, ℤ, List, Option, pos, length, IfSome};
ghost use Rattle.dip_core.specs.Item.{item_limit};
ghost use Rattle.ruzgalt_c.specs.Dip.{IsDipOfRows};
ghost use Rattle.ruzgalt_c.specs.Join.{AreWritten, IsJoinOfRows};
ghost use Rattle.ruzgalt_c.specs.Agg.{ArePlateausWritten, AreValuesWritten, IsAggOfRows, IsNoFunction};
ghost use Rattle.ruzgalt_c.specs.Anti.{AreAntiWritten, IsAntiOfRows};
ghost use Rattle.ruzgalt_c.specs.Check.{IsCertificateOf, IsVerdictOfRows, Says};
ghost use Rattle.ruzgalt_c.specs.Rows.{SomeRowHasNoPeriod, classed, measured};
ghost use Rattle.anti_core.specs.declared.rows.AntiRow.{AntiRow};
ghost use Rattle.cert_core.specs.declared.verdict.Certificate.{Certificate};
ghost use Rattle.cert_core.specs.declared.verdict.Verdict.{Verdict};
ghost use Rattle.join_core.specs.declared.rows.JoinRow.{JoinRow};
ghost use Rattle.round_core.specs.declared.plateau.Plateau.{Plateau};

use crate::agg::{measure_of, plateaus_of_items, write_plateaus, write_values};
use crate::anti::{anti_items, write_anti_rows};
use crate::check::{certificate_of, check_rows, numbers_of};
use crate::dip::divide;
use crate::join::{join_items, write_rows};
use crate::rows::{Fault, items_of, order_by_class};
use std::alloc::Global;

/// The most rows that a list may have.
const ROW_LIMIT: usize = 1_000_000;

/// The answer was written.
const DONE: i32 = 0;

/// Lists that must have equal lengths don't.
const UNEVEN: i32 = 1;

/// A list has more than `ROW_LIMIT` rows, or there are more parts.
const TOO_MANY: i32 = 2;

/// Some row's start and end aren't a period of the years 0001 to 9999.
const NO_PERIOD: i32 = 3;

/// Memory was refused.
const NO_MEMORY: i32 = 4;

/// The answer has more rows than its lists have capacity for.
const NO_ROOM: i32 = 5;

/// No function has this number.
const NO_FUNCTION: i32 = 6;

/// Returns the code of a fault.
fn code_of(fault: Fault) -> i32
    ensures period { result ≡ NO_PERIOD → fault ≡ Fault.NoPeriod }
    ensures codes { (result ≡ NO_PERIOD) ⊎ (result ≡ NO_MEMORY) }
{
    match fault {
        Fault::NoPeriod => NO_PERIOD,
        Fault::NoMemory => NO_MEMORY,
    }
}

/// Divides rows into the fewest parts without overlaps. Row k holds in the seconds `from[k]..to[k]`. Writes the number
/// of the row's part, counted from 0, to `part[k]`, and the number of parts to `parts`. Writes to `instant` the first
/// second at which the number of rows that hold equals the number of parts; without rows, `instant` stays as it is.
#[unsafe(no_mangle)]
pub extern "C" fn ruzgalt_dip(
    alloc: Global,
    from: &[i64],
    to: &[i64],
    part: &mut [u32],
    parts: &mut u32,
    instant: &mut i64,
) -> i32
    ensures dip { result ≡ DONE → (at : Option ℤ)
        × IsDipOfRows from.now to.now part.new parts.new at
        × IfSome at (λ t. instant.new ≡ t) }
    ensures lengths { (result ≡ UNEVEN) ↔ ¬ ((length to.now ≡ length from.now)
        × (length part.old ≡ length from.now)) }
    ensures many { result ≡ TOO_MANY → item_limit < length from.now }
    ensures period { result ≡ NO_PERIOD → SomeRowHasNoPeriod from.now to.now }
    ensures codes { (result ≡ DONE) ⊎ (result ≡ UNEVEN) ⊎ (result ≡ TOO_MANY)
        ⊎ (result ≡ NO_PERIOD) ⊎ (result ≡ NO_MEMORY) }
{
    if to.len() != from.len() || part.len() != from.len() {
        return UNEVEN;
    }
    if from.len() > ROW_LIMIT {
        return TOO_MANY;
    }
    match divide(alloc, from, to, part) {
        Ok((count, point)) => {
            *parts = count;
            if let Some(point) = point {
                *instant = point.number();
            }
            DONE
        }
        Err(fault) => code_of(fault),
    }
}

/// Finds the pairs of a left and a right row that have the same class and share an instant. Row k of a side has the
/// class `class[k]`, and holds in the seconds `from[k]..to[k]`. Writes the indices of both rows and the period that
/// they share to the four lists of the answer, by start, end, left index and right index. Writes the number of pairs to
/// `count`, also if the lists are too short.
#[unsafe(no_mangle)]
pub extern "C" fn ruzgalt_join(
    alloc: Global,
    left_class: &[u64],
    left_from: &[i64],
    left_to: &[i64],
    right_class: &[u64],
    right_from: &[i64],
    right_to: &[i64],
    left: &mut [u32],
    right: &mut [u32],
    from: &mut [i64],
    to: &mut [i64],
    count: &mut u64,
) -> i32
    ensures join { result ≡ DONE → (rows : List JoinRow)
        × IsJoinOfRows (classed left_class.now left_from.now left_to.now)
        (classed right_class.now right_from.now right_to.now) rows
        × (count.new ≡ length rows)
        × AreWritten rows (length rows) left.new right.new from.new to.new }
    ensures lengths { (result ≡ UNEVEN) ↔ ¬ ((length left_class.now ≡ length left_from.now)
        × (length left_to.now ≡ length left_from.now)
        × (length right_class.now ≡ length right_from.now)
        × (length right_to.now ≡ length right_from.now)
        × (length right.old ≡ length left.old)
        × (length from.old ≡ length left.old) × (length to.old ≡ length left.old)) }
    ensures many { result ≡ TOO_MANY → (item_limit < length left_from.now)
        ⊎ (item_limit < length right_from.now) }
    ensures period { result ≡ NO_PERIOD → SomeRowHasNoPeriod left_from.now left_to.now
        ⊎ SomeRowHasNoPeriod right_from.now right_to.now }
    ensures room { result ≡ NO_ROOM → (rows : List JoinRow)
        × IsJoinOfRows (classed left_class.now left_from.now left_to.now)
        (classed right_class.now right_from.now right_to.now) rows
        × (count.new ≡ length rows) × (length left.old < length rows) }
    ensures codes { (result ≡ DONE) ⊎ (result ≡ UNEVEN) ⊎ (result ≡ TOO_MANY)
        ⊎ (result ≡ NO_PERIOD) ⊎ (result ≡ NO_MEMORY) ⊎ (result ≡ NO_ROOM) }
{
    if left_class.len() != left_from.len()
        || left_to.len() != left_from.len()
        || right_class.len() != right_from.len()
        || right_to.len() != right_from.len()
        || right.len() != left.len()
        || from.len() != left.len()
        || to.len() != left.len()
    {
        return UNEVEN;
    }
    if left_from.len() > ROW_LIMIT || right_from.len() > ROW_LIMIT {
        return TOO_MANY;
    }
    let lefts = match items_of(alloc, left_class, left_from, left_to, &[]) {
        Ok(lefts) => lefts,
        Err(fault) => return code_of(fault),
    };
    let rights = match items_of(alloc, right_class, right_from, right_to, &[]) {
        Ok(rights) => rights,
        Err(fault) => return code_of(fault),
    };
    let Ok(rows) = join_items(alloc, lefts, rights) else {
        return NO_MEMORY;
    };
    *count = rows.len() as u64;
    if rows.len() > left.len() {
        return NO_ROOM;
    }
    write_rows(&rows, left, right, from, to);
    DONE
}

/// Finds the maximal periods in which a left row holds and no right row of its class does. Rows are given as for
/// `ruzgalt_join`. Writes the left row's index and the period to the three lists of the answer, by index and start.
/// Writes the number of periods to `count`, also if the lists are too short.
#[unsafe(no_mangle)]
pub extern "C" fn ruzgalt_anti(
    alloc: Global,
    left_class: &[u64],
    left_from: &[i64],
    left_to: &[i64],
    right_class: &[u64],
    right_from: &[i64],
    right_to: &[i64],
    left: &mut [u32],
    from: &mut [i64],
    to: &mut [i64],
    count: &mut u64,
) -> i32
    ensures anti { result ≡ DONE → (rows : List AntiRow)
        × IsAntiOfRows (classed left_class.now left_from.now left_to.now)
        (classed right_class.now right_from.now right_to.now) rows
        × (count.new ≡ length rows)
        × AreAntiWritten rows (length rows) left.new from.new to.new }
    ensures lengths { (result ≡ UNEVEN) ↔ ¬ ((length left_class.now ≡ length left_from.now)
        × (length left_to.now ≡ length left_from.now)
        × (length right_class.now ≡ length right_from.now)
        × (length right_to.now ≡ length right_from.now)
        × (length from.old ≡ length left.old) × (length to.old ≡ length left.old)) }
    ensures many { result ≡ TOO_MANY → (item_limit < length left_from.now)
        ⊎ (item_limit < length right_from.now) }
    ensures period { result ≡ NO_PERIOD → SomeRowHasNoPeriod left_from.now left_to.now
        ⊎ SomeRowHasNoPeriod right_from.now right_to.now }
    ensures room { result ≡ NO_ROOM → (rows : List AntiRow)
        × IsAntiOfRows (classed left_class.now left_from.now left_to.now)
        (classed right_class.now right_from.now right_to.now) rows
        × (count.new ≡ length rows) × (length left.old < length rows) }
    ensures codes { (result ≡ DONE) ⊎ (result ≡ UNEVEN) ⊎ (result ≡ TOO_MANY)
        ⊎ (result ≡ NO_PERIOD) ⊎ (result ≡ NO_MEMORY) ⊎ (result ≡ NO_ROOM) }
{
    if left_class.len() != left_from.len()
        || left_to.len() != left_from.len()
        || right_class.len() != right_from.len()
        || right_to.len() != right_from.len()
        || from.len() != left.len()
        || to.len() != left.len()
    {
        return UNEVEN;
    }
    if left_from.len() > ROW_LIMIT || right_from.len() > ROW_LIMIT {
        return TOO_MANY;
    }
    let lefts = match items_of(alloc, left_class, left_from, left_to, &[]) {
        Ok(lefts) => lefts,
        Err(fault) => return code_of(fault),
    };
    let rights = match items_of(alloc, right_class, right_from, right_to, &[]) {
        Ok(rights) => rights,
        Err(fault) => return code_of(fault),
    };
    let Ok(rows) = anti_items(alloc, lefts, rights) else {
        return NO_MEMORY;
    };
    *count = rows.len() as u64;
    if rows.len() > left.len() {
        return NO_ROOM;
    }
    write_anti_rows(&rows, left, from, to);
    DONE
}

/// Finds the maximal periods in which rows of a group hold and their aggregate has one value. `function` is 0 for the
/// number of rows, and 1, 2 or 3 for the sum, the minimum or the maximum of their amounts. Row k has the group
/// `group[k]` and the amount `amount[k]`, and holds in the seconds `from[k]..to[k]`. Writes the group, the period and
/// the value to the lists of the answer, by group and start: the low 64 bits of a value to `low`, the high 64 bits to
/// `high`. Writes the number of periods to `count`, also if the lists are too short.
#[unsafe(no_mangle)]
pub extern "C" fn ruzgalt_agg(
    alloc: Global,
    group: &[u64],
    from: &[i64],
    to: &[i64],
    amount: &[i64],
    function: u32,
    of_group: &mut [u64],
    starts: &mut [i64],
    ends: &mut [i64],
    low: &mut [u64],
    high: &mut [i64],
    count: &mut u64,
) -> i32
    ensures agg { result ≡ DONE → (plateaus : List Plateau)
        × IsAggOfRows (measured group.now from.now to.now amount.now) function plateaus
        × (count.new ≡ length plateaus)
        × ArePlateausWritten plateaus (length plateaus) of_group.new starts.new ends.new
        × AreValuesWritten plateaus (length plateaus) low.new high.new }
    ensures lengths { (result ≡ UNEVEN) ↔ ¬ ((length group.now ≡ length from.now)
        × (length to.now ≡ length from.now) × (length amount.now ≡ length from.now)
        × (length starts.old ≡ length of_group.old) × (length ends.old ≡ length of_group.old)
        × (length low.old ≡ length of_group.old) × (length high.old ≡ length of_group.old)) }
    ensures many { result ≡ TOO_MANY → item_limit < length from.now }
    ensures period { result ≡ NO_PERIOD → SomeRowHasNoPeriod from.now to.now }
    ensures room { result ≡ NO_ROOM → (plateaus : List Plateau)
        × IsAggOfRows (measured group.now from.now to.now amount.now) function plateaus
        × (count.new ≡ length plateaus) × (length of_group.old < length plateaus) }
    ensures function { result ≡ NO_FUNCTION → IsNoFunction function }
    ensures codes { (result ≡ DONE) ⊎ (result ≡ UNEVEN) ⊎ (result ≡ TOO_MANY)
        ⊎ (result ≡ NO_PERIOD) ⊎ (result ≡ NO_MEMORY) ⊎ (result ≡ NO_ROOM)
        ⊎ (result ≡ NO_FUNCTION) }
{
    if group.len() != from.len()
        || to.len() != from.len()
        || amount.len() != from.len()
        || starts.len() != of_group.len()
        || ends.len() != of_group.len()
        || low.len() != of_group.len()
        || high.len() != of_group.len()
    {
        return UNEVEN;
    }
    if from.len() > ROW_LIMIT {
        return TOO_MANY;
    }
    let Some(measure) = measure_of(function) else {
        return NO_FUNCTION;
    };
    let mut items = match items_of(alloc, group, from, to, amount) {
        Ok(items) => items,
        Err(fault) => return code_of(fault),
    };
    order_by_class(&mut items);
    let Ok(plateaus) = plateaus_of_items(alloc, measure, &items) else {
        return NO_MEMORY;
    };
    *count = plateaus.len() as u64;
    if plateaus.len() > of_group.len() {
        return NO_ROOM;
    }
    write_plateaus(&plateaus, of_group, starts, ends);
    write_values(&plateaus, low, high);
    DONE
}

/// Checks a claimed division of rows: row k is in part `part[k]`, there are `parts` parts, and `parts` rows hold at
/// second `instant`. Without rows, `instant` is ignored. Writes the number of the first fault to `verdict`, and its own
/// numbers to `first` and `second`. 2: part `first` is empty. 5: row `first` is in no part. 6: rows `first` and
/// `second` of one part overlap. 7: `first` rows hold at the instant, not `parts`. 0: the division is right, and no
/// division has fewer parts.
#[unsafe(no_mangle)]
pub extern "C" fn ruzgalt_check(
    alloc: Global,
    from: &[i64],
    to: &[i64],
    part: &[u32],
    parts: u32,
    instant: i64,
    verdict: &mut u32,
    first: &mut u64,
    second: &mut u64,
) -> i32
    ensures verdict { result ≡ DONE → (certificate : Certificate) × (said : Verdict)
        × IsCertificateOf (length from.now) parts instant certificate
        × IsVerdictOfRows from.now to.now part.now certificate said
        × Says said verdict.new first.new second.new }
    ensures lengths { (result ≡ UNEVEN) ↔ ¬ ((length to.now ≡ length from.now)
        × (length part.now ≡ length from.now)) }
    ensures many { result ≡ TOO_MANY → (item_limit < length from.now) ⊎ (item_limit < parts) }
    ensures period { result ≡ NO_PERIOD → SomeRowHasNoPeriod from.now to.now }
    ensures codes { (result ≡ DONE) ⊎ (result ≡ UNEVEN) ⊎ (result ≡ TOO_MANY)
        ⊎ (result ≡ NO_PERIOD) ⊎ (result ≡ NO_MEMORY) }
{
    if to.len() != from.len() || part.len() != from.len() {
        return UNEVEN;
    }
    if from.len() > ROW_LIMIT || parts as usize > ROW_LIMIT {
        return TOO_MANY;
    }
    let certificate = certificate_of(from.len(), parts, instant);
    match check_rows(alloc, from, to, part, &certificate) {
        Ok(said) => {
            let (number, one, other) = numbers_of(said);
            *verdict = number;
            *first = one;
            *second = other;
            DONE
        }
        Err(fault) => code_of(fault),
    }
}
