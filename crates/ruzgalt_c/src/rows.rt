//! A caller's rows as items, and why a function has no answer.

ghost use Rattle.std.specs.Prelude.{◌≡◌, pos, length, slice_index_or, IfOk, IfErr, IsPermutation, MatchOption};
ghost use Rattle.grid_core.specs.Bundles.{ClassesRise};
ghost use Rattle.ruzgalt_c.specs.Rows.{ArePeriodEnds, AreRows, SomeRowHasNoPeriod};
ghost use Rattle.ruzgalt_c.specs.declared.rows.Fault.TheVariants.{NoPeriod};

use dip_core::Item;
use period_core::{Period, Point};
use std::alloc::{AllocError, Global};

/// Why a function has no answer.
#[derive(Clone, Copy, Debug, PartialEq, Eq)]
pub enum Fault {
    /// Some row's start and end aren't a period.
    NoPeriod,
    /// Memory was refused.
    NoMemory,
}

impl From<AllocError> for Fault {
    fn from(_: AllocError) -> Fault {
        Fault::NoMemory
    }
}

/// Returns the rows as items, whose ids are the rows' indices. A missing class or amount is 0.
pub(crate) fn items_of(
    alloc: Global,
    class: &[u64],
    from: &[i64],
    to: &[i64],
    amount: &[i64],
) -> Result<Vec<Item>, Fault>
    requires { length to.now ≡ length from.now }
    ensures rows { IfOk result (λ items. AreRows (record
        { class = class.now; from = from.now; to = to.now; amount = amount.now }) items.items) }
    ensures fault { IfErr result (λ f. f ≡ NoPeriod → SomeRowHasNoPeriod from.now to.now) }
{
    let Ok(mut items) = Vec::with_capacity(alloc, from.len()) else {
        return Err(Fault::NoMemory);
    };
    for k in 0..from.len() {
        let Some(period) = period_of(from[k], to[k]) else {
            return Err(Fault::NoPeriod);
        };
        let item = Item {
            period,
            id: k as u64,
            class: class_at(class, k),
            amount: amount_at(amount, k),
        };
        let Ok(()) = items.push(item) else {
            return Err(Fault::NoMemory);
        };
    }
    Ok(items)
}

/// Sorts the items by class and start.
pub(crate) fn order_by_class(items: &mut Vec<Item>)
    ensures permutation { IsPermutation items.old.items items.new.items }
    ensures sorted { ClassesRise items.new.items }
{
    items.sort_unstable_by_key(|item| (item.class, item.period.from));
}

/// Returns the class of row `k`, or 0 without classes.
fn class_at(class: &[u64], k: usize) -> u64
    ensures { result ≡ slice_index_or class.now k 0 }
{
    if k < class.len() { class[k] } else { 0 }
}

/// Returns the amount of row `k`, or 0 without amounts.
fn amount_at(amount: &[i64], k: usize) -> i64
    ensures { result ≡ slice_index_or amount.now k (pos 0) }
{
    if k < amount.len() { amount[k] } else { 0 }
}

/// Returns the period from one second to before the other, or `None` if it isn't one.
fn period_of(from: i64, to: i64) -> Option<Period>
    ensures { MatchOption result (¬ ArePeriodEnds from to)
        (λ p. (p.from ≡ from) × (p.to ≡ to)) }
{
    let from = Point::from_number(from).ok()?;
    let to = Point::from_number(to).ok()?;
    Period::new(from, to).ok()
}
