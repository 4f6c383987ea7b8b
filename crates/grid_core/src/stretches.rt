//! How many pairs of two divisions run before their results are collected.

ghost use Rattle.std.specs.Prelude.{◌+◌, ◌*◌, ◌<◌, ◌≤◌, length};
ghost use Rattle.dip_core.specs.Item.{item_limit};

use crate::parts::name_in;
use dip_core::Division;
use work_core::tuning::{STRETCH_ITEMS, STRETCH_PAIRS};

/// Returns the length of the stretch of pairs from number `first` on: at least one pair, and none past the last.
pub fn stretch_len(left: &Division, right: &Division, first: u64) -> u64
    requires { first < length left.now * length right.now }
    ensures some { 0 < result }
    ensures inside { first + result ≤ length left.now * length right.now }
{
    let count = left.parts() as u64 * right.parts() as u64;
    let most = (count - first).min(STRETCH_PAIRS);
    let mut items = items_of_pair(left, right, first);
    for len in 1..most {
        if items >= STRETCH_ITEMS {
            return len;
        }
        items += items_of_pair(left, right, first + len);
    }
    most
}

/// Returns how many items the two parts of a pair have together.
fn items_of_pair(left: &Division, right: &Division, number: u64) -> u64
    requires { number < length left.now * length right.now }
    ensures { result ≤ 2 * item_limit }
{
    let pair = name_in(left, right, number);
    items_of_part(left, pair.left) + items_of_part(right, pair.right)
}

/// Returns how many items a part has.
fn items_of_part(division: &Division, number: u32) -> u64
    requires { number < length division.now }
    ensures { result ≤ item_limit }
{
    let _ = division.parts();
    division.part(number).items().len() as u64
}
