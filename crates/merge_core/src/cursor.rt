//! Forward-only readers of parts.

ghost use Rattle.std.specs.Prelude.{◌≡◌, ◌<◌, ◌≤◌, ◌≤ℤ◌, ◌^◌, [], ◌∷◌, length, drop, take, All, MatchOption, IsTrue, ◌↔◌};
ghost use Rattle.dip_core.specs.Item.{IsChain};
ghost use Rattle.merge_core.specs.Sweep.{PassesUpto};

use crate::ends::has_ended;
use dip_core::{Item, Part};
use period_core::Point;
use std::marker::Model;

/// Reads each item of a part once, in order, and never goes back: a cursor can't be copied or cloned. Contracts see
/// the list of items that are still to be read.
#[derive(Drop)]
pub struct Cursor<'a> {
    rest: &'a [Item],
}

impl<'a> Model for Cursor<'a> {
    ghost use Rattle.std.specs.Prelude.{List};
    ghost use Rattle.dip_core.specs.declared.item.Item.{Item};
    ghost use Rattle.dip_core.specs.Item.{IsChain};

    ghost Value = { List Item };

    ghost view = { λ c. c.rest.now };

    ghost invariant = { λ c. IsChain c.rest.now };
}

impl<'a> Cursor<'a> {
    /// Returns a cursor at the part's first item.
    pub fn new(part: Part<'a>) -> Self
        ensures { result ≡ part.entry.items.now }
    {
        Cursor { rest: part.items }
    }

    /// Returns the next item without passing it, or `None` after the last item.
    pub fn peek(&self) -> Option<Item>
        ensures next { MatchOption result (self.now ≡ []) (λ x. self.now ≡ x ∷ drop 1 self.now) }
        ensures chain { IsChain self.now }
    {
        self.rest.first().copied()
    }

    /// Returns the number of items still to be read.
    pub fn len(&self) -> usize
        ensures len { result ≡ length self.now }
        ensures chain { IsChain self.now }
        ensures small { length self.now < 2 ^ 63 }
    {
        self.rest.len()
    }

    /// Returns whether every item was passed.
    pub fn is_empty(&self) -> bool
        ensures { IsTrue result ↔ (self.now ≡ []) }
    {
        self.rest.is_empty()
    }

    /// Passes the next item. After the last item it does nothing.
    pub fn advance(&mut self)
        ensures { self.new ≡ drop 1 self.old }
    {
        if !self.rest.is_empty() {
            self.rest = &self.rest[1..];
        }
    }

    /// Passes the items that end at or before the start of `x`, and returns their number. The search doubles its step,
    /// so a few items get through a long part with few comparisons.
    pub(crate) fn pass_ended(&mut self, x: &Item) -> u64
        ensures { PassesUpto x.now.period.from self.old self.new result }
    {
        let ended = count_ended(self.rest, x.period.from);
        self.rest = &self.rest[ended..];
        ended as u64
    }
}

/// Returns how many items of a part end at or before the point. It doubles the search range until the item after the
/// range ends later, and then searches the range by halves.
fn count_ended(items: &[Item], point: Point) -> usize
    requires { IsChain items.now }
    ensures inside { result ≤ length items.now }
    ensures ended { All (λ x. x.period.to ≤ℤ point) (take result items.now) }
{
    let mut reach = 1;
    while reach < items.len() && has_ended(&items[reach], point) {
        reach *= 2;
    }
    let near = &items[..reach.min(items.len())];
    near.partition_point(|item| has_ended(item, point))
}
