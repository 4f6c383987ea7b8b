//! Placing items one after another.

ghost use Rattle.std.specs.Prelude.{◌≡◌, ℕ, ◌+◌, ◌*◌, ◌<◌, ◌≤◌, [], length, Some, None, IfOk, OnOk, OnErr};
ghost use Rattle.std.specs.Option.{ForSome};
ghost use Rattle.dip_core.specs.Item.{IsBelow, HasDistinctIds, item_limit};
ghost use Rattle.dip_core.specs.Division.{all_of, IsDip, IsLeastDivision};
ghost use Rattle.dip_core.specs.Placing.{IsAsBefore, IsGreatest, IsPlaceFor, added};
ghost use Rattle.dip_core.specs.Digits.{HasBinaryDigits};

use crate::last_ends::LastEnds;
use crate::parts::Parts;
use crate::placement::place_item;
use crate::{Division, Item, NoMemory};
use std::alloc::Global;
use std::marker::Model;

/// Places items one after another, in ascending order, into parts without overlaps. Contracts see the parts, the item
/// placed last, the counted looks, and the number of looks ever made.
#[derive(Drop)]
pub struct Placer {
    alloc: Global,
    parts: Parts,
    ends: LastEnds,
    last: Option<Item>,
    len: u64,
}

impl Model for Placer {
    ghost use Rattle.dip_core.specs.Placing.{Placing};
    ghost use Rattle.dip_core.specs.Invariants.{IsPlacing};

    ghost Value = { Placing };

    ghost view = { λ p. record {
      parts = p.parts;
      last = p.last;
      looks = p.ends.looks;
      all_looks = p.ends.all_looks;
    } };

    ghost invariant = { λ p. IsPlacing p.parts p.ends p.last p.len };
}

impl Placer {
    /// Returns a placer without parts.
    pub fn new(alloc: Global) -> Placer
        ensures { result ≡ record { parts = []; last = None; looks = 0; all_looks = 0 } }
    {
        Placer {
            alloc,
            parts: Parts::new(alloc),
            ends: LastEnds::new(alloc),
            last: None,
            len: 0,
        }
    }

    /// Returns the item placed last, which is the greatest, or `None` before the first item.
    pub fn last(&self) -> Option<Item>
        ensures value { result ≡ self.now.last }
        ensures greatest { IsGreatest self.now.parts result }
    {
        self.last
    }

    /// Returns the number of items placed, at most 1,000,000.
    pub fn len(&self) -> u64
        ensures value { result ≡ length (all_of self.now.parts) }
        ensures small { result ≤ item_limit }
    {
        self.len
    }

    /// Returns the number of looks of successful `place` calls. A look is a comparison of a last end with a start, or
    /// of two last ends and their part numbers.
    pub fn looks(&self) -> u64
        ensures { result ≡ self.now.looks }
    {
        self.ends.looks()
    }

    /// Places the item and returns the number of its part. Among the parts that have ended by its start, it takes the
    /// one that ended first, and the lowest number if several did. If no part has ended, it opens a new one. On
    /// `NoMemory` nothing is changed.
    pub fn place(&mut self, item: Item) -> Result<u32, NoMemory>
        requires rises { ForSome self.old.last (λ last. ¬ IsBelow item last) }
        requires room { length (all_of self.old.parts) < item_limit }
        ensures place { IfOk result (IsPlaceFor self.old.parts item.period.from) }
        ensures added { IfOk result (λ number. self.new.parts ≡ added self.old.parts number item) }
        ensures last { OnOk result (self.new.last ≡ Some item) }
        ensures err { OnErr result (IsAsBefore self.old self.new) }

        // At most two looks per binary digit of the number of parts, and at least one if there is a part. Every look
        // made is counted.
        ensures looked { OnOk result (0 < length self.old.parts → self.old.looks < self.new.looks) }
        ensures honest { OnOk result
            (self.new.all_looks + self.old.looks ≡ self.old.all_looks + self.new.looks) }
        ensures few_looks { OnOk result ((digits : ℕ)
            × HasBinaryDigits (length self.old.parts) digits
            × (self.new.looks ≤ self.old.looks + 2 * digits)) }
    {
        let before = self.ends.looks();
        let number = match place_item(self.alloc, &mut self.parts, &mut self.ends, &item) {
            Ok(number) => number,
            Err(refused) => {
                self.ends.take_back(before);
                return Err(refused);
            }
        };
        self.last = Some(item);
        self.len += 1;
        Ok(number as u32)
    }

    /// Returns the division of all items that were placed.
    pub fn finish(self) -> Division
        ensures parts { result ≡ self.parts }
        ensures least { IsLeastDivision (all_of self.parts) result }
        ensures dip { HasDistinctIds (all_of self.parts) → IsDip (all_of self.parts) result }
    {
        let Placer {
            alloc: _,
            parts,
            ends: _,
            last: _,
            len: _,
        } = self;
        Division::from_parts(parts.finish())
    }
}
