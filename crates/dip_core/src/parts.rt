//! The parts of a placer.

ghost use Rattle.std.specs.Prelude.{◌≡◌, ◌-◌, ◌≤◌, [], length, take, OnErr, OnOk};
ghost use Rattle.dip_core.specs.Placing.{added};

use crate::part_items::PartItems;
use crate::{Item, NoMemory};
use std::alloc::Global;
use std::marker::Model;

/// The parts that items are added to. No item can be read before all are placed, so a placement reads ends only in
/// `LastEnds`. Contracts see the parts.
#[derive(Drop)]
pub(crate) struct Parts {
    list: Vec<PartItems>,
}

impl Model for Parts {
    ghost use Rattle.std.specs.Prelude.{List};
    ghost use Rattle.dip_core.specs.declared.item.Item.{Item};

    ghost Value = { List (List Item) };

    ghost view = { λ p. p.list.items };
}

impl Parts {
    pub fn new(alloc: Global) -> Parts
        ensures { result ≡ [] }
    {
        Parts {
            list: Vec::new(alloc),
        }
    }

    pub fn len(&self) -> usize
        ensures { result ≡ length self.now }
    {
        self.list.len()
    }

    /// Appends the item to the part with that number, or to a new last part if the number is the number of parts. On
    /// `NoMemory` nothing is changed.
    pub fn push(&mut self, alloc: Global, number: usize, item: &Item) -> Result<(), NoMemory>
        requires { number ≤ length self.old }
        ensures ok { OnOk result (self.new ≡ added self.old number item.now) }
        ensures err { OnErr result (self.new ≡ self.old) }
    {
        if number == self.list.len() {
            let mut part = PartItems::with_capacity(alloc, 1)?;
            part.push(item)?;
            self.list.push(part)?;
        } else {
            self.list[number].push(item)?;
        }
        Ok(())
    }

    /// Removes the last part.
    pub fn pop(&mut self)
        ensures { self.new ≡ take (length self.old - 1) self.old }
    {
        self.list.pop();
    }

    /// Returns the parts, after all items are placed.
    pub fn finish(self) -> Vec<PartItems>
        ensures { result.items ≡ self }
    {
        let Parts { list } = self;
        list
    }
}
