//! The items of one part.

ghost use Rattle.std.specs.Prelude.{◌≡◌, [], ◌∷◌, ◌++◌, IfOk, OnOk, OnErr};

use crate::{Item, NoMemory};
use std::alloc::Global;
use std::marker::Model;

/// A part's items. Contracts see their list.
#[derive(Drop)]
pub(crate) struct PartItems {
    items: Vec<Item>,
}

impl Model for PartItems {
    ghost use Rattle.std.specs.Prelude.{List};
    ghost use Rattle.dip_core.specs.declared.item.Item.{Item};

    ghost Value = { List Item };

    ghost view = { λ c. c.items.items };
}

impl PartItems {
    /// Returns a part without items, whose first `capacity` items need no more memory.
    pub fn with_capacity(alloc: Global, capacity: usize) -> Result<PartItems, NoMemory>
        ensures { IfOk result (λ part. part ≡ []) }
    {
        let items = Vec::with_capacity(alloc, capacity)?;
        Ok(PartItems { items })
    }

    /// Appends the item. On `NoMemory` the part is unchanged, so the item can be placed again.
    pub fn push(&mut self, item: &Item) -> Result<(), NoMemory>
        ensures ok { OnOk result (self.new ≡ self.old ++ item.now ∷ []) }
        ensures err { OnErr result (self.new ≡ self.old) }
    {
        self.items.push(*item)?;
        Ok(())
    }

    /// Returns the items without copying them.
    pub fn items(&self) -> &[Item]
        ensures { result.now ≡ self.now }
    {
        self.items.as_slice()
    }
}
