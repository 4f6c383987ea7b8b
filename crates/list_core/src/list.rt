//! Lists.

ghost use Rattle.std.specs.Prelude.{◌≡◌, ◌++◌, ◌==◌, [], ◌∷◌, length, IfOk, OnOk, OnErr, slice_get};
ghost use Rattle.std.specs.Option.{option_copied};

use crate::copy::{DeepCopy, copy_each};
use crate::lists::append;
use std::alloc::{AllocError, Global};
use std::marker::Model;

/// Items in order. Contracts see the list of them.
#[derive(Debug, Drop)]
pub struct List<T> {
    items: Vec<T>,
}

impl<T> Model for List<T> {
    ghost use Rattle.std.specs.Prelude.{List};

    ghost Value = { List T };

    ghost view = { λ l. l.items.items };
}

impl<T> From<Vec<T>> for List<T> {
    ghost use Rattle.std.specs.Prelude.{◌≡◌};

    ghost from_gives = { λ items list. list ≡ items.items };

    fn from(items: Vec<T>) -> List<T> {
        List { items }
    }
}

impl<T> From<List<T>> for Vec<T> {
    ghost use Rattle.std.specs.Prelude.{◌≡◌};

    ghost from_gives = { λ list items. items.items ≡ list };

    fn from(list: List<T>) -> Vec<T> {
        list.items
    }
}

impl<T> List<T> {
    /// Returns the empty list, which allocates nothing.
    pub fn new(alloc: Global) -> Self
        ensures { result ≡ [] }
    {
        List {
            items: Vec::new(alloc),
        }
    }

    /// Returns the number of items.
    pub fn len(&self) -> usize
        ensures { result ≡ length self.now }
    {
        self.items.len()
    }

    /// Returns whether the list is empty.
    pub fn is_empty(&self) -> bool
        ensures { result ≡ (length self.now == 0) }
    {
        self.items.is_empty()
    }

    /// Returns the item at index `i`, or `None` if `i` is past the end.
    pub fn get(&self, i: usize) -> Option<&T>
        ensures { option_copied result ≡ slice_get self.now i }
    {
        self.items.get(i)
    }

    /// Returns all items, in order.
    pub fn as_slice(&self) -> &[T]
        ensures { result.now ≡ self.now }
    {
        &self.items
    }
}

impl<T: Drop> List<T> {
    /// Adds an item at the end.
    ///
    /// # Errors
    ///
    /// `AllocError` if an allocation is refused; the list is then unchanged, and the item is dropped.
    pub fn push(&mut self, item: T) -> Result<(), AllocError>
        ensures ok { OnOk result (self.new ≡ self.old ++ item ∷ []) }
        ensures err { OnErr result (self.new ≡ self.old) }
    {
        self.items.push(item)?;
        Ok(())
    }

    /// Adds items at the end, in their order. An empty list takes them over without moving them.
    ///
    /// # Errors
    ///
    /// `AllocError` if an allocation is refused; the list is then unchanged.
    pub fn append(&mut self, more: Vec<T>) -> Result<(), AllocError>
        ensures ok { OnOk result (self.new ≡ self.old ++ more.items) }
        ensures err { OnErr result (self.new ≡ self.old) }
    {
        append(&mut self.items, more)
    }
}

impl<T: DeepCopy> DeepCopy for List<T> {
    fn copy(&self, alloc: Global) -> Result<List<T>, AllocError> {
        Ok(List {
            items: copy_each(alloc, &self.items)?,
        })
    }
}
