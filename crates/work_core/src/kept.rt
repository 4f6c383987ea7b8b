//! The values that a worker keeps.

ghost use Rattle.std.specs.Prelude.{◌≡◌, [], OnOk};
ghost use Rattle.work_core.specs.Workers.{KeepsValue};

use crate::numbered::Numbered;
use std::alloc::{AllocError, Global};

/// The values of a worker: in the slots of their pairs, if it has slots, otherwise in a list, with their numbers.
#[derive(Drop)]
pub(crate) struct KeptValues<T> {
    pub places: Vec<Option<T>>,
    pub values: Vec<Numbered<T>>,
}

impl<T: Drop> KeptValues<T> {
    /// Returns an empty collection of values with these slots; it may have no slots.
    pub(crate) fn with_places(alloc: Global, places: Vec<Option<T>>) -> KeptValues<T>
        ensures { (result.places.items ≡ places.items) × (result.values.items ≡ []) }
    {
        KeptValues {
            places,
            values: Vec::new(alloc),
        }
    }

    /// Keeps one value more, in its slot if there is one.
    pub(crate) fn put(&mut self, number: u64, value: T) -> Result<(), AllocError>
        ensures { OnOk result (KeepsValue number value self.old self.new) }
    {
        let place = number as usize;
        if place < self.places.len() {
            self.places[place] = Some(value);
        } else {
            self.values.push(Numbered { number, value })?;
        }
        Ok(())
    }
}
