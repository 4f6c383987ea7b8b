//! The values of all pairs of a job.

ghost use Rattle.std.specs.Prelude.{All, IfOk, IsSome, Some, length, map, slice_get, ◌==◌, ◌≡◌};
ghost use Rattle.std.specs.Option.{option_copied};

use std::alloc::{AllocError, Global};
use std::marker::Model;

/// The values of a job's pairs, by pair number. Contracts see the list of them.
#[derive(Drop)]
pub struct Outs<T> {
    places: Vec<Option<T>>,
}

impl<T> Model for Outs<T> {
    ghost use Rattle.std.specs.Prelude.{All, IsSome, List};
    ghost use Rattle.work_core.specs.Collected.{present_values};

    ghost Value = { List T };

    ghost view = { λ o. present_values o.places.items };

    ghost invariant = { λ o. All IsSome o.places.items };
}

impl<T> Outs<T> {
    // Returns the values in these slots. Each slot must have a value.
    pub(crate) fn at_places(places: Vec<Option<T>>) -> Outs<T>
        requires { All IsSome places.items }
        ensures { places.items ≡ map Some result }
    {
        Outs { places }
    }

    /// Returns the number of values.
    pub fn len(&self) -> usize
        ensures { result ≡ length self.now }
    {
        self.places.len()
    }

    /// Returns whether there are no values.
    pub fn is_empty(&self) -> bool
        ensures { result ≡ (length self.now == 0) }
    {
        self.places.is_empty()
    }

    /// Returns the value of the pair with number `i`, counted from 0, or `None` past the last.
    pub fn get(&self, i: usize) -> Option<&T>
        ensures { option_copied result ≡ slice_get self.now i }
    {
        if i < self.places.len() {
            self.places[i].as_ref()
        } else {
            None
        }
    }
}

impl<T: Drop> Outs<T> {
    /// Returns the values only, by pair number.
    pub fn into_vec(self, alloc: Global) -> Result<Vec<T>, AllocError>
        ensures { IfOk result (λ values. values.items ≡ self) }
    {
        let Outs { places } = self;
        let mut values = Vec::with_capacity(alloc, places.len())?;
        for place in places {
            let Some(value) = place else { unreachable!() };
            values.push(value)?;
        }
        Ok(values)
    }
}
