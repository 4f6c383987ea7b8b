//! A row that isn't stored yet.

use crate::NoMemory;
use crate::value::Values;
use list_core::DeepCopy;
use period_core::Period;
use std::alloc::Global;

/// A row before it has an id.
#[derive(Debug, Drop)]
pub struct Draft {
    pub period: Period,
    pub values: Values,
}

impl DeepCopy for Draft {
    fn copy(&self, alloc: Global) -> Result<Draft, NoMemory> {
        Ok(Draft {
            period: self.period,
            values: self.values.copy(alloc)?,
        })
    }
}
