//! The rows of a join in any order, and the advances that found them.

ghost use Rattle.std.specs.Prelude.{◌≡◌, IfOk};
ghost use Rattle.join_core.specs.Found.{FitAll, all_made, all_rows};

use crate::advances::Advances;
use crate::rows::JoinRow;
use list_core::in_one_list;
use period_core::NoMemory;
use std::alloc::Global;

/// The rows of a join in any order, and the advances that found them.
#[derive(Drop)]
pub(crate) struct FoundRows {
    pub rows: Vec<JoinRow>,
    pub advances: Advances,
}

impl FoundRows {
    /// Returns all results as one, in order.
    pub(crate) fn of_all(alloc: Global, all: Vec<FoundRows>) -> Result<FoundRows, NoMemory>
        requires { FitAll all.items }
        ensures { IfOk result (λ found. (found.rows.items ≡ all_rows all.items)
            × (found.advances ≡ all_made all.items)) }
    {
        let mut lists = Vec::with_capacity(alloc, all.len())?;
        let mut advances = Advances::none();
        for found in all {
            lists.push(found.rows)?;
            advances = advances.plus(found.advances);
        }
        Ok(FoundRows {
            rows: in_one_list(alloc, lists)?,
            advances,
        })
    }
}
