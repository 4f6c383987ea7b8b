//! A job for workers: the pairs of parts of an anti-join.

ghost use Rattle.merge_core.specs.Gaps.{ListsGaps};

use dip_core::Part;
use grid_core::{PartPairs, PartWork};
use merge_core::{Cursor, Gaps};
use period_core::NoMemory;
use std::alloc::Global;

/// Finds the gaps of a left part against one right part.
pub struct GapWork;

impl PartWork for GapWork {
    type Out = Gaps;

    ghost IsValue = { λ left right gaps. ListsGaps left right gaps };

    fn find(alloc: Global, left: Part<'_>, right: Part<'_>) -> Result<Gaps, NoMemory> {
        Gaps::of(alloc, Cursor::new(left), Cursor::new(right))
    }
}

/// The pairs of parts of two divisions. The value of a pair is the list of its left part's gaps against its right part
/// only.
pub type GapPairs<'a> = PartPairs<'a, GapWork>;
