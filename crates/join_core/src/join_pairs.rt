//! The pairs of parts of a join, as jobs for workers.

ghost use Rattle.join_core.specs.PairValues.{IsPairValue};

use crate::rows::JoinRow;
use dip_core::Part;
use grid_core::{PartPairs, PartWork};
use merge_core::{Cursor, FromHit, Hit, merge_join_into};
use period_core::NoMemory;
use std::alloc::Global;
use std::marker::PhantomData;

/// The value of a pair of parts: their hits, or values made from them.
#[derive(Drop)]
pub struct JoinOut<T = Hit> {
    /// The periods that items of the two parts share, in ascending order of start.
    pub hits: Vec<T>,
    /// The advances for them: at least the length of the shorter part, at most the length of both.
    pub turns: u64,
}

/// Finds the hits of two parts, and makes a value from each hit.
pub struct JoinWork<T> {
    made: PhantomData<T>,
}

impl<T: FromHit + Send + Sync> PartWork for JoinWork<T> {
    type Out = JoinOut<T>;

    ghost IsValue = { λ left right out. IsPairValue T.from_hit left right out };

    fn find(alloc: Global, left: Part<'_>, right: Part<'_>) -> Result<JoinOut<T>, NoMemory> {
        let mut hits = Vec::new(alloc);
        let turns = merge_join_into(Cursor::new(left), Cursor::new(right), &mut hits)?;
        Ok(JoinOut { hits, turns })
    }
}

/// The pairs of parts of two divisions, with the hits of each pair as its value.
pub type JoinPairs<'a> = PartPairs<'a, JoinWork<Hit>>;

/// The same pairs, with the rows of their hits.
pub(crate) type RowPairs<'a> = PartPairs<'a, JoinWork<JoinRow>>;
