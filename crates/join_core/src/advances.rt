//! The number of advances that a join returns. It is the larger of two: the advances that were made, and the number of
//! pairs of parts if each side were divided as a whole.

ghost use Rattle.std.specs.Prelude.{◌≡◌, ◌≤◌, ◌*◌, ℕ, length, map, IfOk, IsTrue};
ghost use Rattle.dip_core.specs.Division.{IsLeast};
ghost use Rattle.dip_core.specs.Item.{item_limit, HasDistinctIds};
ghost use Rattle.match_core.specs.Items.{unclassed};
ghost use Rattle.join_core.specs.Found.{AreMade, FitTogether, both_made};
ghost use Rattle.join_core.specs.Join.{IsWithin};

use crate::crowds::least_parts;
use dip_core::Item;
use period_core::NoMemory;
use std::thread::Threads;
use work_core::Crew;

/// The advances over the parts of some items, and each side's number of parts.
#[derive(Clone, Copy)]
pub(crate) struct Advances {
    pub made: u64,
    pub left_parts: u64,
    pub right_parts: u64,
}

impl Advances {
    /// Returns the counts for no items.
    pub(crate) fn none() -> Self
        ensures { result ≡ record { made = 0; left_parts = 0; right_parts = 0 } }
    {
        Advances {
            made: 0,
            left_parts: 0,
            right_parts: 0,
        }
    }

    /// Returns the counts for these items and others together.
    pub(crate) fn plus(self, more: Advances) -> Advances
        requires { FitTogether self more }
        ensures { result ≡ both_made self more }
    {
        Advances {
            made: self.made + more.made,
            left_parts: self.left_parts + more.left_parts,
            right_parts: self.right_parts + more.right_parts,
        }
    }

    /// Returns whether there were at least as many advances as pairs of a left and a right part. No side needs more
    /// parts than it has here, so then the advances are enough.
    fn are_enough(self) -> bool
        requires lefts { self.left_parts ≤ item_limit }
        requires rights { self.right_parts ≤ item_limit }
        ensures { IsTrue result → self.left_parts * self.right_parts ≤ self.made }
    {
        self.left_parts * self.right_parts <= self.made
    }
}

/// Returns the number of advances to report. The least numbers of parts are computed only if the existing parts don't
/// show that there were enough advances.
pub(crate) fn turns_answered<R: Threads + Sync, G>(
    crew: &Crew<'_, R, G>,
    left: &[Item],
    right: &[Item],
    advances: Advances,
) -> Result<u64, NoMemory>
    requires left_few { length left.now ≤ item_limit }
    requires right_few { length right.now ≤ item_limit }
    requires left_ids { HasDistinctIds left.now }
    requires right_ids { HasDistinctIds right.now }
    requires made { AreMade left.now right.now advances }
    ensures within { IfOk result (λ turns. (k m : ℕ) → IsLeast (map unclassed left.now) k
        → IsLeast (map unclassed right.now) m → IsWithin k m (length left.now)
        (length right.now) turns) }
    ensures made { IfOk result (λ turns. advances.made ≤ turns) }
{
    if advances.are_enough() {
        return Ok(advances.made);
    }
    let lefts = least_parts(crew, left)?;
    let rights = least_parts(crew, right)?;
    Ok(advances.made.max(lefts * rights))
}
