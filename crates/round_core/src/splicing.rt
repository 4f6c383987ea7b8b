//! Joining the constant intervals of two adjacent spans.

ghost use Rattle.std.specs.Prelude.{ℤ, IfOk, List, MatchOption, None, Some};
ghost use Rattle.dip_core.specs.declared.item.Item.{Item as AnyItem};
ghost use Rattle.work_core.specs.Ranges.{range};
ghost use Rattle.round_core.specs.Plateaus.{ArePlateaus};
ghost use Rattle.round_core.specs.declared.measure.Measure.{Measure as AnyMeasure};
ghost use Rattle.round_core.specs.Spans.{AreOfOneClass, ArePlateausWithin, AreSpliced, HaveNoJoint, IsJoint};

use crate::closing::joined;
use crate::plateau::{Plateau, Plateaus};
use period_core::NoMemory;

/// Returns the last interval of one list and the first of another as one, if the second continues the first.
fn joint(early: &Plateaus, late: &Plateaus) -> Option<Plateau>
    ensures { MatchOption result (HaveNoJoint early.now late.now) (IsJoint early.now late.now) }
{
    let last = early.last()?;
    let first = late.first()?;
    joined(last, first)
}

/// Returns both lists as one. If the second list's first interval continues the first list's last one, they become
/// one. So the intervals before an instant, and from it on, become the intervals of all items of a class.
fn spliced(early: Plateaus, late: Plateaus) -> Result<Plateaus, NoMemory>
    ensures { IfOk result (λ plateaus. AreSpliced early late plateaus) }
{
    let Some(both) = joint(&early, &late) else {
        return early.followed_by(late);
    };
    early.without_last()?.followed_by(late.with_first(both))
}

/// Returns the constant intervals of items of one class, from the intervals before an instant and from it on.
pub(crate) fn both_spliced(
    early: Result<Plateaus, NoMemory>,
    late: Result<Plateaus, NoMemory>,
) -> Result<Plateaus, NoMemory>
    ensures { (measure : AnyMeasure) (at : ℤ) (items : List AnyItem) → AreOfOneClass items
        → IfOk early (ArePlateausWithin (range None (Some at)) measure items)
        → IfOk late (ArePlateausWithin (range (Some at) None) measure items)
        → IfOk result (ArePlateaus measure items) }
{
    spliced(early?, late?)
}
