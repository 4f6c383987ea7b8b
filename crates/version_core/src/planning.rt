//! What a change of a portion does to versions, computed before anything is changed.

ghost use Rattle.std.specs.Prelude.{◌≡◌, ◌≤◌, ◌<◌, ◌++◌, [], length, filter, All, IfOk, OnOk};
ghost use Rattle.version_core.specs.Finding.{AreCandidates, passes};
ghost use Rattle.version_core.specs.Limits.{version_limit};
ghost use Rattle.version_core.specs.OpenVersions.{current, is_taken};
ghost use Rattle.version_core.specs.Plans.{IsPlanOf, parts_at};
ghost use Rattle.version_core.specs.Rows.{parts_of_all};
ghost use Rattle.version_core.specs.declared.change.RowsChange.TheVariants.{Portion};

use crate::change::{RowsChange, takes};
use crate::portion_change::PortionChange;
use crate::stored::StoredVersions;
use draft_core::Drafts;
use row_core::NoMemory;
use std::alloc::Global;
use table_core::RowRef;

/// What a change of a portion does to versions: the rows that replace removed ones, and the positions of the removed
/// ones.
#[derive(Drop)]
pub(crate) struct Plan {
    pub parts: Drafts,
    pub taken: Vec<u32>,
}

/// A small change adds or closes at most one version for this many versions of the table.
const VERSIONS_FOR_ONE: usize = 8;

/// Returns whether a change is small compared with the table. The key of a small change is tested by the key index,
/// which is then updated, in time logarithmic in the number of open versions for each row. For a larger change it is
/// faster to sort all open rows and keep no index; it costs so much itself that the index can be rebuilt later.
pub(crate) fn is_small(new: &Drafts, taken: &[u32], versions: usize) -> bool {
    new.len().saturating_add(taken.len()) <= versions / VERSIONS_FOR_ONE
}

/// How many rows are tested for overlap before a branch. In most blocks the portion reaches no row, which one branch
/// shows; in a larger block that it does reach, more rows must be examined.
const BLOCK: usize = 32;

/// Computes what the change does, without changing anything, so that a refusal leaves the versions unchanged. Only
/// blocks with a row that overlaps the portion are examined.
pub(crate) fn plan_change(
    alloc: Global,
    change: &RowsChange<'_>,
    versions: &StoredVersions,
    places: &[u32],
) -> Result<Plan, NoMemory>
    requires { AreCandidates change.now versions.now places.now }
    ensures { IfOk result (IsPlanOf change.now versions.now) }
{
    match change {
        RowsChange::Load(_) => Ok(Plan::empty(alloc)),
        RowsChange::Portion(change) => plan_portion(alloc, change, versions, places),
    }
}

/// Computes what a change of a portion does.
fn plan_portion(
    alloc: Global,
    change: &PortionChange<'_>,
    versions: &StoredVersions,
    places: &[u32],
) -> Result<Plan, NoMemory>
    requires { AreCandidates (Portion change.now) versions.now places.now }
    ensures { IfOk result (IsPlanOf (Portion change.now) versions.now) }
{
    let mut plan = Plan::empty(alloc);
    let portion = change.portion;
    let (rows, _) = versions.rows_and_system_periods();
    for block in places.chunks(BLOCK) {
        if rows.any_reached(&portion, block) {
            plan_block(alloc, &mut plan, change, versions, block)?;
        }
    }
    Ok(plan)
}

impl Plan {
    /// Returns the plan that removes no row.
    fn empty(alloc: Global) -> Self
        ensures parts { result.parts ≡ [] }
        ensures taken { result.taken.items ≡ [] }
    {
        Plan {
            parts: Drafts::new(alloc),
            taken: Vec::new(alloc),
        }
    }
}

/// Adds to the plan what the change does at those positions.
fn plan_block(
    alloc: Global,
    plan: &mut Plan,
    change: &PortionChange<'_>,
    versions: &StoredVersions,
    places: &[u32],
) -> Result<(), NoMemory>
    requires inside { All (λ place. place < length versions.now) places.now }
    requires parts { plan.old.parts
        ≡ parts_at (Portion change.now) versions.now plan.old.taken.items }
    ensures parts { OnOk result (plan.new.parts
        ≡ parts_at (Portion change.now) versions.now plan.new.taken.items) }
    ensures taken { OnOk result (plan.new.taken.items ≡ plan.old.taken.items ++ filter
        (passes versions.now (is_taken (Portion change.now))) places.now) }
{
    let (drafts, system_periods) = versions.rows_and_system_periods();
    for place in places {
        let row = RowRef::of_draft(*place as usize, drafts.at(*place as usize));
        if takes(change, row, &system_periods[*place as usize]) {
            change.push_parts(alloc, &mut plan.parts, row)?;
            plan.taken.push(*place)?;
        }
    }
    Ok(())
}

/// Returns how many rows replace the rows that the change removes.
pub(crate) fn count_parts(
    change: &PortionChange<'_>,
    versions: &StoredVersions,
    places: &[u32],
) -> usize
    requires few { length versions.now ≤ version_limit }
    requires places { AreCandidates (Portion change.now) versions.now places.now }
    ensures { result ≡ length (parts_of_all (Portion change.now) (current versions.now)) }
{
    let mut count = 0;
    let (drafts, system_periods) = versions.rows_and_system_periods();
    for place in places {
        let row = RowRef::of_draft(*place as usize, drafts.at(*place as usize));
        if takes(change, row, &system_periods[*place as usize]) {
            count += change.count_parts(row);
        }
    }
    count
}
