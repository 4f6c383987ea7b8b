//! The rows of an anti-join.

ghost use Rattle.std.specs.Prelude.{◌≡◌, ◌++◌, map, IfOk, IsPermutation, IsSorted, OnOk};
ghost use Rattle.anti_core.specs.Anti.{anti_cmp};
ghost use Rattle.anti_core.specs.ItemAnti.{row_of_gap};

use list_core::ChunkedList;
use merge_core::Gap;
use period_core::{NoMemory, Period};

/// The id of a left row, and a maximal period in which it holds and no matching right row does. Rows are ordered by
/// id, start and end.
#[derive(Clone, Copy, Debug, PartialEq, Eq, PartialOrd, Ord)]
pub struct AntiRow {
    /// The id of the left row.
    pub id: u64,
    /// The instants that it holds and no matching right row does.
    pub period: Period,
}

/// The rows of an anti-join, in order, in chunks that were sorted separately.
pub type AntiRows = ChunkedList<AntiRow>;

/// Adds the rows of some gaps, in order. A row has the id of its gap's left item and the gap's period.
///
/// # Errors
///
/// `NoMemory` if an allocation is refused.
pub fn add_rows(gaps: &[Gap], rows: &mut Vec<AntiRow>) -> Result<(), NoMemory>
    ensures { OnOk result (rows.new.items ≡ rows.old.items ++ map row_of_gap gaps.now) }
{
    for gap in gaps {
        rows.push(AntiRow {
            id: gap.left.id,
            period: gap.period,
        })?;
    }
    Ok(())
}
