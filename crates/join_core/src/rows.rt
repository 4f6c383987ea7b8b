//! The rows of a join.

ghost use Rattle.std.specs.Prelude.{◌≡◌, ◌<◌, ◌^◌, ◌++◌, OnOk};
ghost use Rattle.join_core.specs.PairValues.{row_of_hit, rows_in, turns_in};

use crate::join_pairs::JoinOut;
use list_core::List;
use merge_core::{FromHit, Hit};
use period_core::{NoMemory, Period};
use work_core::Outs;

/// The ids of a left and a right row, and the instants that both hold. Rows are ordered by start, end, left id and
/// right id.
#[derive(Clone, Copy, Debug, PartialEq, Eq, PartialOrd, Ord)]
pub struct JoinRow {
    /// The instants that both hold.
    pub period: Period,
    /// The id of the left row.
    pub left: u64,
    /// The id of the right row.
    pub right: u64,
}

/// The rows of a join, in order.
pub type JoinRows = List<JoinRow>;

impl FromHit for JoinRow {
    ghost from_hit = { row_of_hit };

    fn from_hit(hit: Hit) -> JoinRow {
        JoinRow {
            period: hit.period,
            left: hit.left.id,
            right: hit.right.id,
        }
    }
}

/// Adds the rows of all pairs, pair by pair.
pub(crate) fn add_rows(
    outs: &Outs<JoinOut<JoinRow>>,
    rows: &mut Vec<JoinRow>,
) -> Result<(), NoMemory>
    ensures { OnOk result (rows.new.items ≡ rows.old.items ++ rows_in outs.now) }
{
    for i in 0..outs.len() {
        let Some(out) = outs.get(i) else {
            unreachable!()
        };
        rows.extend_from_slice(&out.hits)?;
    }
    Ok(())
}

/// Returns the advances of all pairs.
pub(crate) fn turns_of(outs: &Outs<JoinOut<JoinRow>>) -> u64
    requires { turns_in outs.now < 2 ^ 64 }
    ensures { result ≡ turns_in outs.now }
{
    let mut turns = 0;
    for i in 0..outs.len() {
        let Some(out) = outs.get(i) else {
            unreachable!()
        };
        turns += out.turns;
    }
    turns
}
