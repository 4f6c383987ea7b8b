//! The rows of an aggregate.

ghost use Rattle.std.specs.Prelude.{◌≡◌, ◌≤◌, ◌++◌, AllPairs, IfOk, IfSome, OnOk, length, map, option_map, slice_get};
ghost use Rattle.std.specs.Option.{option_copied};
ghost use Rattle.dip_core.specs.Item.{item_limit};
ghost use Rattle.agg_core.specs.Grouping.{ArePlateauRows, agg_row_of};
ghost use Rattle.agg_core.specs.Shares.{lent_row, rows_in, rows_in_shares};

use crate::groups::GroupedRows;
use list_core::DeepCopy;
use period_core::{NoMemory, Period};
use round_core::{Measure, Plateau, Plateaus, plateaus_of};
use row_core::Value;
use std::alloc::{AllocError, Global};
use std::marker::Model;
use std::thread::Threads;
use work_core::{Crew, Gate};

/// A group, and a maximal period in which some of its rows hold and their measured value is constant.
#[derive(Debug, Drop, PartialEq, Eq)]
pub struct AggRow {
    /// The group's value in the column that rows are grouped by; `None` if all rows are one group.
    pub group: Option<Value>,
    /// The period. Just before it and just after it, the group has another value, or none of its rows holds.
    pub period: Period,
    /// The number of the group's rows that hold, or the sum, minimum or maximum of their numbers.
    pub value: i128,
}

/// A row of the answer whose group value is borrowed.
#[derive(Clone, Copy)]
pub struct AggRowRef<'a> {
    /// The group's value in the column that rows are grouped by; `None` if all rows are one group.
    pub group: Option<&'a Value>,
    /// The maximal period in which the group has the value.
    pub period: Period,
    /// The number of the group's rows that hold, or the sum, minimum or maximum of their numbers.
    pub value: i128,
}

/// The rows of some groups, stored as constant intervals. Each group's value is stored once, however many rows it has.
#[derive(Drop)]
pub struct AggShare {
    /// The groups by number: each group's value in the column that rows are grouped by, or `None` if all rows are one
    /// group.
    pub groups: Vec<Option<Value>>,
    /// The constant intervals of the groups, by group and start. The class of an interval is the number of its group.
    pub plateaus: Plateaus,
}

impl AggShare {
    /// Returns the group value of a constant interval, or `None` if all rows are one group, or if no group has the
    /// interval's class.
    pub fn group(&self, plateau: &Plateau) -> Option<&Value>
        ensures { option_copied result ≡ (agg_row_of self.now.groups.items plateau.now).group }
    {
        match self.groups.get(plateau.class as usize) {
            Some(Some(value)) => Some(value),
            Some(None) => None,
            None => None,
        }
    }

    /// Returns the row at index `place`.
    fn row_at(&self, place: usize) -> Option<AggRowRef<'_>>
        ensures { option_map lent_row result ≡ slice_get (rows_in self.now) place }
    {
        match self.plateaus.get(place) {
            None => None,
            Some(plateau) => Some(AggRowRef {
                group: self.group(plateau),
                period: plateau.period,
                value: plateau.value,
            }),
        }
    }
}

/// The rows of an aggregate, by group and start, in shares that were answered separately. Contracts see the list of
/// all rows.
#[derive(Drop)]
pub struct AggRows {
    shares: Vec<AggShare>,
    len: usize,
}

impl Model for AggRows {
    ghost use Rattle.std.specs.Prelude.{List};
    ghost use Rattle.agg_core.specs.Shares.{AreShares, rows_in_shares};
    ghost use Rattle.agg_core.specs.declared.rows.AggRow.{AggRow};

    ghost Value = { List AggRow };

    ghost view = { λ r. rows_in_shares r.shares.items };

    ghost invariant = { λ r. AreShares r.shares.items r.len };
}

impl AggRows {
    /// Returns the rows of some shares.
    ///
    /// # Errors
    ///
    /// `NoMemory` if there are 2^64 rows or more, which no table's answer has.
    pub(crate) fn of_shares(shares: Vec<AggShare>) -> Result<AggRows, NoMemory>
        ensures { IfOk result (λ rows. rows ≡ rows_in_shares shares.items) }
    {
        let Some(len) = count_rows(&shares) else {
            return Err(AllocError);
        };
        Ok(AggRows { shares, len })
    }

    /// Returns the number of rows.
    pub fn len(&self) -> usize
        ensures { result ≡ length self.now }
    {
        self.len
    }

    /// Returns the row at index `place`, or `None` past the last one. It skips whole shares before the row.
    pub fn get(&self, place: usize) -> Option<AggRowRef<'_>>
        ensures { option_map lent_row result ≡ slice_get self.now place }
    {
        row_in_shares(&self.shares, place)
    }

    /// Returns the shares. Together they have the rows in order.
    pub fn shares(&self) -> &[AggShare]
        ensures { rows_in_shares result.now ≡ self.now }
    {
        &self.shares
    }

    /// Returns all rows, each with its own copy of the group value.
    ///
    /// # Errors
    ///
    /// `NoMemory` if an allocation is refused.
    pub fn to_vec(&self, alloc: Global) -> Result<Vec<AggRow>, NoMemory>
        ensures { IfOk result (λ rows. rows.items ≡ self.now) }
    {
        let mut rows = Vec::with_capacity(alloc, self.len)?;
        for share in &self.shares {
            push_share(alloc, share, &mut rows)?;
        }
        Ok(rows)
    }
}

/// Returns the number of rows in the shares, or `None` if it doesn't fit `usize`.
fn count_rows(shares: &[AggShare]) -> Option<usize>
    ensures { IfSome result (λ len. len ≡ length (rows_in_shares shares.now)) }
{
    let mut len = 0usize;
    for share in shares {
        len = len.checked_add(share.plateaus.len())?;
    }
    Some(len)
}

/// Returns the row at index `place` of all shares.
fn row_in_shares(shares: &[AggShare], place: usize) -> Option<AggRowRef<'_>>
    ensures { option_map lent_row result ≡ slice_get (rows_in_shares shares.now) place }
{
    let mut left = place;
    for share in shares {
        let len = share.plateaus.len();
        if left < len {
            return share.row_at(left);
        }
        left -= len;
    }
    None
}

/// Adds the rows of a share.
fn push_share(alloc: Global, share: &AggShare, rows: &mut Vec<AggRow>) -> Result<(), NoMemory>
    ensures { OnOk result (rows.new.items ≡ rows.old.items ++ rows_in share.now) }
{
    for chunk in share.plateaus.chunks() {
        push_chunk(alloc, share, chunk, rows)?;
    }
    Ok(())
}

/// Adds the rows of some constant intervals of a share.
fn push_chunk(
    alloc: Global,
    share: &AggShare,
    plateaus: &[Plateau],
    rows: &mut Vec<AggRow>,
) -> Result<(), NoMemory>
    ensures { OnOk result (rows.new.items
        ≡ rows.old.items ++ map (agg_row_of share.now.groups.items) plateaus.now) }
{
    for plateau in plateaus {
        rows.push(AggRow {
            group: copy_group(alloc, share.group(plateau))?,
            period: plateau.period,
            value: plateau.value,
        })?;
    }
    Ok(())
}

/// Returns the share of grouped rows: a row for each constant interval of their items.
pub(crate) fn share_of_groups<R: Threads + Sync, G: Gate>(
    crew: &Crew<'_, R, G>,
    measure: Measure,
    grouped: GroupedRows,
) -> Result<AggShare, NoMemory>
    requires few { length grouped.items.items ≤ item_limit }
    requires classes { AllPairs (λ a b. a.class ≤ b.class) grouped.items.items }
    ensures { IfOk result (λ share. ArePlateauRows measure grouped.items.items
        grouped.groups.items (rows_in share)) }
{
    let GroupedRows { items, groups } = grouped;
    let plateaus = plateaus_of(crew, measure, &items)?;
    Ok(AggShare { groups, plateaus })
}

/// Returns a copy of the group value.
fn copy_group(alloc: Global, group: Option<&Value>) -> Result<Option<Value>, NoMemory>
    ensures { IfOk result (λ copy. copy ≡ option_copied group.entry) }
{
    match group {
        None => Ok(None),
        Some(value) => Ok(Some(value.copy(alloc)?)),
    }
}
