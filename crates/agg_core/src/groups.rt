//! Rows by group: a row becomes an item whose class is the number of its group.

ghost use Rattle.std.specs.Prelude.{◌≡◌, ◌≢◌, IfOk, MatchBool, Some};
ghost use Rattle.row_core.specs.Lent.{lent_value};
ghost use Rattle.table_core.specs.Lent.{lent_row};
ghost use Rattle.agg_core.specs.Entries.{
  AreInGroups,
  AreRising,
  HaveRows,
  amount_at,
  value_at_place,
};
ghost use Rattle.agg_core.specs.Grouping.{
  AreItemsByGroup,
  AreNotAfter,
  IsClassOf,
  IsLast,
  RisesByGroup,
  amount_item,
};

use crate::entries::Entry;
use crate::keys::GroupColumn;
use dip_core::Item;
use period_core::NoMemory;
use row_core::{Value, ValueRef};
use std::alloc::Global;
use table_core::RowRef;

/// Rows by group.
#[derive(Drop)]
pub(crate) struct GroupedRows {
    /// An item for each row, in ascending order of class. The class is the number of the row's group.
    pub items: Vec<Item>,
    /// The groups by number: each group's value in the column that rows are grouped by.
    pub groups: Vec<Option<Value>>,
}

/// Returns the rows of entries that are sorted by value, each value a group, with the numbers in the column at index
/// `amount`.
pub(crate) fn group_entries<K: Ord, S: GroupColumn<K>>(
    alloc: Global,
    column: S,
    entries: &[Entry<K>],
    amount: Option<u32>,
) -> Result<GroupedRows, NoMemory>
    requires there { HaveRows (S.rows column) entries.now }
    requires rise { AreRising S.value_of entries.now }
    requires grouped { AreInGroups S.value_of (S.rows column)
        (value_at_place (Some (S.place column))) entries.now }
    ensures { IfOk result (λ grouped. AreItemsByGroup S.value_of (S.rows column) (amount_at amount)
        entries.now grouped.items.items grouped.groups.items) }
{
    let mut items = Vec::with_capacity(alloc, entries.len())?;
    let mut groups = Vec::new(alloc);
    for entry in entries {
        let row = column.rows().at(entry.row);
        let class = enter_group(
            alloc,
            &mut groups,
            S::value(&entry.key),
            row,
            column.place(),
        )?;
        items.push(amount_item(row, amount, class))?;
    }
    Ok(GroupedRows { items, groups })
}

/// Returns the number of the group with the value, which the row has in the column at index `place`. It is the last
/// group, or is appended.
fn enter_group(
    alloc: Global,
    groups: &mut Vec<Option<Value>>,
    value: ValueRef<'_>,
    row: RowRef<'_>,
    place: u32,
) -> Result<u64, NoMemory>
    requires there { value_at_place (Some place) (lent_row row) ≡ Some (lent_value value) }
    requires rise { RisesByGroup groups.old.items }
    requires upto { AreNotAfter groups.old.items (Some (lent_value value)) }
    ensures { IfOk result (λ class.
        IsClassOf (lent_value value.entry) groups.old.items groups.new.items class) }
{
    if is_last(groups, value) {
        return Ok(groups.len() as u64 - 1);
    }
    let class = groups.len() as u64;
    groups.push(row.copy_value(alloc, place as usize)?)?;
    Ok(class)
}

/// Returns whether the value belongs to the last group.
fn is_last(groups: &[Option<Value>], value: ValueRef<'_>) -> bool
    ensures { MatchBool result (IsLast groups.now (Some (lent_value value.entry)))
        (IsLast groups.now (Some (lent_value value.entry)) → ⊥) }
{
    match groups.last() {
        Some(Some(last)) => is_same(value, last),
        Some(None) => false,
        None => false,
    }
}

/// Returns whether both values are equal.
fn is_same(lent: ValueRef<'_>, value: &Value) -> bool
    ensures { MatchBool result (value.now ≡ lent_value lent.entry)
        (value.now ≢ lent_value lent.entry) }
{
    match value {
        Value::Int(number) => match lent {
            ValueRef::Int(other) => *number == other,
            ValueRef::Text(_) => false,
        },
        Value::Text(text) => match lent {
            ValueRef::Int(_) => false,
            ValueRef::Text(other) => text.as_str() == other,
        },
    }
}

/// Returns the row as an item of the class, with its number in the column at index `amount`.
pub(crate) fn amount_item(row: RowRef<'_>, amount: Option<u32>, class: u64) -> Item
    ensures { result ≡ amount_item (amount_at amount) class (lent_row row.entry) }
{
    Item {
        period: row.period(),
        id: row.id(),
        class,
        amount: amount_at(row, amount),
    }
}

/// Returns the row's number in the column at index `place`; 0 if it has none.
fn amount_at(row: RowRef<'_>, place: Option<u32>) -> i64
    ensures { result ≡ amount_at place (lent_row row.entry) }
{
    match place {
        None => 0,
        Some(place) => match row.value(place as usize) {
            None => 0,
            Some(ValueRef::Int(number)) => number,
            Some(ValueRef::Text(_)) => 0,
        },
    }
}
