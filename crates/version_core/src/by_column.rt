//! Values for the columns of a table.

ghost use Rattle.std.specs.Prelude.{◌≡◌, ◌<◌, None, Some, get_or, length, replicate, slice_set};
ghost use Rattle.std.specs.Option.{option_copied};
ghost use Rattle.row_core.specs.Limits.{column_limit};

use row_core::{COLUMN_LIMIT, Value};
use std::marker::Model;

/// An optional value for each column index that a table can have. Contracts see the values, by index.
#[derive(Drop)]
pub struct ByColumn<'a> {
    values: [Option<&'a Value>; COLUMN_LIMIT],
}

impl<'a> Model for ByColumn<'a> {
    ghost use Rattle.std.specs.Prelude.{◌≡◌, List, Option, length, map};
    ghost use Rattle.std.specs.Option.{option_copied};
    ghost use Rattle.row_core.specs.Limits.{column_limit};
    ghost use Rattle.row_core.specs.declared.value.Value.{Value as AnyValue};

    ghost Value = { List (Option AnyValue) };

    ghost view = { λ c. map option_copied c.values };

    ghost invariant = { λ c. length c.values ≡ column_limit };
}

impl<'a> ByColumn<'a> {
    /// Returns no value for any column.
    pub fn new() -> Self
        ensures { result ≡ replicate column_limit None }
    {
        ByColumn {
            values: [None; COLUMN_LIMIT],
        }
    }

    /// Returns the number of column indexes, which is the most columns of a table.
    #[inline(always)]
    pub fn width(&self) -> usize
        ensures width { result ≡ length self.now }
        ensures limit { result ≡ column_limit }
    {
        let _ = &self.values;
        COLUMN_LIMIT
    }

    /// Returns the value for the column at index `column`, if there is one.
    #[inline(always)]
    pub fn get(&self, column: usize) -> Option<&'a Value>
        requires { column < length self.now }
        ensures { option_copied result ≡ get_or self.now column None }
    {
        let values = &self.values[..];
        values[column]
    }

    /// Sets the value for the column at index `column`.
    pub fn set(&mut self, column: usize, value: &'a Value)
        requires { column < length self.old }
        ensures { self.new ≡ slice_set self.old column (Some value.now) }
    {
        let values = &mut self.values[..];
        values[column] = Some(value);
    }
}
