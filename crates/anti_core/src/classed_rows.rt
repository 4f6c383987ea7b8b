//! The rows of a side with their classes.

ghost use Rattle.std.specs.Prelude.{◌≤◌, length};
ghost use Rattle.dip_core.specs.Item.{item_limit};

use table_core::SharedRows;

/// The rows of a side, each with the class at its index.
#[derive(Clone, Copy)]
pub(crate) struct ClassedRows<'a> {
    /// The rows.
    pub rows: &'a SharedRows,
    /// The classes, at least one for each row.
    pub classes: &'a [u64],
    pub ghost enough: { length rows.now ≤ length classes.now },
    pub ghost few: { length rows.now ≤ item_limit },
}
