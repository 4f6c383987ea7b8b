//! A column of one side, with the current classes of the side's rows.

ghost use Rattle.std.specs.Prelude.{◌≡◌, ◌<◌, All, length};
ghost use Rattle.std.specs.Option.{ForSome};

use table_core::SharedRows;

/// The rows of a side, and the index (`place`) of the column that they are compared by.
#[derive(Clone, Copy)]
pub(crate) struct SideColumn<'a, 'c> {
    pub rows: &'a SharedRows,
    /// The current class of each row; `None` if all are in one class.
    pub classes: Option<&'c [u64]>,
    pub place: usize,
    pub ghost count: { ForSome classes (λ c. length c.now ≡ length rows.now) },
    pub ghost wide: { All (λ row. place < length row.values) rows.now },
}
