//! A side's rows before their values in a column are compared.

ghost use Rattle.std.specs.Prelude.{◌≡◌, ◌<◌, ℕ, List, Option, Some, length, slice_get};
ghost use Rattle.row_core.specs.declared.value.Value.{Value};
ghost use Rattle.match_core.specs.Cells.{classes_in, column_in};
ghost use Rattle.match_core.specs.SideLaws.{class_there, value_there};

use crate::side_column::SideColumn;

/// The rows of one side, each with its current class and its value in the compared column.
pub(crate) trait Classed: Copy + Send + Sync {
    // The current class of each row.
    ghost classes: { Self → List ℕ };

    // The value of each row.
    ghost column: { Self → List (Option Value) };

    /// Returns the number of rows.
    fn len(&self) -> usize
        ensures { result ≡ length (column self.now) };

    // Each row has a current class.
    ghost counted: { (side : Self) → length (classes side) ≡ length (column side) };

    // Each row has a value.
    ghost there: { (side : Self) (i : ℕ) → i < length (column side)
        → (value : Value) × (slice_get (column side) i ≡ Some (Some value)) };
}

impl Classed for SideColumn<'_, '_> {
    ghost classes = { classes_in };

    ghost column = { column_in };

    ghost counted = { λ side. class_there side.place side.classes side.rows.now side.count };

    ghost there = { λ side. value_there side.place side.rows.now side.wide };

    fn len(&self) -> usize {
        self.rows.len()
    }
}
