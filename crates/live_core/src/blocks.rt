//! The position of a record in a statement.

/// The position of the next record.
#[derive(Clone, Copy, Debug, PartialEq, Eq)]
pub(crate) enum Block {
    /// It begins a statement.
    Outside,
    /// It is in a load or a check.
    Rows,
    /// It is in a block of commands.
    Together,
    /// It is in a load or a check in a block of commands.
    RowsInside,
}
