#![tactic(auto)]

//! Rows without ids: those to be loaded, and those of a table. They are stored by column, and are read from bytes
//! directly into the columns.

mod column_values;
mod columns;
mod draft_ref;
mod drafts;
mod reader;
mod texts;

pub use draft_ref::DraftRef;
pub use drafts::Drafts;
pub use period_core::NoMemory;
pub use reader::RowReader;
