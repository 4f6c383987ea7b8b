#![tactic(auto)]

//! The book: tables, the changes that made them, and what is visible as of each commit.

mod apply;
mod bind;
mod book;
mod change;
mod commit;
mod laws;
mod log;
mod refusal;
mod table;
mod table_columns;

pub use book::{Book, keys_stay_apart, past_stays};
pub use change::{Change, Pairs};
pub use commit::Commit;
pub use laws::{history_has_one_list_of_versions, no_id_is_used_again, rows_rise};
pub use log::{ChangeKind, Entry, Log};
pub use refusal::{BookRefused, NoTable, RowsRefused, VersionsRefused};
pub use version_core::{SharedRows, SharedVersions, Version, VersionList, VersionRef};
