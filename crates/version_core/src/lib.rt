#![tactic(auto)]

//! The versions of a table's rows: what a change removes and adds, and which versions are visible as of a commit.

mod by_column;
mod change;
mod collisions;
mod commit_number;
mod index;
mod key_index;
mod keys;
mod parts;
mod places;
mod planning;
mod portion_change;
mod shared_versions;
mod stored;
mod system_period;
mod version;
mod version_ref;
mod versions;

pub use by_column::ByColumn;
pub use change::RowsChange;
pub use commit_number::CommitNumber;
pub use keys::KeyOverlap;
pub use portion_change::PortionChange;
pub use shared_versions::SharedVersions;
pub use table_core::SharedRows;
pub use version::{Version, VersionList};
pub use version_ref::VersionRef;
pub use versions::{VERSION_LIMIT, VersionCounts, Versions};
