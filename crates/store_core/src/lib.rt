#![tactic(auto)]

//! A store that callers on several threads share: one history of changes. Each caller has seen a prefix of it.
//!
//! A `Store` is a `Shelf` that its callers take in turn. Each caller has a `Pass` with a limited number of calls. A
//! commit, a snapshot or a log returns what a book of a single thread returns after the changes that the pass has then
//! seen. All that a pass has seen is one legal history. A `Snapshot` shares its book and delays nobody. A `Note`
//! carries what one pass has seen to another pass, which has seen at least as much once it `hear`s the note.
//!
//! A `Post` passes a note to a running thread, and its type records that the note is of this store.

mod pass;
mod post;
mod refusal;
mod shared_book;
mod shelf;
mod snapshot;
mod spare;
mod store;

pub use book_core::NoTable;
pub use pass::{Note, Pass};
pub use post::Post;
pub use refusal::{BadCount, Future, PassSpent, RangeRefused, SnapshotRefused, StoreRefused};
pub use shelf::Shelf;
pub use snapshot::Snapshot;
pub use store::Store;
