//! The store for callers: what `store_core` offers, and one error type for all of its calls.
#![tactic(auto)]

mod error;

pub use error::StoreError;
pub use store_core::{
    BadCount, Future, NoTable, Note, Pass, PassSpent, Post, RangeRefused, Shelf, Snapshot,
    SnapshotRefused, Store, StoreRefused,
};
