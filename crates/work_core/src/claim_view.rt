//! What a seat knows of the draws.

use std::collections::LinkedList;

/// What a worker's seat knows of the numbers drawn. It exists in proofs only: no value of this type is ever made.
pub(crate) struct ClaimView {
    /// How many parts it has of the right to know all draws.
    pub parts: u64,
    /// How many draws it may still make.
    pub room: u64,
    /// A number that the word has reached.
    pub least: u64,
    /// The numbers that it drew.
    pub drawn: LinkedList<u64>,
}
