//! What a seat knows.

use std::collections::LinkedList;

/// The stage of a seat's call, with its ticket.
pub enum Stage {
    /// No call is in progress.
    Resting,
    /// It has drawn its ticket.
    Waiting(u64),
    /// It has the state.
    Serving(u64),
}

/// What a seat knows. It exists in proofs only: no value of this type is ever made.
pub struct View<E> {
    /// The caller's number, or 0 for a seat that was split off.
    pub number: u32,
    /// The number of the caller whose entries are in `mine`.
    pub source: u32,
    /// The number of the turn's seats.
    pub mark: u32,
    /// How many of the next numbers haven't been given to a seat yet.
    pub spare: u32,
    /// How many calls it may still make.
    pub left: u64,
    /// The entries that it has seen: a prefix of all entries.
    pub seen: LinkedList<E>,
    /// The entries of its source, all of which it has seen.
    pub mine: LinkedList<E>,
    /// What it had seen before the last join.
    pub before: LinkedList<E>,
    /// What the other seat had seen at the last join.
    pub heard: LinkedList<E>,
    /// The stage of its call.
    pub stage: Stage,
}
