//! Calls before and after each run of a pair.

use crate::name::PairName;

/// Called by each worker, on the worker's thread, before and after it runs a pair. A gate can count the runs or delay
/// one; it can't change a value.
pub trait Gate: Sync {
    /// Called before the pair is run.
    fn enter(&self, pair: PairName);

    /// Called after the pair was run, even if the run was refused memory.
    fn leave(&self, pair: PairName);
}

/// A gate that does nothing.
pub struct OpenGate;

impl Gate for OpenGate {
    fn enter(&self, _pair: PairName) {}

    fn leave(&self, _pair: PairName) {}
}
