//! Tests from outside of jobs that run on workers, of their pieces, and of ranges of indices.
#![tactic(auto)]

#[cfg(test)]
mod calls;
#[cfg(test)]
mod pieces;
#[cfg(test)]
mod runs;
#[cfg(test)]
mod sums;
#[cfg(test)]
mod watched;
