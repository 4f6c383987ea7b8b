//! Names of pairs.

/// The name of a pair in its job: two numbers, whose meaning the job defines.
#[derive(Clone, Copy, PartialEq, Eq, Debug)]
pub struct PairName {
    /// The number of the pair's left half.
    pub left: u32,
    /// The number of its right half.
    pub right: u32,
}
