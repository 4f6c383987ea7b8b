//! The numbers that a complete run reports.

/// The number of commands that a run answered, and of `error` records in the answers.
#[derive(Clone, Copy, Debug, PartialEq, Eq)]
pub struct Outcome {
    /// The number of commands. A load or a check counts once with all its records. A block counts once, and each
    /// command in it once more. Refused commands, unknown words and a stray `end` count too.
    pub commands: u64,
    /// The number of `error` records in the answers.
    pub errors: u64,
}
