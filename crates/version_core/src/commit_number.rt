//! The number of a commit.

ghost use Rattle.std.specs.Prelude.{◌≡◌, ◌<◌, MatchOption};

use std::marker::Model;

/// The number of a commit. Numbers start at 1, and 32 bits are enough for them. Contracts see the number.
#[derive(Clone, Copy)]
pub struct CommitNumber {
    number: u32,
}

impl Model for CommitNumber {
    ghost use Rattle.std.specs.Prelude.{ℕ, ◌<◌};

    ghost Value = { ℕ };

    ghost view = { λ c. c.number };

    ghost invariant = { λ c. 0 < c.number };

    ghost inverse = { λ n. record { number = n } };
}

impl CommitNumber {
    /// Returns the commit number, or `None` for 0.
    pub fn new(number: u32) -> Option<CommitNumber>
        ensures { MatchOption result (number ≡ 0) (λ commit. commit ≡ number) }
    {
        if number == 0 {
            None
        } else {
            Some(CommitNumber { number })
        }
    }

    /// Returns the number, which is not 0.
    pub(crate) fn get(self) -> u32
        ensures value { result ≡ self }
        ensures proper { 0 < result }
    {
        self.number
    }
}
