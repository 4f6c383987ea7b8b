//! Why the words of the command line aren't accepted.
ghost use Rattle.std.specs.Prelude.{◌≡◌};
ghost use Rattle.program_core.specs.declared.refused.WordsRefused.TheVariants.{NoMemory};

use std::alloc::AllocError;

/// Why the words of the command line weren't accepted.
#[derive(Clone, Copy, Debug, PartialEq, Eq)]
pub enum WordsRefused {
    /// The program doesn't accept them.
    Usage,
    /// Memory was refused.
    NoMemory,
}

impl From<AllocError> for WordsRefused {
    ghost from_gives = { λ _ e. e ≡ NoMemory };

    fn from(_error: AllocError) -> WordsRefused {
        WordsRefused::NoMemory
    }
}
