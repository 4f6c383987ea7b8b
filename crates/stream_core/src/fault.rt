//! Why a run stops before the end of its script.
ghost use Rattle.std.specs.Prelude.{◌≡◌};
ghost use Rattle.stream_core.specs.declared.fault.RunFault.TheVariants.{NoMemory};

use std::alloc::{AllocError, AllocFailed};
use thiserror::Error;

/// Why a run stopped before the end of its script.
#[derive(Clone, Copy, Debug, PartialEq, Eq, Error)]
pub enum RunFault {
    /// A read failed, or was interrupted once too often.
    #[error("read fault")]
    ReadFault,
    /// The script has more than 67,108,864 bytes.
    #[error("script too long")]
    TooLong,
    /// An allocation was refused.
    #[error("out of memory")]
    NoMemory,
    /// A write failed, accepted none of some bytes, or was interrupted once too often.
    #[error("write fault")]
    WriteFault,
}

impl From<AllocError> for RunFault {
    ghost from_gives = { λ _ e. e ≡ NoMemory };

    fn from(_error: AllocError) -> RunFault {
        RunFault::NoMemory
    }
}

impl<T: Drop> From<AllocFailed<T>> for RunFault {
    ghost from_gives = { λ _ e. e ≡ NoMemory };

    fn from(_error: AllocFailed<T>) -> RunFault {
        RunFault::NoMemory
    }
}
