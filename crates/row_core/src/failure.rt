//! Why a call returns no value.
ghost use Rattle.std.specs.Prelude.{◌≡◌};
ghost use Rattle.row_core.specs.declared.failure.Failure.TheVariants as failure;

use std::alloc::{AllocError, AllocFailed};
use std::fmt::Display;
use thiserror::Error;

/// Why a call returns no value: the request is refused, or memory is. Definitions of what a call should return don't
/// mention memory, so they only define the first case.
#[derive(Clone, Copy, Debug, PartialEq, Eq, Error)]
#[error_bound(E: Display)]
pub enum Failure<E> {
    /// The request is refused.
    #[error("{0}")]
    Refused(E),
    /// An allocation is refused.
    #[error("out of memory")]
    NoMemory,
}

impl<E> From<AllocError> for Failure<E> {
    ghost from_gives = { λ _ e. e ≡ failure.NoMemory };

    fn from(_error: AllocError) -> Failure<E> {
        Failure::NoMemory
    }
}

impl<E, T: Drop> From<AllocFailed<T>> for Failure<E> {
    ghost from_gives = { λ _ e. e ≡ failure.NoMemory };

    fn from(_error: AllocFailed<T>) -> Failure<E> {
        Failure::NoMemory
    }
}
