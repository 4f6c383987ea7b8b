//! Why a trial ended early.

ghost use Rattle.std.specs.Prelude.{◌≡◌, false, Err, IfErr, IfOk, IsTrue};
ghost use Rattle.row_core.specs.declared.failure.Failure.TheVariants.{Refused};
ghost use Rattle.refusal_core.specs.declared.ended.Ended.TheVariants.{Wrong};

use period_core::{BadPeriod, BadPoint};
use row_core::{BadName, Failure};
use std::alloc::{AllocError, AllocFailed};

/// Why a trial ended early: memory was refused, or a result wasn't the expected one.
#[derive(Clone, Copy, Debug, PartialEq, Eq)]
pub enum Ended {
    /// Memory was refused.
    NoMemory,
    /// An answer, or the state after a refusal, isn't the expected one.
    Wrong,
}

impl<E: Drop> From<Failure<E>> for Ended {
    fn from(failure: Failure<E>) -> Ended {
        match failure {
            Failure::Refused(_) => Ended::Wrong,
            Failure::NoMemory => Ended::NoMemory,
        }
    }
}

impl From<AllocError> for Ended {
    fn from(_error: AllocError) -> Ended {
        Ended::NoMemory
    }
}

impl<T: Drop> From<AllocFailed<T>> for Ended {
    fn from(_error: AllocFailed<T>) -> Ended {
        Ended::NoMemory
    }
}

impl From<BadName> for Ended {
    fn from(_error: BadName) -> Ended {
        Ended::Wrong
    }
}

impl From<BadPoint> for Ended {
    fn from(_error: BadPoint) -> Ended {
        Ended::Wrong
    }
}

impl From<BadPeriod> for Ended {
    fn from(_error: BadPeriod) -> Ended {
        Ended::Wrong
    }
}

/// Ends the trial if the condition is false.
pub fn holds(is_so: bool) -> Result<(), Ended>
    ensures ok { IfOk result (λ _. IsTrue is_so) }
    ensures wrong { IfErr result (λ ended. (ended ≡ Wrong) × (is_so ≡ false)) }
{
    if is_so { Ok(()) } else { Err(Ended::Wrong) }
}

/// Ends the trial unless the call is refused for this reason.
pub fn refuses<T: Drop, E: Drop + PartialEq>(
    answer: Result<T, Failure<E>>,
    want: E,
) -> Result<(), Ended>
    ensures { IfOk result (λ _. (name : E) × (answer ≡ Err (Refused name))) }
{
    match answer {
        Err(Failure::Refused(name)) => holds(name == want),
        Err(Failure::NoMemory) => Err(Ended::NoMemory),
        Ok(_) => Err(Ended::Wrong),
    }
}
