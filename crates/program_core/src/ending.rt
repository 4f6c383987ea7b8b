//! How a program ends.
ghost use Rattle.std.specs.Prelude.{◌≡◌};
ghost use Rattle.program_core.specs.Ending.{ending_of, status_of};

use crate::refused::WordsRefused;
use script_core::{Outcome, RunFault};
use std::io::Eprint;
use std::process::ExitCode;

/// How a program ends.
#[derive(Clone, Copy, Debug, PartialEq, Eq)]
pub enum Ending {
    /// The script was answered.
    Answered(Outcome),
    /// The help page was printed.
    Helped,
    /// The words of the command line are wrong.
    Usage,
    /// The run stopped.
    Fault(RunFault),
}

impl Ending {
    /// Returns the exit status of the program.
    pub fn status(self) -> u8
        ensures { result ≡ status_of self }
    {
        match self {
            Ending::Answered(outcome) => if outcome.errors == 0 { 0 } else { 1 },
            Ending::Helped => 0,
            Ending::Usage => 2,
            Ending::Fault(_) => 3,
        }
    }

    /// Reports on standard error what went wrong, if anything did, for the program of this name. Returns the exit
    /// status.
    pub fn report(self, rt: &impl Eprint, name: &str, usage: &str) -> ExitCode {
        let _ = match self {
            Ending::Answered(_) => Ok(()),
            Ending::Helped => Ok(()),
            Ending::Usage => eprintln!(rt; "{name}: {usage}"),
            Ending::Fault(fault) => eprintln!(rt; "{name}: {fault}"),
        };
        ExitCode::from(self.status())
    }
}

impl From<WordsRefused> for Ending {
    fn from(why: WordsRefused) -> Ending {
        match why {
            WordsRefused::Usage => Ending::Usage,
            WordsRefused::NoMemory => Ending::Fault(RunFault::NoMemory),
        }
    }
}

/// Returns the ending of a run with this outcome or fault. `is_flushed` says whether its output could be flushed.
pub fn ending_of(outcome: Result<Outcome, RunFault>, is_flushed: bool) -> Ending
    ensures { result ≡ ending_of outcome is_flushed }
{
    match outcome {
        Ok(_) if !is_flushed => Ending::Fault(RunFault::WriteFault),
        Ok(outcome) => Ending::Answered(outcome),
        Err(fault) => Ending::Fault(fault),
    }
}
