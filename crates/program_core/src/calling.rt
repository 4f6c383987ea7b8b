//! What the words of the command line ask for.
ghost use Rattle.std.specs.Prelude.{IfOk};
ghost use Rattle.program_core.specs.Words.{IsRunnable};

use crate::ending::Ending;
use crate::refused::WordsRefused;
use crate::words::{Words, read_words};
use script_core::RunFault;
use std::alloc::Global;
use std::env::{self, Env};
use std::io::{ErrorKind, Print};

/// Returns what the program's words ask for. A word that isn't UTF-8 is never accepted.
pub fn asked(rt: &(impl Env + Alloc<A = Global>)) -> Result<Words, WordsRefused>
    ensures { IfOk result IsRunnable }
{
    let args = env::args(rt).map_err(|error| match error.kind() {
        ErrorKind::OutOfMemory => WordsRefused::NoMemory,
        _ => WordsRefused::Usage,
    })?;
    let texts: Vec<String> = args.collect(rt.alloc())?;
    let words: Vec<&str> = texts.iter().map(|text| text.as_str()).collect(rt.alloc())?;
    read_words(rt.alloc(), &words)
}

/// Prints the help page.
pub fn show(rt: &impl Print, page: &str) -> Ending {
    match print!(rt; "{page}") {
        Ok(()) => Ending::Helped,
        Err(_) => Ending::Fault(RunFault::WriteFault),
    }
}
