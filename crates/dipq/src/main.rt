//! Does what the program's words ask for: answers the script on standard input, or prints the help page.
#![tactic(auto)]

ghost use Rattle.program_core.specs.Words.{IsWorkers};

mod help;

use help::{HELP, USAGE};
use program_core::{Ending, Words, asked, ending_of, show};
use script_core::{Counted, RunFault, run};
use std::alloc::Global;
use std::io::{self, BufWriter, Write};
use std::process::ExitCode;
use std::sync::Wait;
use std::thread::Threads;

/// Runs the script on standard input, and flushes the output.
fn answer(
    rt: &(impl Input + Print + Alloc<A = Global> + Threads + Wait + Sync),
    workers: u32,
) -> Ending
    requires { IsWorkers workers }
{
    let Ok(output) = BufWriter::new(rt.alloc(), io::writer(rt)) else {
        return Ending::Fault(RunFault::NoMemory);
    };
    let mut reader = Counted::new(rt.reader());
    let mut writer = Counted::new(output);
    let outcome = run(rt, rt.alloc(), &mut reader, &mut writer, workers);
    let flushed = writer.into_inner().flush();
    ending_of(outcome, flushed.is_ok())
}

fn main(rt: HostRuntime) -> ExitCode {
    let ending = match asked(&rt) {
        Ok(Words::Run(workers)) => answer(&rt, workers),
        Ok(Words::Help) => show(&rt, HELP),
        Err(why) => Ending::from(why),
    };
    ending.report(&rt, "dipq", USAGE)
}
