//! Does what the program's words ask for: answers each statement of a script on standard input as soon as its last
//! record was read, or prints the help page.
#![tactic(auto)]

ghost use Rattle.program_core.specs.Words.{IsWorkers};

mod help;
mod prompted;

use help::{HELP, USAGE};
use live_core::run;
use program_core::{Ending, Words, asked, ending_of, show};
use prompted::Prompted;
use script_core::Counted;
use std::alloc::Global;
use std::io::{self, IsTerminal};
use std::process::ExitCode;
use std::sync::Wait;
use std::thread::Threads;

/// Runs the script on standard input. If it is a terminal, each read has a prompt. Standard output has no buffer, so
/// each answer is out before more is read.
fn answer(
    rt: &(impl Input + Print + Eprint + Alloc<A = Global> + Threads + Wait + Sync),
    is_terminal: bool,
    workers: u32,
) -> Ending
    requires { IsWorkers workers }
{
    let mut reader = Counted::new(Prompted {
        rt,
        is_terminal,
        input: rt.reader(),
    });
    let mut writer = Counted::new(io::writer(rt));
    ending_of(run(rt, rt.alloc(), &mut reader, &mut writer, workers), true)
}

fn main(rt: HostRuntime) -> ExitCode {
    let ending = match asked(&rt) {
        Ok(Words::Run(workers)) => answer(&rt, rt.stdin().is_terminal(), workers),
        Ok(Words::Help) => show(&rt, HELP),
        Err(why) => Ending::from(why),
    };
    ending.report(&rt, "dipq-live", USAGE)
}
