//! Orders to a library that refuses memory. An order is a request for more memory than any machine has; its size is the
//! order. The library (tools/refuser.c) intercepts the C library's allocator and obeys; without it, orders have no
//! effect.

ghost use Rattle.std.specs.Prelude.{◌≤◌};

use crate::ended::Ended;
use std::alloc::Global;
use std::io;

// Plus n, the order to refuse the n-th request.
const REFUSE: usize = 1 << 50;

// The order to stop refusing. It is granted if a request was refused since the last order.
const STOP: usize = 1 << 52;

// More requests than a trial makes.
const MANY: usize = 1_000_000;

/// Why a test of refusals fails.
#[derive(Debug, Drop)]
pub enum Fault {
    /// With the request of that number refused, a result in the trial wasn't the expected one.
    Wrong { request: usize },
    /// With no request refused, the trial didn't end with its answer.
    NoAnswer,
    /// Every run met a refusal.
    Endless,
    /// The number of refusals couldn't be printed.
    Unprinted(io::Error),
}

impl From<io::Error> for Fault {
    fn from(error: io::Error) -> Fault {
        Fault::Unprinted(error)
    }
}

// Requests this many bytes. Returns whether they were granted.
fn ask(alloc: Global, size: usize) -> bool {
    let block: Result<Vec<u8>, _> = Vec::with_capacity(alloc, size);
    block.is_ok()
}

/// Runs the trial with its first request refused, then with its second, and so on, until a run meets no refusal. Prints
/// how many runs met one. Each of these must end with its answer or out of memory, and the last one with its answer.
pub fn try_each<F: Fn(Global) -> Result<(), Ended>>(
    rt: &(impl Alloc<A = Global> + Print),
    trial: F,
) -> Result<(), Fault>
    requires { F.IsAlwaysCallable trial }
{
    let alloc = rt.alloc();
    for request in 1..MANY {
        ask(alloc, REFUSE + request);
        let ended = trial(alloc);
        if !ask(alloc, STOP) {
            println!(rt; "refused: {}", request - 1)?;
            return ended.map_err(|_| Fault::NoAnswer);
        }
        if ended == Err(Ended::Wrong) {
            return Err(Fault::Wrong { request });
        }
    }
    Err(Fault::Endless)
}
