//! Several workers on one job.

ghost use Rattle.std.specs.Prelude.{◌≡◌, ◌<◌, ◌≤◌, IfOk};
ghost use Rattle.work_core.specs.Jobs.{AreValues, Gives};
ghost use Rattle.work_core.specs.Limits.{worker_limit};

use crate::drawing::{Calls, call_all};
use crate::gate::Gate;
use crate::job::PairWork;
use crate::outs::Outs;
use std::alloc::{AllocError, Global};
use std::thread::Threads;

/// The most workers of a run.
pub const WORKER_LIMIT: u32 = 64;

/// The pairs of a job as calls. Each is run between two calls of the gate.
#[derive(Drop)]
struct Pairs<'a, W, G> {
    alloc: Global,
    job: &'a W,
    gate: &'a G,
}

impl<'a, W: PairWork, G: Gate> Calls for Pairs<'a, W, G> {
    type Out = W::Out;

    ghost count_of = { λ p. W.pairs p.job.now };

    ghost IsValue = { λ p i o. Gives W.PairWork p.job.now (W.name_of p.job.now i) o };

    ghost few = { λ p. W.few p.job.now };

    fn count(&self) -> u64 {
        self.job.count()
    }

    fn call(&self, number: u64) -> Result<W::Out, AllocError> {
        let name = self.job.name(number);
        self.gate.enter(name);
        let run = self.job.run(self.alloc, name);
        self.gate.leave(name);
        run
    }
}

/// Runs all pairs on 1 to 64 workers, one of which is the calling thread, and returns their values by pair number.
///
/// Each pair is run once, between two calls of the gate; after a run was refused, its worker runs no more pairs. No
/// more threads are started than there are pairs. If a thread can't be started, its worker runs on another thread.
/// Nothing waits except for threads to end, so the call returns if the job's runs and the gate do. (The clauses are
/// about the values; tests show how often pairs are run.)
///
/// # Errors
///
/// `AllocError` if a run or an allocation is refused.
pub fn run_pairs<R: Threads + Sync, W: PairWork, G: Gate>(
    rt: &R,
    alloc: Global,
    job: &W,
    workers: u32,
    gate: &G,
) -> Result<Outs<W::Out>, AllocError>
    requires { (0 < workers) × (workers ≤ worker_limit) }
    ensures { IfOk result (AreValues W.PairWork job.now) }
{
    let places = call_all(rt, alloc, &Pairs { alloc, job, gate }, workers)?;
    Ok(Outs::at_places(places))
}
