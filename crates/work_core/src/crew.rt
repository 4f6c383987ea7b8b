//! The workers of a job.

ghost use Rattle.std.specs.Prelude.{◌≡◌, ◌<◌, ◌≤◌};
ghost use Rattle.work_core.specs.Limits.{worker_limit};

use std::alloc::Global;

/// The workers of a job, and what they use: threads, memory, and the gate that they call before and after each pair.
/// There are 1 to 64 workers.
#[derive(Drop)]
pub struct Crew<'a, R, G> {
    /// Starts threads.
    pub rt: &'a R,
    /// Allocates memory.
    pub alloc: Global,
    /// The number of workers.
    pub workers: u32,
    /// Called before and after each pair.
    pub gate: &'a G,
    pub ghost some: { 0 < workers },
    pub ghost few: { workers ≤ worker_limit },
}

impl<'a, R, G> Crew<'a, R, G> {
    /// Returns that many workers.
    pub fn new(rt: &'a R, alloc: Global, workers: u32, gate: &'a G) -> Crew<'a, R, G>
        requires { (0 < workers) × (workers ≤ worker_limit) }
        ensures { result.workers ≡ workers }
    {
        Crew {
            rt,
            alloc,
            workers,
            gate,
        }
    }
}
