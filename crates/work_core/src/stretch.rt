//! Stretches: consecutive pairs of a job, as a job of their own.

ghost use Rattle.std.specs.Prelude.{◌≡◌, ◌+◌, ◌<◌, ◌≤◌, IfOk};
ghost use Rattle.work_core.specs.Jobs.{AreValues};
ghost use Rattle.work_core.specs.Stretches.{AreValuesFrom, number_within, number_within-at, number_within-is, stretch-few, stretch-inside};

use crate::crew::Crew;
use crate::gate::Gate;
use crate::job::PairWork;
use crate::name::PairName;
use crate::outs::Outs;
use crate::run::run_pairs;
use crate::tuning::STRETCH_PAIRS;
use std::alloc::{AllocError, Global};
use std::thread::Threads;

/// The `count` pairs of a job from number `first` on, as a job. Its pair with number `i` is the job's pair with number
/// `first + i`, with the same name, inputs and value.
#[derive(Drop)]
pub struct Stretch<'a, W: PairWork> {
    /// The job.
    pub job: &'a W,
    /// The number in the job of the first pair.
    pub first: u64,
    /// The number of pairs.
    pub count: u64,
    pub ghost inside: { first + count ≤ W.pairs job.now },
}

impl<'a, W: PairWork> Stretch<'a, W> {
    /// Returns the `count` pairs of the job from number `first` on.
    pub fn new(job: &'a W, first: u64, count: u64) -> Stretch<'a, W>
        requires { first + count ≤ W.pairs job.now }
        ensures { (result.job.now ≡ job.entry.now) × (result.first ≡ first)
            × (result.count ≡ count) }
    {
        Stretch { job, first, count }
    }

    /// A law: the values of the stretch are the values of the job's pairs from number `first` on.
    pub fn has_values_of_job(&self, outs: &Outs<W::Out>)
        ensures { AreValues ⟦<Stretch<'a, W> as PairWork>⟧ self.now outs.now
            → AreValuesFrom W.PairWork self.now.job.now self.now.first self.now.count outs.now }
    {}
}

impl<'a, W: PairWork> PairWork for Stretch<'a, W> {
    type Out = W::Out;

    ghost Inputs = { W.Inputs };

    ghost pairs = { λ s. s.count };

    ghost name_of = { λ s i. W.name_of s.job.now (s.first + i) };

    ghost place_of = { λ s p. number_within s.first s.count (W.place_of s.job.now p) };

    ghost inputs_of = { λ s p. W.inputs_of s.job.now p };

    ghost IsValue = { λ x out. W.IsValue x out };

    ghost few = { λ s. stretch-few s.first s.count (W.pairs s.job.now) s.inside (W.few s.job.now) };

    ghost placed = { λ s i h. number_within-at s.first s.count i
        (W.place_of s.job.now (W.name_of s.job.now (s.first + i))) h
        (W.placed s.job.now (s.first + i)
        (stretch-inside s.first s.count i (W.pairs s.job.now) h s.inside)) };

    ghost named = { λ s p i e. let found = number_within-is s.first s.count i
        (W.place_of s.job.now p) e in
        (found.0, (W.named s.job.now p (s.first + i) found.1).1) };

    ghost value_prop = { λ x o. W.value_prop x o };

    fn count(&self) -> u64 {
        self.count
    }

    fn name(&self, i: u64) -> PairName {
        self.job.name(self.first + i)
    }

    fn place(&self, pair: PairName) -> Option<u64> {
        let number = self.job.place(pair)?;
        if number >= self.first && number - self.first < self.count {
            Some(number - self.first)
        } else {
            None
        }
    }

    fn run(&self, alloc: Global, pair: PairName) -> Result<W::Out, AllocError> {
        self.job.run(alloc, pair)
    }

    fn same(&self, other: &Self, pair: PairName) -> bool {
        self.place(pair).is_some() && other.place(pair).is_some() && self.job.same(other.job, pair)
    }
}

/// Runs the `count` pairs of the job from number `first` on, as [`run_pairs`] runs all of them, and returns their
/// values.
pub fn run_stretch<R: Threads + Sync, W: PairWork, G: Gate>(
    crew: &Crew<'_, R, G>,
    job: &W,
    first: u64,
    count: u64,
) -> Result<Outs<W::Out>, AllocError>
    requires { first + count ≤ W.pairs job.now }
    ensures { IfOk result (AreValuesFrom W.PairWork job.now first count) }
{
    let stretch = Stretch::new(job, first, count);
    let outs = run_pairs(crew.rt, crew.alloc, &stretch, crew.workers, crew.gate)?;
    stretch.has_values_of_job(&outs);
    Ok(outs)
}
