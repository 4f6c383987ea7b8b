//! Pieces: values whose type records their pair and their job.

ghost use Rattle.std.specs.Prelude.{◌≡◌, IfOk, IsSome};
ghost use Rattle.work_core.specs.declared.name.PairName.{PairName};

use crate::job::PairWork;
use crate::name::PairName;
use std::alloc::{AllocError, Global};

/// A value of one pair of one job; the type records both.
#[derive(Drop)]
pub struct Piece<'j, W: PairWork> {
    /// The job.
    pub job: &'j W,
    /// The name of a pair that the job has.
    pub name: PairName,
    /// That pair's value.
    pub out: W::Out,
    pub ghost has_pair: { IsSome (W.place_of job.now name) },
    pub ghost is_value: { ∥ W.IsValue (W.inputs_of job.now name) out ∥₁ },
}

impl<'j, W: PairWork> Piece<'j, W> {
    /// Runs a pair that the job has.
    pub fn make(alloc: Global, job: &'j W, name: PairName) -> Result<Piece<'j, W>, AllocError>
        requires { IsSome (W.place_of job.now name) }
        ensures { IfOk result (λ piece. (piece.job.now ≡ job.entry.now) × (piece.name ≡ name)) }
    {
        let out = job.run(alloc, name)?;
        Ok(Piece { job, name, out })
    }

    /// Returns the name of its pair.
    pub fn name(&self) -> PairName
        ensures { result ≡ self.now.name }
    {
        self.name
    }

    /// Returns its job.
    pub fn job(&self) -> &'j W
        ensures { result.now ≡ self.now.job.now }
    {
        self.job
    }
}
