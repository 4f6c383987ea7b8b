//! Jobs, which are run pair by pair.

ghost use Rattle.std.specs.Prelude.{◌≡◌, ℕ, ◌<◌, ◌≤◌, ◌↔◌, Option, Some, IfOk, IsTrue, IsSome};
ghost use Rattle.work_core.specs.Limits.{pair_limit};
ghost use Rattle.work_core.specs.declared.name.PairName.{PairName};

use crate::name::PairName;
use std::alloc::{AllocError, Global};

/// A job: a numbered list of pairs, at most 2^40, each of which can be run independently.
///
/// The job defines which values its pairs may have, by their inputs. Only `run` allocates.
pub trait PairWork: Sync {
    /// The value of a pair.
    type Out: Send + Drop;

    // How many pairs the job has, and the name with each number.
    ghost pairs: { Self → ℕ };

    ghost name_of: { Self → ℕ → PairName };

    // The number of the pair with that name, if the job has it.
    ghost place_of: { Self → PairName → Option ℕ };

    // All that the value of a pair depends on.
    ghost Inputs: { Type 0 };

    ghost inputs_of: { Self → PairName → Inputs };

    // The definition: this is a value of a pair with these inputs.
    ghost IsValue: { Inputs → Self.Out → Type 0 };

    /// Returns the number of pairs.
    fn count(&self) -> u64
        ensures { result ≡ pairs self.now };

    /// Returns the name of the pair with number `i`, counted from 0.
    fn name(&self, i: u64) -> PairName
        requires { i < pairs self.now }
        ensures { result ≡ name_of self.now i };

    /// Returns the number of the pair with that name, or `None` if the job has no such pair.
    fn place(&self, pair: PairName) -> Option<u64>
        ensures { result ≡ place_of self.now pair };

    /// Runs a pair of the job, and returns its value.
    fn run(&self, alloc: Global, pair: PairName) -> Result<Self::Out, AllocError>
        requires { IsSome (place_of self.now pair) }
        ensures { IfOk result (IsValue (inputs_of self.now pair)) };

    /// Returns whether both jobs have the pair, with equal inputs.
    fn same(&self, other: &Self, pair: PairName) -> bool
        ensures { IsTrue result
            ↔ (IsSome (place_of self.now pair) × IsSome (place_of other.now pair)
            × (inputs_of self.now pair ≡ inputs_of other.now pair)) };

    ghost few: { (w : Self) → pairs w ≤ pair_limit };

    // Names and numbers correspond one to one.
    ghost placed: { (w : Self) (i : ℕ) → i < pairs w → place_of w (name_of w i) ≡ Some i };

    ghost named: { (w : Self) (p : PairName) (i : ℕ) → place_of w p ≡ Some i → (i < pairs w)
        × (name_of w i ≡ p) };

    ghost value_prop: { (x : Inputs) (o : Self.Out) → IsProp (IsValue x o) };
}
