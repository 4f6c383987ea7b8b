//! The records of a script, and how many of them were consumed.
ghost use Rattle.std.specs.Prelude.{◌≡◌, ◌+◌, ◌-◌, ◌<◌, ◌≤◌, ◌^◌, drop, length, slice_get, take, IfSome, Some};
ghost use Rattle.command_core.specs.Lines.{fields_in};
ghost use Rattle.command_core.specs.Seams.{joined};

use crate::batch::Batch;
use crate::line::Line;
use crate::line_iter::{LineIter, line_and_rest};
use std::marker::Model;

/// Records of a script. Contracts see the list of the records that weren't consumed yet, each a list of its fields'
/// bytes.
#[derive(Drop)]
pub struct Records {
    batches: Vec<Batch>,
    /// The number of consumed records, which are the first ones of the batches.
    passed: usize,
    /// The number of records of all batches.
    count: usize,
}

impl Model for Records {
    ghost use Rattle.std.specs.Prelude.{ℕ, List, length, drop, slice_get, ◌≡◌, ◌≤◌, ◌<◌, ◌^◌, IfSome};
    ghost use Rattle.command_core.specs.Seams.{joined};

    ghost Value = { List (List (List ℕ)) };

    ghost view = { λ r. drop r.passed (joined r.batches.items) };

    ghost invariant = { λ r. (r.count ≡ length (joined r.batches.items)) × (r.passed ≤ r.count)
        × (r.count < 2 ^ 64) × IfSome (slice_get r.batches.items 0) (λ first. r.passed < length first) };
}

impl Records {
    /// Returns the records of `batches`, none of them consumed.
    pub(crate) fn of(mut batches: Vec<Batch>) -> Records
        requires { length (joined batches.items) < 2 ^ 64 }
        ensures { result ≡ joined batches.items }
    {
        give_back(&mut batches, 0);
        let count = count_of(&batches);
        Records {
            batches,
            passed: 0,
            count,
        }
    }

    /// Returns the number of records that are left.
    pub fn len(&self) -> usize
        ensures { result ≡ length self.now }
    {
        self.count - self.passed
    }

    /// Returns the record at an index, counted from the first one left.
    pub fn line(&self, place: usize) -> Line<'_>
        requires { place < length self.now }
        ensures { slice_get self.now place ≡ Some (fields_in result) }
    {
        line_and_rest(&self.batches, self.passed + place).0
    }

    /// Returns the records at indices `from..to`, counted from the first one left.
    pub(crate) fn range(&self, from: usize, to: usize) -> LineIter<'_>
        requires ordered { from ≤ to }
        requires within { to ≤ length self.now }
        ensures { result ≡ take (to - from) (drop from self.entry.now) }
    {
        LineIter::new(&self.batches, self.passed + from, to - from)
    }

    /// Consumes the next `count` records. Frees the batches that have consumed records only.
    pub fn advance(&mut self, count: usize)
        requires { count ≤ length self.old }
        ensures { self.new ≡ drop count self.old }
    {
        self.passed += count;
        let gone = give_back(&mut self.batches, self.passed);
        self.passed -= gone;
        self.count -= gone;
    }
}

/// Removes the leading batches that have consumed records only, if the first `passed` records are consumed. Returns how
/// many records these batches had.
fn give_back(batches: &mut Vec<Batch>, passed: usize) -> usize
    ensures within { result ≤ passed }
    ensures left { joined batches.new.items ≡ drop result (joined batches.old.items) }
    ensures whole { IfSome (slice_get batches.new.items 0)
        (λ first. passed < result + length first) }
{
    let mut gone = 0;
    while let Some(first) = batches.first() {
        let len = first.len();
        if passed - gone < len {
            return gone;
        }
        batches.remove(0);
        gone += len;
    }
    gone
}

/// Returns the number of records of all batches.
fn count_of(batches: &[Batch]) -> usize
    requires { length (joined batches.now) < 2 ^ 64 }
    ensures { result ≡ length (joined batches.now) }
{
    let mut count = 0;
    for batch in batches {
        count += batch.len();
    }
    count
}
