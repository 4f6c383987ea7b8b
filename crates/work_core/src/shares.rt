//! Partitions of the work: consecutive ranges of values, cut at the values of a sample, so that all workers have about
//! the same amount of work. Each range is worked on by itself.

ghost use Rattle.std.specs.Prelude.{◌≡◌, ◌+◌, ◌*◌, ◌/◌, ◌^◌, max, min, ℕ, ◌<◌, ◌≤◌, None, length, IfOk, IfSome, true};
ghost use Rattle.std.specs.Thread.{IsSync};
ghost use Rattle.work_core.specs.Limits.{worker_limit};
ghost use Rattle.work_core.specs.Ranges.{is_from};
ghost use Rattle.work_core.specs.Shares.{AreCuts, Gives, GivesFrom, HaveEach, IsShare, end_at, range_at, workers_at, workers_in};
ghost use Rattle.work_core.specs.declared.range.Range.{Range as AnyRange};

use crate::drawing::call_each;
use crate::range::Range;
use crate::run::WORKER_LIMIT;
use crate::tuning::{ITEMS_OF_SHARE, RANGES_OF_WORKER, SAMPLE};
use std::alloc::{AllocError, Global};
use std::thread::Threads;

/// The boundary between two neighbouring ranges.
#[derive(Clone, Copy, Debug, PartialEq, Eq)]
pub struct Cut<T> {
    /// The first value of the next range.
    pub at: T,
    /// How many workers the range before it has.
    pub workers: u32,
}

/// Consecutive ranges that together contain every value, each with some of the workers.
#[derive(Drop)]
pub struct Shares<T: Ord> {
    /// The boundaries, by rising value.
    pub cuts: Vec<Cut<T>>,
    /// How many workers the last range has.
    pub last: u32,
    /// How many workers the ranges have in all.
    pub workers: u32,
    /// How many ranges are worked on at the same time.
    pub threads: u32,
    pub ghost rise: { AreCuts T.cmp cuts.items workers },
    pub ghost some: { (0 < last) × (last ≤ workers) },
    pub ghost shared: { workers_in cuts.items + last ≡ workers },
    pub ghost few: { length cuts.items < 2 ^ 32 },
    pub ghost busy: { (0 < threads) × (threads ≤ worker_limit) },
}

impl Shares<usize> {
    /// Partitions the indices below `count` into ranges of about equal length (`ranges_for`), each with one worker.
    ///
    /// # Errors
    ///
    /// `AllocError` if an allocation is refused.
    pub fn by_index(alloc: Global, count: usize, workers: u32) -> Result<Shares<usize>, AllocError>
        requires { (0 < workers) × (workers ≤ worker_limit) }
        ensures { IfOk result (λ shares. shares.threads ≡ workers) }
    {
        let parts = ranges_for(count / ITEMS_OF_SHARE, workers);
        let step = count / parts as usize;
        let mut starts = Vec::with_capacity(alloc, parts as usize)?;
        for part in 0..parts as usize {
            starts.push(part * step)?;
        }
        cut_at(alloc, &starts, parts, parts, workers)
    }
}

impl<T: Ord + Copy> Shares<T> {
    /// Partitions `count` items by their values. The shares of the workers are about equal, if the values differ
    /// enough. If there are few items, or most have one value, there are fewer ranges, which have more workers.
    ///
    /// # Errors
    ///
    /// `AllocError` if an allocation is refused.
    pub fn of<F: Fn(usize) -> T>(
        alloc: Global,
        count: usize,
        workers: u32,
        value_at: &F,
    ) -> Result<Shares<T>, AllocError>
        requires some { 0 < workers }
        requires values { (i : ℕ) → i < count → F.pre value_at.now i }
        ensures workers { IfOk result (λ shares. shares.workers ≡ workers) }
        ensures shared { IfOk result (λ shares.
            workers_in shares.cuts.items + shares.last ≡ workers) }
        ensures each { IfOk result (λ shares. HaveEach T.cmp shares.cuts.items) }
    {
        let parts = parts_for(count, workers);
        let sample = sample_of(alloc, count, parts, value_at)?;
        cut_at(alloc, &sample, parts, workers, workers)
    }

    /// Returns the number of ranges.
    pub fn len(&self) -> usize
        ensures { result ≡ length self.now.cuts.items + 1 }
    {
        self.cuts.len() + 1
    }

    /// Returns the range at index `number`.
    pub fn range(&self, number: usize) -> Range<T>
        requires { number ≤ length self.now.cuts.items }
        ensures { result ≡ range_at None self.now.cuts.items number }
    {
        let from = if number == 0 {
            None
        } else {
            end_of(&self.cuts, number - 1)
        };
        Range {
            from,
            before: end_of(&self.cuts, number),
        }
    }

    /// Returns how many workers the range at index `number` has.
    pub fn workers_of(&self, number: usize) -> u32
        requires { number ≤ length self.now.cuts.items }
        ensures some { (0 < result) × (result ≤ self.now.workers) }
        ensures value { result ≡ workers_at self.now.cuts.items self.now.last number }
    {
        match self.cuts.get(number) {
            None => self.last,
            Some(cut) => cut.workers,
        }
    }
}

/// Returns the end of the range at index `number`, or `None` for the last one.
fn end_of<T: Copy>(cuts: &[Cut<T>], number: usize) -> Option<T>
    ensures { result ≡ end_at cuts.now number }
{
    match cuts.get(number) {
        None => None,
        Some(cut) => Some(cut.at),
    }
}

/// Returns into how many ranges work is cut if each of `most` ranges is enough for a worker: as many for each worker, and
/// several for each of several workers, so that a worker that is done with one takes the next. If there are fewer than
/// workers, a worker has at most one.
pub fn ranges_for(most: usize, workers: u32) -> u32
    requires { (0 < workers) × (workers ≤ worker_limit) }
    ensures some { 0 < result }
    ensures few { result ≤ max 1 (min most (workers * RANGES_OF_WORKER)) }
{
    let most_each = if workers > 1 {
        RANGES_OF_WORKER as usize
    } else {
        1
    };
    let each = (most / workers as usize).clamp(1, most_each);
    (workers as usize * each).min(most).max(1) as u32
}

/// Returns for how many of the workers `count` items are enough work; at least 1.
fn parts_for(count: usize, workers: u32) -> u32
    requires { 0 < workers }
    ensures { result ≡ max 1 (min (count / ITEMS_OF_SHARE) workers) }
{
    let most = count / ITEMS_OF_SHARE;
    if most >= workers as usize {
        workers
    } else {
        (most as u32).max(1)
    }
}

/// Returns the values of a sample of the items, sorted; no values if there is only one part.
fn sample_of<T: Ord + Copy, F: Fn(usize) -> T>(
    alloc: Global,
    count: usize,
    parts: u32,
    value_at: &F,
) -> Result<Vec<T>, AllocError>
    requires { (i : ℕ) → i < count → F.pre value_at.now i }
{
    let mut sample = Vec::new(alloc);
    if parts > 1 {
        for i in (0..count).step_by(count / SAMPLE + 1) {
            sample.push(value_at(i))?;
        }
        sample.sort_unstable();
    }
    Ok(sample)
}

/// Cuts a sorted sample into `parts` parts, and drops a boundary whose value doesn't differ from the one before. Each
/// range has a worker for each part in it, and the last range has all that remain. At most `threads` ranges are
/// worked on at the same time.
fn cut_at<T: Ord + Copy>(
    alloc: Global,
    sample: &[T],
    parts: u32,
    workers: u32,
    threads: u32,
) -> Result<Shares<T>, AllocError>
    requires parts { (0 < parts) × (parts ≤ workers) }
    requires threads { 0 < threads }
    ensures workers { IfOk result (λ shares. shares.workers ≡ workers) }
    ensures threads { IfOk result (λ shares. shares.threads ≡ min threads worker_limit) }
{
    let threads = threads.min(WORKER_LIMIT);
    let mut cuts = Vec::new(alloc);
    let mut left = workers;
    let Some(first) = sample.first() else {
        return Ok(Shares {
            cuts,
            last: left,
            workers,
            threads,
        });
    };
    let step = sample.len() / parts as usize;
    let mut last = *first;
    let mut some = 0;
    for part in 1..parts {
        some += 1;
        if let Some(at) = value_behind(last, sample.get(step.saturating_mul(part as usize))) {
            cuts.push(Cut { at, workers: some })?;
            left -= some;
            some = 0;
            last = at;
        }
    }
    Ok(Shares {
        cuts,
        last: left,
        workers,
        threads,
    })
}

/// Returns the second value if it is greater than the first.
fn value_behind<T: Ord + Copy>(first: T, second: Option<&T>) -> Option<T>
    ensures { IfSome result (λ at. is_from T.cmp first at ≡ true) }
{
    let second = *second?;
    if first < second { Some(second) } else { None }
}

/// Calls `work` with each range and the number of its workers, and returns the results in the order of the ranges.
/// Threads take one range after another. `work` is called only with these ranges and numbers of workers.
///
/// # Errors
///
/// `AllocError` if a call returns one, or if an allocation is refused.
pub fn shared_out<
    R: Threads + Sync,
    T: Ord + Copy + Sync,
    X: Send + Drop,
    F: Fn(Range<T>, u32) -> Result<X, AllocError> + Sync,
>(rt: &R, alloc: Global, shares: &Shares<T>, work: &F) -> Result<Vec<X>, AllocError>
    requires { (r : AnyRange T) (n : ℕ) → 0 < n → n ≤ shares.now.workers
        → IsShare shares.now.cuts.items shares.now.last r n → F.pre work.now r n }
    ensures { IfOk result (λ found.
        GivesFrom T.cmp (Gives (F.post work.now)) None shares.now.cuts.items found.items) }
{
    call_each(
        rt,
        alloc,
        shares.len(),
        shares.threads,
        &|number: usize| -> Result<X, AllocError>
            requires { (number ≤ length shares.now.cuts.items)
                × ((r : AnyRange T) (n : ℕ) → 0 < n → n ≤ shares.now.workers
                → IsShare shares.now.cuts.items shares.now.last r n → F.pre work.now r n) }
            ensures { (n : ℕ)
                × F.post work.entry.now
                (range_at None shares.entry.now.cuts.items number) n result }
        { work(shares.range(number), shares.workers_of(number)) },
    )
}
