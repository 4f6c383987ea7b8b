//! Numbered calls that workers draw: each worker makes the next call when it has made one.

ghost use Rattle.std.specs.Prelude.{◌≡◌, ℕ, ◌+◌, ◌<◌, ◌≤◌, IfOk, All, IsSome, None, Ok, Some, [], length, min, max, replicate, slice_get, vec_len, ⊤};
ghost use Rattle.work_core.specs.Claims.{all_parts, first_view};
ghost use Rattle.work_core.specs.Collected.{ArePlaces};
ghost use Rattle.work_core.specs.Counting.{times};
ghost use Rattle.work_core.specs.Limits.{pair_limit, worker_limit};
ghost use Rattle.work_core.specs.Workers.{AreAnswers, HasPlaces, IsFreshWorker, IsOfItsCall, IsWorkerAnswer, count_at, numbers_of};

use crate::claims::{ClaimSeat, Claims};
use crate::collector::empty_places;
use crate::kept::KeptValues;
use crate::numbered::Numbered;
use crate::outs::Outs;
use crate::worker::{Worker, WorkerAnswer, work};
use std::alloc::{AllocError, Global};
use std::thread;
use std::thread::Threads;

/// Numbered calls, at most 2^40, each of which can be made by itself.
pub(crate) trait Calls: Sync {
    /// The value of a call.
    type Out: Send + Drop;

    // How many calls there are.
    ghost count_of: { Self → ℕ };

    // Whether the calls can be made.
    ghost ready: { Self → Type 0 } = { λ _. ⊤ };

    // The call with that number may return this value.
    ghost IsValue: { Self → ℕ → Self.Out → Type 0 };

    /// Returns the number of calls.
    fn count(&self) -> u64
        ensures { result ≡ count_of self.now };

    /// Makes the call with that number.
    fn call(&self, number: u64) -> Result<Self::Out, AllocError>
        requires inside { number < count_of self.now }
        requires ready { ready self.now }
        ensures { IfOk result (IsValue self.now number) };

    ghost few: { (w : Self) → count_of w ≤ pair_limit };
}

// Makes the workers, each with a seat of its own; the last one has the slots.
fn deal<T: Drop>(
    alloc: Global,
    claims: &Claims,
    seat: &mut ClaimSeat,
    workers: u32,
    places: Vec<Option<T>>,
) -> Result<Vec<Worker<T>>, AllocError>
    requires table { seat.old.table_id ≡ claims.now }
    requires first { seat.old.me ≡ (first_view, []) }
    requires few { (0 < workers) × (workers ≤ worker_limit) }
    requires empty { places.items ≡ replicate (length places.items) None }
    ensures table { seat.new.table_id ≡ seat.old.table_id }
    ensures left { IfOk result (λ _. (seat.new.me.0.parts + workers ≡ all_parts)
        × (seat.new.me.0.drawn ≡ []) × (seat.new.me.1 ≡ [])) }
    ensures len { IfOk result (λ team. vec_len team ≡ workers) }
    ensures fresh { IfOk result (λ team. All (IsFreshWorker seat.old.table_id) team.items) }
    ensures places { IfOk result (λ team. HasPlaces (length places.items) team.items) }
{
    let mut team = Vec::new(alloc);
    for _ in 1..workers {
        let kept = KeptValues::with_places(alloc, Vec::new(alloc));
        team.push(Worker {
            seat: claims.split(seat),
            kept,
        })?;
    }
    let kept = KeptValues::with_places(alloc, places);
    team.push(Worker {
        seat: claims.split(seat),
        kept,
    })?;
    Ok(team)
}

// Stores each value in its slot.
fn place_all<C: Calls>(calls: &C, places: &mut Vec<Option<C::Out>>, values: Vec<Numbered<C::Out>>)
    requires are { ArePlaces (C.count_of calls.now) (C.IsValue calls.now) places.old.items }
    requires values { All (IsOfItsCall (C.count_of calls.now) (C.IsValue calls.now)) values.items }
    ensures are { ArePlaces (C.count_of calls.now) (C.IsValue calls.now) places.new.items }
    ensures each { (x : ℕ) → x < C.count_of calls.now
        → 0 < count_at places.old.items x + times x (numbers_of values.items)
        → 0 < count_at places.new.items x }
{
    for numbered in values {
        let Numbered { number, value } = numbered;
        places[number as usize] = Some(value);
    }
}

// Returns the values that the workers made, each in its slot, or `AllocError` if a run was refused.
fn gather<C: Calls>(
    calls: &C,
    claims: Claims,
    mut seat: ClaimSeat,
    mut answers: Vec<WorkerAnswer<C::Out>>,
) -> Result<Vec<Option<C::Out>>, AllocError>
    requires table { seat.table_id ≡ claims }
    requires seat { (seat.me.0.parts + vec_len answers ≡ all_parts)
        × (seat.me.0.drawn ≡ []) × (seat.me.1 ≡ []) }
    requires some { 0 < vec_len answers }
    requires answers { AreAnswers (C.count_of calls.now) (C.IsValue calls.now) seat.table_id answers.items }
    ensures are { IfOk result (λ places. ArePlaces (C.count_of calls.now) (C.IsValue calls.now) places.items) }
    ensures all { IfOk result (λ places. All IsSome places.items) }
{
    let Some(last) = answers.pop() else {
        unreachable!()
    };
    claims.join(&mut seat, last.seat);
    let mut places = last.kept?.places;
    for answer in answers {
        claims.join(&mut seat, answer.seat);
        place_all(calls, &mut places, answer.kept?.values);
    }
    claims.close(seat);
    Ok(places)
}

// Returns the requested number of workers, but at most one for each call, and at least one: starting a thread takes far
// longer than a small call.
fn workers_for(count: u64, workers: u32) -> u32
    requires { 0 < workers }
    ensures { result ≡ max 1 (min count workers) }
{
    if count >= workers as u64 {
        workers
    } else if count > 0 {
        count as u32
    } else {
        1
    }
}

/// Makes all calls, on 1 to 64 workers, one of which is the calling thread, and returns their values by number.
///
/// # Errors
///
/// `AllocError` if a call or an allocation is refused.
pub(crate) fn call_all<R: Threads + Sync, C: Calls>(
    rt: &R,
    alloc: Global,
    calls: &C,
    workers: u32,
) -> Result<Vec<Option<C::Out>>, AllocError>
    requires workers { (0 < workers) × (workers ≤ worker_limit) }
    requires ready { C.ready calls.now }
    ensures are { IfOk result (λ places.
        ArePlaces (C.count_of calls.now) (C.IsValue calls.now) places.items) }
    ensures all { IfOk result (λ places. All IsSome places.items) }
{
    let count = calls.count();
    let places = empty_places(alloc, count as usize)?;
    let (claims, mut seat) = Claims::new(alloc)?;
    let team = deal(
        alloc,
        &claims,
        &mut seat,
        workers_for(count, workers),
        places,
    )?;
    let answers = thread::map_vec(
        rt,
        team,
        &|worker: Worker<C::Out>| -> WorkerAnswer<C::Out>
            requires { IsFreshWorker claims worker × C.ready calls.now }
            ensures { IsWorkerAnswer (C.count_of calls.entry.now) (C.IsValue calls.entry.now) claims
                (length worker.kept.places.items) result }
        { work(calls, &claims, worker) },
    )?;
    gather(calls, claims, seat, answers)
}

/// The calls of a function with the indices below `count`.
#[derive(Drop)]
struct Indices<'f, X, F: Fn(usize) -> Result<X, AllocError>> {
    count: usize,
    work: &'f F,
    ghost few: { count ≤ pair_limit },
}

impl<'f, X: Send + Drop, F: Fn(usize) -> Result<X, AllocError> + Sync> Calls for Indices<'f, X, F> {
    type Out = X;

    ghost count_of = { λ c. c.count };

    ghost ready = { λ c. (i : ℕ) → i < c.count → F.pre c.work.now i };

    ghost IsValue = { λ c i x. F.post c.work.now i (Ok x) };

    ghost few = { λ c. c.few };

    fn count(&self) -> u64 {
        self.count as u64
    }

    fn call(&self, number: u64) -> Result<X, AllocError> {
        let work = self.work;
        work(number as usize)
    }
}

/// Calls `work` with each index below `count`, and returns the results in order. Each of the workers calls it with the
/// next index when an earlier call has returned; one of them is the calling thread. No more threads are started than
/// there are indices, and if a thread can't be started, its calls run on another one.
///
/// # Errors
///
/// `AllocError` if a call returns one, or if an allocation is refused.
pub fn call_each<R: Threads + Sync, X: Send + Drop, F: Fn(usize) -> Result<X, AllocError> + Sync>(
    rt: &R,
    alloc: Global,
    count: usize,
    workers: u32,
    work: &F,
) -> Result<Vec<X>, AllocError>
    requires few { count ≤ pair_limit }
    requires workers { (0 < workers) × (workers ≤ worker_limit) }
    requires ready { (i : ℕ) → i < count → F.pre work.now i }
    ensures len { IfOk result (λ found. length found.items ≡ count) }
    ensures each { IfOk result (λ found. (i : ℕ) (x : X) → slice_get found.items i ≡ Some x
        → F.post work.now i (Ok x)) }
{
    let places = call_all(rt, alloc, &Indices { count, work }, workers)?;
    Outs::at_places(places).into_vec(alloc)
}
