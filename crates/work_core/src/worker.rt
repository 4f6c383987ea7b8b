//! A worker: it draws the number of a call, makes that call, and draws again.

ghost use Rattle.std.specs.Prelude.{◌<◌, length, IfOk};
ghost use Rattle.work_core.specs.Workers.{IsCalled, IsCalledAfter, IsFreshWorker, IsWorkerAnswer};

use crate::claims::{ClaimSeat, Claims};
use crate::drawing::Calls;
use crate::kept::KeptValues;
use std::alloc::AllocError;

/// A worker: its right to draw, and the values that it keeps.
#[derive(Drop)]
pub(crate) struct Worker<T> {
    pub seat: ClaimSeat,
    pub kept: KeptValues<T>,
}

/// A worker's result: what it knows of the draws, and its values, if no call was refused.
#[derive(Drop)]
pub(crate) struct WorkerAnswer<T> {
    pub seat: ClaimSeat,
    pub kept: Result<KeptValues<T>, AllocError>,
}

// Makes the call with that number, and keeps its value with the others.
fn call_one<C: Calls>(
    calls: &C,
    number: u64,
    mut kept: KeptValues<C::Out>,
) -> Result<KeptValues<C::Out>, AllocError>
    requires inside { number < C.count_of calls.now }
    requires ready { C.ready calls.now }
    ensures { IfOk result (IsCalled (C.IsValue calls.now) number kept) }
{
    kept.put(number, calls.call(number)?)?;
    Ok(kept)
}

// Makes one call more. After a refused call there are no values to keep its value with, so it isn't made.
fn call_next<C: Calls>(
    calls: &C,
    number: u64,
    kept: Result<KeptValues<C::Out>, AllocError>,
) -> Result<KeptValues<C::Out>, AllocError>
    requires inside { number < C.count_of calls.now }
    requires ready { C.ready calls.now }
    ensures { IfOk result (λ new. IsCalledAfter (C.IsValue calls.now) number kept new) }
{
    match kept {
        Ok(kept) => call_one(calls, number, kept),
        Err(refused) => Err(refused),
    }
}

/// Draws numbers and makes their calls, until a number is past the last one. After a refused call it continues to draw
/// without calling, so that all numbers are drawn.
pub(crate) fn work<C: Calls>(
    calls: &C,
    claims: &Claims,
    worker: Worker<C::Out>,
) -> WorkerAnswer<C::Out>
    requires fresh { IsFreshWorker claims.now worker }
    requires ready { C.ready calls.now }
    ensures { IsWorkerAnswer (C.count_of calls.now) (C.IsValue calls.now) claims.now
        (length worker.kept.places.items) result }
{
    let Worker { mut seat, kept } = worker;
    let count = calls.count();
    let mut kept = Ok(kept);
    let mut number = claims.draw(&mut seat);
    while number < count {
        kept = call_next(calls, number, kept);
        number = claims.draw(&mut seat);
    }
    WorkerAnswer { seat, kept }
}
