//! The store of a script, with its only pass.
ghost use Rattle.std.specs.Prelude.{◌≡◌, ◌+◌, ◌<◌, [], length, IfOk};
ghost use Rattle.book_core.specs.Versions.{log_of};
ghost use Rattle.turn_core.specs.Limits.{call_limit};
ghost use Rattle.store_core.specs.Histories.{CommitsTo};
ghost use Rattle.store_core.specs.Passes.{IsPassOf, passes_of};
ghost use Rattle.store_core.specs.Snapshots.{history};

use book_core::{BookRefused, Change, Log};
use period_core::NoMemory;
use row_core::Failure;
use std::alloc::{AllocError, Global};
use std::sync::Wait;
use store_core::{BadCount, Pass, PassSpent, Snapshot, SnapshotRefused, Store, StoreRefused};
use turn_core::CALL_LIMIT;

/// A store and its only pass, whose calls have the results that a book has. Contracts see the history, and the number
/// of calls that are left.
#[derive(Drop)]
pub struct Ledger {
    store: Store,
    pass: Pass,
    ghost one: { passes_of pass ≡ 1 },
    ghost own: { IsPassOf store pass },
}

impl Ledger {
    ghost use Rattle.script_core.specs.Ledgers.{ledger_history, left_in, ShowsAll};

    /// Returns a store without tables.
    pub fn new(alloc: Global) -> Result<Ledger, NoMemory>
        ensures { IfOk result
            (λ ledger. (ledger_history ledger ≡ []) × (left_in ledger ≡ call_limit)) }
    {
        match Store::new(alloc, 1, CALL_LIMIT) {
            Ok((store, mut passes)) => match passes.pop() {
                Some(pass) => Ok(Ledger { store, pass }),
                None => unreachable!(),
            },
            Err(Failure::Refused(BadCount)) => unreachable!(),
            Err(Failure::NoMemory) => Err(AllocError),
        }
    }

    /// Makes a change, and returns the commit's number, counted from 1.
    pub(crate) fn commit<R: Wait>(
        &mut self,
        rt: &R,
        change: Change,
    ) -> Result<u64, Failure<BookRefused>>
        requires { 0 < left_in self.old }
        ensures made { CommitsTo (ledger_history self.old) 1 change result
            (ledger_history self.new) }
        ensures left { left_in self.new + 1 ≡ left_in self.old }
    {
        match self.store.commit(rt, &mut self.pass, change) {
            Ok(number) => Ok(number),
            Err(Failure::Refused(StoreRefused::PassSpent)) => unreachable!(),
            Err(Failure::Refused(StoreRefused::Book(why))) => Err(Failure::Refused(why)),
            Err(Failure::NoMemory) => Err(Failure::NoMemory),
        }
    }

    /// Returns a snapshot of all commits.
    pub(crate) fn newest<R: Wait>(&mut self, rt: &R) -> Result<Snapshot, NoMemory>
        requires { 0 < left_in self.old }
        ensures same { ledger_history self.new ≡ ledger_history self.old }
        ensures shows { IfOk result
            (λ snapshot. (history snapshot ≡ ledger_history self.old) × ShowsAll snapshot) }
        ensures left { left_in self.new + 1 ≡ left_in self.old }
    {
        match self.store.snapshot(rt, &mut self.pass, None) {
            Ok(snapshot) => Ok(snapshot),
            Err(Failure::Refused(SnapshotRefused::PassSpent | SnapshotRefused::Future)) =>
                unreachable!(),
            Err(Failure::NoMemory) => Err(AllocError),
        }
    }

    /// Returns what each commit did.
    pub(crate) fn log<R: Wait>(&mut self, rt: &R) -> Result<Log, NoMemory>
        requires { 0 < left_in self.old }
        ensures same { ledger_history self.new ≡ ledger_history self.old }
        ensures reported { IfOk result (λ log. log ≡ log_of (ledger_history self.old)) }
        ensures left { left_in self.new + 1 ≡ left_in self.old }
    {
        match self.store.log(rt, &mut self.pass) {
            Ok(log) => Ok(log),
            Err(Failure::Refused(PassSpent)) => unreachable!(),
            Err(Failure::NoMemory) => Err(AllocError),
        }
    }
}
