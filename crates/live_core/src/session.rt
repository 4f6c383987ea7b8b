//! The store of a script that arrives in portions, and the numbers of its answers.
ghost use Rattle.std.specs.Prelude.{◌≡◌, ◌<◌, ◌≤◌, ◌^◌, [], length, IfErr, IfOk, OnOk};
ghost use Rattle.stream_core.specs.Counted.{failures_of, sink_of};
ghost use Rattle.live_core.specs.Standing.{HasAnswered, IsFit, StopsAnswering, IsNew};

use command_core::Records;
use period_core::NoMemory;
use script_core::{Ledger, Outcome, answer_each};
use std::alloc::Global;
use std::io::Write;
use std::sync::Wait;
use std::thread::Threads;
use stream_core::{Counted, Patience, RunFault};
use work_core::{Crew, OpenGate};

/// The number of records after which no more are answered: each may take two of the store's calls.
const RECORD_LIMIT: u64 = 1 << 38;

/// The store, and the numbers of the answers.
#[derive(Drop)]
pub(crate) struct Session {
    ledger: Ledger,
    /// The number of the next statement's first record.
    number: u64,
    outcome: Outcome,
}

impl Session {
    /// Returns a session with an empty store.
    pub(crate) fn new(alloc: Global) -> Result<Session, NoMemory>
        ensures { IfOk result IsNew }
    {
        Ok(Session {
            ledger: Ledger::new(alloc)?,
            number: 1,
            outcome: Outcome {
                commands: 0,
                errors: 0,
            },
        })
    }

    /// Returns the number of commands that were answered, and of their `error` records.
    pub(crate) fn outcome(&self) -> Outcome
        ensures { result ≡ self.now.outcome }
    {
        self.outcome
    }

    /// Answers the statements of the next records.
    ///
    /// # Errors
    ///
    /// `TooLong` after about 2^38 records, with nothing written. Otherwise the errors of `answer_each`.
    pub(crate) fn answer<T: Threads + Wait + Sync, W: Write>(
        &mut self,
        crew: &Crew<'_, T, OpenGate>,
        records: Records,
        writer: &mut Counted<W>,
        patience: &mut Patience,
    ) -> Result<(), RunFault>
        requires fit { IsFit self.old }
        requires few { length records < 2 ^ 32 }
        ensures fit { OnOk result (IsFit self.new) }
        ensures ok { OnOk result (HasAnswered records self.old self.new
            (sink_of W.contents writer.old) (sink_of W.contents writer.new)) }
        ensures fault { IfErr result (StopsAnswering records self.old
            (sink_of W.contents writer.old) (sink_of W.contents writer.new)) }
        ensures counts { failures_of writer.old ≤ failures_of writer.new }
    {
        if self.number > RECORD_LIMIT {
            return Err(RunFault::TooLong);
        }
        let count = records.len() as u64;
        let reported = answer_each(
            crew,
            &mut self.ledger,
            self.number,
            records,
            writer,
            patience,
        )?;
        self.number += count;
        self.outcome.commands += reported.commands;
        self.outcome.errors += reported.errors;
        Ok(())
    }
}
