//! The store, and the calls of its passes.

ghost use Rattle.std.specs.Prelude.{◌≡◌, ◌<◌, ◌≤◌, [], map, All, vec_len, vec_capacity, IfOk};
ghost use Rattle.book_core.specs.History.{IsLegal};
ghost use Rattle.book_core.specs.Versions.{log_of};
ghost use Rattle.row_core.specs.Refusals.{AnswersOr};
ghost use Rattle.turn_core.specs.Seats.{view_of};
ghost use Rattle.store_core.specs.Limits.{bad_count};
ghost use Rattle.store_core.specs.Histories.{CommitsTo};
ghost use Rattle.store_core.specs.Shelves.{passes_in, shelf_history};
ghost use Rattle.store_core.specs.Snapshots.{Shows};

use crate::pass::{Note, Pass};
use crate::refusal::{BadCount, Future, PassSpent, SnapshotRefused, StoreRefused};
use crate::shelf::Shelf;
use crate::snapshot::Snapshot;
use book_core::{BookRefused, Change, Log};
use row_core::{Failure, NoMemory};
use std::alloc::Global;
use std::sync::Wait;
use turn_core::{CALL_LIMIT, SEAT_LIMIT, Seat, Turn};

/// A book that callers on several threads share, each with a pass of its own. The caller must use passes and notes of
/// this store only.
#[derive(Drop)]
pub struct Store {
    turn: Turn<Shelf>,
}

// Makes a pass for each new seat.
fn passes_for(seats: Vec<Seat<Shelf>>, calls_each: u64, list: &mut Vec<Pass>)
    requires room { (list.old.items ≡ []) × (vec_len seats ≤ vec_capacity list.old) }
    requires new { All (λ seat. (0 < (view_of seat).number) × (calls_each ≤ (view_of seat).left)
        × ((view_of seat).seen ≡ [])) seats.items }
    ensures seats { map (λ pass. pass.seat) list.new.items ≡ seats.items }
    ensures left { All (λ pass. pass.left ≡ calls_each) list.new.items }
{
    for seat in seats {
        list.push_reserved(Pass {
            left: calls_each,
            seat,
        });
    }
}

impl Store {
    ghost use Rattle.store_core.specs.Passes.{AreNew, Commits, Hears, IsNoteOf, IsPassOf, MakesNote, ReadsLog, TakesSnapshot};

    /// Returns a store without tables, and its passes. The pass at index `i` has the number `i + 1`.
    ///
    /// # Errors
    ///
    /// `BadCount`; `NoMemory`, in this order.
    pub fn new(
        alloc: Global,
        passes: u32,
        calls_each: u64,
    ) -> Result<(Store, Vec<Pass>), Failure<BadCount>>
        ensures { AnswersOr (bad_count passes calls_each)
            (λ made. AreNew passes calls_each made.0 made.1.items) result }
    {
        if passes < 1 || passes > SEAT_LIMIT || calls_each < 1 || calls_each > CALL_LIMIT {
            return Err(Failure::Refused(BadCount));
        }
        let shelf = Shelf::new(alloc, passes)?;
        let mut list = Vec::with_capacity(alloc, passes as usize)?;
        let (turn, seats) = Turn::new(alloc, shelf, passes)?;
        passes_for(seats, calls_each, &mut list);
        Ok((Store { turn }, list))
    }

    /// Commits a change, and returns the number of its commit. Commits are numbered from 1. If a snapshot shares the
    /// book, the change is made in a second book, which takes turns with it. That one is a copy at first, and whenever
    /// a snapshot shares it too.
    ///
    /// # Errors
    ///
    /// `PassSpent`, which counts no call; then the book's errors, and `NoMemory` also if a copy is refused memory. A
    /// refused change is dropped, and the history is unchanged.
    pub fn commit<R: Wait>(
        &self,
        rt: &R,
        pass: &mut Pass,
        change: Change,
    ) -> Result<u64, Failure<StoreRefused>>
        requires { IsPassOf self.now pass.old }
        ensures store { IsPassOf self.now pass.new }
        ensures reply { Commits pass.old change result pass.new }
    {
        if pass.left == 0 {
            return Err(Failure::Refused(StoreRefused::PassSpent));
        }
        let by = pass.seat.number();
        pass.left -= 1;
        let reply = self.turn.with(
            rt,
            &mut pass.seat,
            move |shelf: &mut Shelf| -> Result<u64, Failure<BookRefused>>
                requires { (0 < by) × (by ≤ passes_in shelf.old) }
                ensures passes { passes_in shelf.new ≡ passes_in shelf.old }
                ensures reply { CommitsTo (shelf_history shelf.old) by change result
                    (shelf_history shelf.new) }
                ensures legal { IsLegal (shelf_history shelf.new) }
            { shelf.commit(by, change) },
        );
        match reply {
            Ok(number) => Ok(number),
            Err(Failure::Refused(why)) => Err(Failure::Refused(StoreRefused::Book(why))),
            Err(Failure::NoMemory) => Err(Failure::NoMemory),
        }
    }

    /// Returns a snapshot of the first `n` commits, or of all commits without a number.
    ///
    /// # Errors
    ///
    /// `PassSpent`, which counts no call; `Future` if there are fewer than `n` commits; `NoMemory` if the book can't be
    /// shared once more. It allocates nothing.
    pub fn snapshot<R: Wait>(
        &self,
        rt: &R,
        pass: &mut Pass,
        n: Option<u64>,
    ) -> Result<Snapshot, Failure<SnapshotRefused>>
        requires { IsPassOf self.now pass.old }
        ensures store { IsPassOf self.now pass.new }
        ensures reply { TakesSnapshot pass.old n result pass.new }
    {
        if pass.left == 0 {
            return Err(Failure::Refused(SnapshotRefused::PassSpent));
        }
        pass.left -= 1;
        let reply = self.turn.with(
            rt,
            &mut pass.seat,
            move |shelf: &mut Shelf| -> Result<Snapshot, Failure<Future>>
                ensures same { shelf.new ≡ shelf.old }
                ensures reply { Shows (shelf_history shelf.old) n result }
            { shelf.snapshot(n) },
        );
        match reply {
            Ok(snapshot) => Ok(snapshot),
            Err(Failure::Refused(Future)) => Err(Failure::Refused(SnapshotRefused::Future)),
            Err(Failure::NoMemory) => Err(Failure::NoMemory),
        }
    }

    /// Returns the commits, oldest first, each with the numbers of versions that it added and closed.
    ///
    /// # Errors
    ///
    /// `PassSpent`, which counts no call; `NoMemory`, in this order.
    pub fn log<R: Wait>(&self, rt: &R, pass: &mut Pass) -> Result<Log, Failure<PassSpent>>
        requires { IsPassOf self.now pass.old }
        ensures store { IsPassOf self.now pass.new }
        ensures reply { ReadsLog pass.old result pass.new }
    {
        if pass.left == 0 {
            return Err(Failure::Refused(PassSpent));
        }
        pass.left -= 1;
        let reply = self.turn.with(
            rt,
            &mut pass.seat,
            move |shelf: &mut Shelf| -> Result<Log, NoMemory>
                ensures same { shelf.new ≡ shelf.old }
                ensures reply { IfOk result (λ log. log ≡ log_of (shelf_history shelf.old)) }
            { shelf.log() },
        );
        match reply {
            Ok(log) => Ok(log),
            Err(_) => Err(Failure::NoMemory),
        }
    }

    /// Returns a note of what the pass has seen, for another pass to hear. Counts no call.
    pub fn note(&self, pass: &mut Pass) -> Note
        requires { IsPassOf self.now pass.old }
        ensures { MakesNote self.now pass.old pass.new result }
    {
        Note {
            seat: self.turn.split(&mut pass.seat),
        }
    }

    /// Lets the pass hear the note: it has then seen at least as much as the note says. Counts no call.
    pub fn hear(&self, pass: &mut Pass, note: Note)
        requires pass { IsPassOf self.now pass.old }
        requires note { IsNoteOf self.now note }
        ensures { Hears self.now pass.old note pass.new }
    {
        let Note { seat } = note;
        self.turn.join(&mut pass.seat, seat);
    }
}
