//! Puts the pieces of a job in order, whatever the order in which they arrive.

ghost use Rattle.std.specs.Prelude.{◌≡◌, IfOk, IfErr, OnOk, OnErr, IfSome, IfNone, Some, None, All, IsSome, map, replicate};
ghost use Rattle.work_core.specs.Jobs.{Shares, AreValues};
ghost use Rattle.work_core.specs.Collected.{Collected, nothing_of, Fills, IsThere, IsFirstGap, IsFirstMissing};

use crate::job::PairWork;
use crate::name::PairName;
use crate::outs::Outs;
use crate::piece::Piece;
use std::alloc::{AllocError, Global};
use std::marker::Model;

/// Collects the pieces of a job. Contracts see the job, and the values by pair number.
///
/// It allocates all its memory when it is made: `accept` and `finish` allocate nothing.
#[derive(Drop)]
pub struct Collector<'j, W: PairWork> {
    job: &'j W,
    places: Vec<Option<W::Out>>,
}

impl<'j, W: PairWork> Model for Collector<'j, W> {
    ghost use Rattle.work_core.specs.Collected.{Collected, AreJobPlaces};

    ghost Value = { Collected W W.Out };

    ghost view = { λ c. record { job = c.job.now; places = c.places.items } };

    ghost invariant = { λ c. AreJobPlaces W.PairWork c.job.now c.places.items };
}

/// Why a piece was refused.
#[derive(Clone, Copy, PartialEq, Eq, Debug)]
pub enum Why {
    /// The collector's job doesn't have the pair, or has it with other inputs.
    Stranger,
    /// The pair already has a piece.
    Double,
}

/// A refused piece, and why it was refused.
#[derive(Drop)]
pub struct Refused<'j, W: PairWork> {
    /// The piece, unchanged.
    pub piece: Piece<'j, W>,
    /// Why it was refused.
    pub why: Why,
}

/// A collector that lacks a piece.
#[derive(Drop)]
pub struct Unfinished<'j, W: PairWork> {
    /// The collector, unchanged.
    pub collector: Collector<'j, W>,
    /// The pair with the least number whose piece is missing.
    pub first: PairName,
}

impl<'j, W: PairWork> Collector<'j, W> {
    /// Returns an empty collector for the pieces of the job.
    pub fn new(alloc: Global, job: &'j W) -> Result<Collector<'j, W>, AllocError>
        ensures { IfOk result (λ c. c ≡ nothing_of W.PairWork job.entry.now) }
    {
        let places = empty_places(alloc, job.count() as usize)?;
        Ok(Collector { job, places })
    }

    /// Stores the piece's value in its pair's slot. The piece may be of this job, or of another job that has the pair
    /// with equal inputs. A refused piece is returned.
    pub fn accept(&mut self, piece: Piece<'j, W>) -> Result<(), Refused<'j, W>>
        ensures shares { OnOk result
            (Shares W.PairWork self.old.job piece.entry.job.now piece.entry.name) }
        ensures fills { OnOk result
            (Fills W.PairWork piece.entry.name piece.entry.out self.old self.new) }
        ensures stranger { IfErr result (λ r. r.why ≡ Why.Stranger
            → ¬ Shares W.PairWork self.old.job piece.entry.job.now piece.entry.name) }
        ensures double { IfErr result (λ r. r.why ≡ Why.Double
            → Shares W.PairWork self.old.job piece.entry.job.now piece.entry.name
            × IsThere W.PairWork piece.entry.name self.old) }
        ensures back { IfErr result (λ r. r.piece ≡ piece.entry) }
        ensures unchanged { OnErr result (self.new ≡ self.old) }
    {
        if !self.job.same(piece.job, piece.name) {
            return Err(Refused {
                piece,
                why: Why::Stranger,
            });
        }
        let Some(number) = self.job.place(piece.name) else {
            unreachable!()
        };
        let number = number as usize;
        if self.places[number].is_some() {
            return Err(Refused {
                piece,
                why: Why::Double,
            });
        }
        let Piece {
            job: _,
            name: _,
            out,
        } = piece;
        self.places[number] = Some(out);
        Ok(())
    }

    /// Returns the values by pair number, if each pair has a piece.
    pub fn finish(self) -> Result<Outs<W::Out>, Unfinished<'j, W>>
        ensures values { IfOk result (AreValues W.PairWork self.entry.job) }
        ensures accepted { IfOk result (λ outs. self.entry.places ≡ map Some outs) }
        ensures back { IfErr result (λ u. u.collector ≡ self.entry) }
        ensures first { IfErr result (λ u. IsFirstMissing W.PairWork self.entry u.first) }
    {
        if let Some(i) = first_gap(&self.places) {
            let first = self.job.name(i as u64);
            return Err(Unfinished {
                collector: self,
                first,
            });
        }
        let Collector { job: _, places } = self;
        Ok(Outs::at_places(places))
    }
}

// Returns `count` empty slots.
pub(crate) fn empty_places<T: Drop>(
    alloc: Global,
    count: usize,
) -> Result<Vec<Option<T>>, AllocError>
    ensures { IfOk result (λ v. v.items ≡ replicate count None) }
{
    let mut places = Vec::with_capacity(alloc, count)?;
    for _ in 0..count {
        places.push_reserved(None);
    }
    Ok(places)
}

// Returns the least index of an empty slot.
fn first_gap<T>(places: &[Option<T>]) -> Option<usize>
    ensures some { IfSome result (IsFirstGap places.now) }
    ensures none { IfNone result (All IsSome places.now) }
{
    places.iter().position(|place| place.is_none())
}
