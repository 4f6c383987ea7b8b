//! The last ends of parts, and a count of how often they were compared ("looks").
//!
//! Code outside this file can't read an end. Only `is_over` and `comes_first` answer about ends, and each counts one
//! look. Contracts see the count, not the comparisons: that each call compares one end or two, and that no other
//! function here compares ends, is checked by reading the code.

ghost use Rattle.std.specs.Prelude.{◌≡◌, ◌+◌, ◌-◌, ◌^◌, ◌<◌, ◌≤◌, ◌≤ℤ◌, ◌<ℤ◌, [], ◌∷◌, ◌++◌, MatchBool, OnErr, OnOk, length, set, take, IsPermutation};
ghost use Rattle.std.specs.List.{HoldsAt, SwappedAt};
ghost use Rattle.dip_core.specs.Heap.{ComesFirst, ComesFirstAt};

use crate::NoMemory;
use crate::all_looks::AllLooks;
use period_core::Point;
use std::alloc::Global;
use std::marker::Model;

/// The end of a part's last item, and the part's number.
#[derive(Clone, Copy)]
struct LastEnd {
    end: Point,
    number: usize,
}

impl Model for LastEnd {
    ghost use Rattle.dip_core.specs.Heap.{Ending};

    ghost Value = { Ending };

    ghost view = { λ e. record { end = e.end; number = e.number } };

    ghost inverse = { λ e. record { end = e.end; number = e.number } };
}

/// Returns whether the first part ends earlier, or at the same instant and has the lower number.
fn comes_before(one: &LastEnd, other: &LastEnd) -> bool
    ensures { MatchBool result (ComesFirst one.now other.now) (ComesFirst other.now one.now) }
{
    if one.end == other.end {
        return one.number < other.number;
    }
    one.end < other.end
}

/// The last ends as a list, which placements keep as a heap. Contracts see the list, the counted looks, and the number
/// of looks ever made.
#[derive(Drop)]
pub(crate) struct LastEnds {
    ends: Vec<LastEnd>,
    looks: u64,
    all_looks: AllLooks,
}

impl Model for LastEnds {
    ghost use Rattle.dip_core.specs.Heap.{Endings};

    ghost Value = { Endings };

    ghost view = { λ l. record
        { ends = l.ends.items; looks = l.looks; all_looks = l.all_looks.count } };
}

impl LastEnds {
    /// Returns an empty list, with no looks counted.
    pub fn new(alloc: Global) -> LastEnds
        ensures { result ≡ record { ends = []; looks = 0; all_looks = 0 } }
    {
        LastEnds {
            ends: Vec::new(alloc),
            looks: 0,
            all_looks: AllLooks::none(),
        }
    }

    /// Returns the number of looks, without the looks of placements that were refused memory.
    pub fn looks(&self) -> u64
        ensures { result ≡ self.now.looks }
    {
        self.looks
    }

    pub fn len(&self) -> usize
        ensures { result ≡ length self.now.ends }
    {
        self.ends.len()
    }

    /// Returns the number of the part whose end is at index `place`. This is not a look.
    pub fn number(&self, place: usize) -> usize
        requires { place < length self.now.ends }
        ensures { HoldsAt (λ e. e.number ≡ result) self.now.ends place }
    {
        self.ends[place].number
    }

    /// Returns whether the part at index `place` has ended by `start`. Counts one look.
    pub fn is_over(&mut self, place: usize, start: Point) -> bool
        requires within { place < length self.old.ends }
        requires room { self.old.looks + 1 < 2 ^ 64 }
        ensures over { MatchBool result (HoldsAt (λ e. e.end ≤ℤ start) self.old.ends place)
            (HoldsAt (λ e. start <ℤ e.end) self.old.ends place) }
        ensures counted { self.new.looks ≡ self.old.looks + 1 }
        ensures all_looks { self.new.all_looks ≡ self.old.all_looks + 1 }
        ensures ends { self.new.ends ≡ self.old.ends }
    {
        self.count_look();
        self.ends[place].end <= start
    }

    /// Returns whether the part at index `place` ends before the one at index `other`, or at the same instant and has
    /// the lower number. Counts one look.
    pub fn comes_first(&mut self, place: usize, other: usize) -> bool
        requires within { place < length self.old.ends }
        requires other_within { other < length self.old.ends }
        requires room { self.old.looks + 1 < 2 ^ 64 }
        ensures first { MatchBool result (ComesFirstAt self.old.ends place other)
            (ComesFirstAt self.old.ends other place) }
        ensures counted { self.new.looks ≡ self.old.looks + 1 }
        ensures all_looks { self.new.all_looks ≡ self.old.all_looks + 1 }
        ensures ends { self.new.ends ≡ self.old.ends }
    {
        self.count_look();
        comes_before(&self.ends[place], &self.ends[other])
    }

    /// Counts one look.
    fn count_look(&mut self)
        requires { self.old.looks + 1 < 2 ^ 64 }
        ensures counted { self.new.looks ≡ self.old.looks + 1 }
        ensures all_looks { self.new.all_looks ≡ self.old.all_looks + 1 }
        ensures ends { self.new.ends ≡ self.old.ends }
    {
        self.looks += 1;
        self.all_looks = self.all_looks.and_one();
    }

    /// Swaps the ends at two indices.
    pub fn swap(&mut self, place: usize, other: usize)
        requires within { place < length self.old.ends }
        requires other_within { other < length self.old.ends }
        ensures by_index { SwappedAt self.old.ends self.new.ends place other }
        ensures same { IsPermutation self.old.ends self.new.ends }
        ensures long { length self.new.ends ≡ length self.old.ends }
        ensures looks { self.new.looks ≡ self.old.looks }
        ensures all_looks { self.new.all_looks ≡ self.old.all_looks }
    {
        self.ends.swap(place, other);
    }

    /// Replaces the first end.
    pub fn replace_first(&mut self, end: Point, number: usize)
        requires { 0 < length self.old.ends }
        ensures ends { self.new.ends
            ≡ set self.old.ends 0 (record { end = end; number = number }) }
        ensures looks { self.new.looks ≡ self.old.looks }
        ensures all_looks { self.new.all_looks ≡ self.old.all_looks }
    {
        self.ends[0] = LastEnd { end, number };
    }

    /// Appends an end. On `NoMemory` nothing is changed.
    pub fn push(&mut self, end: Point, number: usize) -> Result<(), NoMemory>
        ensures ends { OnOk result
            (self.new.ends ≡ self.old.ends ++ record { end = end; number = number } ∷ []) }
        ensures looks { OnOk result (self.new.looks ≡ self.old.looks) }
        ensures all_looks { OnOk result (self.new.all_looks ≡ self.old.all_looks) }
        ensures err { OnErr result (self.new ≡ self.old) }
    {
        self.ends.push(LastEnd { end, number })?;
        Ok(())
    }

    /// Resets the counted looks after a refused placement. `all_looks` keeps them.
    pub fn take_back(&mut self, before: u64)
        requires { before ≤ self.old.looks }
        ensures { self.new
            ≡ record { ends = self.old.ends; looks = before; all_looks = self.old.all_looks } }
    {
        self.looks = before;
    }
}
