//! Claims of divisions.

ghost use Rattle.std.specs.Prelude.{◌≡◌, ◌↔◌, ◌<◌, [], ◌∷◌, ◌++◌, length, Some, IsTrue, OnOk, OnErr, slice_get, slice_set, ◌-◌};
ghost use Rattle.std.specs.Option.{option_copied};
ghost use Rattle.list_core.specs.Cut.{cut, EndsAt};
ghost use Rattle.cert_core.specs.Claim.{ids_of, AddsToLast};

use crate::NoMemory;
use list_core::start_at;
use std::alloc::Global;
use std::marker::Model;

/// A division as somebody claims it: a list of parts, each a list of item ids. Any ids are allowed. Contracts see the
/// list of parts.
#[derive(Drop)]
pub struct Claim {
    // The ids of all parts, one after another, and the index in them at which each part ends.
    ids: Vec<u64>,
    ends: Vec<usize>,
}

impl Model for Claim {
    ghost use Rattle.std.specs.Prelude.{ℕ, List, length};
    ghost use Rattle.list_core.specs.Cut.{cut, EndsAt};

    ghost Value = { List (List ℕ) };

    ghost view = { λ c. cut 0 c.ends.items c.ids.items };

    ghost invariant = { λ c. EndsAt 0 c.ends.items (length c.ids.items) };
}

impl Claim {
    /// Returns a claim without parts.
    pub fn new(alloc: Global) -> Claim
        ensures { result ≡ [] }
    {
        Claim {
            ids: Vec::new(alloc),
            ends: Vec::new(alloc),
        }
    }

    /// Appends an empty part. On `NoMemory` nothing is changed.
    pub fn open_part(&mut self) -> Result<(), NoMemory>
        ensures ok { OnOk result (self.new ≡ self.old ++ [] ∷ []) }
        ensures err { OnErr result (self.new ≡ self.old) }
    {
        self.ends.push(self.ids.len())?;
        Ok(())
    }

    /// Appends the id to the last part; there must be one. On `NoMemory` nothing is changed.
    pub fn push(&mut self, id: u64) -> Result<(), NoMemory>
        requires { 0 < length self.old }
        ensures ok { OnOk result (AddsToLast self.old self.new id) }
        ensures parts { length self.new ≡ length self.old }
        ensures err { OnErr result (self.new ≡ self.old) }
    {
        self.ids.push(id)?;
        move_last(&mut self.ends, self.ids.len());
        Ok(())
    }

    /// Returns the number of parts.
    pub fn len(&self) -> usize
        ensures { result ≡ length self.now }
    {
        self.ends.len()
    }

    /// Returns whether the claim has no part.
    pub fn is_empty(&self) -> bool
        ensures { IsTrue result ↔ (self.now ≡ []) }
    {
        self.len() == 0
    }

    /// Returns the part with that number, counted from 0, or `None` if it is past the last part.
    pub fn get(&self, number: usize) -> Option<&[u64]>
        ensures { option_copied result ≡ slice_get self.now number }
    {
        if number < self.ends.len() {
            Some(self.part(number))
        } else {
            None
        }
    }

    // Returns the part with that number.
    pub(crate) fn part(&self, number: usize) -> &[u64]
        requires { number < length self.now }
        ensures { slice_get self.now number ≡ Some result.now }
    {
        part_of(&self.ids, &self.ends, number)
    }

    // Returns the ids of all parts, one after another.
    pub(crate) fn ids(&self) -> &[u64]
        ensures { result.now ≡ ids_of self.now }
    {
        &self.ids
    }
}

// Returns the ids between the end of the previous part and the end of this one.
fn part_of<'a>(ids: &'a [u64], ends: &[usize], number: usize) -> &'a [u64]
    requires there { number < length ends.now }
    requires ends { EndsAt 0 ends.now (length ids.now) }
    ensures { slice_get (cut 0 ends.now ids.now) number ≡ Some result.now }
{
    let end = ends[number];
    let start = start_at(ends, number);
    &ids[start..end]
}

// Replaces the last end.
fn move_last(ends: &mut Vec<usize>, end: usize)
    requires { 0 < length ends.old.items }
    ensures { ends.new.items ≡ slice_set ends.old.items (length ends.old.items - 1) end }
{
    let last = ends.len() - 1;
    ends[last] = end;
}
