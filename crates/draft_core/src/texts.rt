//! Texts stored one after another.

ghost use Rattle.std.specs.Prelude.{◌≡◌, ◌<◌, ◌≤◌, ◌+◌, ◌^◌, ◌++◌, ◌∷◌, [], All, length, map, slice_get, take, IfOk, OnErr, OnOk, Some};
ghost use Rattle.row_core.specs.Limits.{text_limit};

use crate::NoMemory;
use list_core::{part_at, start_of};
use std::alloc::{AllocError, Global};
use std::fmt;
use std::marker::Model;

/// Texts stored one after another: the bytes of all, and the index where each ends. 32 bits are enough for such an
/// index, since a table has few enough rows and a text few enough bytes; only rows that no table accepts can need more.
/// Contracts see the list of the texts.
#[derive(Drop)]
pub(crate) struct Texts {
    bytes: Vec<u8>,
    ends: Vec<u32>,
}

impl Model for Texts {
    ghost use Rattle.std.specs.Prelude.{All, List, length, ℕ};
    ghost use Rattle.list_core.specs.Cut.{cut, EndsAt};
    ghost use Rattle.row_core.specs.Texts.{IsText};

    ghost Value = { List (List ℕ) };

    ghost view = { λ t. cut 0 t.ends.items t.bytes.items };

    ghost invariant = { λ t. EndsAt 0 t.ends.items (length t.bytes.items)
        × All IsText (cut 0 t.ends.items t.bytes.items) };
}

impl Texts {
    /// Returns an empty list of texts, with capacity for the ends of `count` texts.
    pub(crate) fn with_room(alloc: Global, count: usize) -> Result<Self, NoMemory>
        ensures { IfOk result (λ texts. texts ≡ []) }
    {
        Ok(Texts {
            bytes: Vec::new(alloc),
            ends: Vec::with_capacity(alloc, count)?,
        })
    }

    /// Returns the number of texts.
    pub(crate) fn len(&self) -> usize
        ensures { result ≡ length self.now }
    {
        self.ends.len()
    }

    /// Returns the text at the given index.
    #[inline(always)]
    pub(crate) fn at(&self, place: usize) -> &str
        requires { place < length self.now }
        ensures text { slice_get self.now place ≡ Some result.now }
        ensures short { length result.now ≤ text_limit }
    {
        // Each text was UTF-8 when it was added, so its bytes aren't tested again.
        unsafe { str::from_utf8_unchecked(part_at(&self.bytes, &self.ends, place)) }
    }

    /// Adds a text. If memory is refused, or the bytes are too many for 32 bits, the texts are unchanged.
    pub(crate) fn push(&mut self, text: &str) -> Result<(), NoMemory>
        requires { length text.now ≤ text_limit }
        ensures ok { OnOk result (self.new ≡ self.old ++ text.now ∷ []) }
        ensures err { OnErr result (self.new ≡ self.old) }
    {
        let end = place_behind(&self.bytes, text.len())?;
        self.ends.push(end)?;
        if let Err(error) = self.bytes.extend_from_slice(text.as_bytes()) {
            self.ends.pop();
            return Err(error.into());
        }
        Ok(())
    }

    /// Keeps the first `count` texts only.
    pub(crate) fn truncate(&mut self, count: usize)
        ensures { self.new ≡ take count self.old }
    {
        if count < self.ends.len() {
            self.bytes.truncate(start_of(&self.ends, count));
            self.ends.truncate(count);
        }
    }

    /// Adds copies of more texts. If memory is refused, the texts are unchanged.
    pub(crate) fn append(&mut self, more: &Texts) -> Result<(), NoMemory>
        ensures ok { OnOk result (self.new ≡ self.old ++ more.now) }
        ensures err { OnErr result (self.new ≡ self.old) }
    {
        let count = self.ends.len();
        place_behind(&self.bytes, more.bytes.len())?;
        push_ends(&mut self.ends, self.bytes.len(), &more.ends)?;
        if let Err(error) = self.bytes.extend_from_slice(&more.bytes) {
            self.ends.truncate(count);
            return Err(error.into());
        }
        Ok(())
    }

    /// Returns a copy of the texts.
    pub(crate) fn copy(&self, alloc: Global) -> Result<Texts, NoMemory>
        ensures { IfOk result (λ texts. texts ≡ self.now) }
    {
        Ok(Texts {
            bytes: Vec::from_slice(alloc, &self.bytes)?,
            ends: Vec::from_slice(alloc, &self.ends)?,
        })
    }
}

/// Formats the texts like a list.
impl fmt::Debug for Texts {
    fn fmt<W: fmt::Write>(&self, f: &mut fmt::Formatter<W>) -> fmt::Result {
        let mut list = f.debug_list();
        for place in 0..self.len() {
            list.entry(&self.at(place));
        }
        list.finish()
    }
}

/// Returns the index `more` bytes after the end.
///
/// # Errors
///
/// `NoMemory` if it doesn't fit 32 bits.
fn place_behind(bytes: &[u8], more: usize) -> Result<u32, NoMemory>
    ensures { IfOk result (λ place. place ≡ length bytes.now + more) }
{
    match bytes.len().checked_add(more) {
        Some(place) => u32::try_from(place).map_err(|_| AllocError),
        None => Err(AllocError),
    }
}

/// Adds the ends of texts whose bytes begin at index `start`. If memory is refused, the ends are unchanged.
fn push_ends(ends: &mut Vec<u32>, start: usize, more: &[u32]) -> Result<(), NoMemory>
    requires { All (λ end. start + end < 2 ^ 32) more.now }
    ensures ok { OnOk result (ends.new.items
        ≡ ends.old.items ++ map (λ end. start + end) more.now) }
    ensures err { OnErr result (ends.new.items ≡ ends.old.items) }
{
    let count = ends.len();
    let shifted = more.iter().map(
        |end: &u32| -> u32
            requires { start + end.now < 2 ^ 32 }
            ensures { result ≡ start + end.now }
        { (start + *end as usize) as u32 },
    );
    if let Err(error) = ends.extend(shifted) {
        ends.truncate(count);
        return Err(error);
    }
    Ok(())
}
