//! Consecutive records of a script in memory.
ghost use Rattle.std.specs.Prelude.{◌≡◌, ◌-◌, ◌<◌, ◌≤◌, length, take, drop, slice_get, Some};

use crate::line::Line;
use crate::line_iter::LineIter;
use crate::records::Records;

/// Consecutive records of a script.
#[derive(Clone, Copy)]
pub struct Lines<'a> {
    /// The records that these are part of.
    pub records: &'a Records,
    /// The index of the first of these records.
    pub from: usize,
    /// The index after the last of these records.
    pub to: usize,
    pub ghost ordered: { from ≤ to },
    pub ghost within: { to ≤ length records.now },
}

impl<'a> Lines<'a> {
    ghost use Rattle.command_core.specs.Lines.{fields_in, lines_in};

    /// Returns all of `records`.
    pub fn all(records: &'a Records) -> Lines<'a>
        ensures { lines_in result ≡ records.entry.now }
    {
        Lines {
            records,
            from: 0,
            to: records.len(),
        }
    }

    /// Returns the number of records.
    pub fn len(self) -> usize
        ensures { result ≡ length (lines_in self.entry) }
    {
        self.to - self.from
    }

    /// Returns the record of these at an index.
    pub fn get(self, place: usize) -> Line<'a>
        requires { place < length (lines_in self) }
        ensures { slice_get (lines_in self.entry) place ≡ Some (fields_in result) }
    {
        self.records.line(self.from + place)
    }

    /// Returns an iterator over the records.
    pub fn iter(self) -> LineIter<'a>
        ensures { result ≡ lines_in self.entry }
    {
        self.records.range(self.from, self.to)
    }

    /// Returns the records at indices `from..to` of these.
    pub fn range(self, from: usize, to: usize) -> Lines<'a>
        requires ordered { from ≤ to }
        requires within { to ≤ length (lines_in self) }
        ensures { lines_in result ≡ take (to - from) (drop from (lines_in self.entry)) }
    {
        Lines {
            records: self.records,
            from: self.from + from,
            to: self.from + to,
        }
    }
}
