//! Consecutive records, one after another.
ghost use Rattle.std.specs.Prelude.{◌≡◌, ◌<◌, ◌≤◌, ◌∷◌, length, take, drop};
ghost use Rattle.command_core.specs.Lines.{fields_in};
ghost use Rattle.command_core.specs.Seams.{joined};

use crate::batch::Batch;
use crate::line::Line;
use std::marker::Model;

/// An iterator over consecutive records, which finds each in constant time. Contracts see the list of the records that
/// are left, each a list of its fields' bytes.
#[derive(Drop)]
pub struct LineIter<'a> {
    batches: &'a [Batch],
    /// The index of the next record in these batches.
    place: usize,
    /// The number of records that are left.
    left: usize,
}

impl<'a> Model for LineIter<'a> {
    ghost use Rattle.std.specs.Prelude.{ℕ, List, length, take, drop, ◌≤◌};
    ghost use Rattle.command_core.specs.Seams.{joined};

    ghost Value = { List (List (List ℕ)) };

    ghost view = { λ r. take r.left (drop r.place (joined r.batches.now)) };

    ghost invariant = { λ r. r.left ≤ length (drop r.place (joined r.batches.now)) };
}

impl<'a> LineIter<'a> {
    /// Returns `left` records of all batches, the first of them at an index.
    pub(crate) fn new(batches: &'a [Batch], place: usize, left: usize) -> LineIter<'a>
        requires { left ≤ length (drop place (joined batches.now)) }
        ensures { result ≡ take left (drop place (joined batches.entry.now)) }
    {
        LineIter {
            batches,
            place,
            left,
        }
    }
}

impl<'a> Iterator for LineIter<'a> {
    ghost use Rattle.std.specs.Iterator.{YieldsFirstBy, item_count};
    ghost use Rattle.command_core.specs.Lines.{fields_in};

    type Item = Line<'a>;

    ghost next_gives = { YieldsFirstBy fields_in (λ s. s) };

    ghost remaining = { item_count (λ s. s) };

    #[inline(always)]
    fn next(&mut self) -> Option<Line<'a>> {
        if self.left == 0 {
            return None;
        }
        let (line, batches, place) = line_and_rest(self.batches, self.place);
        self.batches = batches;
        self.place = place;
        self.left -= 1;
        Some(line)
    }
}

/// Returns the record at an index, and where the records after it are: their batches, and the index of the next one in
/// these.
#[inline(always)]
pub(crate) fn line_and_rest(batches: &[Batch], place: usize) -> (Line<'_>, &[Batch], usize)
    requires { place < length (joined batches.now) }
    ensures { drop place (joined batches.entry.now)
        ≡ fields_in result.0 ∷ drop result.2 (joined result.1.now) }
{
    let mut rest = batches;
    let mut left = place;
    while let Some((first, others)) = rest.split_first() {
        if left < first.len() {
            return (first.line(left), rest, left + 1);
        }
        left -= first.len();
        rest = others;
    }
    unreachable!()
}
