//! One record of a script in memory.
ghost use Rattle.std.specs.Prelude.{◌≡◌, ◌-◌, ◌≤◌, length, take, drop, slice_get, option_map};

use crate::flat_fields::FlatFields;
use row_core::Fields;

/// A record of a script: a range of the fields of a batch.
#[derive(Clone, Copy)]
pub struct Line<'a> {
    /// The fields of all records of the batch.
    pub fields: &'a FlatFields,
    /// The index of the record's first field.
    pub from: usize,
    /// The index after the record's last field.
    pub to: usize,
    pub ghost ordered: { from ≤ to },
    pub ghost within: { to ≤ length fields.now },
}

impl<'a> Line<'a> {
    ghost use Rattle.command_core.specs.Lines.{fields_in};

    /// Returns the record made of the fields at indices `from..to`.
    pub fn new(fields: &'a FlatFields, from: usize, to: usize) -> Line<'a>
        requires ordered { from ≤ to }
        requires within { to ≤ length fields.now }
        ensures { fields_in result ≡ take (to - from) (drop from fields.entry.now) }
    {
        Line { fields, from, to }
    }

    /// Returns the number of fields.
    pub fn len(self) -> usize
        ensures { result ≡ length (fields_in self.entry) }
    {
        self.to - self.from
    }

    /// Returns the field of the record at an index, or `None` past the end.
    pub fn get(self, place: usize) -> Option<&'a [u8]>
        ensures { option_map (λ s. s.now) result ≡ slice_get (fields_in self.entry) place }
    {
        if place < self.to - self.from {
            self.fields.get(self.from + place)
        } else {
            None
        }
    }

    /// Returns the record made of the fields `from..to` of this one.
    pub fn range(self, from: usize, to: usize) -> Line<'a>
        requires ordered { from ≤ to }
        requires within { to ≤ length (fields_in self) }
        ensures { fields_in result ≡ take (to - from) (drop from (fields_in self.entry)) }
    {
        Line {
            fields: self.fields,
            from: self.from + from,
            to: self.from + to,
        }
    }
}

/// Lets row_core read a row from a record without a copy.
impl Fields for Line<'_> {
    ghost use Rattle.command_core.specs.Lines.{fields_in};

    ghost fields = { fields_in };

    #[inline(always)]
    fn count(&self) -> usize {
        self.len()
    }

    #[inline(always)]
    fn field(&self, place: usize) -> &[u8] {
        self.fields.at(self.from + place)
    }
}
