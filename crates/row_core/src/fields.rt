//! The fields of a record, however they are stored.

ghost use Rattle.std.specs.Prelude.{ℕ, ◌≡◌, ◌<◌, [], List, get_or, length, map};

use std::convert::AsSlice;

/// The fields of a record: a slice of fields, or a type that stores their bytes elsewhere.
pub trait Fields: Copy {
    /// The bytes of each field, in order.
    ghost fields: { Self → List (List ℕ) };

    /// Returns the number of fields.
    fn count(&self) -> usize
        ensures { result ≡ length (fields self.now) };

    /// Returns the bytes of the field at the given index.
    fn field(&self, place: usize) -> &[u8]
        requires { place < length (fields self.now) }
        ensures { result.now ≡ get_or (fields self.now) place [] };
}

impl<F: AsSlice<u8>> Fields for &[F] {
    ghost fields = { λ slice. map F.items slice.now };

    #[inline(always)]
    fn count(&self) -> usize {
        self.len()
    }

    #[inline(always)]
    fn field(&self, place: usize) -> &[u8] {
        self[place].as_slice()
    }
}
