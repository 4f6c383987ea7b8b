//! A ghost count of all looks made. A look is a comparison of last ends.

ghost use Rattle.std.specs.Prelude.{◌≡◌, ◌+◌, ℕ};
ghost use Rattle.std.specs.Borrow.{ftrue};

use std::marker::Model;

/// The number of looks ever made, also by placements that were refused memory. It never decreases. The number exists
/// only in contracts: a value has no bytes.
#[derive(Drop)]
pub(crate) struct AllLooks {
    pub ghost count: { ℕ },
}

impl Model for AllLooks {
    ghost also_owns = { λ _. ftrue };
}

impl AllLooks {
    /// Returns a count of zero.
    pub fn none() -> AllLooks
        ensures { result.count ≡ 0 }
    {
        AllLooks {}
    }

    /// Returns this count plus one.
    pub fn and_one(&self) -> AllLooks
        ensures { result.count ≡ self.now.count + 1 }
    {
        AllLooks {}
    }
}

// A value has no bytes, so any thread may use it.
unsafe impl Send for AllLooks {}

unsafe impl Sync for AllLooks {}
