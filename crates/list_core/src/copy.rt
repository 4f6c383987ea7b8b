//! Copies that report a refused allocation.

ghost use Rattle.std.specs.Prelude.{◌≡◌, IfOk};

use std::alloc::{AllocError, Global};

/// A type whose values are copied into memory of their own, which may be refused.
pub trait DeepCopy: Drop {
    /// Returns a value equal to this one.
    fn copy(&self, alloc: Global) -> Result<Self, AllocError>
        ensures { IfOk result (λ copy. copy ≡ self.now) };
}

impl<S: Copy, T: DeepCopy> DeepCopy for (S, T) {
    fn copy(&self, alloc: Global) -> Result<(S, T), AllocError> {
        Ok((self.0, self.1.copy(alloc)?))
    }
}

/// Returns copies of the items, in their order.
pub fn copy_each<T: DeepCopy>(alloc: Global, items: &[T]) -> Result<Vec<T>, AllocError>
    ensures { IfOk result (λ copies. copies.items ≡ items.now) }
{
    let mut copies = Vec::with_capacity(alloc, items.len())?;
    for item in items {
        copies.push(item.copy(alloc)?)?;
    }
    Ok(copies)
}
