//! Concatenation of lists that several threads made.

ghost use Rattle.std.specs.Prelude.{◌≡◌, ◌++◌, IfOk, OnErr, OnOk};
ghost use Rattle.list_core.specs.Chunks.{all_in};

use std::alloc::{AllocError, Global};

/// Adds items at the end. An empty list takes them over without moving them. If an allocation is refused, the list is
/// unchanged.
pub(crate) fn append<T: Drop>(items: &mut Vec<T>, mut more: Vec<T>) -> Result<(), AllocError>
    ensures ok { OnOk result (items.new.items ≡ items.old.items ++ more.items) }
    ensures err { OnErr result (items.new.items ≡ items.old.items) }
{
    if items.is_empty() {
        *items = more;
    } else {
        items.append(&mut more)?;
    }
    Ok(())
}

/// Concatenates the lists, in their order.
pub fn in_one_list<T: Drop>(alloc: Global, lists: Vec<Vec<T>>) -> Result<Vec<T>, AllocError>
    ensures { IfOk result (λ items. items.items ≡ all_in lists.items) }
{
    let mut items = Vec::new(alloc);
    for list in lists {
        append(&mut items, list)?;
    }
    Ok(items)
}
