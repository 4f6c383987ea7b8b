//! Assigns classes to rows by the columns that they are compared by.

ghost use Rattle.std.specs.Prelude.{◌≡◌, ◌++◌, None, IfOk, length, replicate};
ghost use Rattle.std.specs.Option.{ForSome};
ghost use Rattle.row_core.specs.Refusals.{first_of};
ghost use Rattle.match_core.specs.Columns.{columns_refusal, tests_of_names};
ghost use Rattle.match_core.specs.Classes.{AreClasses, values_under};
ghost use Rattle.match_core.specs.Cells.{Refines, so_far};
ghost use Rattle.match_core.specs.ClassedPlaces.{AreByClass};

use crate::NoMemory;
use crate::comparable::HashedText;
use crate::row_items::{ClassedPlace, by_class, classed_places};
use crate::side::Side;
use crate::side_column::SideColumn;
use crate::split::refine;
use row_core::{Kind, Name};
use std::alloc::Global;
use std::thread::Threads;
use work_core::Crew;

/// A class for each row of two sides.
#[derive(Debug, Drop)]
pub struct Classes {
    /// The classes of the left rows, in order.
    pub left: Vec<u64>,
    /// The classes of the right rows, in order.
    pub right: Vec<u64>,
    /// The indices of the left rows with their classes, lower classes first. Within a class the order is unspecified.
    pub left_places: Vec<ClassedPlace>,
    /// The same for the right rows.
    pub right_places: Vec<ClassedPlace>,
}

/// The rows of a side, and the current class of each; `None` if all are in one class.
#[derive(Clone, Copy)]
struct ClassedSide<'a, 'c> {
    side: Side<'a>,
    classes: Option<&'c [u64]>,
}

/// Returns a class for each left row and each right row. Two rows, of the same side or not, have the same class
/// exactly if they are equal in each named pair of columns. Without names all rows have the same class. The time is
/// O(n log n) in the number of rows for each pair of names, whatever the values. With many rows, half of the workers
/// sort the left side's values and the others the right side's: each reads the values of a part of the rows, and then
/// they sort ranges of all values.
///
/// # Errors
///
/// `NoMemory` if an allocation is refused.
pub fn classes_of<R: Threads + Sync, G>(
    crew: &Crew<'_, R, G>,
    left: Side<'_>,
    right: Side<'_>,
    on: &[(Name, Name)],
) -> Result<Classes, NoMemory>
    requires { columns_refusal left.schema.now right.schema.now on.now ≡ None }
    ensures left { IfOk result (λ classes. length classes.left.items ≡ length left.entry.rows.now) }
    ensures right { IfOk result
        (λ classes. length classes.right.items ≡ length right.entry.rows.now) }
    ensures tell { IfOk result
        (λ classes. AreClasses left.entry.schema.now right.entry.schema.now left.entry.rows.now
        right.entry.rows.now on.now (classes.left.items ++ classes.right.items)) }
    ensures left_places { IfOk result
        (λ classes. AreByClass classes.left.items classes.left_places.items) }
    ensures right_places { IfOk result
        (λ classes. AreByClass classes.right.items classes.right_places.items) }
{
    let Some((first, others)) = on.split_first() else {
        return one_class(crew.rt, crew.alloc, left.rows.len(), right.rows.len());
    };
    let lefts = ClassedSide {
        side: left,
        classes: None,
    };
    let rights = ClassedSide {
        side: right,
        classes: None,
    };
    let mut classes = split_by(crew, lefts, rights, first)?;
    for pair in others {
        let lefts = ClassedSide {
            side: left,
            classes: Some(classes.left.as_slice()),
        };
        let rights = ClassedSide {
            side: right,
            classes: Some(classes.right.as_slice()),
        };
        classes = split_by(crew, lefts, rights, pair)?;
    }
    Ok(classes)
}

/// Returns classes for `lefts` left rows and `rights` right rows, all in one class.
fn one_class<R: Threads + Sync>(
    rt: &R,
    alloc: Global,
    lefts: usize,
    rights: usize,
) -> Result<Classes, NoMemory>
    ensures left { IfOk result (λ classes. classes.left.items ≡ replicate lefts 0) }
    ensures right { IfOk result (λ classes. classes.right.items ≡ replicate rights 0) }
    ensures left_places { IfOk result
        (λ classes. AreByClass classes.left.items classes.left_places.items) }
    ensures right_places { IfOk result
        (λ classes. AreByClass classes.right.items classes.right_places.items) }
{
    let left = vec![in alloc; 0; lefts]?;
    let right = vec![in alloc; 0; rights]?;
    let left_places = by_class(rt, classed_places(alloc, &left)?, 1);
    let right_places = by_class(rt, classed_places(alloc, &right)?, 1);
    Ok(Classes {
        left,
        right,
        left_places,
        right_places,
    })
}

/// Returns the current classes of both sides, split by one pair of columns.
fn split_by<R: Threads + Sync, G>(
    crew: &Crew<'_, R, G>,
    left: ClassedSide<'_, '_>,
    right: ClassedSide<'_, '_>,
    pair: &(Name, Name),
) -> Result<Classes, NoMemory>
    requires left { ForSome left.classes (λ c. length c.now ≡ length left.side.rows.now) }
    requires right { ForSome right.classes (λ c. length c.now ≡ length right.side.rows.now) }
    requires allowed { first_of
        (tests_of_names left.side.schema.now right.side.schema.now pair.now) ≡ None }
    ensures left { IfOk result (λ new. length new.left.items ≡ length left.entry.side.rows.now) }
    ensures right { IfOk result (λ new. length new.right.items ≡ length right.entry.side.rows.now) }
    ensures split { IfOk result (λ new. Refines
        (so_far left.entry.classes left.entry.side.rows.now
        ++ so_far right.entry.classes right.entry.side.rows.now)
        (values_under left.entry.side.schema.now right.entry.side.schema.now
        left.entry.side.rows.now right.entry.side.rows.now pair.now)
        (new.left.items ++ new.right.items)) }
    ensures left_places { IfOk result
        (λ new. AreByClass new.left.items new.left_places.items) }
    ensures right_places { IfOk result
        (λ new. AreByClass new.right.items new.right_places.items) }
{
    let Crew {
        rt,
        alloc,
        workers,
        ..
    } = *crew;
    let Some(left_place) = left.side.schema.column(pair.0) else {
        unreachable!()
    };
    let Some(right_place) = right.side.schema.column(pair.1) else {
        unreachable!()
    };
    let Some(kind) = left.side.schema.column_kind(pair.0) else {
        unreachable!()
    };
    let lefts = SideColumn {
        rows: left.side.rows,
        classes: left.classes,
        place: left_place as usize,
    };
    let rights = SideColumn {
        rows: right.side.rows,
        classes: right.classes,
        place: right_place as usize,
    };
    match kind {
        Kind::Int => refine::<R, i64, SideColumn>(rt, alloc, lefts, rights, workers),
        Kind::Text => refine::<R, HashedText, SideColumn>(rt, alloc, lefts, rights, workers),
    }
}
