//! Splits the classes of rows by the values of a column: ranks each side's rows, and combines the ranks of both.

ghost use Rattle.std.specs.Prelude.{◌≡◌, ◌++◌, All, IfOk, length};
ghost use Rattle.std.specs.Thread.{IsSync};
ghost use Rattle.match_core.specs.ClassedPlaces.{AreByClass};
ghost use Rattle.match_core.specs.Cells.{
  AreRankedAndPlaced,
  IsOfKind,
  Refines,
};

use crate::NoMemory;
use crate::classes::Classes;
use crate::comparable::Comparable;
use crate::numbering::{number_places, number_rows, numbers_of};
use crate::ranks::{Ranked, rank_side};
use crate::row_items::by_class;
use std::alloc::Global;
use std::thread::{Threads, join_mut};
use work_core::tuning::ROWS_FOR_THREAD;

/// Splits the current classes of the rows. Two rows, of the same side or not, get the same class exactly if they had
/// the same class, and their values in their side's column are equal. Both columns must be of the kind that `S`
/// compares.
pub(crate) fn refine<R: Threads + Sync, V: Ord + Copy + Send + Sync, S: Comparable<V>>(
    rt: &R,
    alloc: Global,
    left: S,
    right: S,
    workers: u32,
) -> Result<Classes, NoMemory>
    requires kind { All (IsOfKind S.kind) (S.column left ++ S.column right) }
    ensures left { IfOk result (λ classes. length classes.left.items ≡ length (S.column left)) }
    ensures right { IfOk result
        (λ classes. length classes.right.items ≡ length (S.column right)) }
    ensures split { IfOk result
        (λ classes. Refines (S.classes left ++ S.classes right)
        (S.column left ++ S.column right)
        (classes.left.items ++ classes.right.items)) }
    ensures left_places { IfOk result
        (λ classes. AreByClass classes.left.items classes.left_places.items) }
    ensures right_places { IfOk result
        (λ classes. AreByClass classes.right.items classes.right_places.items) }
{
    let (lefts, rights) = ranked_sides::<R, V, S>(rt, alloc, left, right, workers)?;
    let numbers = numbers_of(alloc, &lefts.firsts, &rights.firsts)?;
    let mut right = rights.ranks;
    number_rows(&mut right, &numbers);
    let mut right_places = rights.places;
    number_places(&mut right_places, &numbers);
    // Left indices are already in ascending order of class. So are the right ones, except those of values without an
    // equal left value. Sorting a list that is in order takes one pass.
    Ok(Classes {
        left: lefts.ranks,
        right,
        left_places: by_class(rt, lefts.places, workers),
        right_places: by_class(rt, right_places, workers),
    })
}

/// Returns the ranks of both sides' rows. With many rows, half of the workers rank each side.
fn ranked_sides<R: Threads + Sync, V: Ord + Copy + Send + Sync, S: Comparable<V>>(
    rt: &R,
    alloc: Global,
    left: S,
    right: S,
    workers: u32,
) -> Result<(Ranked<V>, Ranked<V>), NoMemory>
    ensures left { IfOk result (λ both. AreRankedAndPlaced V.cmp S.IsOf (S.classes left)
        (S.column left) both.0.ranks.items both.0.firsts.items both.0.places.items) }
    ensures right { IfOk result (λ both. AreRankedAndPlaced V.cmp S.IsOf (S.classes right)
        (S.column right) both.1.ranks.items both.1.firsts.items both.1.places.items) }
{
    if workers < 2 || left.len().min(right.len()) < ROWS_FOR_THREAD {
        let lefts = rank_side(rt, alloc, left, workers)?;
        let rights = rank_side(rt, alloc, right, workers)?;
        return Ok((lefts, rights));
    }
    let few = workers / 2;
    let others = workers - few;
    // The closures are borrowed, because `join` promises its caller nothing about closures that capture types with
    // lifetimes.
    let (lefts, rights) = join_mut(
        rt,
        &mut move || -> Result<Ranked<V>, NoMemory>
            requires { IsSync R.row }
            ensures { IfOk result
                (λ ranked. AreRankedAndPlaced V.cmp S.IsOf (S.classes left) (S.column left)
                ranked.ranks.items ranked.firsts.items ranked.places.items) }
        { rank_side(rt, alloc, left, few) },
        &mut move || -> Result<Ranked<V>, NoMemory>
            requires { IsSync R.row }
            ensures { IfOk result
                (λ ranked. AreRankedAndPlaced V.cmp S.IsOf (S.classes right) (S.column right)
                ranked.ranks.items ranked.firsts.items ranked.places.items) }
        { rank_side(rt, alloc, right, others) },
    );
    let lefts = lefts?;
    let rights = rights?;
    Ok((lefts, rights))
}
