//! The check of a claimed division of rows.

ghost use Rattle.std.specs.Prelude.{◌≡◌, ◌≤◌, ◌<◌, ◌++◌, [], ◌∷◌, ℕ, length, map, IfOk, IfErr, OnOk};
ghost use Rattle.dip_core.specs.Item.{item_limit};
ghost use Rattle.cert_core.specs.declared.verdict.Verdict.{Verdict as AnyVerdict};
ghost use Rattle.ruzgalt_c.specs.Check.{AreRowsByPart, IsCertificateOf, IsVerdictOfRows, Says};
ghost use Rattle.ruzgalt_c.specs.Rows.{SomeRowHasNoPeriod};
ghost use Rattle.ruzgalt_c.specs.declared.rows.Fault.TheVariants.{NoPeriod};

use crate::rows::{Fault, items_of};
use cert_core::{Certificate, Claim, NoMemory, Verdict, check_division};
use period_core::Point;
use std::alloc::Global;

/// Returns `count` empty lists.
fn empty_lists(alloc: Global, count: u32) -> Result<Vec<Vec<u64>>, NoMemory>
    ensures { IfOk result (λ lists. AreRowsByPart [] count lists.items) }
{
    let mut lists = Vec::with_capacity(alloc, count as usize)?;
    'lists: while lists.len() < count as usize {
        lists.push(Vec::new(alloc))?;
    }
    Ok(lists)
}

/// Appends the row to the list of its part, if that part exists.
fn add_row(lists: &mut Vec<Vec<u64>>, number: usize, row: u64) -> Result<(), NoMemory>
    ensures { OnOk result ((part : _) (count : ℕ) → row ≡ length part
        → AreRowsByPart part count lists.old.items
        → AreRowsByPart (part ++ number ∷ []) count lists.new.items) }
{
    if lists.len() <= number {
        return Ok(());
    }
    lists[number].push(row)?;
    Ok(())
}

/// Returns the indices of each part's rows, in ascending order.
fn rows_by_part(alloc: Global, part: &[u32], parts: u32) -> Result<Vec<Vec<u64>>, NoMemory>
    ensures { IfOk result (λ lists. AreRowsByPart part.now parts lists.items) }
{
    let mut lists = empty_lists(alloc, parts)?;
    for k in 0..part.len() {
        add_row(&mut lists, part[k] as usize, k as u64)?;
    }
    Ok(lists)
}

/// Appends a part with these ids.
fn add_part(claim: &mut Claim, ids: &[u64]) -> Result<(), NoMemory>
    ensures { OnOk result (claim.new ≡ claim.old ++ ids.now ∷ []) }
{
    claim.open_part()?;
    for id in ids {
        claim.push(*id)?;
    }
    Ok(())
}

/// Returns the claim of these parts.
fn claim_of(alloc: Global, lists: &[Vec<u64>]) -> Result<Claim, NoMemory>
    ensures { IfOk result (λ claim. claim ≡ map (λ list. list.items) lists.now) }
{
    let mut claim = Claim::new(alloc);
    for list in lists {
        add_part(&mut claim, list)?;
    }
    Ok(claim)
}

/// Checks a certificate, and the numbers of the rows' parts.
pub(crate) fn check_rows(
    alloc: Global,
    from: &[i64],
    to: &[i64],
    part: &[u32],
    certificate: &Certificate,
) -> Result<Verdict, Fault>
    requires ends { length to.now ≡ length from.now }
    requires parts { certificate.now.parts ≤ item_limit }
    ensures verdict { IfOk result (IsVerdictOfRows from.now to.now part.now certificate.now) }
    ensures fault { IfErr result (λ f. f ≡ NoPeriod → SomeRowHasNoPeriod from.now to.now) }
{
    let items = items_of(alloc, &[], from, to, &[])?;
    let Ok(lists) = rows_by_part(alloc, part, certificate.parts as u32) else {
        return Err(Fault::NoMemory);
    };
    let Ok(claim) = claim_of(alloc, &lists) else {
        return Err(Fault::NoMemory);
    };
    let Ok(verdict) = check_division(alloc, &items, &claim, certificate) else {
        return Err(Fault::NoMemory);
    };
    Ok(verdict)
}

/// Returns the certificate of these parts and this instant. Without rows, or if `instant` isn't a second of the years
/// 0001 to 9999, it has no instant.
pub(crate) fn certificate_of(rows: usize, parts: u32, instant: i64) -> Certificate
    ensures { IsCertificateOf rows parts instant result }
{
    Certificate {
        parts: parts as u64,
        instant: if rows == 0 {
            None
        } else {
            Point::from_number(instant).ok()
        },
    }
}

/// Returns the number of the verdict, and the verdict's own numbers, or 0.
pub(crate) fn numbers_of(verdict: Verdict) -> (u32, u64, u64)
    ensures { Says verdict result.0 result.1 result.2 }
{
    match verdict {
        Verdict::Yes => (0, 0, 0),
        Verdict::WrongCount(parts) => (1, parts, 0),
        Verdict::EmptyPart(number) => (2, number, 0),
        Verdict::Unknown(id) => (3, id, 0),
        Verdict::Twice(id) => (4, id, 0),
        Verdict::Missing(id) => (5, id, 0),
        Verdict::Overlap(one, other) => (6, one, other),
        Verdict::NotCrowded { holds } => (7, holds, 0),
    }
}
