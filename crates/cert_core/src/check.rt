//! The check of a claimed division.

ghost use Rattle.std.specs.Prelude.{◌≡◌, ◌≢◌, ◌<◌, ◌↔◌, length, All, MatchOption, IfOk};
ghost use Rattle.dip_core.specs.Item.{IdsRise, crowd};
ghost use Rattle.dip_core.specs.Division.{IsLeast};
ghost use Rattle.cert_core.specs.Claim.{IsEmptyPart};
ghost use Rattle.cert_core.specs.Verdict.{HasRightInstant, IsNotCrowded, IsVerdict, IsCertified};
ghost use Rattle.cert_core.specs.Passes.{Passes};

use crate::marks::{first_twice, first_unmarked};
use crate::overlap::first_overlap;
use crate::places::find_places;
use crate::{Certificate, Claim, NoMemory, Verdict};
use dip_core::Item;
use period_core::Point;
use std::alloc::Global;

// Returns the number of the first part without ids.
fn first_empty(claim: &Claim) -> Option<usize>
    ensures { MatchOption result (All (λ part. 0 < length part) claim.now) (IsEmptyPart claim.now) }
{
    for number in 0..claim.len() {
        if claim.part(number).is_empty() {
            return Some(number);
        }
    }
    None
}

// Returns the number of items that hold the instant.
fn crowd_at(items: &[Item], instant: Point) -> u64
    ensures { result ≡ crowd items.now instant }
{
    items
        .iter()
        .filter(|item| item.period.holds(instant))
        .count() as u64
}

// Returns the number of items that hold the certificate's instant if the certificate is wrong about it, or `None` if
// it is right.
fn wrong_crowd(items: &[Item], certificate: &Certificate) -> Option<u64>
    ensures { MatchOption result (HasRightInstant items.now certificate.now)
        (IsNotCrowded items.now certificate.now) }
{
    let Some(instant) = certificate.instant else {
        return if items.is_empty() { None } else { Some(0) };
    };
    let holds = crowd_at(items, instant);
    if items.is_empty() || holds != certificate.parts {
        Some(holds)
    } else {
        None
    }
}

// Returns the first fault of the claim and the certificate, or `None` without a fault.
fn first_fault(
    alloc: Global,
    items: &[Item],
    claim: &Claim,
    certificate: &Certificate,
) -> Result<Option<Verdict>, NoMemory>
    requires { IdsRise items.now }
    ensures { IfOk result (λ fault. MatchOption fault (Passes items.now claim.now certificate.now)
        (λ verdict. IsVerdict items.now claim.now certificate.now verdict
        × (verdict ≢ Verdict.Yes))) }
{
    let parts = claim.len() as u64;
    if parts != certificate.parts {
        return Ok(Some(Verdict::WrongCount(parts)));
    }
    if let Some(number) = first_empty(claim) {
        return Ok(Some(Verdict::EmptyPart(number as u64)));
    }
    let mut places = Vec::new(alloc);
    if let Some(id) = find_places(items, claim.ids(), &mut places)? {
        return Ok(Some(Verdict::Unknown(id)));
    }
    let mut marks = vec![in alloc; false; items.len()]?;
    if let Some(place) = first_twice(&places, &mut marks) {
        return Ok(Some(Verdict::Twice(items[place].id)));
    }
    if let Some(place) = first_unmarked(&marks) {
        return Ok(Some(Verdict::Missing(items[place].id)));
    }
    if let Some((a, b)) = first_overlap(alloc, items, claim, &places)? {
        return Ok(Some(Verdict::Overlap(a, b)));
    }
    if let Some(holds) = wrong_crowd(items, certificate) {
        return Ok(Some(Verdict::NotCrowded { holds }));
    }
    Ok(None)
}

/// Checks a claimed division of the items and its certificate, and returns the first verdict that applies. The items'
/// ids must be ascending. The verdict is `Yes` exactly if the claim's ids are a division of the items, its number of
/// parts is the certificate's, and the certificate's instant is held by equally many items (without items there is no
/// instant). Then no division has fewer parts.
///
/// # Errors
///
/// `NoMemory` if an allocation is refused.
pub fn check_division(
    alloc: Global,
    items: &[Item],
    claim: &Claim,
    certificate: &Certificate,
) -> Result<Verdict, NoMemory>
    requires { IdsRise items.now }
    ensures verdict { IfOk result (IsVerdict items.now claim.now certificate.now) }
    ensures yes { IfOk result (λ verdict. (verdict ≡ Verdict.Yes)
        ↔ IsCertified items.now claim.now certificate.now) }
    ensures least { IfOk result (λ verdict. verdict ≡ Verdict.Yes
        → IsLeast items.now certificate.now.parts) }
{
    let fault = first_fault(alloc, items, claim, certificate)?;
    Ok(fault.unwrap_or(Verdict::Yes))
}
