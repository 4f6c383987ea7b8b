//! Claimed divisions, and checks of them.

use crate::items::{day, five};
use cert_core::{Certificate, Claim, Verdict, check_division};
use dip_core::{Item, ids_rise};
use refusal_core::{Ended, Fault, holds, try_each};
use std::alloc::Global;

// Adds an id to the last part. If memory is refused, checks that the part is unchanged, and tries again.
fn push(claim: &mut Claim, id: u64) -> Result<(), Ended> {
    let parts = claim.len();
    holds(parts > 0)?;
    let before = claim.get(parts - 1).map(|part| part.len());
    if claim.push(id).is_ok() {
        return Ok(());
    }
    holds(claim.len() == parts && claim.get(parts - 1).map(|part| part.len()) == before)?;
    Ok(claim.push(id)?)
}

// Returns the claim of these parts.
fn claim(alloc: Global, parts: &[&[u64]]) -> Result<Claim, Ended> {
    let mut claim = Claim::new(alloc);
    for part in parts {
        if claim.open_part().is_err() {
            claim.open_part()?;
        }
        for id in *part {
            push(&mut claim, *id)?;
        }
    }
    Ok(claim)
}

// Checks a claimed division of the items.
fn check(
    alloc: Global,
    items: &[Item],
    parts: &[&[u64]],
    certificate: &Certificate,
    want: Verdict,
) -> Result<(), Ended> {
    let claim = claim(alloc, parts)?;
    holds(claim.len() == parts.len() && ids_rise(items))?;
    let verdict = check_division(alloc, items, &claim, certificate)?;
    holds(verdict == want)
}

// A least division of the five items.
const DIVISION: &[&[u64]] = &[&[1, 4], &[2, 3], &[5]];

#[test]
fn a_refused_id_is_claimed_later(rt: HostRuntime) -> Result<(), Fault> {
    let [first, second, fifth, third, fourth] = five(&rt);
    let items = [first, second, third, fourth, fifth];
    for (parts, count, instant, want) in [
        (DIVISION, 3, Some(3), Verdict::Yes),
        (DIVISION, 3, Some(6), Verdict::NotCrowded { holds: 2 }),
        (DIVISION, 3, None, Verdict::NotCrowded { holds: 0 }),
        (&[&[1, 4, 5], &[2, 3]], 2, Some(3), Verdict::Overlap(1, 5)),
        (&[&[1, 4], &[2, 3]], 2, Some(3), Verdict::Missing(5)),
        (&[&[1, 4], &[2, 3], &[5, 1]], 3, Some(3), Verdict::Twice(1)),
        (&[&[1, 4], &[2, 3], &[9]], 3, Some(3), Verdict::Unknown(9)),
        (&[&[1, 4], &[2, 3, 5]], 3, Some(3), Verdict::WrongCount(2)),
        (
            &[&[1, 4], &[], &[2, 3, 5]],
            3,
            Some(3),
            Verdict::EmptyPart(1),
        ),
    ] {
        let certificate = Certificate {
            parts: count,
            instant: instant.map(|number| day(&rt, number)),
        };
        try_each(&rt, |alloc| check(alloc, &items, parts, &certificate, want))?;
    }
    Ok(())
}
