//! Tests of checks of claimed divisions: their verdicts, and claims that are made part by part.

use crate::divisions::item;
use cert_core::{Certificate, Claim, Verdict, check_division};
use dip_core::{Item, ids_rise};
use period_core::Point;
use std::alloc::Global;
use std::process::Abort;
use std::test::Fail;

// Five rows. Three parts are needed.
fn five(rt: &impl Abort) -> [Item; 5] {
    [
        item(rt, 1, b"01", b"05"),
        item(rt, 2, b"02", b"04"),
        item(rt, 3, b"04", b"08"),
        item(rt, 4, b"05", b"06"),
        item(rt, 5, b"03", b"09"),
    ]
}

fn claim(rt: &(impl Abort + Alloc<A = Global>), parts: &[&[u64]]) -> Result<Claim, Fail> {
    let mut claim = Claim::new(rt.alloc());
    for part in parts {
        claim.open_part()?;
        for id in *part {
            assert!(rt; claim.len() > 0);
            claim.push(*id)?;
        }
    }
    Ok(claim)
}

// Checks the verdict on a claimed division of the five rows, with this count and this instant.
fn check_verdict(
    rt: &(impl Abort + Alloc<A = Global>),
    parts: &[&[u64]],
    count: u64,
    instant: Option<&[u8]>,
    want: Verdict,
) -> Result<(), Fail> {
    let items = five(rt);
    assert!(rt; ids_rise(&items));
    let instant = match instant {
        Some(text) => Some(Point::parse(text)?),
        None => None,
    };
    let claim = claim(rt, parts)?;
    let certificate = Certificate {
        parts: count,
        instant,
    };
    let verdict = check_division(rt.alloc(), &items, &claim, &certificate)?;
    assert_eq!(rt; verdict, want);
    Ok(())
}

#[test]
fn adds_ids_to_the_last_part(rt: HostRuntime) -> Result<(), Fail> {
    let claim = claim(&rt, &[&[1, 4], &[], &[2, 3]])?;
    assert_eq!(rt; claim.len(), 3);
    for (number, want) in [(0, &[1, 4][..]), (1, &[]), (2, &[2, 3])] {
        let part = claim.get(number).ok_or("no part")?;
        assert_eq!(rt; part, want);
    }
    assert!(rt; claim.get(3).is_none());
    Ok(())
}

#[test]
fn counts_who_holds_the_instant(rt: HostRuntime) -> Result<(), Fail> {
    let parts: [&[u64]; 3] = [&[1, 4], &[2, 3], &[5]];
    for (instant, want) in [
        (Some(&b"2024-01-06"[..]), Verdict::NotCrowded { holds: 2 }),
        (Some(b"2024-01-03"), Verdict::Yes),
        (Some(b"2024-01-09"), Verdict::NotCrowded { holds: 0 }),
        (None, Verdict::NotCrowded { holds: 0 }),
    ] {
        check_verdict(&rt, &parts, 3, instant, want)?;
    }
    Ok(())
}

#[test]
fn gives_the_first_verdict(rt: HostRuntime) -> Result<(), Fail> {
    let third = Some(&b"2024-01-03"[..]);
    for (parts, count, want) in [
        (&[&[1, 4, 5][..], &[2, 3]][..], 2, Verdict::Overlap(1, 5)),
        (&[&[1, 4], &[2, 3]], 2, Verdict::Missing(5)),
        (&[&[1, 4], &[2, 3], &[5, 1]], 3, Verdict::Twice(1)),
        (&[&[1, 4], &[2, 3], &[9]], 3, Verdict::Unknown(9)),
        (&[&[1, 4], &[2, 3, 5]], 3, Verdict::WrongCount(2)),
        (&[&[1, 4], &[], &[2, 3, 5]], 3, Verdict::EmptyPart(1)),
        (&[], 3, Verdict::WrongCount(0)),
        (&[&[], &[9, 9]], 2, Verdict::EmptyPart(0)),
        (&[&[1, 1], &[9]], 2, Verdict::Unknown(9)),
        (&[&[1, 1], &[5, 2, 3]], 2, Verdict::Twice(1)),
        (&[&[5], &[4, 1], &[3, 2]], 3, Verdict::Yes),
    ] {
        check_verdict(&rt, parts, count, third, want)?;
    }
    Ok(())
}
