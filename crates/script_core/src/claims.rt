//! Reads the parts of a claimed division.
ghost use Rattle.std.specs.Prelude.{◌≡◌, ◌+◌, ◌<◌, ◌^◌, ◌∷◌, ◌++◌, ℕ, List, [], Ok, MatchResult, length};
ghost use Rattle.command_core.specs.Lines.{fields_in, lines_in};
ghost use Rattle.script_core.specs.Failure.{IsFailureOf, IsRecordFailure};
ghost use Rattle.script_core.specs.Effects.{claim_of, part_of};

use crate::failure::{Failure, refused};
use cert_core::Claim;
use command_core::{Line, Lines, Refusal, begins, natural_in};
use std::alloc::Global;

/// Appends the part that a record of a check claims. `number` is the record's number.
fn push_part(claim: &mut Claim, line: Line<'_>, number: u64) -> Result<(), Failure>
    ensures { MatchResult result
        (λ _. (ids : List ℕ) × (part_of (fields_in line.entry) ≡ Ok ids)
        × (claim.new ≡ claim.old ++ ids ∷ []))
        (IsRecordFailure number (part_of (fields_in line.entry))) }
{
    if !begins(line, b"part") {
        return Err(refused(number, Refusal::BadCommand));
    }
    claim.open_part()?;
    for place in 1..line.len() {
        if let Some(text) = line.get(place) {
            match natural_in(text) {
                Ok(id) => claim.push(id)?,
                Err(refusal) => return Err(refused(number, refusal)),
            }
        }
    }
    Ok(())
}

/// Returns the parts that the records of a check claim. `number` is the number of the first record.
pub(crate) fn read_claim(alloc: Global, lines: Lines<'_>, number: u64) -> Result<Claim, Failure>
    requires { number + length (lines_in lines) < 2 ^ 64 }
    ensures { MatchResult result
        (λ claim. claim_of number (lines_in lines.entry) ≡ Ok claim)
        (IsFailureOf (claim_of number (lines_in lines.entry))) }
{
    let mut claim = Claim::new(alloc);
    for (place, line) in lines.iter().enumerate() {
        push_part(&mut claim, line, number + place as u64)?;
    }
    Ok(claim)
}
