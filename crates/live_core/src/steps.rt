//! How each byte of a script is read by `csv`.
ghost use Rattle.std.specs.Prelude.{◌≡◌};
ghost use Rattle.csv.specs.Machine.{step};
ghost use Rattle.csv.specs.Reading.{default_config};
ghost use Rattle.csv.specs.Machine as machine;
ghost use Rattle.live_core.specs.Scanning.{action_of, folded, state_of};

/// The position of a byte.
#[derive(Clone, Copy, Debug, PartialEq, Eq)]
pub(crate) enum Spot {
    /// Between records.
    Between,
    /// After a comma.
    FieldStart,
    InField,
    InQuotes,
    /// After a quote in a quoted field. The quote ends the field, or is the first of two that stand for one.
    BehindQuote,
}

/// The effect of a byte.
#[derive(Clone, Copy, Debug, PartialEq, Eq)]
pub(crate) enum Move {
    Skip,
    Copy,
    EndField,
    EndRecord,
}

/// Returns the effect of a byte in a field, outside of quotes, and the position of the next byte.
fn move_in_field(byte: u8) -> (Spot, Move)
    ensures spot { state_of result.0 ≡ folded (machine.in_field default_config byte).0 }
    ensures does { action_of result.1 ≡ (machine.in_field default_config byte).1 }
{
    match byte {
        b',' => (Spot::FieldStart, Move::EndField),
        b'\r' | b'\n' => (Spot::Between, Move::EndRecord),
        _ => (Spot::InField, Move::Copy),
    }
}

/// Returns the effect of a byte between records, and the position of the next byte.
fn move_between(byte: u8) -> (Spot, Move)
    ensures spot { state_of result.0 ≡ folded (machine.start_record default_config byte).0 }
    ensures does { action_of result.1 ≡ (machine.start_record default_config byte).1 }
{
    match byte {
        b'\r' | b'\n' => (Spot::Between, Move::Skip),
        b'"' => (Spot::InQuotes, Move::Skip),
        _ => move_in_field(byte),
    }
}

/// Returns the effect of a byte, and the position of the next byte.
pub(crate) fn step(spot: Spot, byte: u8) -> (Spot, Move)
    ensures spot { state_of result.0 ≡ folded (step default_config (state_of spot) byte).0 }
    ensures does { action_of result.1 ≡ (step default_config (state_of spot) byte).1 }
{
    match spot {
        Spot::Between => move_between(byte),
        Spot::FieldStart if byte == b'"' => (Spot::InQuotes, Move::Skip),
        Spot::InQuotes if byte == b'"' => (Spot::BehindQuote, Move::Skip),
        Spot::InQuotes => (Spot::InQuotes, Move::Copy),
        Spot::BehindQuote if byte == b'"' => (Spot::InQuotes, Move::Copy),
        Spot::FieldStart | Spot::InField | Spot::BehindQuote => move_in_field(byte),
    }
}
