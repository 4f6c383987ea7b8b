//! Numbers in their printed form.

ghost use Rattle.std.specs.Prelude.{◌≡◌, ◌≢◌, ℤ, MatchResult, IsTrue};
ghost use Rattle.std.specs.Result.{result_ok};
ghost use Rattle.row_core.specs.Number.{is_number, is_plain, is_leading, number_of, number_text};

use thiserror::Error;

/// The text isn't the printed form of a 64-bit number.
#[derive(Clone, Copy, Debug, PartialEq, Eq, Error)]
#[error("not what is printed of a number of 64 bits")]
pub struct BadNumber;

/// Parses the printed form of a number: `0`, or an optional `-`, a digit from 1 to 9 and more digits.
pub fn read_number(text: &[u8]) -> Result<i64, BadNumber>
    ensures number { result_ok result ≡ number_of text.now }

    // The text is the printed form of the number; a refused text isn't the printed form of any number.
    ensures text { MatchResult result (λ number. text.now ≡ number_text number)
        (λ _. (number : ℤ) → IsTrue (is_number number) → text.now ≢ number_text number) }
{
    if !is_plain(text) {
        return Err(BadNumber);
    }
    let Ok(text) = str::from_utf8(text) else {
        return Err(BadNumber);
    };
    text.parse().map_err(|_| BadNumber)
}

// Returns whether a number's text may begin like this: no plus, and no zero before another byte.
fn is_plain(text: &[u8]) -> bool
    ensures { result ≡ is_plain text.now }
{
    match text {
        [] => false,
        [only] => *only == b'0' || is_leading(*only),
        [b'-', first, ..] => is_leading(*first),
        [first, ..] => is_leading(*first),
    }
}

fn is_leading(byte: u8) -> bool
    ensures { result ≡ is_leading byte }
{
    (b'1'..=b'9').contains(&byte)
}
