//! Names of tables and columns.

ghost use Rattle.std.specs.Prelude.{◌≡◌, ◌&&◌, ◌≤◌, IsTrue, ◌==◌, bytes_eq, length, not, position, Some};
ghost use Rattle.std.specs.List.{list_all};
ghost use Rattle.std.specs.Result.{result_ok};
ghost use Rattle.std.specs.Cmp.{partial_equiv_from_equiv};
ghost use Rattle.std.specs.Cmp.Lexicographic.{nat_list_eq_equiv};
ghost use Rattle.row_core.specs.Name.{
  is_letter,
  is_name,
  is_name_byte,
  is_reserved,
  name_of,
  padded,
  starts_with_letter,
};

use std::fmt;
use std::marker::Model;
use thiserror::Error;

/// The most bytes of a name.
const NAME_LIMIT: usize = 32;

/// Words that a script may have where a name is allowed.
const RESERVED: [&[u8]; 6] = [b"asof", b"by", b"key", b"on", b"set", b"where"];

/// A name of a table or a column: 1 to 32 bytes of `a` to `z`, `0` to `9` and `_`. The first byte is a letter, and
/// reserved words aren't names. Contracts see its text.
#[derive(Clone, Copy, Debug)]
pub struct Name {
    // The text, padded with zeros.
    bytes: [u8; NAME_LIMIT],
}

impl Model for Name {
    ghost use Rattle.std.specs.Prelude.{ℕ, List, IsTrue, ◌≡◌};
    ghost use Rattle.std.proofs.Common.{ap};
    ghost use Rattle.row_core.specs.Name.{is_name, padded, unpadded};

    ghost Value = { List ℕ };

    ghost view = { λ name. unpadded name.bytes };

    ghost invariant = { λ name. IsTrue (is_name (unpadded name.bytes))
        × (padded (unpadded name.bytes) ≡ name.bytes) };

    ghost inverse = { λ text. record { bytes = padded text } };

    ghost inverse_ok = { λ name h. ap (λ bytes. record { bytes = bytes }) h.1 };
}

/// The bytes aren't a name.
#[derive(Clone, Copy, Debug, PartialEq, Eq, Error)]
#[error("no name")]
pub struct BadName;

impl Name {
    /// Parses a name. The reserved words `asof`, `by`, `key`, `on`, `set` and `where` aren't names.
    pub fn parse(text: &[u8]) -> Result<Name, BadName>
        ensures { result_ok result ≡ name_of text.now }
    {
        if !is_name(text) {
            return Err(BadName);
        }
        let mut bytes = [0; NAME_LIMIT];
        bytes[..text.len()].copy_from_slice(text);
        Ok(Name { bytes })
    }

    /// Returns the name's text.
    pub fn as_bytes(&self) -> &[u8]
        ensures text { result.now ≡ self.now }
        ensures name { IsTrue (is_name result.now) }
    {
        let len = first_zero(&self.bytes).unwrap_or(NAME_LIMIT);
        &self.bytes[..len]
    }
}

impl PartialEq for Name {
    ghost eq = { λ a b. bytes_eq a b };

    ghost laws = { partial_equiv_from_equiv nat_list_eq_equiv };

    fn eq(&self, other: &Name) -> bool {
        self.bytes == other.bytes
    }
}

impl Eq for Name {
    ghost laws = { nat_list_eq_equiv };
}

/// Writes the name's text.
impl fmt::Display for Name {
    ghost output = { λ name. Some name };

    fn fmt<W: fmt::Write>(&self, f: &mut fmt::Formatter<W>) -> fmt::Result {
        // A name is ASCII.
        f.write_str(unsafe { str::from_utf8_unchecked(self.as_bytes()) })
    }
}

fn is_name(text: &[u8]) -> bool
    ensures { result ≡ is_name text.now }
{
    starts_with_letter(text)
        && text.len() <= NAME_LIMIT
        && are_name_bytes(text)
        && !is_reserved(text)
}

fn starts_with_letter(text: &[u8]) -> bool
    ensures { result ≡ starts_with_letter text.now }
{
    match text {
        [first, ..] => first.is_ascii_lowercase(),
        [] => false,
    }
}

fn are_name_bytes(text: &[u8]) -> bool
    ensures { result ≡ list_all is_name_byte text.now }
{
    text.iter().all(|byte| is_name_byte(*byte))
}

fn is_name_byte(byte: u8) -> bool
    ensures { result ≡ is_name_byte byte }
{
    byte.is_ascii_lowercase() || byte.is_ascii_digit() || byte == b'_'
}

fn is_reserved(text: &[u8]) -> bool
    ensures { result ≡ is_reserved text.now }
{
    RESERVED.contains(&text)
}

// Returns the index of the first zero.
fn first_zero(bytes: &[u8]) -> Option<usize>
    ensures { result ≡ position (λ byte. byte == 0) bytes.now }
{
    bytes.iter().position(|byte| *byte == 0)
}
