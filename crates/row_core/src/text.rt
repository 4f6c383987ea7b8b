//! Texts.

ghost use Rattle.std.specs.Prelude.{◌≡◌, ◌≤◌, IfOk, MatchResult, bytes_eq, length, refl, Some};
ghost use Rattle.std.specs.Str.{IsUtf8};
ghost use Rattle.std.specs.Cmp.{partial_equiv_from_equiv};
ghost use Rattle.std.specs.Cmp.Lexicographic.{nat_list_cmp_total, nat_list_eq_equiv, slice_cmp, texts_po, texts_ties};
ghost use Rattle.std.specs.Ordering.{nat_cmp};
ghost use Rattle.row_core.specs.Refusals.{IsAnswer};
ghost use Rattle.row_core.specs.Limits.{text_limit};
ghost use Rattle.row_core.specs.Texts.{bytes_in};
ghost use Rattle.row_core.specs.Value.{text_of};

use crate::NoMemory;
use crate::failure::Failure;
use list_core::DeepCopy;
use std::alloc::Global;
use std::cmp::Ordering;
use std::fmt;
use std::marker::Model;
use std::sync::Arc;
use thiserror::Error;

/// The most bytes of a text.
const TEXT_LIMIT: usize = 4096;

/// The most bytes of a text that is stored inline: with this limit, a value takes 24 bytes.
const SHORT_LIMIT: usize = 14;

/// The bytes of a text: stored inline, with their number, or in a block that copies share. Most texts are short; they
/// need no block, and comparing them reads no other memory.
#[derive(Drop)]
pub(crate) enum Bytes {
    Short(u8, [u8; SHORT_LIMIT]),
    Long(Arc<String>),
}

impl Bytes {
    fn new(alloc: Global, text: &str) -> Result<Bytes, NoMemory>
        ensures { IfOk result (λ bytes. bytes_in bytes ≡ text.now) }
    {
        let len = text.len();
        if len > SHORT_LIMIT {
            let long = String::from_str(alloc, text)?;
            return Ok(Bytes::Long(Arc::new(alloc, long)?));
        }
        let mut bytes = [0; SHORT_LIMIT];
        bytes[..len].copy_from_slice(text.as_bytes());
        Ok(Bytes::Short(len as u8, bytes))
    }

    fn as_slice(&self) -> &[u8]
        ensures { result.now ≡ bytes_in self.now }
    {
        match self {
            Bytes::Short(len, bytes) => {
                let bytes = bytes.as_slice();
                &bytes[..usize::from(*len).min(bytes.len())]
            }
            Bytes::Long(text) => text.as_bytes(),
        }
    }

    /// Returns another owner of the block, or a copy of the inline bytes.
    fn share(&self) -> Result<Bytes, NoMemory>
        ensures { IfOk result (λ bytes. bytes_in bytes ≡ bytes_in self.now) }
    {
        match self {
            Bytes::Short(len, bytes) => Ok(Bytes::Short(*len, *bytes)),
            Bytes::Long(text) => Ok(Bytes::Long(Arc::try_clone(text)?)),
        }
    }
}

/// A text of at most 4,096 bytes, ordered by its bytes. Contracts see its bytes.
#[derive(Drop)]
pub struct Text {
    bytes: Bytes,
}

impl Model for Text {
    ghost use Rattle.std.specs.Prelude.{ℕ, List};
    ghost use Rattle.row_core.specs.Texts.{IsText, bytes_in};

    ghost Value = { List ℕ };

    ghost view = { λ t. bytes_in t.bytes };

    ghost invariant = { λ t. IsText (bytes_in t.bytes) };
}

/// Why bytes aren't a text, in the order of the tests.
#[derive(Clone, Copy, Debug, PartialEq, Eq, Error)]
pub enum TextRefused {
    /// There are more than 4,096 bytes.
    #[error("more than 4,096 bytes")]
    TooLong,
    /// The bytes aren't UTF-8.
    #[error("not UTF-8")]
    BadUtf8,
}

impl Text {
    /// Returns the bytes as a string if they can be a text's. Allocates nothing.
    pub fn checked(bytes: &[u8]) -> Result<&str, TextRefused>
        ensures { MatchResult result
            (λ text. (text_of bytes.now ≡ Ok text.now) × (length text.now ≤ text_limit))
            (λ refusal. text_of bytes.now ≡ Err refusal) }
    {
        if bytes.len() > TEXT_LIMIT {
            return Err(TextRefused::TooLong);
        }
        match str::from_utf8(bytes) {
            Ok(text) => Ok(text),
            Err(_) => Err(TextRefused::BadUtf8),
        }
    }

    /// Returns a text with a copy of the bytes.
    pub fn new(alloc: Global, bytes: &[u8]) -> Result<Text, Failure<TextRefused>>
        ensures { IsAnswer (text_of bytes.now) result }
    {
        let text = Text::checked(bytes).map_err(Failure::Refused)?;
        Ok(Text::of(alloc, text)?)
    }

    /// Returns a text with a copy of the string, which must not be too long.
    pub fn of(alloc: Global, text: &str) -> Result<Text, NoMemory>
        requires { length text.now ≤ text_limit }
        ensures { IfOk result (λ made. made ≡ text.now) }
    {
        Ok(Text {
            bytes: Bytes::new(alloc, text)?,
        })
    }

    /// Returns the text as a string.
    pub fn as_str(&self) -> &str
        ensures text { result.now ≡ self.now }
        ensures short { length result.now ≤ text_limit }
    {
        // The proof knows that a text's bytes are UTF-8, so they aren't tested again.
        unsafe { str::from_utf8_unchecked(self.as_bytes()) }
    }

    /// Returns the bytes of the text, which are UTF-8.
    pub fn as_bytes(&self) -> &[u8]
        ensures text { result.now ≡ self.now }
        ensures short { length result.now ≤ text_limit }
        ensures utf8 { IsUtf8 result.now }
    {
        self.bytes.as_slice()
    }
}

/// Formats the text like a string.
impl fmt::Debug for Text {
    fn fmt<W: fmt::Write>(&self, f: &mut fmt::Formatter<W>) -> fmt::Result {
        fmt::Debug::fmt(self.as_str(), f)
    }
}

impl DeepCopy for Text {
    fn copy(&self, _alloc: Global) -> Result<Text, NoMemory> {
        Ok(Text {
            bytes: self.bytes.share()?,
        })
    }
}

impl PartialEq for Text {
    ghost eq = { λ a b. bytes_eq a b };

    ghost laws = { partial_equiv_from_equiv nat_list_eq_equiv };

    fn eq(&self, other: &Text) -> bool {
        self.as_bytes() == other.as_bytes()
    }
}

impl Eq for Text {
    ghost laws = { nat_list_eq_equiv };
}

impl PartialOrd for Text {
    ghost partial_cmp = { λ a b. Some (slice_cmp nat_cmp a b) };

    ghost laws = { texts_po };

    fn partial_cmp(&self, other: &Text) -> Option<Ordering> {
        Some(self.cmp(other))
    }
}

impl Ord for Text {
    ghost cmp = { slice_cmp nat_cmp };

    ghost total = { nat_list_cmp_total };

    ghost matches_partial_cmp = { λ a b. refl };

    ghost matches_eq = { texts_ties };

    fn cmp(&self, other: &Text) -> Ordering {
        self.as_bytes().cmp(other.as_bytes())
    }
}
