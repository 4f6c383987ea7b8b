//! Cuts a script after line ends, so that its pieces can be read one by one. A record begins after most line ends, but
//! not after one between quotes.
ghost use Rattle.std.specs.Prelude.{◌≡◌, ◌≢◌, ◌↔◌, ℕ, ◌+◌, ◌*◌, ◌<◌, ◌≤◌, ◌/◌, [], get_or, length, map, max, min, false, true, IfOk, IfSome, IsFalse, IsTrue, MatchBool, Some};
ghost use Rattle.csv.specs.Machine.{line_feed};
ghost use Rattle.csv.specs.Reading.{strip_bom};
ghost use Rattle.work_core.specs.Limits.{worker_limit};
ghost use Rattle.command_core.specs.Seams.{AreSeams, EndsInField, HasNoCut, IsCut, IsSeam, joined, last};

use crate::piece::PieceRecords;
use period_core::NoMemory;
use std::alloc::Global;
use work_core::ranges_for;
use work_core::tuning::RANGES_OF_WORKER;

/// The least bytes of a piece: with fewer, a worker would finish before the next one had started.
const BYTES_OF_PIECE: usize = 1_048_576;

/// The first bytes of a row's record. They hardly ever follow a line end between quotes.
const ROW: &[u8] = b"row,";

/// How far from the wanted cut, in bytes, a row's record is searched for. Few records are longer.
const BYTES_LOOKED_AT: usize = 65_536;

/// Cuts a script after line ends, into pieces of about equal length for that many workers.
pub(crate) fn pieces_of<'a>(
    alloc: Global,
    script: &'a [u8],
    workers: u32,
) -> Result<Vec<&'a [u8]>, NoMemory>
    requires { (0 < workers) × (workers ≤ worker_limit) }
    ensures whole { IfOk result (λ pieces.
        joined (map (λ p. p.now) pieces.items) ≡ script.entry.now) }
    ensures few { IfOk result (λ pieces. length pieces.items
        ≤ max 1 (min (length script.entry.now / BYTES_OF_PIECE) (workers * RANGES_OF_WORKER))) }
{
    let count = ranges_for(script.len() / BYTES_OF_PIECE, workers);
    let mut pieces = Vec::new(alloc);
    let mut rest = script;
    for left in (2..=count).rev() {
        let Some(cut) = first_cut(rest, rest.len() / left as usize) else {
            break;
        };
        let (piece, behind) = rest.split_at(cut);
        pieces.push(piece)?;
        rest = behind;
    }
    pieces.push(rest)?;
    Ok(pieces)
}

/// Returns the index after the first line end at or after `from`, or `None` if no line ends there. Prefers an index
/// near `from` where a row's record begins.
fn first_cut(text: &[u8], from: usize) -> Option<usize>
    requires { from ≤ length text.now }
    ensures { IfSome result (λ place. place ≤ length text.now) }
{
    for at in from..text.len().min(from.saturating_add(BYTES_LOOKED_AT)) {
        let (line, behind) = text.split_at(at);
        if ends_line(line) && behind.starts_with(ROW) {
            return Some(at);
        }
    }
    let at = text[from..].iter().position(|byte| *byte == b'\n')?;
    Some(from + at + 1)
}

/// Returns the last index of a text where a line has ended and the next three bytes aren't a byte order mark, which a
/// reader that begins there would skip. Returns 0 if no index fits. Prefers an index near the end where a row's record
/// begins.
pub(crate) fn last_cut(text: &[u8]) -> usize
    ensures within { result ≤ length text.now }
    ensures cut { 0 < result → IsCut text.now result }
    ensures none { result ≡ 0 → HasNoCut text.now }
{
    let before_row = last_cut_before(text, ROW, text.len().saturating_sub(BYTES_LOOKED_AT));
    if before_row > 0 {
        before_row
    } else {
        last_cut_before(text, b"", 0)
    }
}

/// Returns the last such index at or after `from` where `word` follows, or 0 if no index fits.
fn last_cut_before(text: &[u8], word: &[u8], from: usize) -> usize
    ensures within { result ≤ length text.now }
    ensures cut { 0 < result → IsCut text.now result }
    ensures none { result ≡ 0 → word.now ≡ [] → from ≡ 0 → HasNoCut text.now }
{
    for at in (from..text.len().saturating_sub(2)).rev() {
        if is_cut(text, at) && text[at..].starts_with(word) {
            return at;
        }
    }
    0
}

/// Returns whether a line ends before index `at`, and the three bytes after it aren't a byte order mark.
fn is_cut(text: &[u8], at: usize) -> bool
    requires { at + 3 ≤ length text.now }
    ensures yes { result ≡ true → IsCut text.now at }
    ensures no { result ≡ false → IsCut text.now at → ⊥ }
{
    let (front, behind) = text.split_at(at);
    ends_line(front) && !is_marked(behind)
}

/// Returns whether no list's last field ends with a line feed.
pub(crate) fn end_in_fields(lists: &[PieceRecords]) -> bool
    ensures yes { result ≡ true → EndsInField (joined lists.now) }
    ensures no { result ≡ false → (i : ℕ) × (i < length lists.now)
        × (EndsInField (get_or lists.now i []) → ⊥) }
{
    for records in lists {
        if !records.end_in_field() {
            return false;
        }
    }
    true
}

/// Returns whether each piece, read by itself, has the records that it has within the script: after each piece except
/// the last a record begins. `lists` are the pieces' records.
pub(crate) fn are_seams(pieces: &[&[u8]], lists: &[PieceRecords]) -> bool
    requires { length pieces.now ≡ length lists.now }
    ensures { IsTrue result ↔ AreSeams (map (λ p. p.now) pieces.now) lists.now }
{
    for place in 1..pieces.len() {
        if !is_seam(pieces[place - 1], &lists[place - 1], pieces[place]) {
            return false;
        }
    }
    true
}

/// Returns whether a record begins after a piece with these records.
fn is_seam(piece: &[u8], records: &PieceRecords, behind: &[u8]) -> bool
    ensures { IsTrue result ↔ IsSeam piece.now records.now behind.now }
{
    ends_line(piece) && records.end_in_field() && !is_marked(behind)
}

/// Returns whether the last byte is a line feed.
pub(crate) fn ends_line(text: &[u8]) -> bool
    ensures { MatchBool result (last text.now ≡ Some line_feed) (last text.now ≢ Some line_feed) }
{
    match text.last() {
        Some(byte) => *byte == b'\n',
        None => false,
    }
}

/// Returns whether a text begins with a byte order mark.
fn is_marked(text: &[u8]) -> bool
    ensures { IsFalse result ↔ (strip_bom text.now ≡ text.now) }
{
    text.starts_with(b"\xEF\xBB\xBF".as_slice())
}
