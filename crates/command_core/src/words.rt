//! What the words of a record say.
ghost use Rattle.std.specs.Prelude.{◌≡◌};
ghost use Rattle.command_core.specs.Lines.{fields_in};
ghost use Rattle.command_core.specs.Words.{begins, is_end, opens_block, verb_of};

use crate::line::Line;

/// The word that a command of one record begins with.
#[derive(Clone, Copy)]
pub(crate) enum Verb {
    Table,
    Update,
    Delete,
    Rows,
    At,
    Between,
    FromTo,
    Dip,
    Join,
    Anti,
    Agg,
    Log,
}

/// Returns whether the first field is `word`.
pub fn begins(line: Line<'_>, word: &[u8]) -> bool
    ensures { result ≡ begins word.now (fields_in line.entry) }
{
    match line.get(0) {
        Some(first) => first == word,
        None => false,
    }
}

/// Returns the command of one record that the first field names.
pub(crate) fn verb_of(line: Line<'_>) -> Option<Verb>
    ensures { result ≡ verb_of (fields_in line.entry) }
{
    if begins(line, b"table") {
        Some(Verb::Table)
    } else if begins(line, b"update") {
        Some(Verb::Update)
    } else if begins(line, b"delete") {
        Some(Verb::Delete)
    } else if begins(line, b"rows") {
        Some(Verb::Rows)
    } else if begins(line, b"at") {
        Some(Verb::At)
    } else if begins(line, b"between") {
        Some(Verb::Between)
    } else if begins(line, b"fromto") {
        Some(Verb::FromTo)
    } else if begins(line, b"dip") {
        Some(Verb::Dip)
    } else if begins(line, b"join") {
        Some(Verb::Join)
    } else if begins(line, b"anti") {
        Some(Verb::Anti)
    } else if begins(line, b"agg") {
        Some(Verb::Agg)
    } else if begins(line, b"log") {
        Some(Verb::Log)
    } else {
        None
    }
}

/// Returns whether the record is the one field `end`.
pub(crate) fn is_end(line: Line<'_>) -> bool
    ensures { result ≡ is_end (fields_in line.entry) }
{
    line.len() == 1 && begins(line, b"end")
}

/// Returns whether the record opens a block.
pub(crate) fn opens_block(line: Line<'_>) -> bool
    ensures { result ≡ opens_block (fields_in line.entry) }
{
    begins(line, b"load") || begins(line, b"check")
}
