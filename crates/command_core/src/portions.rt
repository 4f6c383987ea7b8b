//! What a record of `update` or `delete` means.
ghost use Rattle.std.specs.Prelude.{◌≡◌, option_map};
ghost use Rattle.command_core.specs.Command.{meant_by};
ghost use Rattle.command_core.specs.Lines.{fields_in};
ghost use Rattle.command_core.specs.Meaning.{delete_meaning, delete_of, update_meaning, update_of};
ghost use Rattle.command_core.specs.Pairs.{pairs_of};
ghost use Rattle.command_core.specs.Portions.{conditions_in, parts_in, settings_in};

use crate::command::Command;
use crate::fields::{name_in, period_in};
use crate::line::Line;
use crate::pairs::{named_pairs, paired_behind};
use crate::refusal::Refusal;
use crate::words::begins;

/// Returns the fields of the conditions: the pairs after `where`. Without any field, returns no fields.
fn conditions_in<'a>(line: Line<'a>) -> Option<Line<'a>>
    ensures { option_map (λ conds. pairs_of (fields_in conds)) result
        ≡ conditions_in (fields_in line.entry) }
{
    paired_behind(b"where", line)
}

/// Splits fields into settings and conditions. The conditions begin at the first `where` in a column's position.
fn parts_in<'a>(line: Line<'a>) -> Option<(Line<'a>, Line<'a>)>
    ensures { option_map
        (λ parts. (pairs_of (fields_in parts.0), pairs_of (fields_in parts.1))) result ≡ parts_in
        (fields_in line.entry) }
{
    for pair in 0..line.len() / 2 {
        let rest = line.range(2 * pair, line.len());
        if begins(rest, b"where") {
            let conds = conditions_in(rest)?;
            return Some((line.range(0, 2 * pair), conds));
        }
    }
    if line.len() % 2 == 0 {
        Some((line, line.range(line.len(), line.len())))
    } else {
        None
    }
}

/// Returns the fields of the settings after `set`, at least one pair, and the fields of the conditions.
fn settings_in<'a>(line: Line<'a>) -> Option<(Line<'a>, Line<'a>)>
    ensures { option_map
        (λ parts. (pairs_of (fields_in parts.0), pairs_of (fields_in parts.1))) result ≡ settings_in
        (fields_in line.entry) }
{
    if !begins(line, b"set") {
        return None;
    }
    let (sets, conds) = parts_in(line.range(1, line.len()))?;
    if sets.len() >= 2 {
        Some((sets, conds))
    } else {
        None
    }
}

/// Returns what a record of `update` means.
pub(crate) fn read_update<'a>(line: Line<'a>) -> Result<Command<'a>, Refusal>
    ensures { meant_by result ≡ update_meaning (fields_in line.entry) }
{
    let (Some(name), Some(from), Some(to)) = (line.get(1), line.get(2), line.get(3)) else {
        return Err(Refusal::BadCommand);
    };
    match settings_in(line.range(4, line.len())) {
        Some((sets, conds)) => update_of(name, from, to, sets, conds),
        None => Err(Refusal::BadCommand),
    }
}

fn update_of<'a>(
    name: &[u8],
    from: &[u8],
    to: &[u8],
    sets: Line<'a>,
    conds: Line<'a>,
) -> Result<Command<'a>, Refusal>
    ensures { meant_by result ≡ update_of name.now from.now to.now
        (pairs_of (fields_in sets.entry), pairs_of (fields_in conds.entry)) }
{
    let table = name_in(name)?;
    let sets = named_pairs(sets)?;
    let conds = named_pairs(conds)?;
    let portion = period_in(from, to)?;
    Ok(Command::Update {
        table,
        portion,
        sets,
        conds,
    })
}

/// Returns what a record of `delete` means.
pub(crate) fn read_delete<'a>(line: Line<'a>) -> Result<Command<'a>, Refusal>
    ensures { meant_by result ≡ delete_meaning (fields_in line.entry) }
{
    let (Some(name), Some(from), Some(to)) = (line.get(1), line.get(2), line.get(3)) else {
        return Err(Refusal::BadCommand);
    };
    match conditions_in(line.range(4, line.len())) {
        Some(conds) => delete_of(name, from, to, conds),
        None => Err(Refusal::BadCommand),
    }
}

fn delete_of<'a>(
    name: &[u8],
    from: &[u8],
    to: &[u8],
    conds: Line<'a>,
) -> Result<Command<'a>, Refusal>
    ensures { meant_by result
        ≡ delete_of name.now from.now to.now (pairs_of (fields_in conds.entry)) }
{
    let table = name_in(name)?;
    let conds = named_pairs(conds)?;
    let portion = period_in(from, to)?;
    Ok(Command::Delete {
        table,
        portion,
        conds,
    })
}
