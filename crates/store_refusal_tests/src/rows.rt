//! Points, columns, keys, values and rows, with memory refused.

use crate::fixtures::{day, name, text};
use draft_core::{Drafts, RowReader};
use list_core::DeepCopy;
use period_core::Point;
use refusal_core::{Ended, Fault, holds, refuses, try_each};
use row_core::{
    Draft, Field, KeyRefused, Kind, Row, RowList, RowRefused, Schema, SchemaRefused, Value, Values,
};
use std::alloc::Global;
use std::convert::AsSlice;

// Writes points after a byte. If memory is refused, checks that only this byte is there, and writes the point again.
fn write_points(alloc: Global) -> Result<(), Ended> {
    for text in [
        &b"1970-01-01"[..],
        b"2024-01-01",
        b"2024-02-29",
        b"0001-01-01",
        b"9999-12-31",
        b"9999-12-31T23:59:59",
        b"1969-12-31T23:59:59",
    ] {
        let point = Point::parse(text)?;
        let mut out = Vec::with_capacity(alloc, 1)?;
        out.push(b'!')?;
        if point.write(&mut out).is_err() {
            holds(out.as_slice() == b"!".as_slice())?;
            point.write(&mut out)?;
        }
        holds(out.get(1..) == Some(text))?;
    }
    Ok(())
}

#[test]
fn points_are_written_later(rt: HostRuntime) -> Result<(), Fault> {
    try_each(&rt, write_points)
}

// Returns a column `c` of numbers and a column `d` of texts.
fn columns(alloc: Global) -> Result<Schema, Ended> {
    let columns = [(name(b"c")?, Kind::Int), (name(b"d")?, Kind::Text)];
    Ok(Schema::new(alloc, &columns)?)
}

// Makes columns and copies them, and checks that wrong ones are refused.
fn make_columns(alloc: Global) -> Result<(), Ended> {
    let schema = columns(alloc)?;
    let copy = schema.copy(alloc)?;
    holds(copy.as_slice() == schema.as_slice())?;
    let many = [(name(b"c")?, Kind::Int); 17];
    refuses(Schema::new(alloc, &many[..2]), SchemaRefused::TwiceNamed)?;
    refuses(Schema::new(alloc, &many), SchemaRefused::TooMany)
}

// Makes a key, and checks that a wrong one is refused.
fn make_key(alloc: Global) -> Result<(), Ended> {
    let (c, d) = (name(b"c")?, name(b"d")?);
    let keyed = columns(alloc)?.with_key(alloc, &[d, c])?;
    let places = keyed.key_places(alloc)?;
    holds(places.as_slice() == [1, 0].as_slice())?;
    let copy = keyed.copy(alloc)?;
    holds(copy.as_slice() == keyed.as_slice())?;
    refuses(
        columns(alloc)?.with_key(alloc, &[c, c]),
        KeyRefused::TwiceNamed,
    )
}

#[test]
fn columns_and_keys_are_made_or_memory_is_refused(rt: HostRuntime) -> Result<(), Fault> {
    try_each(&rt, make_columns)?;
    try_each(&rt, make_key)
}

// Returns fields with these bytes.
fn fields(alloc: Global, texts: &[&[u8]]) -> Result<Vec<Field>, Ended> {
    let mut fields = Vec::new(alloc);
    for text in texts {
        fields.push(Field::new(alloc, text)?)?;
    }
    Ok(fields)
}

// Reads a row, and checks that two are refused: one has too few fields, and one ends before it begins.
fn read_rows(alloc: Global) -> Result<(), Ended> {
    let schema = columns(alloc)?;
    let right = fields(alloc, &[b"2024-01-01", b"2024-01-02", b"-7", b"y"])?;
    let draft = schema.read_row(alloc, right.as_slice())?;
    let want = [Value::Int(-7), text(alloc, b"y")?];
    holds(draft.period == day()? && draft.values.as_slice() == want.as_slice())?;
    let backwards = fields(alloc, &[b"2024-01-02", b"2024-01-01", b"x", b"y"])?;
    let narrow = backwards.get(..3).ok_or(Ended::Wrong)?;
    refuses(schema.read_row(alloc, narrow), RowRefused::WrongWidth)?;
    refuses(
        schema.read_row(alloc, backwards.as_slice()),
        RowRefused::BadPeriod,
    )
}

// Reads two rows, and checks that a third is refused.
fn read_more_rows(alloc: Global) -> Result<(), Ended> {
    let schema = columns(alloc)?;
    let long = b"a text of more than fourteen bytes";
    let first = fields(alloc, &[b"2024-01-01", b"2024-01-02", b"7", long])?;
    let second = fields(alloc, &[b"2024-01-02", b"2024-01-03", b"8", b"y"])?;
    let reader = RowReader::new(alloc, &schema, 1)
        .read(first.as_slice())?
        .read(second.as_slice())?;
    let rows = reader.into_rows();
    let values = rows.get(1).ok_or(Ended::Wrong)?.values(alloc)?;
    let want = [Value::Int(8), text(alloc, b"y")?];
    holds(rows.len() == 2 && values.as_slice() == want.as_slice())?;
    let reader = RowReader::new(alloc, &schema, 1).read(first.as_slice())?;
    let narrow = first.get(..3).ok_or(Ended::Wrong)?;
    refuses(reader.read(narrow), RowRefused::WrongWidth)
}

// Returns a number and a text. If adding one is refused memory, checks that it wasn't added, and adds it again.
fn values(alloc: Global) -> Result<Values, Ended> {
    let schema = columns(alloc)?;
    holds(schema.width() == 2)?;
    let mut values = Values::new(alloc);
    if values.push(schema.read_value(alloc, 0, b"7")?).is_err() {
        holds(values.is_empty())?;
        values.push(schema.read_value(alloc, 0, b"7")?)?;
    }
    let text = schema.read_value(alloc, 1, b"7")?;
    if values.push(text.copy(alloc)?).is_err() {
        holds(values.len() == 1)?;
        values.push(text.copy(alloc)?)?;
    }
    holds(values.as_slice() == [Value::Int(7), text].as_slice())?;
    Ok(values)
}

// Returns a draft of a day, with those values.
fn draft(alloc: Global, values: &Values) -> Result<Draft, Ended> {
    Ok(Draft {
        period: day()?,
        values: values.copy(alloc)?,
    })
}

// Adds drafts to a list in each way. If memory is refused, checks that none was added, and adds them again.
fn add_each_way(alloc: Global, values: &Values) -> Result<Drafts, Ended> {
    let mut drafts = Drafts::new(alloc);
    if drafts.push(draft(alloc, values)?).is_err() {
        holds(drafts.is_empty())?;
        drafts.push(draft(alloc, values)?)?;
    }
    if drafts.push_row(day()?, values.as_slice()).is_err() {
        holds(drafts.len() == 1)?;
        drafts.push_row(day()?, values.as_slice())?;
    }
    let copies = drafts.copy(alloc)?;
    if drafts.append(copies).is_err() {
        let copies = drafts.copy(alloc)?;
        holds(drafts.len() == 2)?;
        drafts.append(copies)?;
    }
    Ok(drafts)
}

// Adds drafts of other kinds to a list. If memory is refused, checks that none was added, and adds them again.
fn add_unlike(alloc: Global) -> Result<(), Ended> {
    let values = values(alloc)?;
    let mut drafts = add_each_way(alloc, &values)?;
    if drafts.push_row(day()?, &[]).is_err() {
        holds(drafts.len() == 4)?;
        drafts.push_row(day()?, &[])?;
    }
    let mut all = add_each_way(alloc, &values)?;
    let unlike = drafts.copy(alloc)?;
    if all.append(unlike).is_err() {
        holds(all.len() == 4)?;
        all.append(drafts)?;
    }
    holds(all.len() == 9)?;
    for place in 0..8 {
        let copy = all.get(place).ok_or(Ended::Wrong)?.copy(alloc)?;
        holds(copy.period == day()? && copy.values.as_slice() == values.as_slice())?;
    }
    holds(all.get(8).ok_or(Ended::Wrong)?.width() == 0)
}

// Adds drafts, and copies each of them.
fn add_drafts(alloc: Global) -> Result<(), Ended> {
    let values = values(alloc)?;
    let drafts = add_each_way(alloc, &values)?;
    holds(drafts.len() == 4)?;
    for place in 0..4 {
        let copy = drafts.get(place).ok_or(Ended::Wrong)?.copy(alloc)?;
        holds(copy.period == day()? && copy.values.as_slice() == values.as_slice())?;
    }
    Ok(())
}

// Adds a row to a list. If memory is refused, checks that it wasn't added, and adds it again.
fn add_row(alloc: Global) -> Result<(), Ended> {
    let row = Row {
        id: 5,
        period: day()?,
        values: values(alloc)?,
    };
    let mut rows = RowList::new(alloc);
    if rows.push(row.copy(alloc)?).is_err() {
        holds(rows.is_empty())?;
        rows.push(row.copy(alloc)?)?;
    }
    holds(rows.len() == 1)?;
    let copy = rows.get(0).ok_or(Ended::Wrong)?;
    holds(copy.id == 5 && copy.values.as_slice() == row.values.as_slice())
}

#[test]
fn rows_are_read_and_added_or_memory_is_refused(rt: HostRuntime) -> Result<(), Fault> {
    try_each(&rt, read_rows)?;
    try_each(&rt, read_more_rows)?;
    try_each(&rt, add_drafts)?;
    try_each(&rt, add_unlike)?;
    try_each(&rt, add_row)
}
