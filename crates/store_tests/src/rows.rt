//! Names, columns, values and rows, and their copies.

use crate::fixtures::{day, name, schema, text};
use draft_core::{Drafts, RowReader};
use list_core::DeepCopy;
use row_core::{
    BadName, Draft, Failure, Field, KeyRefused, Kind, Name, Row, RowList, RowRefused, Schema,
    SchemaRefused, Text, TextRefused, Value, ValueRef, ValueRefused, Values,
};
use std::alloc::Global;
use std::convert::AsSlice;
use std::process::Abort;

// Returns a column `c` of numbers and a column `d` of texts.
fn columns(rt: &(impl Abort + Alloc<A = Global>)) -> Schema {
    let columns = [(name(rt, b"c"), Kind::Int), (name(rt, b"d"), Kind::Text)];
    schema(rt, &columns)
}

fn is_int(value: &Value, want: i64) -> bool {
    match value {
        Value::Int(number) => *number == want,
        Value::Text(_) => false,
    }
}

fn is_text(value: &Value, want: &[u8]) -> bool {
    match value {
        Value::Int(_) => false,
        Value::Text(text) => text.as_bytes() == want,
    }
}

// Returns whether the values are a number and a text.
fn are_both(values: &[Value], number: i64, text: &[u8]) -> bool {
    values.len() == 2 && is_int(&values[0], number) && is_text(&values[1], text)
}

// Checks that the text parses as a name, which is shown as this text.
fn check_name(rt: &(impl Abort + Alloc<A = Global>), text: &[u8]) {
    let name = name(rt, text);
    assert!(rt; name.as_bytes() == text);
    let shown = format!(in rt.alloc(); "{name}").expect(rt, "memory");
    assert!(rt; shown.as_bytes() == text);
}

#[test]
fn knows_names(rt: HostRuntime) {
    for text in [&b"a"[..], b"z_9", b"abcdefghijklmnopqrstuvwxyzabcdef"] {
        check_name(&rt, text);
    }
    for text in [
        &b"asof"[..],
        b"1a",
        b"abcdefghijklmnopqrstuvwxyzabcdefg",
        b"",
        b"_a",
        b"A",
        b"a-b",
    ] {
        assert!(rt; Name::parse(text) == Err(BadName));
    }
}

#[test]
fn knows_columns(rt: HostRuntime) {
    let schema = columns(&rt);
    assert!(rt; schema.width() == 2);
    assert!(rt; schema.column(name(&rt, b"d")) == Some(1));
    assert!(rt; schema.column(name(&rt, b"e")).is_none());
    let copy = schema.copy(rt.alloc()).expect(&rt, "memory");
    assert!(rt; copy.as_slice() == schema.as_slice());
}

#[test]
fn refuses_columns(rt: HostRuntime) {
    let many = [(name(&rt, b"c"), Kind::Int); 17];
    let twice = Schema::new(rt.alloc(), &many[..2]).err();
    assert!(rt; twice == Some(Failure::Refused(SchemaRefused::TwiceNamed)));
    let many = Schema::new(rt.alloc(), &many).err();
    assert!(rt; many == Some(Failure::Refused(SchemaRefused::TooMany)));
}

// Checks that the key has the columns `d` and `c`, in this order.
fn check_key(rt: &(impl Abort + Alloc<A = Global>), schema: &Schema) {
    assert!(rt; schema.key_len() == 2);
    assert!(rt; schema.key_column(0) == 1);
    assert!(rt; schema.key_column(1) == 0);
    let places = schema.key_places(rt.alloc()).expect(rt, "memory");
    assert!(rt; places.as_slice() == [1, 0].as_slice());
}

#[test]
fn knows_keys(rt: HostRuntime) {
    let names = [name(&rt, b"d"), name(&rt, b"c")];
    let both = columns(&rt)
        .with_key(rt.alloc(), &names)
        .expect(&rt, "a key");
    check_key(&rt, &both);
    let copy = both.copy(rt.alloc()).expect(&rt, "memory");
    assert!(rt; copy.as_slice() == both.as_slice());
    check_key(&rt, &copy);
}

#[test]
fn refuses_keys(rt: HostRuntime) {
    let [c, e] = [name(&rt, b"c"), name(&rt, b"e")];
    let missing = columns(&rt).with_key(rt.alloc(), &[c, e, c]).err();
    assert!(rt; missing == Some(Failure::Refused(KeyRefused::NoColumn)));
    let twice = columns(&rt).with_key(rt.alloc(), &[c, c, e]).err();
    assert!(rt; twice == Some(Failure::Refused(KeyRefused::TwiceNamed)));
}

fn field(rt: &(impl Abort + Alloc<A = Global>), text: &[u8]) -> Field {
    Field::new(rt.alloc(), text).expect(rt, "memory")
}

#[test]
fn copies_a_field(rt: HostRuntime) {
    assert!(rt; field(&rt, b"y").as_slice() == b"y".as_slice());
}

#[test]
fn reads_rows(rt: HostRuntime) {
    let schema = columns(&rt);
    let fields = [
        field(&rt, b"2024-01-01"),
        field(&rt, b"2024-01-02"),
        field(&rt, b"-7"),
        field(&rt, b"y"),
    ];
    let draft = schema
        .read_row(rt.alloc(), &fields[..])
        .expect(&rt, "a row");
    assert!(rt; draft.period == day(&rt));
    assert!(rt; are_both(draft.values.as_slice(), -7, b"y"));
    assert!(rt; schema.fits(&draft.values));
}

// Returns the fields of a row with that number, and a text of that many letters.
fn fields_of(rt: &(impl Abort + Alloc<A = Global>), number: usize, letters: usize) -> [Field; 4] {
    let digits = number.to_string(rt.alloc()).expect(rt, "memory");
    let letters = b"abcdefghijklmnopqrst"
        .get(..letters)
        .expect(rt, "so many letters");
    [
        field(rt, b"2024-01-01"),
        field(rt, b"2024-01-02"),
        field(rt, digits.as_bytes()),
        field(rt, letters),
    ]
}

// Reads thousands of rows, with texts of 0 to 19 letters.
#[test]
fn reads_rows_one_after_another(rt: HostRuntime) {
    let schema = columns(&rt);
    let mut reader = RowReader::new(rt.alloc(), &schema, 1_000);
    for number in 0..2_100 {
        let fields = fields_of(&rt, number, number % 20);
        reader = reader.read(&fields[..]).expect(&rt, "a row");
    }
    let rows = reader.into_rows();
    assert!(rt; rows.len() == 2_100);
    for number in [0, 14, 15, 2_047, 2_048, 2_099] {
        let fields = fields_of(&rt, number, number % 20);
        let alone = schema
            .read_row(rt.alloc(), &fields[..])
            .expect(&rt, "a row");
        let row = rows.get(number).expect(&rt, "the row");
        let values = row.values(rt.alloc()).expect(&rt, "memory");
        assert!(rt; row.period() == alone.period);
        assert!(rt; values.as_slice() == alone.values.as_slice());
    }
}

#[test]
fn refuses_rows(rt: HostRuntime) {
    let schema = columns(&rt);
    let fields = [&b"2024-01-02"[..], b"2024-01-01", b"x", b"y"];
    let narrow = schema.read_row(rt.alloc(), &fields[..3]).err();
    assert!(rt; narrow == Some(Failure::Refused(RowRefused::WrongWidth)));
    let backwards = schema.read_row(rt.alloc(), &fields[..]).err();
    assert!(rt; backwards == Some(Failure::Refused(RowRefused::BadPeriod)));
}

#[test]
fn reads_values(rt: HostRuntime) {
    let schema = columns(&rt);
    assert!(rt; 1 < schema.width());
    let number = schema
        .read_value(rt.alloc(), 0, b"7")
        .expect(&rt, "a number");
    assert!(rt; is_int(&number, 7));
    let text = schema.read_value(rt.alloc(), 1, b"7").expect(&rt, "a text");
    assert!(rt; is_text(&text, b"7"));
    let refused = schema.read_value(rt.alloc(), 0, b"y").err();
    assert!(rt; refused == Some(Failure::Refused(ValueRefused::BadNumber)));
}

#[test]
fn refuses_texts(rt: HostRuntime) {
    let long = [0xff; 4097];
    let refused = Text::new(rt.alloc(), &long).err();
    assert!(rt; refused == Some(Failure::Refused(TextRefused::TooLong)));
    let refused = Text::new(rt.alloc(), &long[..4096]).err();
    assert!(rt; refused == Some(Failure::Refused(TextRefused::BadUtf8)));
}

#[test]
fn copies_values(rt: HostRuntime) {
    let value = text(&rt, b"7");
    let copy = value.copy(rt.alloc()).expect(&rt, "memory");
    assert!(rt; copy == value);
}

#[test]
fn orders_numbers_by_value_before_texts_by_bytes(rt: HostRuntime) {
    for pair in [-10, -9, 8, 70].windows(2) {
        assert!(rt; Value::Int(pair[0]) < Value::Int(pair[1]));
    }
    assert!(rt; Value::Int(70) < text(&rt, b""));
    for pair in [&b""[..], b"70", b"8", b"B", b"a", b"aa"].windows(2) {
        assert!(rt; text(&rt, pair[0]) < text(&rt, pair[1]));
    }
}

// Returns the values 1 and `a`.
fn values(rt: &(impl Abort + Alloc<A = Global>)) -> Values {
    let mut values = Values::new(rt.alloc());
    values.push(Value::Int(1)).expect(rt, "memory");
    values.push(text(rt, b"a")).expect(rt, "memory");
    values
}

// Returns drafts with those values: one added as a draft, one by its values, and copies of both.
fn drafts(rt: &(impl Abort + Alloc<A = Global>)) -> Drafts {
    let mut drafts = Drafts::new(rt.alloc());
    let draft = Draft {
        period: day(rt),
        values: values(rt),
    };
    drafts.push(draft).expect(rt, "memory");
    drafts
        .push_row(day(rt), values(rt).as_slice())
        .expect(rt, "memory");
    let copies = drafts.copy(rt.alloc()).expect(rt, "memory");
    drafts.append(copies).expect(rt, "memory");
    drafts
}

#[test]
fn adds_values_and_drafts(rt: HostRuntime) {
    let drafts = drafts(&rt);
    assert!(rt; drafts.len() == 4);
    assert!(rt; drafts.all_fit(&columns(&rt)));
    for place in 0..4 {
        let draft = drafts.get(place).expect(&rt, "a row");
        let copy = draft.copy(rt.alloc()).expect(&rt, "memory");
        assert!(rt; copy.period == day(&rt));
        assert!(rt; are_both(copy.values.as_slice(), 1, b"a"));
    }
    assert!(rt; drafts.get(4).is_none());
}

// Returns how many values the draft at the given index has, and the first of them if it is a number.
fn shown(rt: &impl Abort, drafts: &Drafts, place: usize) -> (usize, Option<i64>) {
    let draft = drafts.get(place).expect(rt, "a row");
    match draft.value(0) {
        Some(ValueRef::Int(number)) => (draft.width(), Some(number)),
        _ => (draft.width(), None),
    }
}

#[test]
fn keeps_drafts_of_other_kinds(rt: HostRuntime) {
    let mut unlike = drafts(&rt);
    unlike
        .push_row(day(&rt), &[Value::Int(3)])
        .expect(&rt, "memory");
    unlike.push_row(day(&rt), &[]).expect(&rt, "memory");
    unlike
        .push_row(day(&rt), &[text(&rt, b"7")])
        .expect(&rt, "memory");
    unlike.append(drafts(&rt)).expect(&rt, "memory");
    let mut all = drafts(&rt);
    all.append(unlike).expect(&rt, "memory");
    assert!(rt; all.len() == 15);
    assert!(rt; !all.all_fit(&columns(&rt)));
    for place in 0..15 {
        let kept = match place {
            8 => (1, Some(3)),
            9 => (0, None),
            10 => (1, None),
            _ => (2, Some(1)),
        };
        assert!(rt; shown(&rt, &all, place) == kept);
    }
}

fn are_same(copy: &Row, row: &Row) -> bool {
    copy.id == row.id
        && copy.period == row.period
        && copy.values.as_slice() == row.values.as_slice()
}

#[test]
fn adds_a_row_that_is_a_copy(rt: HostRuntime) {
    let row = Row {
        id: 5,
        period: day(&rt),
        values: values(&rt),
    };
    let mut rows = RowList::new(rt.alloc());
    let copy = row.copy(rt.alloc()).expect(&rt, "memory");
    rows.push(copy).expect(&rt, "memory");
    assert!(rt; rows.len() == 1);
    assert!(rt; are_same(rows.get(0).expect(&rt, "a row"), &row));
}
