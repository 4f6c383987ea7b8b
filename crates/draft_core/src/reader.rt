//! Reading rows directly into columns.

ghost use Rattle.std.specs.Prelude.{◌≡◌, ◌<◌, ◌++◌, ◌∷◌, [], length, map, IfErr, OnOk, Ok, Err};
ghost use Rattle.row_core.specs.Reading.{row_of};
ghost use Rattle.row_core.specs.Refusals.{IsAnswer, Reads, map_ok};
ghost use Rattle.row_core.specs.declared.draft.Draft.{Draft as AnyDraft};

use crate::columns::Columns;
use crate::drafts::Drafts;
use row_core::{Failure, Fields, RowRefused, Schema};
use std::alloc::Global;
use std::marker::Model;

/// Reads rows of a table one by one. Contracts see the table's columns, and the rows read.
#[derive(Drop)]
pub struct RowReader<'a> {
    alloc: Global,
    schema: &'a Schema,
    /// The capacity in rows that the first row reserves.
    room: usize,
    rows: Columns,
}

impl<'a> Model for RowReader<'a> {
    ghost use Rattle.std.specs.Prelude.{◌≡◌, ◌<◌, length, map};
    ghost use Rattle.draft_core.specs.RowsRead.{RowsRead};

    ghost Value = { RowsRead };

    ghost view = { λ r. record { columns = r.schema.now; rows = r.rows.rows } };

    // The first row creates the columns.
    ghost invariant = { λ r. 0 < length r.rows.rows
        → map (λ column. column.kind) r.schema.now ≡ r.rows.kinds };
}

impl<'a> RowReader<'a> {
    /// Returns a reader that has read no rows. The first row reserves capacity for `room` rows.
    pub fn new(alloc: Global, schema: &'a Schema, room: usize) -> Self
        ensures { result ≡ record { columns = schema.entry.now; rows = [] } }
    {
        RowReader {
            alloc,
            schema,
            room,
            rows: Columns::empty(alloc),
        }
    }

    /// Reads one row more: two points, and one field for each column.
    ///
    /// # Errors
    ///
    /// The first refusal of a field. If no field is refused, `NoMemory` if an allocation is refused, or if the texts of
    /// a column would have 2^32 bytes or more. The texts of 1,000,000 rows never have this many.
    pub fn read<L: Fields>(self, fields: L) -> Result<Self, Failure<RowRefused>>
        ensures { IsAnswer
            (map_ok (λ row. record self.entry { rows = self.entry.rows ++ row ∷ [] })
            (row_of self.entry.columns (L.fields fields))) result }
    {
        let RowReader {
            alloc,
            schema,
            room,
            mut rows,
        } = self;
        match add_row(alloc, schema, room, &mut rows, fields) {
            Ok(()) => Ok(RowReader {
                alloc,
                schema,
                room,
                rows,
            }),
            Err(Failure::Refused(refused)) => Err(Failure::Refused(refused)),
            Err(Failure::NoMemory) => {
                schema.check_row(fields).map_err(Failure::Refused)?;
                Err(Failure::NoMemory)
            }
        }
    }

    /// Returns the rows.
    pub fn into_rows(self) -> Drafts
        ensures { result ≡ self.entry.rows }
    {
        Drafts::of_columns(self.alloc, self.rows)
    }
}

/// Adds the row of the fields. Stops at the first field that is refused, or if memory is. The first row reserves
/// capacity for `room` rows.
fn add_row<L: Fields>(
    alloc: Global,
    schema: &Schema,
    room: usize,
    rows: &mut Columns,
    fields: L,
) -> Result<(), Failure<RowRefused>>
    requires { 0 < length rows.old.rows → map (λ column. column.kind) schema.now ≡ rows.old.kinds }
    ensures kinds { OnOk result (map (λ column. column.kind) schema.now ≡ rows.new.kinds) }
    ensures ok { OnOk result ((row : AnyDraft)
        × (row_of schema.now (L.fields fields) ≡ Ok row)
        × (rows.new.rows ≡ rows.old.rows ++ row ∷ [])) }
    ensures err { IfErr result (λ failure. Reads {T = AnyDraft} (λ row. row)
        (row_of schema.now (L.fields fields)) (Err failure)) }
{
    if rows.is_empty() {
        *rows = Columns::with_room(alloc, &schema.kinds(alloc)?, room)?;
    }
    rows.read(schema.as_slice(), fields)
}
