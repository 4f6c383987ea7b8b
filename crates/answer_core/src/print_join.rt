//! Prints the answer to a join.
ghost use Rattle.std.specs.Prelude.{◌≡◌, ◌++◌, OnOk, map};
ghost use Rattle.csv.specs.Writing.{row_body, row_text};
ghost use Rattle.answer_core.specs.PrintedRecords.{join_front, join_record, join_records};
ghost use Rattle.answer_core.specs.RecordBytes.{answer_writer};
ghost use Rattle.answer_core.specs.Unwritten.{Adds};

use crate::joined::Joined;
use crate::ranges::RecordList;
use crate::record_text::RecordText;
use crate::row_values::RowValues;
use crate::writer::AnswerWriter;
use period_core::NoMemory;
use query_core::JoinRow;
use std::thread::Threads;
use work_core::Crew;

/// The records of joined pairs.
#[derive(Drop)]
struct JoinRecords<'a> {
    rows: &'a [JoinRow],
    left: &'a RowValues<'a>,
    right: &'a RowValues<'a>,
}

impl<'a> RecordList for JoinRecords<'a> {
    ghost records = { λ j. map (join_record j.left.now j.right.now) j.rows.now };

    fn len(&self) -> usize {
        self.rows.len()
    }

    fn print_at(&self, text: &mut RecordText, index: usize) -> Result<(), NoMemory> {
        text.join_row(&self.rows[index], self.left, self.right)
    }
}

impl AnswerWriter {
    /// Appends the joined pairs, and their number.
    pub(crate) fn joined<R: Threads + Sync, G>(
        &mut self,
        crew: &Crew<'_, R, G>,
        joined: &Joined,
    ) -> Result<(), NoMemory>
        ensures { OnOk result (Adds self.old self.new (join_records joined.now)) }
    {
        let left = joined.left_values(crew.alloc)?;
        let right = joined.right_values(crew.alloc)?;
        let records = JoinRecords {
            rows: joined.rows(),
            left: &left,
            right: &right,
        };
        self.print_list(crew, &records)?;
        self.end(joined.rows().len() as u64)
    }
}

impl RecordText {
    fn join_row(
        &mut self,
        row: &JoinRow,
        left: &RowValues<'_>,
        right: &RowValues<'_>,
    ) -> Result<(), NoMemory>
        ensures { OnOk result (self.new
            ≡ self.old ++ row_text answer_writer (join_record left.now right.now row.now)) }
    {
        self.join_front(row)?;
        self.values_of(left.of(row.left))?;
        self.values_of(right.of(row.right))?;
        self.end()
    }

    /// Begins the record of a pair, up to its values.
    fn join_front(&mut self, row: &JoinRow) -> Result<(), NoMemory>
        ensures { OnOk result (self.new ≡ self.old ++ row_body answer_writer (join_front row.now)) }
    {
        self.begin(b"row")?;
        self.period(&row.period)?;
        self.number(row.left)?;
        self.number(row.right)
    }
}
