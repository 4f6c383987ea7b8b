//! Prints the answer to an anti-join.
ghost use Rattle.std.specs.Prelude.{◌≡◌, ◌++◌, [], OnOk, map};
ghost use Rattle.csv.specs.Writing.{row_text};
ghost use Rattle.list_core.specs.Chunks.{all_in};
ghost use Rattle.answer_core.specs.PrintedRecords.{anti_record, anti_records};
ghost use Rattle.answer_core.specs.RecordBytes.{answer_writer};
ghost use Rattle.answer_core.specs.Unwritten.{Adds};

use crate::ranges::RecordList;
use crate::record_text::RecordText;
use crate::row_values::RowValues;
use crate::unmatched::Unmatched;
use crate::writer::AnswerWriter;
use period_core::NoMemory;
use query_core::AntiRow;
use std::thread::Threads;
use work_core::Crew;

/// The records of rows without a match.
#[derive(Drop)]
struct AntiRecords<'a> {
    rows: &'a [AntiRow],
    left: &'a RowValues<'a>,
}

impl<'a> RecordList for AntiRecords<'a> {
    ghost records = { λ a. map (anti_record a.left.now) a.rows.now };

    fn len(&self) -> usize {
        self.rows.len()
    }

    fn print_at(&self, text: &mut RecordText, index: usize) -> Result<(), NoMemory> {
        text.anti_row(&self.rows[index], self.left)
    }
}

impl AnswerWriter {
    /// Appends the rows, with the periods without a match, and their number.
    pub(crate) fn unmatched<R: Threads + Sync, G>(
        &mut self,
        crew: &Crew<'_, R, G>,
        unmatched: &Unmatched,
    ) -> Result<(), NoMemory>
        ensures { OnOk result (Adds self.old self.new (anti_records unmatched.now)) }
    {
        let left = unmatched.left_values(crew.alloc)?;
        self.anti_chunks(crew, unmatched.rows().chunks(), &left)?;
        self.end(unmatched.rows().len() as u64)
    }

    fn anti_chunks<'a, R: Threads + Sync, G>(
        &mut self,
        crew: &Crew<'_, R, G>,
        chunks: &'a [Vec<AntiRow>],
        left: &'a RowValues<'a>,
    ) -> Result<(), NoMemory>
        ensures { OnOk result
            (Adds self.old self.new (map (anti_record left.now) (all_in chunks.now))) }
    {
        for chunk in chunks {
            self.print_list(crew, &AntiRecords { rows: chunk, left })?;
        }
        Ok(())
    }
}

impl RecordText {
    fn anti_row(&mut self, row: &AntiRow, left: &RowValues<'_>) -> Result<(), NoMemory>
        ensures { OnOk result
            (self.new ≡ self.old ++ row_text answer_writer (anti_record left.now row.now)) }
    {
        self.begin(b"row")?;
        self.number(row.id)?;
        self.period(&row.period)?;
        self.values_of(left.of(row.id))?;
        self.end()
    }
}
