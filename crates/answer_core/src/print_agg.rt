//! Prints the answer to an aggregate.
ghost use Rattle.std.specs.Prelude.{◌≡◌, ◌++◌, [], OnOk, map};
ghost use Rattle.std.specs.Option.{option_copied};
ghost use Rattle.csv.specs.Writing.{fields_text, row_text};
ghost use Rattle.agg_core.specs.Grouping.{agg_row_of};
ghost use Rattle.agg_core.specs.Shares.{rows_in, rows_in_shares};
ghost use Rattle.answer_core.specs.PrintedRecords.{agg_record, agg_records, group_fields};
ghost use Rattle.answer_core.specs.RecordBytes.{answer_writer};
ghost use Rattle.answer_core.specs.Unwritten.{Adds};

use crate::ranges::RecordList;
use crate::record_text::RecordText;
use crate::writer::AnswerWriter;
use period_core::NoMemory;
use query_core::{AggRows, AggShare, Plateau};
use row_core::{Value, ValueRef};
use std::thread::Threads;
use work_core::Crew;

/// The records of some constant intervals of a partition (`AggShare`).
#[derive(Drop)]
struct PlateauRecords<'a> {
    share: &'a AggShare,
    plateaus: &'a [Plateau],
}

impl<'a> RecordList for PlateauRecords<'a> {
    ghost records = { λ p.
        map agg_record (map (agg_row_of p.share.now.groups.items) p.plateaus.now) };

    fn len(&self) -> usize {
        self.plateaus.len()
    }

    fn print_at(&self, text: &mut RecordText, index: usize) -> Result<(), NoMemory> {
        let plateau = &self.plateaus[index];
        text.agg_row(self.share.group(plateau), plateau)
    }
}

impl AnswerWriter {
    /// Appends each group's values over time, and the number of records.
    pub(crate) fn aggregates<R: Threads + Sync, G>(
        &mut self,
        crew: &Crew<'_, R, G>,
        rows: &AggRows,
    ) -> Result<(), NoMemory>
        ensures { OnOk result (Adds self.old self.new (agg_records rows.now)) }
    {
        self.agg_shares(crew, rows.shares())?;
        self.end(rows.len() as u64)
    }

    fn agg_shares<R: Threads + Sync, G>(
        &mut self,
        crew: &Crew<'_, R, G>,
        shares: &[AggShare],
    ) -> Result<(), NoMemory>
        ensures { OnOk result
            (Adds self.old self.new (map agg_record (rows_in_shares shares.now))) }
    {
        for share in shares {
            self.agg_share(crew, share)?;
        }
        Ok(())
    }

    fn agg_share<R: Threads + Sync, G>(
        &mut self,
        crew: &Crew<'_, R, G>,
        share: &AggShare,
    ) -> Result<(), NoMemory>
        ensures { OnOk result (Adds self.old self.new (map agg_record (rows_in share.now))) }
    {
        for chunk in share.plateaus.chunks() {
            let records = PlateauRecords {
                share,
                plateaus: chunk,
            };
            self.print_list(crew, &records)?;
        }
        Ok(())
    }
}

impl RecordText {
    fn agg_row(&mut self, group: Option<&Value>, plateau: &Plateau) -> Result<(), NoMemory>
        ensures { OnOk result (self.new ≡ self.old ++ row_text answer_writer (agg_record record {
          group = option_copied group.entry;
          period = plateau.now.period;
          value = plateau.now.value;
        })) }
    {
        self.begin(b"row")?;
        self.group(group)?;
        self.period(&plateau.period)?;
        self.wide(plateau.value)?;
        self.end()
    }

    /// Appends the value of a group; nothing if all rows are one group.
    fn group(&mut self, group: Option<&Value>) -> Result<(), NoMemory>
        ensures { OnOk result (self.new ≡ self.old
            ++ fields_text answer_writer (group_fields (option_copied group.entry))) }
    {
        match group {
            Some(value) => self.value(ValueRef::from(value)),
            None => Ok(()),
        }
    }
}
