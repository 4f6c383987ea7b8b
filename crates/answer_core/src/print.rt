//! Prints answers. This file has refusals, accepted changes, rows and versions.
ghost use Rattle.std.specs.Prelude.{◌≡◌, [], ◌∷◌, ◌++◌, List, OnErr, OnOk, map};
ghost use Rattle.csv.specs.Writing.{row_text};
ghost use Rattle.table_core.specs.Lent.{lent_row};
ghost use Rattle.answer_core.specs.PrintedRecords.{IsPrintedAs, end_record, end_text, error_record, ok_record, row_record, row_records, together_record, verdict_record, version_record, version_records};
ghost use Rattle.answer_core.specs.RecordBytes.{answer_writer, field_behind};
ghost use Rattle.answer_core.specs.Unwritten.{Adds};
ghost use Rattle.command_core.specs.Records.{Record};

use crate::answer::Answer;
use crate::ranges::RecordList;
use crate::record_text::RecordText;
use crate::writer::AnswerWriter;
use book_core::SharedVersions;
use cert_core::Verdict;
use command_core::Fault;
use period_core::NoMemory;
use std::thread::Threads;
use table_core::{RowRef, SharedRows};
use work_core::Crew;

/// The records of rows.
#[derive(Drop)]
struct RowRecords<'a> {
    rows: &'a SharedRows,
}

impl<'a> RecordList for RowRecords<'a> {
    ghost records = { λ r. map row_record r.rows.now };

    fn len(&self) -> usize {
        self.rows.len()
    }

    fn print_at(&self, text: &mut RecordText, index: usize) -> Result<(), NoMemory> {
        text.row(self.rows.at(index))
    }
}

/// The records of versions.
#[derive(Drop)]
struct VersionRecords<'a> {
    versions: &'a SharedVersions,
}

impl<'a> RecordList for VersionRecords<'a> {
    ghost records = { λ r. map version_record r.versions.now };

    fn len(&self) -> usize {
        self.versions.len()
    }

    fn print_at(&self, text: &mut RecordText, index: usize) -> Result<(), NoMemory> {
        let version = self.versions.at(index);
        text.version(version.row(), version.sysfrom(), version.systo())
    }
}

impl AnswerWriter {
    /// Appends the records of an answer. Workers share long lists.
    ///
    /// # Errors
    ///
    /// `NoMemory` if an allocation fails. Then all bytes that weren't written are lost.
    pub fn print<R: Threads + Sync, G>(
        &mut self,
        crew: &Crew<'_, R, G>,
        answer: &Answer,
    ) -> Result<(), NoMemory>
        ensures ok { OnOk result
            ((records : List Record) × IsPrintedAs answer.now records
            × Adds self.old self.new records) }
        ensures err { OnErr result (self.new ≡ []) }
    {
        let printed = self.print_records(crew, answer);
        self.settled(printed)
    }

    /// Appends the record that begins the answer to a block of commands. `commit` is the commit that its queries read.
    ///
    /// # Errors
    ///
    /// `NoMemory` if an allocation fails. Then all bytes that weren't written are lost.
    pub fn together(&mut self, commit: u64) -> Result<(), NoMemory>
        ensures ok { OnOk result (Adds self.old self.new (together_record commit ∷ [])) }
        ensures err { OnErr result (self.new ≡ []) }
    {
        let printed = self.text.opening(commit);
        self.settled(printed)
    }

    fn print_records<R: Threads + Sync, G>(
        &mut self,
        crew: &Crew<'_, R, G>,
        answer: &Answer,
    ) -> Result<(), NoMemory>
        ensures { OnOk result
            ((records : List Record) × IsPrintedAs answer.now records
            × Adds self.old self.new records) }
    {
        match answer {
            Answer::Refused(fault) => self.refuse(*fault),
            Answer::Committed(commit) => self.accept(*commit),
            Answer::Rows(rows) => self.row_list(crew, rows),
            Answer::Versions(versions) => self.version_list(crew, versions),
            Answer::Division { rows, division } => self.division(crew, *rows, division),
            Answer::Join(joined) => self.joined(crew, joined),
            Answer::Anti(unmatched) => self.unmatched(crew, unmatched),
            Answer::Agg(rows) => self.aggregates(crew, rows),
            Answer::Verdict(verdict) => self.verdict(*verdict),
            Answer::Log(log) => self.log(crew, log),
        }
    }

    fn refuse(&mut self, fault: Fault) -> Result<(), NoMemory>
        ensures { OnOk result (Adds self.old self.new (error_record fault ∷ [])) }
    {
        self.text.refusal(fault)
    }

    fn accept(&mut self, commit: u64) -> Result<(), NoMemory>
        ensures { OnOk result (Adds self.old self.new (ok_record commit ∷ [])) }
    {
        self.text.accepted(commit)
    }

    fn verdict(&mut self, verdict: Verdict) -> Result<(), NoMemory>
        ensures { OnOk result (Adds self.old self.new (verdict_record verdict ∷ [])) }
    {
        self.text.verdict(verdict)
    }

    /// Appends the record that ends a list of `count` records.
    pub(crate) fn end(&mut self, count: u64) -> Result<(), NoMemory>
        ensures { OnOk result (Adds self.old self.new (end_record count ∷ [])) }
    {
        self.text.end_of_list(count)
    }

    /// Appends rows, and their number.
    fn row_list<R: Threads + Sync, G>(
        &mut self,
        crew: &Crew<'_, R, G>,
        rows: &SharedRows,
    ) -> Result<(), NoMemory>
        ensures { OnOk result (Adds self.old self.new (row_records rows.now)) }
    {
        self.print_list(crew, &RowRecords { rows })?;
        self.end(rows.len() as u64)
    }

    /// Appends versions, and their number.
    fn version_list<R: Threads + Sync, G>(
        &mut self,
        crew: &Crew<'_, R, G>,
        versions: &SharedVersions,
    ) -> Result<(), NoMemory>
        ensures { OnOk result (Adds self.old self.new (version_records versions.now)) }
    {
        self.print_list(crew, &VersionRecords { versions })?;
        self.end(versions.len() as u64)
    }
}

impl RecordText {
    /// Appends the answer to a refused command.
    fn refusal(&mut self, fault: Fault) -> Result<(), NoMemory>
        ensures { OnOk result (self.new ≡ self.old ++ row_text answer_writer (error_record fault)) }
    {
        self.begin(b"error")?;
        self.number(fault.number)?;
        self.field(fault.refusal.text())?;
        self.end()
    }

    /// Appends the answer to an accepted change.
    fn accepted(&mut self, commit: u64) -> Result<(), NoMemory>
        ensures { OnOk result (self.new ≡ self.old ++ row_text answer_writer (ok_record commit)) }
    {
        self.begin(b"ok")?;
        self.number(commit)?;
        self.end()
    }

    /// Appends the first record of the answer to a block of commands.
    fn opening(&mut self, commit: u64) -> Result<(), NoMemory>
        ensures { OnOk result
            (self.new ≡ self.old ++ row_text answer_writer (together_record commit)) }
    {
        self.begin(b"together")?;
        self.number(commit)?;
        self.end()
    }

    fn row(&mut self, row: RowRef<'_>) -> Result<(), NoMemory>
        ensures { OnOk result (self.new
            ≡ self.old ++ row_text answer_writer (row_record (lent_row row.entry))) }
    {
        self.begin(b"row")?;
        self.number(row.id())?;
        self.period(&row.period())?;
        self.values(row)?;
        self.end()
    }

    fn version(&mut self, row: RowRef<'_>, sysfrom: u64, systo: Option<u64>) -> Result<(), NoMemory>
        ensures { OnOk result (self.new ≡ self.old ++ row_text answer_writer (version_record
            (record { row = lent_row row.entry; sysfrom = sysfrom; systo = systo }))) }
    {
        self.begin(b"version")?;
        self.number(row.id())?;
        self.period(&row.period())?;
        self.number(sysfrom)?;
        self.system_end(systo)?;
        self.values(row)?;
        self.end()
    }

    fn system_end(&mut self, end: Option<u64>) -> Result<(), NoMemory>
        ensures { OnOk result (self.new ≡ self.old ++ field_behind (end_text end)) }
    {
        match end {
            Some(commit) => self.number(commit),
            None => self.field(b"-"),
        }
    }

    /// Appends the record that ends a list of `count` records.
    pub(crate) fn end_of_list(&mut self, count: u64) -> Result<(), NoMemory>
        ensures { OnOk result (self.new ≡ self.old ++ row_text answer_writer (end_record count)) }
    {
        self.begin(b"end")?;
        self.number(count)?;
        self.end()
    }
}
