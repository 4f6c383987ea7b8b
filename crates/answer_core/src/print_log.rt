//! Prints the log of commits.
ghost use Rattle.std.specs.Prelude.{◌≡◌, ◌∷◌, ◌++◌, [], OnOk, codes, decimal, map};
ghost use Rattle.csv.specs.Writing.{row_body, row_text};
ghost use Rattle.book_core.specs.Words.{word_of};
ghost use Rattle.answer_core.specs.RecordBytes.{answer_writer};
ghost use Rattle.answer_core.specs.Unwritten.{Adds};
ghost use Rattle.answer_core.specs.PrintedRecords.{commit_record, commit_records};

use crate::ranges::RecordList;
use crate::record_text::RecordText;
use crate::writer::AnswerWriter;
use book_core::{Entry, Log};
use period_core::NoMemory;
use std::thread::Threads;
use work_core::Crew;

/// The records of commits.
#[derive(Drop)]
struct CommitRecords<'a> {
    entries: &'a [Entry],
}

impl<'a> RecordList for CommitRecords<'a> {
    ghost records = { λ c. map commit_record c.entries.now };

    fn len(&self) -> usize {
        self.entries.len()
    }

    fn print_at(&self, text: &mut RecordText, index: usize) -> Result<(), NoMemory> {
        text.entry(&self.entries[index])
    }
}

impl AnswerWriter {
    /// Appends the commits of a log, and their number.
    pub(crate) fn log<R: Threads + Sync, G>(
        &mut self,
        crew: &Crew<'_, R, G>,
        log: &Log,
    ) -> Result<(), NoMemory>
        ensures { OnOk result (Adds self.old self.new (commit_records log.now)) }
    {
        let entries = log.as_slice();
        self.print_list(crew, &CommitRecords { entries })?;
        self.end(entries.len() as u64)
    }
}

impl RecordText {
    fn entry(&mut self, entry: &Entry) -> Result<(), NoMemory>
        ensures { OnOk result
            (self.new ≡ self.old ++ row_text answer_writer (commit_record entry.now)) }
    {
        self.entry_front(entry)?;
        self.field(entry.table.as_bytes())?;
        self.number(entry.added)?;
        self.number(entry.closed)?;
        self.end()
    }

    /// Begins the record of a commit, up to its table.
    fn entry_front(&mut self, entry: &Entry) -> Result<(), NoMemory>
        ensures { OnOk result (self.new ≡ self.old ++ row_body answer_writer
            (codes "commit" ∷ decimal entry.now.number ∷ decimal entry.now.by
            ∷ word_of entry.now.kind ∷ [])) }
    {
        self.begin(b"commit")?;
        self.number(entry.number)?;
        self.number(u64::from(entry.by))?;
        self.field(entry.kind.word().as_bytes())
    }
}
