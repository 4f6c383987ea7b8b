//! Prints divisions, and verdicts on claimed ones.
ghost use Rattle.std.specs.Prelude.{◌≡◌, ◌∷◌, ◌++◌, ℤ, OnOk, Option, codes, decimal, map};
ghost use Rattle.csv.specs.Writing.{row_text};
ghost use Rattle.answer_core.specs.RecordBytes.{answer_writer, field_behind};
ghost use Rattle.answer_core.specs.Unwritten.{Adds};
ghost use Rattle.answer_core.specs.PrintedRecords.{dip_record, division_records, instant_text, part_record, part_records, verdict_record};
ghost use Rattle.dip_core.specs.Division.{IsInstantOf};

use crate::ranges::RecordList;
use crate::record_text::RecordText;
use crate::writer::AnswerWriter;
use cert_core::Verdict;
use dip_core::{Division, Part};
use period_core::{NoMemory, Point};
use std::thread::Threads;
use work_core::{Crew, Shares};

/// The records of a division's parts.
#[derive(Drop)]
struct PartRecords<'a> {
    division: &'a Division,
}

impl<'a> RecordList for PartRecords<'a> {
    ghost records = { λ p. part_records 0 p.division.now };

    fn len(&self) -> usize {
        self.division.parts() as usize
    }

    fn print_at(&self, text: &mut RecordText, index: usize) -> Result<(), NoMemory> {
        // The minimum is the index: it shows that the index is a `u32`.
        let number = index.min(self.division.parts() as usize) as u32;
        text.part(number, self.division.part(number))
    }
}

impl AnswerWriter {
    /// Appends a division of `rows` rows, and its instant.
    pub(crate) fn division<R: Threads + Sync, G>(
        &mut self,
        crew: &Crew<'_, R, G>,
        rows: usize,
        division: &Division,
    ) -> Result<(), NoMemory>
        ensures { OnOk result
            ((instant : Option ℤ) × IsInstantOf division.now instant
            × Adds self.old self.new (division_records rows division.now instant)) }
    {
        self.division_with(crew, rows, division, division.instant())
    }

    fn division_with<R: Threads + Sync, G>(
        &mut self,
        crew: &Crew<'_, R, G>,
        rows: usize,
        division: &Division,
        instant: Option<Point>,
    ) -> Result<(), NoMemory>
        ensures { OnOk result
            (Adds self.old self.new (division_records rows division.now instant)) }
    {
        self.text.heading(rows, division.parts(), instant)?;
        self.parts(crew, rows, division)
    }

    /// Appends the parts of a division of `rows` rows. Workers share the parts as if all had the same length.
    fn parts<R: Threads + Sync, G>(
        &mut self,
        crew: &Crew<'_, R, G>,
        rows: usize,
        division: &Division,
    ) -> Result<(), NoMemory>
        ensures { OnOk result (Adds self.old self.new (part_records 0 division.now)) }
    {
        let size = (rows / (division.parts() as usize).max(1)).max(1);
        let shares = Shares::of(crew.alloc, rows, crew.workers, &|row: usize| row / size)?;
        self.by_ranges(crew, &shares, &PartRecords { division })
    }
}

impl RecordText {
    fn heading(&mut self, rows: usize, parts: u32, instant: Option<Point>) -> Result<(), NoMemory>
        ensures { OnOk result
            (self.new ≡ self.old ++ row_text answer_writer (dip_record rows parts instant)) }
    {
        self.begin(b"dip")?;
        self.number(rows as u64)?;
        self.number(u64::from(parts))?;
        self.instant(instant)?;
        self.end()
    }

    fn instant(&mut self, instant: Option<Point>) -> Result<(), NoMemory>
        ensures { OnOk result (self.new ≡ self.old ++ field_behind (instant_text instant)) }
    {
        match instant {
            Some(instant) => self.point(instant),
            None => self.field(b"-"),
        }
    }

    fn part(&mut self, number: u32, part: Part<'_>) -> Result<(), NoMemory>
        ensures { OnOk result (self.new
            ≡ self.old ++ row_text answer_writer (part_record number part.entry.items.now)) }
    {
        self.begin(b"part")?;
        self.number(u64::from(number))?;
        for item in part.items() {
            self.number(item.id)?;
        }
        self.end()
    }

    /// Appends the verdict on a claimed division.
    pub(crate) fn verdict(&mut self, verdict: Verdict) -> Result<(), NoMemory>
        ensures { OnOk result
            (self.new ≡ self.old ++ row_text answer_writer (verdict_record verdict)) }
    {
        match verdict {
            Verdict::WrongCount(parts) => self.refutation(b"WrongCount", &[parts]),
            Verdict::EmptyPart(number) => self.refutation(b"EmptyPart", &[number]),
            Verdict::Unknown(id) => self.refutation(b"Unknown", &[id]),
            Verdict::Twice(id) => self.refutation(b"Twice", &[id]),
            Verdict::Missing(id) => self.refutation(b"Missing", &[id]),
            Verdict::Overlap(first, second) => self.refutation(b"Overlap", &[first, second]),
            Verdict::NotCrowded { holds } => self.refutation(b"NotCrowded", &[holds]),
            Verdict::Yes => {
                self.begin(b"yes")?;
                self.end()
            }
        }
    }

    fn refutation(&mut self, name: &[u8], numbers: &[u64]) -> Result<(), NoMemory>
        ensures { OnOk result (self.new ≡ self.old
            ++ row_text answer_writer (codes "no" ∷ name.now ∷ map decimal numbers.now)) }
    {
        self.begin(b"no")?;
        self.field(name)?;
        for number in numbers {
            self.number(*number)?;
        }
        self.end()
    }
}
