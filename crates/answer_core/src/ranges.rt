//! Prints a list of records on several workers: each prints a range of it.
ghost use Rattle.std.specs.Prelude.{◌≡◌, ◌<◌, ◌++◌, [], List, get_or, length, IfOk, OnOk};
ghost use Rattle.csv.specs.Writing.{row_text};
ghost use Rattle.list_core.specs.Chunks.{all_in};
ghost use Rattle.work_core.specs.Pieces.{items_within};
ghost use Rattle.command_core.specs.Records.{Record};
ghost use Rattle.answer_core.specs.RecordBytes.{answer_writer, bytes_of};
ghost use Rattle.answer_core.specs.Unwritten.{Adds};

use crate::record_text::RecordText;
use crate::writer::AnswerWriter;
use period_core::NoMemory;
use std::alloc::Global;
use std::thread::Threads;
use work_core::{Crew, Range, Shares, places_within, shared_out};

/// A list of records that can be printed one by one.
pub(crate) trait RecordList: Sync {
    // The records.
    ghost records: { Self → List Record };

    /// Returns the number of records.
    fn len(&self) -> usize
        ensures { result ≡ length (records self.now) };

    /// Appends the record at an index.
    fn print_at(&self, text: &mut RecordText, index: usize) -> Result<(), NoMemory>
        requires { index < length (records self.now) }
        ensures { OnOk result (text.new
            ≡ text.old ++ row_text answer_writer (get_or (records self.now) index [])) };
}

/// Appends the records of a range of indices.
fn print_range<L: RecordList>(
    list: &L,
    text: &mut RecordText,
    range: Range<usize>,
) -> Result<(), NoMemory>
    ensures { OnOk result
        (text.new ≡ text.old ++ bytes_of (items_within range (L.records list.now))) }
{
    let (start, end) = places_within(range, list.len());
    for index in start..end {
        list.print_at(text, index)?;
    }
    Ok(())
}

/// Returns the text of the records of a range of indices.
fn text_of<L: RecordList>(alloc: Global, list: &L, range: Range<usize>) -> Result<Vec<u8>, NoMemory>
    ensures { IfOk result (λ text. text.items ≡ bytes_of (items_within range (L.records list.now))) }
{
    let mut text = RecordText::new(alloc);
    print_range(list, &mut text, range)?;
    Ok(text.into_bytes())
}

/// Returns the records of a list as several texts, one for each partition.
fn texts_of<R: Threads + Sync, G, L: RecordList>(
    crew: &Crew<'_, R, G>,
    shares: &Shares<usize>,
    list: &L,
) -> Result<Vec<Vec<u8>>, NoMemory>
    ensures { IfOk result (λ texts. all_in texts.items ≡ bytes_of (L.records list.now)) }
{
    let Crew { rt, alloc, .. } = *crew;
    shared_out(
        rt,
        alloc,
        shares,
        &|range: Range<usize>, _workers: u32| -> Result<Vec<u8>, NoMemory>
            ensures { IfOk result (λ text.
                text.items ≡ bytes_of (items_within range (L.records list.entry.now))) }
        { text_of(alloc, list, range) },
    )
}

impl AnswerWriter {
    /// Appends the records of a list. Workers share them by index.
    pub(crate) fn print_list<R: Threads + Sync, G, L: RecordList>(
        &mut self,
        crew: &Crew<'_, R, G>,
        list: &L,
    ) -> Result<(), NoMemory>
        ensures { OnOk result (Adds self.old self.new (L.records list.now)) }
    {
        let shares = Shares::by_index(crew.alloc, list.len(), crew.workers)?;
        self.by_ranges(crew, &shares, list)
    }

    /// Appends the records of a list, one text for each partition.
    pub(crate) fn by_ranges<R: Threads + Sync, G, L: RecordList>(
        &mut self,
        crew: &Crew<'_, R, G>,
        shares: &Shares<usize>,
        list: &L,
    ) -> Result<(), NoMemory>
        ensures { OnOk result (Adds self.old self.new (L.records list.now)) }
    {
        if shares.len() == 1 {
            let all = Range {
                from: None,
                before: None,
            };
            return print_range(list, &mut self.text, all);
        }
        let texts = texts_of(crew, shares, list)?;
        self.add_texts(texts)
    }
}
