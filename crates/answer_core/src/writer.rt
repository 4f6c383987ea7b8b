//! Makes the bytes of answers, and writes them.
ghost use Rattle.std.specs.Prelude.{◌≡◌, ◌+◌, ◌≤◌, ◌++◌, [], IfErr, OnErr, OnOk};
ghost use Rattle.std.specs.Io.KnownBytes.{Appends};
ghost use Rattle.list_core.specs.Chunks.{all_in};
ghost use Rattle.stream_core.specs.Counted.{failures_of, inner_of, sink_of};
ghost use Rattle.answer_core.specs.Unwritten.{left_by};
ghost use Rattle.stream_core.specs.Faults.{ExplainsWriting, last_failures};

use crate::record_text::RecordText;
use crate::texts::write_texts;
use period_core::NoMemory;
use std::alloc::Global;
use std::io::Write;
use std::marker::Model;
use std::mem;
use stream_core::{Counted, Patience, RunFault};

/// If the last text of an answer is longer, its memory is freed once it is written. In bytes.
const KEPT: usize = 65_536;

/// Makes the bytes of an answer, and writes them. Contracts see the bytes of its records so far.
#[derive(Drop)]
pub struct AnswerWriter {
    alloc: Global,
    /// The texts before the last. Appending to the answer moves none of them.
    done: Vec<Vec<u8>>,
    pub(crate) text: RecordText,
}

impl Model for AnswerWriter {
    ghost use Rattle.std.specs.Prelude.{ℕ, List, ◌++◌};
    ghost use Rattle.list_core.specs.Chunks.{all_in};

    ghost Value = { List ℕ };

    ghost view = { λ a. all_in a.done.items ++ a.text };
}

/// Moves a text to the end of `texts`, and begins an empty one.
fn close(alloc: Global, texts: &mut Vec<Vec<u8>>, text: &mut RecordText) -> Result<(), NoMemory>
    ensures texts { OnOk result (all_in texts.new.items ≡ all_in texts.old.items ++ text.old) }
    ensures text { text.new ≡ [] }
{
    let closed = mem::replace(text, RecordText::new(alloc));
    texts.push(closed.into_bytes())?;
    Ok(())
}

impl AnswerWriter {
    /// Returns an answer without records.
    pub fn new(alloc: Global) -> Self
        ensures { result ≡ [] }
    {
        AnswerWriter {
            alloc,
            done: Vec::new(alloc),
            text: RecordText::new(alloc),
        }
    }

    /// Discards all bytes that weren't written.
    pub(crate) fn restart(&mut self)
        ensures { self.new ≡ [] }
    {
        *self = AnswerWriter::new(self.alloc);
    }

    /// Appends texts of records.
    pub(crate) fn add_texts(&mut self, mut texts: Vec<Vec<u8>>) -> Result<(), NoMemory>
        ensures { OnOk result (self.new ≡ self.old ++ all_in texts.items) }
    {
        close(self.alloc, &mut self.done, &mut self.text)?;
        self.done.append(&mut texts)
    }

    /// Appends the records of another answer.
    ///
    /// # Errors
    ///
    /// `NoMemory` if an allocation fails. Then all bytes that weren't written are lost.
    pub fn append(&mut self, other: AnswerWriter) -> Result<(), NoMemory>
        ensures ok { OnOk result (self.new ≡ self.old ++ other) }
        ensures err { OnErr result (self.new ≡ []) }
    {
        let added = self.put_behind(other);
        self.settled(added)
    }

    /// Appends the records of another answer.
    fn put_behind(&mut self, mut other: AnswerWriter) -> Result<(), NoMemory>
        ensures { OnOk result (self.new ≡ self.old ++ other) }
    {
        close(self.alloc, &mut self.done, &mut self.text)?;
        self.done.append(&mut other.done)?;
        mem::swap(&mut self.text, &mut other.text);
        Ok(())
    }

    /// Returns `added`, the outcome of adding records. If it is an error, all bytes are discarded.
    pub(crate) fn settled(&mut self, added: Result<(), NoMemory>) -> Result<(), NoMemory>
        ensures same { result ≡ added }
        ensures ok { OnOk result (self.new ≡ self.old) }
        ensures err { OnErr result (self.new ≡ []) }
    {
        if added.is_err() {
            self.restart();
        }
        added
    }

    /// Writes the answer, and begins the next one.
    ///
    /// # Errors
    ///
    /// - `NoMemory`: nothing was written, and the answer is lost.
    /// - `WriteFault`: a proper prefix of the answer was written, and all of it is still here.
    pub fn write_to<W: Write>(
        &mut self,
        writer: &mut Counted<W>,
        patience: &mut Patience,
    ) -> Result<(), RunFault>
        ensures ok { OnOk result
            (Appends (W.contents (inner_of writer.old))
            (W.contents (inner_of writer.new)) self.old) }
        ensures begins { OnOk result (self.new ≡ []) }
        ensures fault { IfErr result
            (ExplainsWriting self.old (sink_of W.contents writer.old)
            (sink_of W.contents writer.new)) }
        ensures after { IfErr result (λ why. self.new ≡ left_by why self.old) }
        ensures counts { failures_of writer.old ≤ failures_of writer.new }
        ensures tries { failures_of writer.new + patience.new.left
            ≤ failures_of writer.old + patience.old.left + last_failures result }
    {
        write_texts(writer, patience, &self.done, self.text.as_bytes())?;
        let is_long = self.text.as_bytes().len() > KEPT;
        self.done.clear();
        self.text.clear();
        if is_long {
            self.restart();
        }
        Ok(())
    }
}
