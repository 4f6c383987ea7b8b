//! A script whose bytes arrive in portions.
ghost use Rattle.std.specs.Prelude.{◌≡◌, ◌+◌, ◌-◌, ◌<◌, ◌≤◌, ◌^◌, ◌++◌, [], List, ℕ, drop, take, length, true, false, IfErr, IfNone, IfOk, IfSome, OnErr, OnOk};
ghost use Rattle.command_core.specs.Records.{AreScriptRecords};
ghost use Rattle.stream_core.specs.Counted.{failures_of, sink_of};
ghost use Rattle.stream_core.specs.Faults.{script_limit};
ghost use Rattle.script_core.specs.Script.{Done};
ghost use Rattle.live_core.specs.Portions.{AnswersMore, AnswersRest, ExplainsMore, ExplainsRest, HasScanned};
ghost use Rattle.live_core.specs.Scanning.{IsCutAt, Knows, Reading, read_bytes};
ghost use Rattle.live_core.specs.Standing.{Fed, FedTo};
ghost use Rattle.live_core.specs.Texts.{IsLead, IsMarkFront};

use crate::scan::Scan;
use crate::session::Session;
use command_core::{Records, ScriptReader};
use period_core::NoMemory;
use script_core::Outcome;
use std::alloc::Global;
use std::io::Write;
use std::sync::Wait;
use std::thread::Threads;
use stream_core::{Counted, Patience, RunFault, SCRIPT_LIMIT};
use work_core::{Crew, OpenGate};

/// The byte order mark, which is skipped at the start of a script.
const MARK: &[u8] = b"\xEF\xBB\xBF";

/// A script whose bytes arrive in portions, and its store. A statement is answered as soon as its last record is whole,
/// which is when its line end, outside of quotes, has arrived. Records are numbered from the script's first one on.
///
/// Contracts see the bytes that were fed and the statements that were answered (`Fed`).
#[derive(Drop)]
pub struct Live {
    alloc: Global,
    session: Session,
    /// The bytes after the last answered statement, preceded by that statement's last byte.
    text: Vec<u8>,
    /// The state after these bytes. It is used once it is known whether the script begins with a byte order mark, which
    /// `is_begun` says.
    scan: Scan,
    is_begun: bool,
}

impl Live {
    /// Returns a script without bytes, and with an empty store.
    pub fn new(alloc: Global) -> Result<Live, NoMemory>
        ensures { IfOk result (Fed [] []) }
    {
        Ok(Live {
            alloc,
            session: Session::new(alloc)?,
            text: Vec::new(alloc),
            scan: Scan::new(alloc),
            is_begun: false,
        })
    }

    /// Takes the next bytes, and writes the answer to each statement that they complete.
    ///
    /// # Errors
    ///
    /// - `TooLong`: an open statement, with the bytes kept before it, has more than 67,108,864 bytes, or the script has
    /// more than about 2^38 records.
    /// - `NoMemory`: an allocation failed.
    /// - `WriteFault`: a write failed.
    ///
    /// After an error, a prefix of these answers was written, and the script can't be continued.
    pub fn feed<T: Threads + Wait + Sync, W: Write>(
        &mut self,
        crew: &Crew<'_, T, OpenGate>,
        bytes: &[u8],
        writer: &mut Counted<W>,
        patience: &mut Patience,
    ) -> Result<(), RunFault>
        requires fed { (fed : List ℕ) × (dones : List Done) × Fed fed dones self.old }
        requires few { length bytes.now ≤ script_limit }
        ensures ok { OnOk result ((fed : List ℕ) (dones : List Done) → Fed fed dones self.old
            → AnswersMore (fed ++ bytes.now) dones self.new
            (sink_of W.contents writer.old) (sink_of W.contents writer.new)) }
        ensures fault { IfErr result
            (λ why. (fed : List ℕ) (dones : List Done) → Fed fed dones self.old
            → ExplainsMore (fed ++ bytes.now) dones
            (sink_of W.contents writer.old) (sink_of W.contents writer.new) why) }
        ensures counts { failures_of writer.old ≤ failures_of writer.new }
    {
        match self.scan_on(bytes)? {
            0 => self.check_size(),
            end => self.answer(crew, end, writer, patience),
        }
    }

    /// Ends the script: writes the answers to the statements that are left. The last one may lack its line end, or be a
    /// block without its `end`. Returns the number of commands, and of `error` records that were written.
    ///
    /// # Errors
    ///
    /// - `TooLong`: the script has more than about 2^38 records.
    /// - `NoMemory`: an allocation failed.
    /// - `WriteFault`: a write failed.
    ///
    /// After an error, a prefix of these answers was written.
    pub fn finish<T: Threads + Wait + Sync, W: Write>(
        self,
        crew: &Crew<'_, T, OpenGate>,
        writer: &mut Counted<W>,
        patience: &mut Patience,
    ) -> Result<Outcome, RunFault>
        requires fed { (fed : List ℕ) × (dones : List Done) × Fed fed dones self }
        ensures ok { IfOk result
            (λ outcome. (fed : List ℕ) (dones : List Done) → Fed fed dones self
            → AnswersRest fed dones outcome
            (sink_of W.contents writer.old) (sink_of W.contents writer.new)) }
        ensures fault { IfErr result
            (λ why. (fed : List ℕ) (dones : List Done) → Fed fed dones self
            → ExplainsRest fed dones
            (sink_of W.contents writer.old) (sink_of W.contents writer.new) why) }
        ensures counts { failures_of writer.old ≤ failures_of writer.new }
    {
        let Live {
            mut session,
            text,
            ..
        } = self;
        let records = records_of(crew, &text)?;
        drop(text);
        session.answer(crew, records, writer, patience)?;
        Ok(session.outcome())
    }

    /// Appends the bytes to the text, and scans them. Returns the index after the last complete statement, or 0 if no
    /// statement is complete.
    fn scan_on(&mut self, bytes: &[u8]) -> Result<usize, NoMemory>
        requires fed { (fed : List ℕ) × (dones : List Done) × Fed fed dones self.old }
        requires few { length bytes.now ≤ script_limit }
        ensures { IfOk result (λ end. (fed : List ℕ) (dones : List Done) → Fed fed dones self.old
            → HasScanned (fed ++ bytes.now) dones self.new end) }
    {
        let from = self.text.len();
        self.text.extend_from_slice(bytes)?;
        if self.is_begun {
            return scan_tail(&mut self.scan, &self.text, from);
        }
        match first_place(&self.text) {
            Some(place) => {
                self.is_begun = true;
                scan_tail(&mut self.scan, &self.text, place)
            }
            None => Ok(0),
        }
    }

    /// Answers the statements that end before index `end` of the text.
    fn answer<T: Threads + Wait + Sync, W: Write>(
        &mut self,
        crew: &Crew<'_, T, OpenGate>,
        end: usize,
        writer: &mut Counted<W>,
        patience: &mut Patience,
    ) -> Result<(), RunFault>
        requires fed { (fed : List ℕ) × (dones : List Done) × FedTo fed dones self.old end }
        requires some { 0 < end }
        ensures ok { OnOk result ((fed : List ℕ) (dones : List Done) → FedTo fed dones self.old end
            → AnswersMore fed dones self.new
            (sink_of W.contents writer.old) (sink_of W.contents writer.new)) }
        ensures fault { IfErr result
            (λ why. (fed : List ℕ) (dones : List Done) → FedTo fed dones self.old end
            → ExplainsMore fed dones
            (sink_of W.contents writer.old) (sink_of W.contents writer.new) why) }
        ensures counts { failures_of writer.old ≤ failures_of writer.new }
    {
        let records = records_of(crew, &self.text[..end])?;
        self.text = Vec::from_slice(self.alloc, &self.text[end - 1..])?;
        self.session.answer(crew, records, writer, patience)?;
        self.check_size()
    }

    /// Returns `TooLong` if more bytes are kept than the limit allows.
    fn check_size(&self) -> Result<(), RunFault>
        ensures ok { OnOk result (length self.now.text.items ≤ script_limit) }
        ensures err { IfErr result (λ why. why ≡ RunFault.TooLong) }
    {
        if self.text.len() > SCRIPT_LIMIT {
            return Err(RunFault::TooLong);
        }
        Ok(())
    }
}

/// Returns the index where a script's records begin, after a byte order mark. Returns `None` if the bytes may still
/// become one.
fn first_place(text: &[u8]) -> Option<usize>
    ensures some { IfSome result (λ place. (place ≤ length text.now)
        × IsLead (take place text.now) (drop place text.now)) }
    ensures none { IfNone result (IsMarkFront text.now) }
{
    if text.starts_with(MARK) {
        return Some(3);
    }
    if MARK.starts_with(text) {
        return None;
    }
    Some(0)
}

/// Scans a text from index `from` on. Returns the index after the last statement that ends there, or 0 if no statement
/// ends.
fn scan_tail(scan: &mut Scan, text: &[u8], from: usize) -> Result<usize, NoMemory>
    requires { from ≤ length text.now }
    ensures within { IfOk result (λ end. end ≤ length text.now) }
    ensures reads { IfOk result (λ end. (r : Reading) → Knows scan.old r
        → Knows scan.new (read_bytes r (drop from text.now))
        × IsCutAt r (read_bytes r (drop from text.now)) (end - from)
        × (0 < end → from < end)) }
{
    let cut = scan.read_all(&text[from..])?;
    if cut == 0 {
        return Ok(0);
    }
    Ok(from + cut)
}

/// Returns the records of a text.
fn records_of<T: Threads + Sync>(
    crew: &Crew<'_, T, OpenGate>,
    text: &[u8],
) -> Result<Records, NoMemory>
    requires { length text.now < 2 ^ 31 }
    ensures { IfOk result (AreScriptRecords text.now) }
{
    ScriptReader::new(crew.alloc).read_rest(crew.rt, text, crew.workers)
}
