//! Reads the records of a script that arrives in several texts. Workers parse the pieces of a text in parallel.
ghost use Rattle.std.specs.Prelude.{◌≡◌, ◌⊎◌, ◌+◌, ◌<◌, ◌≤◌, ◌^◌, ◌++◌, [], List, ℕ, suc, drop, take, length, get_or, map, IfOk, OnOk};
ghost use Rattle.command_core.specs.Records.{AreScriptRecords};
ghost use Rattle.work_core.specs.Limits.{worker_limit};
ghost use Rattle.command_core.specs.Seams.{AreOfFront, AreRead, EndsInField, HasNoCut, IsCutWithin, joined};

use crate::batch::Batch;
use crate::piece::{PieceRecords, read_piece};
use crate::records::Records;
use crate::seams::{are_seams, end_in_fields, last_cut, pieces_of};
use period_core::NoMemory;
use std::alloc::Global;
use std::marker::Model;
use std::thread::Threads;
use work_core::{WORKER_LIMIT, call_each};

/// Reads the records of a script as `csv` reads them, without a header and of any length. Contracts see the list of the
/// records already read, each a list of its fields' bytes.
///
/// If a text isn't the last one, only a prefix is read, after which a record begins. So no reading state is carried
/// from one text to the next. Workers each read a piece of a large text.
#[derive(Drop)]
pub struct ScriptReader {
    alloc: Global,
    batches: Vec<Batch>,
}

impl Model for ScriptReader {
    ghost use Rattle.std.specs.Prelude.{ℕ, List};
    ghost use Rattle.command_core.specs.Seams.{joined};

    ghost Value = { List (List (List ℕ)) };

    ghost view = { λ r. joined r.batches.items };
}

impl ScriptReader {
    /// Returns a reader that has read nothing.
    pub fn new(alloc: Global) -> ScriptReader
        ensures { result ≡ [] }
    {
        ScriptReader {
            alloc,
            batches: Vec::new(alloc),
        }
    }

    /// Reads the records of a prefix of the next text, and returns its length in bytes. Returns 0 if no record is known
    /// to begin inside the text; the caller then passes the text again, with more bytes appended.
    ///
    /// # Errors
    ///
    /// `NoMemory` if an allocation fails. Nothing else can fail, because the bytes are in memory.
    pub fn read_front<R: Threads + Sync>(
        &mut self,
        rt: &R,
        text: &[u8],
        workers: u32,
    ) -> Result<usize, NoMemory>
        requires { length text.now < 2 ^ 31 }
        ensures within { IfOk result (λ taken. taken ≤ length text.now) }
        ensures read { IfOk result (λ taken. (front : List ℕ) → AreOfFront front self.old text.now
            → AreOfFront (front ++ take taken text.now) self.new (drop taken text.now)) }
        ensures none { IfOk result (λ taken. taken ≡ 0
            → HasNoCut text.now ⊎ IsCutWithin text.now) }
    {
        let cut = last_cut(text);
        if cut == 0 {
            return Ok(0);
        }
        let read = read_text(rt, self.alloc, &text[..cut], workers)?;
        if !end_in_fields(&read) {
            return Ok(0);
        }
        add_batches(&mut self.batches, read)?;
        Ok(cut)
    }

    /// Reads the records of the last text, and returns all records of the script.
    ///
    /// # Errors
    ///
    /// `NoMemory` if an allocation fails. Nothing else can fail, because the bytes are in memory.
    pub fn read_rest<R: Threads + Sync>(
        self,
        rt: &R,
        text: &[u8],
        workers: u32,
    ) -> Result<Records, NoMemory>
        requires { (front : List ℕ) × AreOfFront front self text.now
            × (length front + length text.now < 2 ^ 31) }
        ensures { IfOk result (λ records. (front : List ℕ) → AreOfFront front self text.now
            → AreScriptRecords (front ++ text.now) records) }
    {
        let ScriptReader { alloc, mut batches } = self;
        let read = read_text(rt, alloc, text, workers)?;
        add_batches(&mut batches, read)?;
        Ok(Records::of(batches))
    }
}

/// Returns the records of a text, in consecutive lists. Workers read pieces of it; if a piece ends within a record, one
/// thread reads the whole text again.
fn read_text<R: Threads + Sync>(
    rt: &R,
    alloc: Global,
    text: &[u8],
    workers: u32,
) -> Result<Vec<PieceRecords>, NoMemory>
    requires { length text.now < 2 ^ 31 }
    ensures records { IfOk result (λ read. AreScriptRecords text.now (joined read.items)) }
    ensures seams { IfOk result (λ read. (i : ℕ) → suc i < length read.items
        → EndsInField (get_or read.items i [])) }
{
    let workers = workers.clamp(1, WORKER_LIMIT);
    let pieces = pieces_of(alloc, text, workers)?;
    let mut read = read_each(rt, alloc, &pieces, workers)?;
    if !are_seams(&pieces, &read) {
        read.clear();
        read.push(read_piece(alloc, text)?)?;
    }
    Ok(read)
}

/// Appends the batches of all pieces, in order.
fn add_batches(batches: &mut Vec<Batch>, pieces: Vec<PieceRecords>) -> Result<(), NoMemory>
    ensures { OnOk result
        (joined batches.new.items ≡ joined batches.old.items ++ joined pieces.items) }
{
    for piece in pieces {
        piece.move_behind(batches)?;
    }
    Ok(())
}

/// Returns the records of each piece. Each worker reads the next piece when it is done with one.
fn read_each<R: Threads + Sync>(
    rt: &R,
    alloc: Global,
    pieces: &[&[u8]],
    workers: u32,
) -> Result<Vec<PieceRecords>, NoMemory>
    requires few { length pieces.now < 2 ^ 32 }
    requires workers { (0 < workers) × (workers ≤ worker_limit) }
    requires bytes { length (joined (map (λ p. p.now) pieces.now)) < 2 ^ 31 }
    ensures { IfOk result (λ lists. AreRead (map (λ p. p.now) pieces.now) lists.items) }
{
    call_each(
        rt,
        alloc,
        pieces.len(),
        workers,
        &|number: usize| -> Result<PieceRecords, NoMemory>
            requires { (number < length pieces.now)
                × (length (joined (map (λ p. p.now) pieces.now)) < 2 ^ 31) }
            ensures { IfOk result (λ records. AreScriptRecords
                (get_or (map (λ p. p.now) pieces.entry.now) number []) records) }
        { read_piece(alloc, pieces[number]) },
    )
}
