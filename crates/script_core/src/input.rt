//! Reads the records of a script, some MiB at a time.
ghost use Rattle.std.specs.Prelude.{◌≡◌, ◌+◌, ◌*◌, ◌≤◌, ◌<◌, List, ℕ, drop, length, IfErr, IfOk, OnOk};
ghost use Rattle.command_core.specs.Records.{AreScriptRecords};
ghost use Rattle.stream_core.specs.Counted.{failures_of, source_of};
ghost use Rattle.stream_core.specs.Faults.{ExplainsReading, last_failures};
ghost use Rattle.work_core.specs.Limits.{worker_limit};
ghost use Rattle.script_core.specs.Script.{ReadsScript};

use command_core::{Records, ScriptReader};
use period_core::NoMemory;
use std::alloc::Global;
use std::io::Read;
use std::thread::Threads;
use stream_core::{Counted, Patience, RunFault, SCRIPT_LIMIT, read_on};

/// How many bytes are read at a time for each worker: their records fill about one batch.
const BYTES_FOR_WORKER: usize = 4_194_304;

/// Reads a script to its end, and returns its records. `BYTES_FOR_WORKER` bytes are read at a time for each worker, and
/// dropped once their records are read. Bytes without a cut are kept, and their number more than doubles before the
/// next try.
///
/// # Errors
///
/// - `ReadFault`: a read failed.
/// - `TooLong`: the script has more than 67,108,864 bytes.
/// - `NoMemory`: an allocation failed.
pub(crate) fn read_script<T: Threads + Sync, R: Read>(
    rt: &T,
    alloc: Global,
    reader: &mut Counted<R>,
    patience: &mut Patience,
    workers: u32,
) -> Result<Records, RunFault>
    requires { (0 < workers) × (workers ≤ worker_limit) }
    ensures read { IfOk result (λ records. (script : List ℕ)
        × ReadsScript (source_of R.remaining reader.old) (source_of R.remaining reader.new) script
        × AreScriptRecords script records) }
    ensures fault { IfErr result
        (ExplainsReading (source_of R.remaining reader.old) (source_of R.remaining reader.new)) }
    ensures counts { failures_of reader.old ≤ failures_of reader.new }
    ensures tries { failures_of reader.new + patience.new.left
        ≤ failures_of reader.old + patience.old.left + last_failures result }
{
    let more = workers as usize * BYTES_FOR_WORKER;
    let mut records = ScriptReader::new(alloc);
    let mut text = Vec::new(alloc);
    let mut limit = SCRIPT_LIMIT;
    loop {
        let wanted = more + 2 * text.len();
        if read_on(reader, patience, &mut text, wanted, limit)? {
            return Ok(records.read_rest(rt, &text, workers)?);
        }
        let taken = records.read_front(rt, &text, workers)?;
        drop_front(alloc, &mut text, taken)?;
        limit -= taken;
    }
}

/// Removes the first `count` bytes. The rest is copied, so that `text` keeps its capacity; it is short.
fn drop_front(alloc: Global, text: &mut Vec<u8>, count: usize) -> Result<(), NoMemory>
    requires { count ≤ length text.old.items }
    ensures { OnOk result (text.new.items ≡ drop count text.old.items) }
{
    if count == 0 {
        return Ok(());
    }
    let rest = Vec::from_slice(alloc, &text[count..])?;
    text.clear();
    text.extend_from_slice(&rest)?;
    Ok(())
}
