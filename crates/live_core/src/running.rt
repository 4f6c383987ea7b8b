//! Reads a script in portions, and answers it meanwhile.
ghost use Rattle.std.specs.Prelude.{◌≡◌, ◌<◌, ◌≤◌, [], IfErr, IfOk, List, Some, ℕ};
ghost use Rattle.std.specs.Io.KnownBytes.{Appends};
ghost use Rattle.stream_core.specs.Counted.{failures_of, inner_of};
ghost use Rattle.stream_core.specs.FailureCount.{greatest_count};
ghost use Rattle.work_core.specs.Limits.{worker_limit};
ghost use Rattle.script_core.specs.Script.{AppendsFront, IsOutput, streams_of};
ghost use Rattle.live_core.specs.Runs.{ExplainsRun, RunsAll};
ghost use Rattle.live_core.specs.Standing.{Fed};

use crate::live::Live;
use script_core::Outcome;
use std::alloc::Global;
use std::io::{Read, Write};
use std::sync::Wait;
use std::thread::Threads;
use stream_core::{Counted, Patience, RunFault, SCRIPT_LIMIT, read_on};
use work_core::{Crew, OpenGate};

/// Reads a script to its end, and answers each statement as soon as its last record was read, before it reads more.
/// Writes the same bytes and returns the same numbers as `script_core`'s `run`.
///
/// When a portion ends, an open statement, with the bytes kept before it, may have at most 67,108,864 bytes.
/// Interrupted reads and writes are tried again, at most 1,000 times for each portion. The writer isn't flushed.
///
/// # Errors
///
/// - `ReadFault`: a read failed. The answers to all statements that were complete until then were written.
/// - `TooLong`, `NoMemory`, `WriteFault`: a prefix of these answers was written.
pub fn run<T: Threads + Wait + Sync, R: Read, W: Write>(
    rt: &T,
    alloc: Global,
    reader: &mut Counted<R>,
    writer: &mut Counted<W>,
    workers: u32,
) -> Result<Outcome, RunFault>
    requires workers { (0 < workers) × (workers ≤ worker_limit) }
    requires reads { failures_of reader.old < greatest_count }
    requires writes { failures_of writer.old < greatest_count }

    // If the run is Ok, it wrote the whole output of the reader's script and nothing else. After a fault it wrote a
    // prefix.
    ensures written { (script output : List ℕ)
        → R.remaining (inner_of reader.old) ≡ Some script → IsOutput script output
        → IfOk result (λ _. Appends (W.contents (inner_of writer.old))
        (W.contents (inner_of writer.new)) output) }
    ensures front { (script output : List ℕ)
        → R.remaining (inner_of reader.old) ≡ Some script → IsOutput script output
        → IfErr result (λ _.
        AppendsFront (W.contents (inner_of writer.old)) (W.contents (inner_of writer.new)) output) }

    // If the run is Ok, it read a script to its end, wrote its output, and reports the numbers of commands and errors.
    ensures ok { IfOk result (RunsAll
        (streams_of R.remaining reader.old W.contents writer.old)
        (streams_of R.remaining reader.new W.contents writer.new)) }

    // Each fault has its cause, and says how much of the answers to the statements that were read was written.
    ensures fault { IfErr result (ExplainsRun
        (streams_of R.remaining reader.old W.contents writer.old)
        (streams_of R.remaining reader.new W.contents writer.new)) }

    // Neither count of failed calls decreases.
    ensures counts { (failures_of reader.old ≤ failures_of reader.new)
        × (failures_of writer.old ≤ failures_of writer.new) }
{
    let live = Live::new(alloc)?;
    let crew = Crew::new(rt, alloc, workers, &OpenGate);
    answer_all(&crew, live, reader, writer)
}

/// Feeds all that a reader has to a new script, and ends the script.
fn answer_all<T: Threads + Wait + Sync, R: Read, W: Write>(
    crew: &Crew<'_, T, OpenGate>,
    mut live: Live,
    reader: &mut Counted<R>,
    writer: &mut Counted<W>,
) -> Result<Outcome, RunFault>
    requires fed { Fed [] [] live }
    requires reads { failures_of reader.old < greatest_count }
    requires writes { failures_of writer.old < greatest_count }
    ensures ok { IfOk result (RunsAll
        (streams_of R.remaining reader.old W.contents writer.old)
        (streams_of R.remaining reader.new W.contents writer.new)) }
    ensures fault { IfErr result (ExplainsRun
        (streams_of R.remaining reader.old W.contents writer.old)
        (streams_of R.remaining reader.new W.contents writer.new)) }
    ensures counts { (failures_of reader.old ≤ failures_of reader.new)
        × (failures_of writer.old ≤ failures_of writer.new) }
{
    let mut portion = Vec::new(crew.alloc);
    for _ in 0..u64::MAX {
        let mut patience = Patience::new();
        portion.clear();
        let is_end = read_on(reader, &mut patience, &mut portion, 1, SCRIPT_LIMIT)?;
        live.feed(crew, &portion, writer, &mut patience)?;
        if is_end {
            return live.finish(crew, writer, &mut patience);
        }
    }
    Err(RunFault::TooLong)
}
