//! Reading a script, a part at a time.
ghost use Rattle.std.specs.Prelude.{◌≡◌, ◌+◌, ◌≤◌, ◌<◌, IfOk, IfErr, OnOk, OnErr, take, length, true, false};
ghost use Rattle.std.specs.Io.KnownBytes.{Consumes, IsAtEnd, Keeps};
ghost use Rattle.stream_core.specs.Counted.{failures_of, inner_of, source_of};
ghost use Rattle.stream_core.specs.FailureCount.{HasGrown};
ghost use Rattle.stream_core.specs.Faults.{ExplainsReadingOn, HasReadOn, last_failures};

use crate::counted::Counted;
use crate::fault::RunFault;
use crate::patience::Patience;
use std::alloc::Global;
use std::io::{ErrorKind, Read};

/// The most bytes of a script.
pub const SCRIPT_LIMIT: usize = 67_108_864;

const CHUNK: usize = 8192;

/// Reads once, and again after an interruption while `patience` lasts.
fn read_some<R: Read>(
    reader: &mut Counted<R>,
    patience: &mut Patience,
    chunk: &mut [u8],
) -> Result<usize, RunFault>
    ensures bound { IfOk result (λ n. n ≤ length chunk.new) }
    ensures bytes { IfOk result
        (λ n. Consumes (R.remaining (inner_of reader.old)) (R.remaining (inner_of reader.new))
        (take n chunk.new)) }
    ensures end { IfOk result (λ n. n ≡ 0 → 0 < length chunk.new
        → IsAtEnd (R.remaining (inner_of reader.new))) }
    ensures err { OnErr result
        (Keeps (R.remaining (inner_of reader.old)) (R.remaining (inner_of reader.new))) }
    ensures fault { IfErr result
        (λ e. (e ≡ RunFault.ReadFault)
        × HasGrown (failures_of reader.old) (failures_of reader.new)) }
    ensures counts { failures_of reader.old ≤ failures_of reader.new }
    ensures tries { failures_of reader.new + patience.new.left
        ≤ failures_of reader.old + patience.old.left + last_failures result }
{
    loop {
        match reader.read(chunk) {
            Ok(n) => return Ok(n),
            Err(e) => {
                if e.kind() != ErrorKind::Interrupted || !patience.try_again() {
                    return Err(RunFault::ReadFault);
                }
            }
        }
    }
}

/// Appends bytes from the reader to a text, until it has at least `wanted` bytes or the input ends. Returns whether the
/// input has ended.
///
/// # Errors
///
/// `ReadFault` if a read failed, or was interrupted and no patience is left; `TooLong` if the text gets more than
/// `limit` bytes; `NoMemory` if an allocation is refused.
pub fn read_on<R: Read>(
    reader: &mut Counted<R>,
    patience: &mut Patience,
    text: &mut Vec<u8>,
    wanted: usize,
    limit: usize,
) -> Result<bool, RunFault>
    requires { length text.old.items ≤ limit }
    ensures read { OnOk result
        (HasReadOn (R.remaining (inner_of reader.old)) (R.remaining (inner_of reader.new))
        text.old.items text.new.items) }
    ensures within { OnOk result (length text.new.items ≤ limit) }
    ensures enough { IfOk result (λ is_end. is_end ≡ false → wanted ≤ length text.new.items) }
    ensures end { IfOk result (λ is_end. is_end ≡ true
        → IsAtEnd (R.remaining (inner_of reader.new))) }
    ensures fault { IfErr result
        (ExplainsReadingOn text.old.items limit (source_of R.remaining reader.old)
        (source_of R.remaining reader.new)) }
    ensures counts { failures_of reader.old ≤ failures_of reader.new }
    ensures tries { failures_of reader.new + patience.new.left
        ≤ failures_of reader.old + patience.old.left + last_failures result }
{
    let mut chunk = [0; CHUNK];
    while text.len() < wanted {
        let taken = read_some(reader, patience, &mut chunk)?;
        if taken == 0 {
            return Ok(true);
        }
        text.extend_from_slice(&chunk[..taken])?;
        if text.len() > limit {
            return Err(RunFault::TooLong);
        }
    }
    Ok(false)
}
