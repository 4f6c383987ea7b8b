//! Writing an answer.
ghost use Rattle.std.specs.Prelude.{◌≡◌, ◌+◌, ◌≤◌, ◌<◌, IfOk, IfErr, OnOk, OnErr, take, length};
ghost use Rattle.std.specs.Io.KnownBytes.{Appends, Keeps};
ghost use Rattle.stream_core.specs.Counted.{failures_of, inner_of, sink_of};
ghost use Rattle.stream_core.specs.FailureCount.{HasGrown};
ghost use Rattle.stream_core.specs.Faults.{WritesPartOf, last_failures};

use crate::counted::Counted;
use crate::fault::RunFault;
use crate::patience::Patience;
use std::io::{ErrorKind, Write};

/// Writes some of the bytes once, and again after an interruption while `patience` lasts.
fn write_some<W: Write>(
    writer: &mut Counted<W>,
    patience: &mut Patience,
    bytes: &[u8],
) -> Result<usize, RunFault>
    requires { 0 < length bytes.now }
    ensures bound { IfOk result (λ n. (0 < n) × (n ≤ length bytes.now)) }
    ensures ok { IfOk result
        (λ n. Appends (W.contents (inner_of writer.old)) (W.contents (inner_of writer.new))
        (take n bytes.now)) }
    ensures err { OnErr result
        (Keeps (W.contents (inner_of writer.old)) (W.contents (inner_of writer.new))) }
    ensures fault { IfErr result
        (λ e. (e ≡ RunFault.WriteFault)
        × HasGrown (failures_of writer.old) (failures_of writer.new)) }
    ensures counts { failures_of writer.old ≤ failures_of writer.new }
    ensures tries { failures_of writer.new + patience.new.left
        ≤ failures_of writer.old + patience.old.left + last_failures result }
{
    loop {
        match writer.write(bytes) {
            Ok(0) => return Err(RunFault::WriteFault),
            Ok(n) => return Ok(n),
            Err(e) => {
                if e.kind() != ErrorKind::Interrupted || !patience.try_again() {
                    return Err(RunFault::WriteFault);
                }
            }
        }
    }
}

/// Writes all of the bytes.
///
/// # Errors
///
/// `WriteFault` if a write failed, accepted none of some bytes, or was interrupted and no patience is left. A prefix of
/// the bytes has then been written, but not all of them.
pub fn write_all<W: Write>(
    writer: &mut Counted<W>,
    patience: &mut Patience,
    bytes: &[u8],
) -> Result<(), RunFault>
    ensures ok { OnOk result
        (Appends (W.contents (inner_of writer.old)) (W.contents (inner_of writer.new)) bytes.now) }
    ensures prefix { OnErr result
        (WritesPartOf bytes.now (sink_of W.contents writer.old) (sink_of W.contents writer.new)) }
    ensures fault { IfErr result
        (λ e. (e ≡ RunFault.WriteFault)
        × HasGrown (failures_of writer.old) (failures_of writer.new)) }
    ensures counts { failures_of writer.old ≤ failures_of writer.new }
    ensures tries { failures_of writer.new + patience.new.left
        ≤ failures_of writer.old + patience.old.left + last_failures result }
{
    let mut taken = 0;
    while taken < bytes.len() {
        taken += write_some(writer, patience, &bytes[taken..])?;
    }
    Ok(())
}
