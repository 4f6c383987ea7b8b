//! Writes several texts, in order.
ghost use Rattle.std.specs.Prelude.{◌≡◌, ◌+◌, ◌≤◌, ◌++◌, IfErr, OnErr, OnOk};
ghost use Rattle.std.specs.Io.KnownBytes.{Appends};
ghost use Rattle.list_core.specs.Chunks.{all_in};
ghost use Rattle.stream_core.specs.Counted.{failures_of, inner_of, sink_of};
ghost use Rattle.stream_core.specs.FailureCount.{HasGrown};
ghost use Rattle.stream_core.specs.Faults.{WritesPartOf, last_failures};

use std::io::Write;
use stream_core::{Counted, Patience, RunFault, write_all};

/// Writes texts in order. On a fault a proper prefix of their bytes was written.
fn write_each<W: Write>(
    writer: &mut Counted<W>,
    patience: &mut Patience,
    texts: &[Vec<u8>],
) -> Result<(), RunFault>
    ensures ok { OnOk result (Appends (W.contents (inner_of writer.old))
        (W.contents (inner_of writer.new)) (all_in texts.now)) }
    ensures prefix { OnErr result (WritesPartOf (all_in texts.now) (sink_of W.contents writer.old)
        (sink_of W.contents writer.new)) }
    ensures fault { IfErr result (λ e. (e ≡ RunFault.WriteFault)
        × HasGrown (failures_of writer.old) (failures_of writer.new)) }
    ensures counts { failures_of writer.old ≤ failures_of writer.new }
    ensures tries { failures_of writer.new + patience.new.left
        ≤ failures_of writer.old + patience.old.left + last_failures result }
{
    for text in texts {
        write_all(writer, patience, text)?;
    }
    Ok(())
}

/// Writes texts in order, then a last one. On a fault a proper prefix of their bytes was written.
pub(crate) fn write_texts<W: Write>(
    writer: &mut Counted<W>,
    patience: &mut Patience,
    texts: &[Vec<u8>],
    last: &[u8],
) -> Result<(), RunFault>
    ensures ok { OnOk result (Appends (W.contents (inner_of writer.old))
        (W.contents (inner_of writer.new)) (all_in texts.now ++ last.now)) }
    ensures prefix { OnErr result (WritesPartOf (all_in texts.now ++ last.now)
        (sink_of W.contents writer.old) (sink_of W.contents writer.new)) }
    ensures fault { IfErr result (λ e. (e ≡ RunFault.WriteFault)
        × HasGrown (failures_of writer.old) (failures_of writer.new)) }
    ensures counts { failures_of writer.old ≤ failures_of writer.new }
    ensures tries { failures_of writer.new + patience.new.left
        ≤ failures_of writer.old + patience.old.left + last_failures result }
{
    write_each(writer, patience, texts)?;
    write_all(writer, patience, last)
}
