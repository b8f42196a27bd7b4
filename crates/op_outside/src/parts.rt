ghost use Rattle.std.specs.Prelude.{map, OnOk};
ghost use Rattle.std.specs.List.{concat};
ghost use Rattle.std.specs.Io.KnownBytes.{Appends};
ghost use Rattle.op_outside.specs.Causes.{FailsOnlyOnFault};
ghost use Rattle.op_outside.specs.Streams.{AppendsPrefix};

use crate::sink::{Sink, WriteFail, write_all};

/// Appends all bytes of these parts, one part after the other. Where a write fails, so does this, and a
/// prefix of them was appended.
pub fn write_parts<K: Sink>(sink: &mut K, parts: &[&[u8]]) -> Result<(), WriteFail>
    ensures all { OnOk result (Appends (K.held sink.old) (K.held sink.new)
        (concat (map (λ part. part.now) parts.now))) }
    ensures prefix { AppendsPrefix (K.held sink.old) (K.held sink.new)
        (concat (map (λ part. part.now) parts.now)) }
    ensures cause { FailsOnlyOnFault (K.fault_count sink.old) (K.fault_count sink.new) result }
{
    for part in parts {
        write_all(sink, part)?;
    }
    Ok(())
}
