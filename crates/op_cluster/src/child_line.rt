ghost use Rattle.std.specs.Prelude.{OnOk};
ghost use Rattle.std.specs.Io.KnownBytes.{Appends};
ghost use Rattle.op_outside.specs.Causes.{FailsOnlyOnFault};
ghost use Rattle.op_outside.specs.Streams.{AppendsPrefix};
ghost use Rattle.op_cluster.specs.Clusters.{child_line};

use itoa::Buffer;
use op_outside::{Sink, WriteFail, write_parts};
use op_types::Pid;

/// Writes the line of a child that has ended with this status, with no memory taken.
pub fn write_line<K: Sink>(out: &mut K, id: Pid, status: u8) -> Result<(), WriteFail>
    ensures all { OnOk result (Appends (K.held out.old) (K.held out.new) (child_line (id, status))) }
    ensures prefix { AppendsPrefix (K.held out.old) (K.held out.new) (child_line (id, status)) }
    ensures cause { FailsOnlyOnFault (K.fault_count out.old) (K.fault_count out.new) result }
{
    let mut id_buffer = Buffer::new();
    let mut status_buffer = Buffer::new();
    let id_digits = id_buffer.format(id).as_bytes();
    let status_digits = status_buffer.format(status).as_bytes();
    write_parts(
        out,
        &[b"child ", id_digits, b" status ", status_digits, b"\n"],
    )
}
