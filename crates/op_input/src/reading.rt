ghost use Rattle.std.specs.Prelude.{◌+◌, IfOk, IfErr, IsErrOf};
ghost use Rattle.op_outside.specs.Causes.{RisesWith};
ghost use Rattle.op_outside.specs.Streams.{TakesAtMost};
ghost use Rattle.op_input.specs.Inputs.{IsInput, IsUnread, input_limit};

use op_outside::{InputFail, Source, read_all};
use op_status::Status;
use std::alloc::Global;

/// How much input is read, in bytes.
pub const INPUT_LIMIT: usize = 67_108_864;

/// All bytes of the input. The status tells why there are none: a read failed, there are more than
/// 67,108,864, or there is no memory for them.
pub fn read_input<S: Source>(alloc: Global, input: &mut S) -> Result<Vec<u8>, Status>
    ensures read { IfOk result (λ bytes. IsInput (S.left input.old) (S.left input.new) bytes.items) }
    ensures unread { IfErr result (IsUnread (S.left input.old)
        (S.fault_count input.old) (S.fault_count input.new)) }
    ensures most { TakesAtMost (input_limit + 1) (S.left input.old) (S.left input.new) }
    ensures count { RisesWith (IsErrOf result Status.ReadFault)
        (S.fault_count input.old) (S.fault_count input.new) }
{
    match read_all(alloc, input, INPUT_LIMIT) {
        Ok(bytes) => Ok(bytes),
        Err(InputFail::Fault) => Err(Status::ReadFault),
        Err(InputFail::TooLong) => Err(Status::InputLimit),
        Err(InputFail::NoMemory) => Err(Status::NoMemory),
    }
}
