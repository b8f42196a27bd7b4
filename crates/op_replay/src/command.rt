ghost use Rattle.std.specs.Prelude.{◌≡◌};
ghost use Rattle.op_outside.specs.Causes.{NoFault, RisesWith};
ghost use Rattle.op_replay.specs.Answers.{AnswersReplay, EndsIfValid, LeavesInput, LeavesOutput, RefusesInput};

use crate::running::replayed;
use op_input::read_input;
use op_outside::{Sink, Source, write_all};
use op_sched::SchedFail;
use op_status::Status;
use std::alloc::Global;

/// Writes the report of a run of the input's schedule, and answers how that ended.
pub fn replay<S: Source, K: Sink>(alloc: Global, input: &mut S, out: &mut K) -> Status
    // What is written is the report of a run of the schedule, which meets the list machine, and whose lists
    // answer each client.
    ensures output { LeavesOutput result (S.left input.old) (K.held out.old) (K.held out.new) }
    ensures input { LeavesInput result (S.left input.old) (S.left input.new) }
    // Input is refused exactly where it is bad or too long.
    ensures refused { RefusesInput result
        (S.left input.old) (S.fault_count input.old) (S.fault_count input.new) }
    // A fault is answered where the stream failed in this call, and nowhere else.
    ensures read_fault { RisesWith (result ≡ Status.ReadFault)
        (S.fault_count input.old) (S.fault_count input.new) }
    ensures write_fault { RisesWith (result ≡ Status.WriteFault)
        (K.fault_count out.old) (K.fault_count out.new) }
    ensures no_other { AnswersReplay result }
    // A valid schedule is reported, unless a stream fails or there is no memory.
    ensures complete { NoFault (S.fault_count input.old) (S.fault_count input.new)
        → NoFault (K.fault_count out.old) (K.fault_count out.new)
        → EndsIfValid result (S.left input.old) }
{
    let bytes = match read_input(alloc, input) {
        Ok(bytes) => bytes,
        Err(status) => return status,
    };
    match replayed(alloc, bytes) {
        Ok(text) => match write_all(out, &text) {
            Ok(()) => Status::Ended,
            Err(_) => Status::WriteFault,
        },
        Err(SchedFail::BadLine { line }) => Status::BadSchedule { line },
        Err(SchedFail::NoMemory) => Status::NoMemory,
    }
}
