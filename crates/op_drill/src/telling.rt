//! How drills write what they tell.
ghost use Rattle.std.specs.Prelude.{◌≡◌};
ghost use Rattle.op_drill.specs.Drills.{TextEnds};

use op_outside::{Sink, write_all};
use op_status::Status;

/// Writes a text. `WriteFault` comes where a write failed.
pub fn tell<K: Sink>(text: &[u8], out: &mut K) -> Status
    ensures { TextEnds (λ written. written ≡ text.now)
        (K.held out.old, K.fault_count out.old) (K.held out.new, K.fault_count out.new) result }
{
    match write_all(out, text) {
        Ok(()) => Status::Ended,
        Err(_) => Status::WriteFault,
    }
}
