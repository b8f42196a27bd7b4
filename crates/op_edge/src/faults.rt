ghost use Rattle.std.specs.Prelude.{◌≡◌, Result};
ghost use Rattle.std.specs.Result.{result_ok};
ghost use Rattle.op_outside.specs.Causes.{FailsOnlyOnFault};

use std::io;

/// Hands on what the system answered, as the failure `fail` where it is an error, which is counted.
pub(crate) fn counted<T, F: Drop>(faults: &mut u64, answer: io::Result<T>, fail: F) -> Result<T, F>
    ensures answer { result_ok result ≡ result_ok answer }
    ensures cause { FailsOnlyOnFault faults.old faults.new result }
{
    match answer {
        Ok(value) => Ok(value),
        Err(_) => {
            *faults = faults.saturating_add(1);
            Err(fail)
        }
    }
}
