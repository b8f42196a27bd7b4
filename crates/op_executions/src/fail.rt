ghost use Rattle.std.specs.Prelude.{◌≡◌};
ghost use Rattle.op_executions.specs.declared.fail.RunFail.TheVariants as runs;

use op_types::NoMemory;

/// Why a run didn't end.
#[derive(Clone, Copy, Debug, PartialEq, Eq)]
pub enum RunFail {
    /// The event of this number, from 0, names a node that is absent or a message that wasn't sent, and none
    /// before it does.
    BadEvent { index: u64 },
    /// No memory was found.
    NoMemory,
}

impl From<NoMemory> for RunFail {
    ghost from_gives = { λ _ e. e ≡ runs.NoMemory };

    fn from(_e: NoMemory) -> RunFail {
        RunFail::NoMemory
    }
}
