ghost use Rattle.std.specs.Prelude.{◌≡◌};
ghost use Rattle.op_sched.specs.declared.schedule.SchedFail.TheVariants.{NoMemory};

use op_runs::Events;
use op_types::Members;

/// What a schedule's text says.
#[derive(Drop)]
pub struct Schedule {
    /// The servers of the first configuration.
    pub members: Members,
    /// The servers beside them, which a later configuration may name.
    pub spares: Members,
    /// The servers that never vote, and keep what is decided.
    pub observers: Members,
    /// Whether the nodes' disks are mirrored.
    pub is_mirrored: bool,
    /// What happens, in the order of the lines.
    pub events: Events,
}

/// Why a text is not read.
#[derive(Clone, Copy, Debug, PartialEq, Eq)]
pub enum SchedFail {
    /// The first line that isn't in the grammar; of a text without a header, the one after its last line.
    BadLine {
        /// The line's number, from 1.
        line: u64,
    },
    /// The allocator has no memory for what the text says.
    NoMemory,
}

impl From<op_types::NoMemory> for SchedFail {
    ghost from_gives = { λ _ fail. fail ≡ NoMemory };

    fn from(_error: op_types::NoMemory) -> SchedFail {
        SchedFail::NoMemory
    }
}
