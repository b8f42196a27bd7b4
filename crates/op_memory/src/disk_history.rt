ghost use Rattle.op_memory.specs.Tied.{Tied};
ghost use Rattle.op_memory.specs.Undoing.{undone, Undoes};

use crate::call::Call;
use crate::replaced::Replaced;

/// A disk in memory, as its calls made it. Its bytes are kept once: those before these calls are what is left
/// once all of them are undone. A step that finds no memory changes nothing.
#[derive(Drop)]
pub struct DiskHistory {
    /// The writes, cuts and syncs that it keeps, in order.
    pub calls: Vec<Call>,
    /// What each of them replaced.
    pub replaced: Vec<Replaced>,
    /// What a read gives now.
    pub bytes: Vec<u8>,
    ghost undoes: { Undoes calls.items replaced.items bytes.items },
    ghost tied: { Tied (undone replaced.items bytes.items) calls.items bytes.items },
}
