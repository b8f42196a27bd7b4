//! Whether the first version of areas can hold a value.
ghost use Rattle.std.specs.Prelude.{◌≡◌};
ghost use Rattle.op_types.specs.Versions.{are_first_members, is_first_op, is_first_entry, are_first_entries};

use crate::{Entry, Members, Op};

/// How many members a configuration had at most.
const MOST_FIRST_MEMBERS: usize = 9;

impl Members {
    /// Whether it has as many members at most as the first version had.
    pub fn are_first(&self) -> bool
        ensures { result ≡ are_first_members self.now }
    {
        self.len() <= MOST_FIRST_MEMBERS
    }
}

impl Op {
    /// Whether the first version had this operation.
    pub fn is_first(&self) -> bool
        ensures { result ≡ is_first_op self.now }
    {
        match self {
            Op::Put(..) | Op::Del(_) | Op::Get(_) | Op::Cas(..) => true,
            Op::Many(_) | Op::Forget(_) => false,
        }
    }
}

impl Entry {
    /// Whether the first version could hold this entry.
    pub fn is_first(&self) -> bool
        ensures { result ≡ is_first_entry self.now }
    {
        match self {
            Entry::Command(command) => command.op.is_first(),
            Entry::Stop(stop) => stop.get().members.are_first(),
        }
    }
}

/// Whether the first version could hold these entries.
pub fn are_first(entries: &[Entry]) -> bool
    ensures { result ≡ are_first_entries entries.now }
{
    entries.iter().all(|entry| entry.is_first())
}
