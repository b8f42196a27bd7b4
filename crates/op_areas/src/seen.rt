ghost use Rattle.std.specs.Prelude.{◌≡◌, true, false};
ghost use Rattle.op_mirror.specs.Copies.{has_second};
ghost use Rattle.op_areas.specs.Openings.{IsCalledOnce, IsOneMore, IsSeen};

use crate::pair::DiskPair;
use op_memory::MemDisk;
use op_mirror::Mirror;

/// What is seen of two copies before they are opened.
#[derive(Clone, Copy, Debug, PartialEq, Eq)]
pub(crate) struct Seen {
    /// Whether the first one is killed.
    pub(crate) first_killed: bool,
    /// Whether the second one is.
    pub(crate) second_killed: bool,
    /// How many calls were made of the first one.
    first_calls: u64,
}

impl Seen {
    /// Of these copies.
    pub(crate) fn of(copies: &DiskPair) -> Seen
        ensures { IsSeen copies.now result }
    {
        Seen {
            first_killed: copies.first.is_killed(),
            second_killed: copies.second.is_killed(),
            first_calls: copies.first.calls(),
        }
    }

    /// Whether the first one, if it is killed, failed in its first call since.
    pub(crate) fn has_first_at_once(&self, first: &MemDisk) -> bool
        ensures { result ≡ true → self.now.first_killed ≡ true → IsCalledOnce self.now first.now }
    {
        !self.first_killed || made_one_call(first, self.first_calls)
    }

    /// Whether the second one, if it is killed, is out of this mirror.
    pub(crate) fn has_second_out(&self, mirror: &Mirror<MemDisk>) -> bool
        ensures { result ≡ true → self.now.second_killed ≡ true →
            has_second mirror.now.gone mirror.now.is_dead ≡ false }
    {
        !self.second_killed || !mirror.has_second()
    }
}

/// Whether one call was made of a disk since so many, and it still counts them.
fn made_one_call(disk: &MemDisk, calls: u64) -> bool
    ensures { result ≡ true → IsOneMore calls disk.now.script.made }
{
    calls < u64::MAX - 1 && disk.calls() == calls + 1
}
