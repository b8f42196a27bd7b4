ghost use Rattle.std.specs.Prelude.{◌≡◌, ◌≤◌, is_ok, min, ◌+◌, IsTrue, OnOk, OnErr};
ghost use Rattle.op_outside.specs.Causes.{FailsOnlyOnFault, FaultsRose, last_count};

use op_outside::DiskFail;
use std::alloc::AllocError;

/// The calls that failed.
#[derive(Clone, Copy)]
pub struct FaultCount {
    /// How many there were, up to 2^64 - 1.
    pub count: u64,
    /// Whether one found no memory, or would have ended past 2^62 bytes.
    pub is_starved: bool,
}

impl FaultCount {
    /// Counts a call that failed.
    pub fn fail(&mut self) -> DiskFail
        ensures later { self.old.count ≤ self.new.count }
        ensures rose { FaultsRose self.old.count self.new.count }
        ensures by_one { self.new.count ≡ min (self.old.count + 1) last_count }
        ensures fed { self.new.is_starved ≡ self.old.is_starved }
    {
        self.count = self.count.saturating_add(1);
        DiskFail
    }

    /// A failure for want of room.
    pub fn starve(&mut self) -> DiskFail
        ensures later { self.old.count ≤ self.new.count }
        ensures rose { FaultsRose self.old.count self.new.count }
        ensures by_one { self.new.count ≡ min (self.old.count + 1) last_count }
        ensures starved { IsTrue self.new.is_starved }
    {
        let fail = self.fail();
        self.is_starved = true;
        fail
    }

    /// Of a step that may find no memory.
    pub fn settle(&mut self, done: Result<(), AllocError>) -> Result<(), DiskFail>
        ensures same { is_ok result ≡ is_ok done }
        ensures by_one { OnErr result (self.new.count ≡ min (self.old.count + 1) last_count) }
        ensures starved { OnErr result (IsTrue self.new.is_starved) }
        ensures fed { OnOk result (self.new.is_starved ≡ self.old.is_starved) }
        ensures cause { FailsOnlyOnFault self.old.count self.new.count result }
    {
        match done {
            Ok(()) => Ok(()),
            Err(_) => Err(self.starve()),
        }
    }

    /// Of a step in which the disk stops, and which may find no memory.
    pub fn stop(&mut self, done: Result<(), AllocError>) -> DiskFail
        ensures later { self.old.count ≤ self.new.count }
        ensures rose { FaultsRose self.old.count self.new.count }
        ensures by_one { self.new.count ≡ min (self.old.count + 1) last_count }
        ensures starved { OnErr done (IsTrue self.new.is_starved) }
        ensures fed { OnOk done (self.new.is_starved ≡ self.old.is_starved) }
    {
        match done {
            Ok(()) => self.fail(),
            Err(_) => self.starve(),
        }
    }
}
