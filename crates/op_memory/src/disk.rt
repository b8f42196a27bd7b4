ghost use Rattle.std.specs.Prelude.{◌≡◌, ◌<◌, ℕ, List, [], length, None, IfOk};

use crate::call::Call;
use crate::call_fate::CallFate;
use crate::disk_history::DiskHistory;
use crate::fault_count::FaultCount;
use crate::fault_script::FaultScript;
use crate::piece::Piece;
use crate::power::Power;
use op_outside::{DISK_END, Disk, DiskFail};
use std::alloc::{AllocError, Global};

/// A disk in memory. It keeps its writes, cuts and syncs, fails at the calls that it is told to, and stops at
/// one.
#[derive(Drop)]
pub struct MemDisk {
    alloc: Global,
    history: DiskHistory,
    script: FaultScript,
    faults: FaultCount,
    power: Option<Power>,
    /// Whether the power was off in its last call.
    was_off: bool,
}

impl MemDisk {
    ghost use Rattle.std.specs.Prelude.{◌↔◌, Some, IsTrue, OnOk, OnErr};
    ghost use Rattle.op_memory.specs.FaultScripts.{is_due, IsSameScript, FailsAt, StopsAt, Kills, Clears, MakesCallWhere};
    ghost use Rattle.op_memory.specs.MemDisks.{known_disk, seen_of, fate_of, Holds, IsUnchanged, KeepsPower};
    ghost use Rattle.op_memory.specs.MemDisks.{IsImageOf, IsImageBefore, IsImageDone, PendAlike, BeginsAnew, Forgets};

    /// A disk that holds these bytes, and of which nothing is pending.
    pub fn new(alloc: Global, bytes: Vec<u8>) -> Result<MemDisk, AllocError>
        ensures { IfOk result (Holds bytes.items) }
    {
        Ok(MemDisk {
            alloc,
            history: DiskHistory {
                calls: Vec::new(alloc),
                replaced: Vec::new(alloc),
                bytes,
            },
            script: FaultScript::new(Vec::new(alloc)),
            faults: FaultCount {
                count: 0,
                is_starved: false,
            },
            power: None,
            was_off: false,
        })
    }

    /// What a read gives, from byte 0 to the end.
    pub fn bytes(&self) -> &[u8]
        ensures { result.now ≡ seen_of self.now }
    {
        &self.history.bytes
    }

    /// Whether a call found no memory, or would have ended past 2^62 bytes.
    pub fn is_starved(&self) -> bool
        ensures { result ≡ self.now.faults.is_starved }
    {
        self.faults.is_starved
    }

    /// From now on each call fails, but for one in which the disk stops. Nothing makes it run again.
    pub fn kill(&mut self)
        ensures same { IsUnchanged self.old self.new }
        ensures power { self.new.power ≡ self.old.power }
        ensures script { Kills self.old.script self.new.script }
    {
        self.script.kill();
    }

    /// Whether it was killed.
    pub fn is_killed(&self) -> bool
        ensures { result ≡ self.now.script.is_killed }
    {
        self.script.is_killed()
    }

    /// Whether it has stopped.
    pub fn has_stopped(&self) -> bool
        ensures { result ≡ self.now.script.is_stopped }
    {
        self.script.is_stopped()
    }

    /// Whether it was told to stop in its next call, and has not stopped. The switch that it shares isn't
    /// asked.
    pub fn stops_next(&self) -> bool
        ensures { result ≡ is_due self.now.script }
    {
        self.script.stops_next()
    }

    /// It shares this switch from now on, in place of any other. In a call in which it stops it switches the
    /// power off, and where the power is off it stops in its next call, as `stop_at` has it.
    pub fn share_power(&mut self, power: Power)
        ensures same { IsUnchanged self.old self.new }
        ensures script { IsSameScript self.old.script self.new.script }
        ensures shares { self.new.power ≡ Some power }
    {
        self.power = Some(power);
    }

    /// This call fails. The calls of `Disk` count, but for `faults`, from 1 since the disk was made. On an
    /// error, which is for want of memory, nothing has changed.
    pub fn fail_at(&mut self, call: u64) -> Result<(), AllocError>
        ensures same { IsUnchanged self.old self.new }
        ensures power { self.new.power ≡ self.old.power }
        ensures script { OnOk result (FailsAt call self.old.script self.new.script) }
        ensures err { OnErr result (IsSameScript self.old.script self.new.script) }
    {
        self.script.fail_at(call)
    }

    /// The disk stops in this call, or in the next one where that is later. The call fails, a write or a cut
    /// is then pending, and each later call fails. Calls count as for `fail_at`.
    pub fn stop_at(&mut self, call: u64)
        ensures same { IsUnchanged self.old self.new }
        ensures power { self.new.power ≡ self.old.power }
        ensures script { StopsAt call self.old.script self.new.script }
    {
        self.script.stop_at(call);
    }

    /// How many calls of `Disk` were made since the disk was made, but for `faults`, up to 2^64 - 1.
    pub fn calls(&self) -> u64
        ensures { result ≡ self.now.script.made }
    {
        self.script.made()
    }

    /// No call is told to fail any more, and the disk is not to stop: one that has stopped runs again. It
    /// lets go of the switch that it shares. One that was killed still fails.
    pub fn clear_script(&mut self)
        ensures same { IsUnchanged self.old self.new }
        ensures power { self.new.power ≡ None }
        ensures script { Clears self.old.script self.new.script }
    {
        self.script.clear();
        self.power = None;
    }

    /// From now on the disk has failed so often, as one that goes on for another does. Nothing else changes.
    pub fn count_from(&mut self, faults: u64)
        ensures { self.new ≡ record self.old { faults = record (self.old.faults) { count = faults } } }
    {
        self.faults.count = faults;
    }

    /// What a crash now leaves: at 0 nothing that is pending took place, at 1 all of it did, and at any other
    /// number each range that is pending holds that byte, at the greatest length.
    pub fn image(&self, number: u8) -> Result<Vec<u8>, AllocError>
        ensures { IfOk result (λ x. IsImageOf self.now number x.items) }
    {
        match number {
            0 => self.history.synced(self.alloc),
            1 => self.history.whole(self.alloc),
            byte => self.history.filled(self.alloc, byte),
        }
    }

    /// What `image` gives, without the write or the cut in which the disk stopped: at 1 it is then what a
    /// read gives.
    pub fn image_before(&self, number: u8) -> Result<Vec<u8>, AllocError>
        ensures { IfOk result (λ x. IsImageBefore self.now number x.items) }
    {
        if !self.script.is_stopped() {
            return self.image(number);
        }
        match number {
            0 => self.history.synced(self.alloc),
            1 => self.history.seen(self.alloc),
            byte => self.history.filled_before(self.alloc, byte),
        }
    }

    /// What `image` gives, as if the call in which the disk stopped had been done: where that was a sync it
    /// is what a read gives, and a write or a cut in which it stopped is pending as it is.
    pub fn image_done(&self, number: u8) -> Result<Vec<u8>, AllocError>
        ensures { IfOk result (λ x. IsImageDone self.now number x.items) }
    {
        if self.script.is_stopped() && !self.history.ends_in_stop() {
            return self.history.seen(self.alloc);
        }
        self.image(number)
    }

    /// Whether the same is pending of both, so that a crash now may leave the same of them. It takes time for
    /// their lengths.
    pub fn pends_as(&self, other: &MemDisk) -> Result<bool, AllocError>
        ensures { IfOk result (λ same. IsTrue same ↔ PendAlike self.now other.now) }
    {
        let pends = self.history.pends(self.alloc)?;
        let others = other.history.pends(self.alloc)?;
        Ok(pends.is_same(&others))
    }

    /// The same disk, which no longer keeps the calls up to its last sync: it takes time for the calls since
    /// it last forgot, and none for its length. Its moments begin anew, and one of before says nothing of it.
    /// What a read gives, what a crash now may leave, the script and both counts are as they were. It is lost
    /// where there is no memory.
    pub fn forget(self) -> Result<MemDisk, AllocError>
        ensures forgets { IfOk result (Forgets self) }
        ensures known { IfOk result (λ d. BeginsAnew (known_disk self) (known_disk d)) }
    {
        let MemDisk {
            alloc,
            history,
            script,
            faults,
            power,
            was_off,
        } = self;
        let history = history.forget()?;
        Ok(MemDisk {
            alloc,
            history,
            script,
            faults,
            power,
            was_off,
        })
    }

    /// The fate of the next call. A disk that stops in it switches the power off that it shares.
    fn next_fate(&mut self) -> CallFate
        ensures same { IsUnchanged self.old self.new }
        ensures power { KeepsPower self.old self.new }
        ensures fate { result ≡ fate_of self.old self.new }
        ensures goes { MakesCallWhere self.new.was_off self.old.script self.new.script }
    {
        self.was_off = self.power.as_ref().is_some_and(Power::is_off);
        let fate = self.script.fate_where(self.was_off);
        if fate == CallFate::Stops {
            self.switch_off();
        }
        fate
    }

    /// Switches the power off that it shares.
    fn switch_off(&self) {
        if let Some(power) = &self.power {
            power.switch_off();
        }
    }
}

impl Disk for MemDisk {
    ghost use Rattle.std.specs.Prelude.{◌≤◌, ◌+◌, OnOk, OnErr};
    ghost use Rattle.op_outside.specs.Disks.{disk_end, Does, Costs, IsLengthOf, Reads, IsSynced, Pends, Settles};
    ghost use Rattle.op_outside.specs.Disks.Edit.{Nothing, Write, Cut};
    ghost use Rattle.op_memory.specs.Histories.{known_of};
    ghost use Rattle.op_memory.specs.MemDisks.{known_disk, Performs};
    ghost use Rattle.op_memory.specs.MemDisks.Request.{AskLen, AskRead, AskWrite, AskCut, AskSync};

    ghost state = { λ d. known_of d.history d.faults.count d.script.made };

    fn faults(&self) -> u64 {
        self.faults.count
    }

    fn len(&mut self) -> Result<u64, DiskFail>
        ensures does { Does Nothing (known_disk self.old) (known_disk self.new) result }
        ensures calls { Costs 1 (known_disk self.old) (known_disk self.new) result }
        ensures pends { Pends Nothing (known_disk self.old) (known_disk self.new) result }
        ensures length { IfOk result (IsLengthOf (known_disk self.old)) }

        ensures performs { Performs AskLen self.old self.new result }
    {
        if self.next_fate() != CallFate::Runs {
            return Err(self.faults.fail());
        }
        let len = self.history.bytes.len() as u64;
        if len > DISK_END {
            return Err(self.faults.fail());
        }
        Ok(len)
    }

    fn read(&mut self, at: u64, buf: &mut [u8]) -> Result<(), DiskFail>
        ensures does { Does Nothing (known_disk self.old) (known_disk self.new) result }
        ensures calls { Costs 1 (known_disk self.old) (known_disk self.new) result }
        ensures pends { Pends Nothing (known_disk self.old) (known_disk self.new) result }
        ensures bytes { OnOk result (Reads (known_disk self.old) at (length buf.old) buf.new) }

        ensures performs { Performs (AskRead at (length buf.old)) self.old self.new result }
        ensures kept { OnErr result (buf.new ≡ buf.old) }
    {
        if self.next_fate() != CallFate::Runs {
            return Err(self.faults.fail());
        }
        let len = self.history.bytes.len() as u64;
        if at > len || buf.len() as u64 > len - at {
            return Err(self.faults.fail());
        }
        let from = at as usize;
        buf.copy_from_slice(&self.history.bytes[from..from + buf.len()]);
        Ok(())
    }

    /// A call that would end past 2^62 starves the disk, as one that finds no memory does.
    fn write_at(&mut self, at: u64, bytes: &[u8]) -> Result<(), DiskFail>
        ensures does { Does (Write at bytes.now) (known_disk self.old) (known_disk self.new) result }
        ensures calls { Costs 1 (known_disk self.old) (known_disk self.new) result }
        ensures pends { Pends (Write at bytes.now) (known_disk self.old) (known_disk self.new) result }
        ensures room { OnOk result (at + length bytes.now ≤ disk_end) }

        ensures performs { Performs (AskWrite at bytes.now) self.old self.new result }
    {
        let fate = self.next_fate();
        if fate == CallFate::Fails {
            return Err(self.faults.fail());
        }
        if at > self.history.bytes.len() as u64 {
            return Err(self.faults.fail());
        }
        if at > DISK_END || bytes.len() as u64 > DISK_END - at {
            return Err(self.faults.starve());
        }
        let Ok(piece) = Piece::of(self.alloc, bytes) else {
            return Err(self.faults.starve());
        };
        if fate == CallFate::Stops {
            let done = self.history.add(self.alloc, Call::StoppedWrite(at, piece));
            return Err(self.faults.stop(done));
        }
        let done = self.history.add(self.alloc, Call::Write(at, piece));
        self.faults.settle(done)
    }

    fn cut(&mut self, len: u64) -> Result<(), DiskFail>
        ensures does { Does (Cut len) (known_disk self.old) (known_disk self.new) result }
        ensures calls { Costs 1 (known_disk self.old) (known_disk self.new) result }
        ensures pends { Pends (Cut len) (known_disk self.old) (known_disk self.new) result }

        ensures performs { Performs (AskCut len) self.old self.new result }
    {
        let fate = self.next_fate();
        if fate == CallFate::Fails {
            return Err(self.faults.fail());
        }
        if len > self.history.bytes.len() as u64 {
            return Err(self.faults.fail());
        }
        if fate == CallFate::Stops {
            let done = self.history.add(self.alloc, Call::StoppedCut(len));
            return Err(self.faults.stop(done));
        }
        let done = self.history.add(self.alloc, Call::Cut(len));
        self.faults.settle(done)
    }

    fn sync(&mut self) -> Result<(), DiskFail>
        ensures does { Does Nothing (known_disk self.old) (known_disk self.new) result }
        ensures calls { Costs 1 (known_disk self.old) (known_disk self.new) result }
        ensures synced { OnOk result (IsSynced (known_disk self.new)) }
        ensures settles { Settles (known_disk self.old) (known_disk self.new) result }

        ensures performs { Performs AskSync self.old self.new result }
    {
        if self.next_fate() != CallFate::Runs {
            return Err(self.faults.fail());
        }
        let done = self.history.sync();
        self.faults.settle(done)
    }
}
