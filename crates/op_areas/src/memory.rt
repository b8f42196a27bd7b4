//! An area on one disk in memory.
ghost use Rattle.std.specs.Prelude.{◌≡◌, [], false, IfOk, OnOk};
ghost use Rattle.op_outside.specs.Disks.{MayLeave};
ghost use Rattle.op_memory.specs.MemDisks.{fault_count_of, known_disk, seen_of, BeginsAnew};
ghost use Rattle.op_areas.specs.Disks.{IsArmed, IsEmptyDisk, LeavesNoMore, StaysKilled};

use crate::area::{Area, Opening};
use crate::arming::{Arming, CallAt};
use crate::stop::Stop;
use op_memory::MemDisk;
use op_outside::Disk;
use op_types::NoMemory;
use std::alloc::Global;

/// An empty disk.
pub(crate) fn empty_disk(alloc: Global) -> Result<MemDisk, NoMemory>
    ensures { IfOk result IsEmptyDisk }
{
    Ok(MemDisk::new(alloc, Vec::new(alloc))?)
}

/// A new disk that holds these bytes in the place of another one: it is killed where that was, and has failed
/// so often.
pub(crate) fn disk_of(
    alloc: Global,
    disk: &MemDisk,
    bytes: Vec<u8>,
    faults: u64,
) -> Result<MemDisk, NoMemory>
    requires { MayLeave (known_disk disk.now) bytes.items }
    ensures left { IfOk result (LeavesNoMore disk.now) }
    ensures killed { IfOk result (StaysKilled disk.now) }
    ensures seen { IfOk result (λ d. seen_of d ≡ bytes.items) }
    ensures faults { IfOk result (λ d. fault_count_of d ≡ faults) }
{
    let mut left = MemDisk::new(alloc, bytes)?;
    left.count_from(faults);
    if disk.is_killed() {
        left.kill();
    }
    Ok(left)
}

/// Arms a disk, of which no call found no memory, as this copy of an area. It keeps its calls.
pub(crate) fn arm_disk(disk: &mut MemDisk, copy: u8, arming: &Arming) -> Result<(), NoMemory>
    ensures { OnOk result (IsArmed disk.old disk.new) }
{
    if disk.is_starved() {
        return Err(NoMemory);
    }
    match arming {
        Arming::Nothing | Arming::Forget => {}
        Arming::Stop { power, at } => {
            disk.share_power(power.share()?);
            if let Some(at) = at {
                stop_in(disk, copy, *at);
            }
        }
        Arming::Fail { at } => fail_in(disk, copy, *at)?,
        Arming::Clear => disk.clear_script(),
        Arming::Kill { copy: killed } => {
            if *killed == copy {
                disk.kill();
            }
        }
    }
    Ok(())
}

/// The disk is to stop in this call, if that is one of this copy.
fn stop_in(disk: &mut MemDisk, copy: u8, at: CallAt)
    ensures { IsArmed disk.old disk.new }
{
    if at.copy == copy {
        let call = disk.calls().saturating_add(at.call as u64);
        disk.stop_at(call);
    }
}

/// This call of the disk is to fail, if it is one of this copy.
fn fail_in(disk: &mut MemDisk, copy: u8, at: CallAt) -> Result<(), NoMemory>
    ensures { OnOk result (IsArmed disk.old disk.new) }
{
    if at.copy == copy {
        let call = disk.calls().saturating_add(at.call as u64);
        disk.fail_at(call)?;
    }
    Ok(())
}

/// The disk, armed so, of which no call found no memory.
pub(crate) fn armed_disk(disk: MemDisk, copy: u8, arming: &Arming) -> Result<MemDisk, NoMemory>
    ensures { IfOk result (λ d. BeginsAnew (known_disk disk) (known_disk d)) }
{
    let mut disk = disk;
    arm_disk(&mut disk, copy, arming)?;
    if matches!(arming, Arming::Forget) {
        return Ok(disk.forget()?);
    }
    Ok(disk)
}

impl Area for MemDisk {
    const IS_MIRRORED: bool = false;

    type Copies = MemDisk;

    ghost IS_MIRRORED = { false };

    ghost holds = { λ d x. MayLeave (known_disk d) x };

    fn empty(alloc: Global) -> Result<MemDisk, NoMemory> {
        empty_disk(alloc)
    }

    fn open(_alloc: Global, copies: MemDisk) -> Result<Opening<MemDisk, MemDisk>, NoMemory> {
        let _faults = copies.faults();
        Ok(Opening::Opened(copies))
    }

    fn close(self) -> Result<MemDisk, NoMemory> {
        if self.is_starved() {
            return Err(NoMemory);
        }
        Ok(self)
    }

    fn left(alloc: Global, copies: &MemDisk, stop: Stop) -> Result<MemDisk, NoMemory> {
        let bytes = copies.image(stop.image)?;
        disk_of(alloc, copies, bytes, stop.faults)
    }

    fn armed(self, arming: Arming) -> Result<MemDisk, NoMemory> {
        armed_disk(self, 0, &arming)
    }

    fn arm(copies: &mut MemDisk, arming: Arming) -> Result<(), NoMemory> {
        arm_disk(copies, 0, &arming)
    }

    fn faults_of(copies: &MemDisk) -> u64 {
        copies.faults()
    }
}
