//! An area on a mirror of two disks in memory.
ghost use Rattle.std.specs.Prelude.{◌≡◌, ◌↔◌, true, IfOk};
ghost use Rattle.op_outside.specs.Disks.{MayLeave};
ghost use Rattle.op_memory.specs.MemDisks.{known_disk, seen_of};
ghost use Rattle.op_areas.specs.Disks.{LeavesNoMore, StaysKilled};
ghost use Rattle.op_areas.specs.Openings.{is_opened, AreAsSeen, IsOpenedAsSeen, HasNoStop, IsNoOther};
ghost use Rattle.op_areas.specs.Calls.{IsImageAt};
ghost use Rattle.op_areas.specs.Pairs.{holds_pair};

use crate::area::{Area, Opening};
use crate::arming::Arming;
use crate::copy_call::{CopyCall, CopyCalls};
use crate::mem_mirror::MemMirror;
use crate::memory::{arm_disk, armed_disk, disk_of, empty_disk};
use crate::pair::DiskPair;
use crate::seen::Seen;
use crate::stop::Stop;
use op_memory::MemDisk;
use op_mirror::{Mirror, OpenCause, OpenFail};
use op_outside::Disk;
use op_types::NoMemory;
use std::alloc::{AllocError, Global};

impl Area for MemMirror {
    const IS_MIRRORED: bool = true;

    type Copies = DiskPair;

    ghost IS_MIRRORED = { true };

    ghost holds = { holds_pair };

    fn empty(alloc: Global) -> Result<DiskPair, NoMemory> {
        Ok(DiskPair {
            first: empty_disk(alloc)?,
            second: empty_disk(alloc)?,
        })
    }

    fn open(alloc: Global, copies: DiskPair) -> Result<Opening<MemMirror, DiskPair>, NoMemory> {
        let seen = Seen::of(&copies);
        let DiskPair { first, second } = copies;
        match Mirror::open(alloc, first, second) {
            Ok(mirror) => opened(mirror, seen),
            Err(
                OpenFail {
                    cause,
                    first,
                    second,
                },
            ) => match cause {
                OpenCause::NoMemory => Err(NoMemory),
                OpenCause::DiskFail => Ok(Opening::Failed(unopened(first, second, seen)?)),
            },
        }
    }

    /// It answers NoMemory too where a copy that is out isn't killed and pends otherwise than the one that is
    /// read. No stop leads there, since both copies stop in the same call of the mirror: only a call that was
    /// to fail of a copy that lives on.
    fn close(self) -> Result<DiskPair, NoMemory> {
        let MemMirror { mirror } = self;
        let living = mirror.living();
        let reads_second = mirror.reads_second();
        let (first, second, _) = mirror.apart();
        if first.is_starved() || second.is_starved() {
            return Err(NoMemory);
        }
        if !is_no_other(&first, &second, living, reads_second)? {
            return Err(NoMemory);
        }
        Ok(DiskPair { first, second })
    }

    fn left(alloc: Global, copies: &DiskPair, stop: Stop) -> Result<DiskPair, NoMemory> {
        let calls = CopyCalls::of(stop.copy);
        Ok(DiskPair {
            first: left_of(alloc, &copies.first, calls.first, stop.image)?,
            second: left_of(alloc, &copies.second, calls.second, stop.image)?,
        })
    }

    fn armed(self, arming: Arming) -> Result<MemMirror, NoMemory> {
        let MemMirror { mirror } = self;
        let (first, second, halves) = mirror.apart();
        let first = armed_disk(first, 0, &arming)?;
        let second = armed_disk(second, 1, &arming)?;
        let mirror = Mirror::together(first, second, halves);
        Ok(MemMirror { mirror })
    }

    fn arm(copies: &mut DiskPair, arming: Arming) -> Result<(), NoMemory> {
        arm_disk(&mut copies.first, 0, &arming)?;
        arm_disk(&mut copies.second, 1, &arming)
    }

    /// Both copies' faults, up to 2^64 - 1.
    fn faults_of(copies: &DiskPair) -> u64 {
        copies.first.faults().saturating_add(copies.second.faults())
    }
}

/// The same mirror, which was opened on copies of which this was seen. A killed one is out, and where the
/// first one is killed the second one was only synced. Where a copy stopped meanwhile the copies are handed
/// back, since no call comes after a stop.
fn opened(mirror: Mirror<MemDisk>, seen: Seen) -> Result<Opening<MemMirror, DiskPair>, NoMemory>
    ensures seen { IfOk result (IsOpenedAsSeen seen mirror) }
    ensures runs { IfOk result (λ o. is_opened o ≡ true ↔ HasNoStop mirror) }
{
    let has_second_out = seen.has_second_out(&mirror);
    let (first, second, halves) = mirror.apart();
    if first.has_stopped() || second.has_stopped() {
        return Ok(Opening::Failed(unopened(first, second, seen)?));
    }
    if !has_second_out || !seen.has_first_at_once(&first) {
        return Err(NoMemory);
    }
    let mirror = Mirror::together(first, second, halves);
    Ok(Opening::Opened(MemMirror { mirror }))
}

/// Copies of which this was seen, and which were handed back: one that was killed stays so, and where the
/// first one was, the second one was only synced.
fn unopened(first: MemDisk, second: MemDisk, seen: Seen) -> Result<DiskPair, NoMemory>
    ensures { IfOk result (AreAsSeen seen first second) }
{
    if !seen.has_first_at_once(&first) {
        return Err(NoMemory);
    }
    Ok(DiskPair {
        first: killed_if(first, seen.first_killed),
        second: killed_if(second, seen.second_killed),
    })
}

/// The same disk, killed where it was.
fn killed_if(disk: MemDisk, is_killed: bool) -> MemDisk
    ensures left { LeavesNoMore disk result }
    ensures killed { is_killed ≡ true → result.script.is_killed ≡ true }
{
    let mut disk = disk;
    if is_killed {
        disk.kill();
    }
    disk
}

/// Whether both copies live, the one that isn't read is killed, or the same is pending of both.
fn is_no_other(
    first: &MemDisk,
    second: &MemDisk,
    living: u8,
    reads_second: bool,
) -> Result<bool, NoMemory>
    ensures { IfOk result (λ is. is ≡ true → IsNoOther living reads_second first.now second.now) }
{
    if living == 2 {
        return Ok(true);
    }
    let is_killed = if reads_second {
        first.is_killed()
    } else {
        second.is_killed()
    };
    if is_killed {
        return Ok(true);
    }
    Ok(first.pends_as(second)?)
}

/// What a stop leaves of a copy: this image, as far as its last call had come.
fn left_of(alloc: Global, disk: &MemDisk, call: CopyCall, image: u8) -> Result<MemDisk, NoMemory>
    ensures left { IfOk result (LeavesNoMore disk.now) }
    ensures killed { IfOk result (StaysKilled disk.now) }
    ensures image { IfOk result (λ d. IsImageAt call disk.now image (seen_of d)) }
{
    let bytes = image_at(disk, call, image)?;
    disk_of(alloc, disk, bytes, disk.faults())
}

/// The bytes of that image.
fn image_at(disk: &MemDisk, call: CopyCall, image: u8) -> Result<Vec<u8>, AllocError>
    ensures left { IfOk result (λ x. MayLeave (known_disk disk.now) x.items) }
    ensures image { IfOk result (λ x. IsImageAt call disk.now image x.items) }
{
    match call {
        CopyCall::Stopped => disk.image(image),
        CopyCall::Done => disk.image_done(image),
        CopyCall::Missing => disk.image_before(image),
    }
}
