ghost use Rattle.std.specs.Prelude.{◌↔◌, ℕ, List};
ghost use Rattle.op_outside.specs.Disks.{MayLeave};
ghost use Rattle.op_memory.specs.declared.disk.MemDisk.{MemDisk};
ghost use Rattle.op_outside.specs.Pendings.{IsImage};
ghost use Rattle.op_memory.specs.MemDisks.{disk_state};

use crate::disk::MemDisk;
use op_outside::Disk;

/// What a crash of a disk in memory may leave now is each image of what is pending, and nothing else.
pub fn what_a_crash_leaves()
    ensures { (d : MemDisk) (x : List ℕ) →
        MayLeave (⟦<MemDisk as Disk>⟧.state d) x ↔ IsImage (disk_state d).pending x }
{}
