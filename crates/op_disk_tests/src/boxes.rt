//! A boxed disk goes through generic code: one in memory, and one that tells nothing of its content, as a
//! real file does.
ghost use Rattle.std.specs.Prelude.{◌≤◌};
ghost use Rattle.op_outside.specs.Disks.{untold};
ghost use Rattle.op_outside.specs.Causes.{FaultsRose};

use op_journal::Journal;
use op_memory::MemDisk;
use op_outside::{Disk, DiskFail};
use std::alloc::{AllocError, Global};
use std::test::Fail;

/// A disk whose every call fails.
#[derive(Drop)]
struct Silent {
    count: u64,
}

impl Silent {
    fn fail(&mut self) -> DiskFail
        ensures later { self.old.count ≤ self.new.count }
        ensures rose { FaultsRose self.old.count self.new.count }
    {
        self.count = self.count.saturating_add(1);
        DiskFail
    }
}

impl Disk for Silent {
    ghost state = { λ d. untold d.count };

    fn faults(&self) -> u64 {
        self.count
    }

    fn len(&mut self) -> Result<u64, DiskFail> {
        Err(self.fail())
    }

    fn read(&mut self, _at: u64, _buf: &mut [u8]) -> Result<(), DiskFail> {
        Err(self.fail())
    }

    fn write_at(&mut self, _at: u64, _bytes: &[u8]) -> Result<(), DiskFail> {
        Err(self.fail())
    }

    fn cut(&mut self, _len: u64) -> Result<(), DiskFail> {
        Err(self.fail())
    }

    fn sync(&mut self) -> Result<(), DiskFail> {
        Err(self.fail())
    }
}

#[test]
fn a_silent_disk_is_asked_once(rt: HostRuntime) -> Result<(), Fail> {
    let alloc = rt.alloc();
    let mut disk: Box<dyn Disk> = Box::new(alloc, Silent { count: 0 })?;
    assert!(rt; Journal::open(alloc, &mut disk).is_err());
    assert_eq!(rt; disk.faults(), 1);
    Ok(())
}

/// Appends `cd`, cuts what is longer than three bytes, and syncs. Gives the first two bytes.
fn use_disk<D: Disk>(disk: &mut D) -> Result<[u8; 2], DiskFail> {
    let end = disk.len()?;
    disk.write_at(end, b"cd")?;
    disk.cut(3)?;
    disk.sync()?;
    let mut bytes = [0u8; 2];
    disk.read(1, &mut bytes)?;
    Ok(bytes)
}

/// What use of a disk gives, its length then, and its faults.
fn told<D: Disk>(disk: &mut D) -> (Result<[u8; 2], DiskFail>, Result<u64, DiskFail>, u64) {
    (use_disk(disk), disk.len(), disk.faults())
}

/// A boxed disk that holds `ab`.
fn boxed(alloc: Global) -> Result<Box<dyn Disk>, AllocError> {
    let disk = MemDisk::new(alloc, Vec::from_slice(alloc, b"ab")?)?;
    Ok(Box::new(alloc, disk)?)
}

#[test]
fn a_boxed_disk_is_one(rt: HostRuntime) -> Result<(), Fail> {
    let mut disk = boxed(rt.alloc())?;
    assert_eq!(rt; told(&mut disk), (Ok(*b"bc"), Ok(3), 0));
    Ok(())
}
