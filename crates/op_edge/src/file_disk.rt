ghost use Rattle.std.specs.Prelude.{◌≡◌, Result};
ghost use Rattle.std.specs.Result.{result_ok};
ghost use Rattle.op_outside.specs.Causes.{FailsOnlyOnFault};
ghost use Rattle.op_outside.specs.Disks.{untold};

use crate::copied::Copied;
use crate::faults::counted;
use crate::lazy_file::{Absent, LazyFile};
use crate::log::Log;
use op_outside::{Disk, DiskFail};
use std::alloc::Global;
use std::fs::File;
use std::io;
use std::path::PathBuf;
use std::rt::Files;
use std::time::Clock;

/// A file as a disk. It is opened at the first call. It tells nothing of its content.
///
/// The file is locked (`flock`) when it is opened, before anything is read or written, until the disk is
/// dropped or its process has ended, in whatever way. While another disk has it, of this process or of
/// another one, each call fails, and nothing is changed. The lock keeps no program away that doesn't ask for
/// one.
///
/// After a sync that failed every call fails: what was written before may be gone.
#[derive(Drop)]
pub struct FileDisk<R: Files<File = File> + Clock + Eprint + Alloc<A = Global> + Drop> {
    file: LazyFile<R>,
    faults: u64,
}

impl<R: Files<File = File> + Clock + Eprint + Alloc<A = Global> + Drop> FileDisk<R> {
    /// The file at this path, which is made where there is none. Nothing is opened yet.
    pub fn new(rt: R, path: PathBuf) -> Self
        ensures { (⟦<FileDisk<R> as Disk>⟧.state result).faults ≡ 0 }
    {
        FileDisk {
            file: LazyFile::new(rt, path, Absent::Made),
            faults: 0,
        }
    }

    /// The file at this path, which has no bytes where there is none, and isn't made. Nothing is opened yet.
    pub fn existing(rt: R, path: PathBuf) -> Self
        ensures { (⟦<FileDisk<R> as Disk>⟧.state result).faults ≡ 0 }
    {
        FileDisk {
            file: LazyFile::new(rt, path, Absent::Empty),
            faults: 0,
        }
    }

    /// The file at this path, the first copy of an area whose second one is at the other path, and made where
    /// there is neither. Nothing is opened yet.
    ///
    /// Once a call of it fails, while that other file is there, each call fails, over starts too: an empty
    /// file `NAME.failed` beside this one, and beside its partner, says so. So does each call where it isn't
    /// there and its partner is. But of two copies that both fail the one that failed last is trusted again
    /// at the next start.
    pub fn first_copy(rt: R, path: PathBuf, second: PathBuf) -> Self
        ensures { (⟦<FileDisk<R> as Disk>⟧.state result).faults ≡ 0 }
    {
        FileDisk {
            file: LazyFile::copy(rt, path, Copied::new(second, true)),
            faults: 0,
        }
    }

    /// The file at this path, the second copy of an area whose first one is at the other path, in the same
    /// way. It is made where there is none, also where its partner is there.
    pub fn second_copy(rt: R, path: PathBuf, first: PathBuf) -> Self
        ensures { (⟦<FileDisk<R> as Disk>⟧.state result).faults ≡ 0 }
    {
        FileDisk {
            file: LazyFile::copy(rt, path, Copied::new(first, false)),
            faults: 0,
        }
    }

    /// The same, which tells what fails by these lines.
    pub fn telling(mut self, log: Log) -> Self
        ensures { (⟦<FileDisk<R> as Disk>⟧.state result).faults
            ≡ (⟦<FileDisk<R> as Disk>⟧.state self).faults }
    {
        self.file.set_log(log);
        self
    }

    /// Hands on what the system answered to this call. An error is counted, told, and of a copy noted.
    fn told<T>(&mut self, call: &str, answer: io::Result<T>) -> Result<T, DiskFail>
        ensures answer { result_ok result ≡ result_ok answer }
        ensures cause { FailsOnlyOnFault self.old.faults self.new.faults result }
    {
        self.file.note(call, answer.as_ref().err());
        counted(&mut self.faults, answer, DiskFail)
    }
}

impl<R: Files<File = File> + Clock + Eprint + Alloc<A = Global> + Drop> Disk for FileDisk<R> {
    ghost state = { λ d. untold d.faults };

    fn faults(&self) -> u64 {
        self.faults
    }

    /// Its length in bytes. It fails where that is past 2^62.
    fn len(&mut self) -> Result<u64, DiskFail> {
        let answer = self.file.len();
        self.told("its length", answer)
    }

    fn read(&mut self, at: u64, buf: &mut [u8]) -> Result<(), DiskFail> {
        let answer = self.file.read(at, buf);
        self.told("a read", answer)
    }

    fn write_at(&mut self, at: u64, bytes: &[u8]) -> Result<(), DiskFail> {
        let answer = self.file.write_at(at, bytes);
        self.told("a write", answer)
    }

    fn cut(&mut self, len: u64) -> Result<(), DiskFail> {
        let answer = self.file.cut(len);
        self.told("a cut", answer)
    }

    fn sync(&mut self) -> Result<(), DiskFail> {
        let answer = self.file.sync();
        self.told("a sync", answer)
    }
}
