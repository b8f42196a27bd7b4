ghost use Rattle.std.specs.Prelude.{◌≤◌, ◌+◌, ◌↔◌, IsTrue, IfOk, OnOk, length};
ghost use Rattle.op_outside.specs.Disks.{disk_end};

use crate::copied::Copied;
use crate::folders::sync_folder_of;
use crate::log::Log;
use op_outside::DISK_END;
use std::alloc::Global;
use std::fmt::Display;
use std::fs::{self, File, OpenOptions, TryLockError};
use std::io::{self, ErrorKind};
use std::os::unix::fs::FileExt;
use std::path::PathBuf;
use std::rt::Files;
use std::time::Clock;

/// A sync that takes so long, in milliseconds, is told.
const SLOW_MILLIS: u64 = 1000;

/// What a file is where there is none.
#[derive(Clone, Copy, PartialEq, Eq)]
pub(crate) enum Absent {
    /// It is made.
    Made,
    /// It has no bytes, and isn't made.
    Empty,
}

/// A file that is opened and locked at its first use.
#[derive(Drop)]
pub(crate) struct LazyFile<R: Files<File = File> + Clock + Eprint + Alloc<A = Global> + Drop> {
    rt: R,
    path: PathBuf,
    absent: Absent,
    /// What is known of it as a copy, if it is one of two.
    copied: Option<Copied>,
    log: Log,
    /// Whether its last call failed, which was told.
    is_failing: bool,
    file: Option<File>,
    /// Whether its length may have changed since the last sync.
    resized: bool,
    /// Whether a sync failed. The system may then have dropped what was written, and no later sync tells of
    /// it.
    lost: bool,
}

impl<R: Files<File = File> + Clock + Eprint + Alloc<A = Global> + Drop> LazyFile<R> {
    pub(crate) fn new(rt: R, path: PathBuf, absent: Absent) -> Self {
        LazyFile {
            rt,
            path,
            absent,
            copied: None,
            log: Log::off(),
            is_failing: false,
            file: None,
            resized: true,
            lost: false,
        }
    }

    /// A file that is one of two copies, and made where there is none.
    pub(crate) fn copy(rt: R, path: PathBuf, copied: Copied) -> Self {
        LazyFile {
            copied: Some(copied),
            ..LazyFile::new(rt, path, Absent::Made)
        }
    }

    /// Tells what fails by these lines.
    pub(crate) fn set_log(&mut self, log: Log) {
        self.log = log;
    }

    fn tell<T: Display + Drop>(&self, what: T) {
        let name = self.path.as_path().display();
        self.log.tell(&self.rt, format_args!("{name}: {what}"));
    }

    /// Notes how a call ended: it is told that calls fail, and that they are answered again; and a copy of
    /// which one fails has failed for good.
    pub(crate) fn note(&mut self, call: &str, error: Option<&io::Error>) {
        let Some(error) = error else {
            if self.is_failing {
                self.is_failing = false;
                self.tell("answers again");
            }
            return;
        };
        if !self.is_failing {
            self.is_failing = true;
            self.tell(format_args!("{call} failed: {error}"));
        }
        if let Some(copied) = &mut self.copied {
            if copied.fails(&self.rt, self.path.as_path(), error) {
                self.tell("this copy has failed, and is called no more");
            }
        }
    }

    /// The file, opened if it wasn't.
    fn opened(&mut self) -> io::Result<&File> {
        if self.lost {
            return Err(ErrorKind::Other.into());
        }
        if let Some(copied) = &mut self.copied {
            copied.lives(&self.rt, self.path.as_path())?;
        }
        if self.file.is_none() {
            self.file = Some(self.open()?);
        }
        self.file.as_ref().ok_or(ErrorKind::NotFound.into())
    }

    /// Opens the file, and locks it before anything else. Its name is made last too, so that a crash leaves a
    /// file that was synced.
    fn open(&self) -> io::Result<File> {
        let mut how = OpenOptions::new();
        how.read(true)
            .write(true)
            .create(self.absent == Absent::Made);
        let file = how.open(&self.rt, self.path.as_path())?;
        lock(&file)?;
        self.sync_folder()?;
        Ok(file)
    }

    /// Syncs the folder that holds the file, which isn't the link's where the path is a symbolic link. Memory
    /// is taken for a link alone.
    fn sync_folder(&self) -> io::Result<()> {
        let path = self.path.as_path();
        if !fs::symlink_metadata(&self.rt, path)?.is_symlink() {
            return sync_folder_of(&self.rt, path);
        }
        let real = fs::canonicalize(&self.rt, path)?;
        sync_folder_of(&self.rt, real.as_path())
    }

    /// Its length in bytes. It fails where that is past 2^62.
    pub(crate) fn len(&mut self) -> io::Result<u64>
        ensures { IfOk result (λ n. n ≤ disk_end) }
    {
        let may_lack = self.absent == Absent::Empty;
        let len = match self.opened() {
            Ok(file) => file.metadata()?.len(),
            Err(error) if may_lack && error.kind() == ErrorKind::NotFound => 0,
            Err(error) => return Err(error),
        };
        if len > DISK_END {
            return Err(ErrorKind::FileTooLarge.into());
        }
        Ok(len)
    }

    /// Fills the buffer with the bytes from byte offset `at` on. It fails where they are past the length.
    pub(crate) fn read(&mut self, at: u64, buf: &mut [u8]) -> io::Result<()> {
        if !ends_by(at, buf.len(), self.len()?) {
            return Err(ErrorKind::UnexpectedEof.into());
        }
        if buf.is_empty() {
            return Ok(());
        }
        self.opened()?.read_exact_at(buf, at)
    }

    /// Writes these bytes from byte offset `at` on. It fails where that is past the length, or their end past
    /// 2^62.
    pub(crate) fn write_at(&mut self, at: u64, bytes: &[u8]) -> io::Result<()>
        ensures { OnOk result (at + length bytes.now ≤ disk_end) }
    {
        let len = self.len()?;
        if at > len || !ends_by(at, bytes.len(), DISK_END) {
            return Err(ErrorKind::InvalidInput.into());
        }
        self.resized |= !ends_by(at, bytes.len(), len);
        self.opened()?.write_all_at(bytes, at)
    }

    /// Cuts it to `len` bytes. It fails where it is shorter.
    pub(crate) fn cut(&mut self, len: u64) -> io::Result<()> {
        if len > self.len()? {
            return Err(ErrorKind::InvalidInput.into());
        }
        self.resized = true;
        self.opened()?.set_len(len)
    }

    /// Makes all that was written last. A sync of the bytes is enough where the length hasn't changed since
    /// the last one: the device then has all else that a read needs, and the file's times are of no use here.
    pub(crate) fn sync(&mut self) -> io::Result<()> {
        let resized = self.resized;
        let start = self.log.millis(&self.rt);
        let file = self.opened()?;
        let done = if resized {
            file.sync_all()
        } else {
            file.sync_data()
        };
        self.lost = done.is_err();
        self.resized = false;
        self.tell_slow(start);
        done
    }

    /// Tells of a sync that began at this moment and took long.
    fn tell_slow(&self, start: Option<u64>) {
        let (Some(start), Some(end)) = (start, self.log.millis(&self.rt)) else {
            return;
        };
        let took = end.saturating_sub(start);
        if took >= SLOW_MILLIS {
            self.tell(format_args!("a sync took {took} ms"));
        }
    }
}

/// Locks a file, or says that another process has it.
fn lock(file: &File) -> io::Result<()> {
    match file.try_lock() {
        Ok(()) => Ok(()),
        Err(TryLockError::WouldBlock) => {
            Err(io::Error::new(ErrorKind::WouldBlock, "another process has it"))
        }
        Err(TryLockError::Error(error)) => Err(error),
    }
}

/// Whether so many bytes from byte offset `at` on end by byte offset `end`.
fn ends_by(at: u64, count: usize, end: u64) -> bool
    ensures { IsTrue result ↔ (at + count ≤ end) }
{
    at <= end && count as u64 <= end - at
}
