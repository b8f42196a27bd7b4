ghost use Rattle.op_memory.specs.MemDisks.{known_disk};
ghost use Rattle.op_mirror.specs.Mirrors.{known_mirror};

use op_memory::MemDisk;
use op_mirror::Mirror;
use op_outside::{Disk, DiskFail};

/// A mirror of two disks in memory.
#[derive(Drop)]
pub struct MemMirror {
    /// The mirror, which does all.
    pub mirror: Mirror<MemDisk>,
}

/// Each call is the mirror's. A stop of the second copy in a call that both are called in is one of the first
/// one too.
impl Disk for MemMirror {
    ghost state = { λ m. known_mirror known_disk m.mirror };

    fn faults(&self) -> u64 {
        self.mirror.faults()
    }

    /// Its length in bytes.
    fn len(&mut self) -> Result<u64, DiskFail> {
        self.mirror.len()
    }

    fn read(&mut self, at: u64, buf: &mut [u8]) -> Result<(), DiskFail> {
        self.mirror.read(at, buf)
    }

    fn write_at(&mut self, at: u64, bytes: &[u8]) -> Result<(), DiskFail> {
        self.brace();
        self.mirror.write_at(at, bytes)
    }

    fn cut(&mut self, len: u64) -> Result<(), DiskFail> {
        self.brace();
        self.mirror.cut(len)
    }

    fn sync(&mut self) -> Result<(), DiskFail> {
        self.brace();
        self.mirror.sync()
    }
}
