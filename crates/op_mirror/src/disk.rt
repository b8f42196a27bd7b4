use crate::gone::{asks_second, gone_after, gone_after_read, has_first, has_second, is_read_ok};
use crate::mirror::Mirror;
use crate::trying::{try_cut, try_len, try_read, try_sync, try_write};
use op_outside::{Disk, DiskFail};

/// A write, a cut and a sync are made on the first copy and then on the second. A read and the length come
/// from the first copy that lives. A copy in which a call fails is out, and the call goes on with the other
/// one.
impl<D: Disk> Disk for Mirror<D> {
    ghost use Rattle.std.specs.Prelude.{◌≡◌, ◌≤◌, ◌+◌, length, IfOk, OnOk};
    ghost use Rattle.op_outside.specs.Disks.{disk_end, Does, Costs, IsLengthOf, IsSound, IsSynced, Reads, Pends, Settles};
    ghost use Rattle.op_outside.specs.Disks.Edit.{Nothing, Write, Cut};
    ghost use Rattle.op_mirror.specs.Crashes.{LeavesAllMixes};
    ghost use Rattle.op_mirror.specs.Mirrors.{known_mirror};
    ghost use Rattle.op_mirror.specs.Risings.{HasRisen};
    ghost use Rattle.op_mirror.specs.Takes.{TakesOut};

    ghost state = { λ m. known_mirror D.state m };

    /// How often a call found no copy that lives, or lost the last one.
    fn faults(&self) -> u64
        ensures count { result ≡ (known_mirror D.state self.now).faults }
        ensures sound { (known_mirror D.state self.now).obeys → IsSound (known_mirror D.state self.now) }

        ensures mixes { LeavesAllMixes D.state self.now }
        ensures marks { HasRisen D.state self.now }
    {
        let _first = self.first.faults();
        let _second = self.second.faults();
        self.faults
    }

    /// Its length in bytes.
    fn len(&mut self) -> Result<u64, DiskFail>
        ensures does { Does Nothing (known_mirror D.state self.old) (known_mirror D.state self.new) result }
        ensures calls { Costs 1 (known_mirror D.state self.old) (known_mirror D.state self.new) result }
        ensures pends { Pends Nothing (known_mirror D.state self.old) (known_mirror D.state self.new) result }
        ensures length { IfOk result (IsLengthOf (known_mirror D.state self.old)) }

        ensures out { TakesOut D.state self.old self.new result }
    {
        let first = try_len(&mut self.first, has_first(self.gone, self.is_dead));
        let is_first = first.is_some();
        let second = try_len(
            &mut self.second,
            asks_second(self.gone, self.is_dead, is_first),
        );
        self.calls = self.calls.saturating_add(1);
        self.gone = gone_after_read(self.gone, is_first);
        if let Some(len) = first {
            return Ok(len);
        }
        if let Some(len) = second {
            return Ok(len);
        }
        self.is_dead = true;
        self.faults = self.faults.saturating_add(1);
        Err(DiskFail)
    }

    fn read(&mut self, at: u64, buf: &mut [u8]) -> Result<(), DiskFail>
        ensures does { Does Nothing (known_mirror D.state self.old) (known_mirror D.state self.new) result }
        ensures calls { Costs 1 (known_mirror D.state self.old) (known_mirror D.state self.new) result }
        ensures pends { Pends Nothing (known_mirror D.state self.old) (known_mirror D.state self.new) result }
        ensures bytes { OnOk result (Reads (known_mirror D.state self.old) at (length buf.old) buf.new) }

        ensures out { TakesOut D.state self.old self.new result }
    {
        let first = try_read(&mut self.first, has_first(self.gone, self.is_dead), at, buf);
        let second = try_read(
            &mut self.second,
            asks_second(self.gone, self.is_dead, first),
            at,
            buf,
        );
        self.calls = self.calls.saturating_add(1);
        self.gone = gone_after_read(self.gone, first);
        if is_read_ok(self.gone, first, second) {
            return Ok(());
        }
        self.is_dead = true;
        self.faults = self.faults.saturating_add(1);
        Err(DiskFail)
    }

    fn write_at(&mut self, at: u64, bytes: &[u8]) -> Result<(), DiskFail>
        ensures does { Does (Write at bytes.now)
            (known_mirror D.state self.old) (known_mirror D.state self.new) result }
        ensures calls { Costs 1 (known_mirror D.state self.old) (known_mirror D.state self.new) result }
        ensures pends { Pends (Write at bytes.now)
            (known_mirror D.state self.old) (known_mirror D.state self.new) result }
        ensures room { OnOk result (at + length bytes.now ≤ disk_end) }

        ensures out { TakesOut D.state self.old self.new result }
    {
        let first = try_write(
            &mut self.first,
            has_first(self.gone, self.is_dead),
            at,
            bytes,
        );
        let second = try_write(
            &mut self.second,
            has_second(self.gone, self.is_dead),
            at,
            bytes,
        );
        self.calls = self.calls.saturating_add(1);
        self.gone = gone_after(self.gone, first, second);
        let is_done = is_read_ok(self.gone, first, second);
        if is_done {
            return Ok(());
        }
        self.is_dead = true;
        self.faults = self.faults.saturating_add(1);
        Err(DiskFail)
    }

    fn cut(&mut self, len: u64) -> Result<(), DiskFail>
        ensures does { Does (Cut len) (known_mirror D.state self.old) (known_mirror D.state self.new) result }
        ensures calls { Costs 1 (known_mirror D.state self.old) (known_mirror D.state self.new) result }
        ensures pends { Pends (Cut len)
            (known_mirror D.state self.old) (known_mirror D.state self.new) result }

        ensures out { TakesOut D.state self.old self.new result }
    {
        let first = try_cut(&mut self.first, has_first(self.gone, self.is_dead), len);
        let second = try_cut(&mut self.second, has_second(self.gone, self.is_dead), len);
        self.calls = self.calls.saturating_add(1);
        self.gone = gone_after(self.gone, first, second);
        if is_read_ok(self.gone, first, second) {
            return Ok(());
        }
        self.is_dead = true;
        self.faults = self.faults.saturating_add(1);
        Err(DiskFail)
    }

    fn sync(&mut self) -> Result<(), DiskFail>
        ensures does { Does Nothing (known_mirror D.state self.old) (known_mirror D.state self.new) result }
        ensures calls { Costs 1 (known_mirror D.state self.old) (known_mirror D.state self.new) result }
        ensures synced { OnOk result (IsSynced (known_mirror D.state self.new)) }
        ensures settles { Settles (known_mirror D.state self.old) (known_mirror D.state self.new) result }

        ensures out { TakesOut D.state self.old self.new result }
    {
        let first = try_sync(&mut self.first, has_first(self.gone, self.is_dead));
        let second = try_sync(&mut self.second, has_second(self.gone, self.is_dead));
        self.calls = self.calls.saturating_add(1);
        self.gone = gone_after(self.gone, first, second);
        if is_read_ok(self.gone, first, second) {
            return Ok(());
        }
        self.is_dead = true;
        self.faults = self.faults.saturating_add(1);
        Err(DiskFail)
    }
}
