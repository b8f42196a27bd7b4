ghost use Rattle.std.specs.Prelude.{◌≡◌, ◌≤◌, ◌+◌, true, false, length, is_some, IfSome};
ghost use Rattle.op_outside.specs.Disks.{disk_end, IsSynced, IsLengthOf, Reads};
ghost use Rattle.op_outside.specs.Disks.Edit.{Write, Cut, Nothing};
ghost use Rattle.op_mirror.specs.Tries.{Tries, PendsIf, SettlesIf};

use op_outside::Disk;

/// Writes to a copy that lives; whether that was done.
pub(crate) fn try_write<D: Disk>(disk: &mut D, lives: bool, at: u64, bytes: &[u8]) -> bool
    ensures tries { Tries D.state (Write at bytes.now) lives disk.old disk.new result }
    ensures pends { PendsIf D.state (Write at bytes.now) lives disk.old disk.new result }
    ensures room { result ≡ true → at + length bytes.now ≤ disk_end }
{
    if !lives {
        let _count = disk.faults();
        return false;
    }
    match disk.write_at(at, bytes) {
        Ok(()) => true,
        Err(_) => false,
    }
}

/// Cuts a copy that lives; whether that was done.
pub(crate) fn try_cut<D: Disk>(disk: &mut D, lives: bool, len: u64) -> bool
    ensures tries { Tries D.state (Cut len) lives disk.old disk.new result }
    ensures pends { PendsIf D.state (Cut len) lives disk.old disk.new result }
{
    if !lives {
        let _count = disk.faults();
        return false;
    }
    match disk.cut(len) {
        Ok(()) => true,
        Err(_) => false,
    }
}

/// Syncs a copy that lives; whether that was done.
pub(crate) fn try_sync<D: Disk>(disk: &mut D, lives: bool) -> bool
    ensures tries { Tries D.state Nothing lives disk.old disk.new result }
    ensures settles { SettlesIf D.state lives disk.old disk.new result }
    ensures synced { result ≡ true → IsSynced (D.state disk.new) }
{
    if !lives {
        let _count = disk.faults();
        return false;
    }
    match disk.sync() {
        Ok(()) => true,
        Err(_) => false,
    }
}

/// Reads from a copy that lives; whether that was done.
pub(crate) fn try_read<D: Disk>(disk: &mut D, lives: bool, at: u64, buf: &mut [u8]) -> bool
    ensures tries { Tries D.state Nothing lives disk.old disk.new result }
    ensures pends { PendsIf D.state Nothing lives disk.old disk.new result }
    ensures bytes { result ≡ true → Reads (D.state disk.old) at (length buf.old) buf.new }
    ensures size { length buf.new ≡ length buf.old }
    ensures kept { lives ≡ false → buf.new ≡ buf.old }
{
    if !lives {
        let _count = disk.faults();
        return false;
    }
    match disk.read(at, buf) {
        Ok(()) => true,
        Err(_) => false,
    }
}

/// The length of a copy that lives, if it tells it.
pub(crate) fn try_len<D: Disk>(disk: &mut D, lives: bool) -> Option<u64>
    ensures tries { Tries D.state Nothing lives disk.old disk.new (is_some result) }
    ensures pends { PendsIf D.state Nothing lives disk.old disk.new (is_some result) }
    ensures length { IfSome result (IsLengthOf (D.state disk.old)) }
{
    if !lives {
        let _count = disk.faults();
        return None;
    }
    match disk.len() {
        Ok(len) => Some(len),
        Err(_) => None,
    }
}
