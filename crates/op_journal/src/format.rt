//! An area is begun, in three parts: its gate is closed, all after the gate is written, and the gate is
//! opened.
ghost use Rattle.std.specs.Prelude.{◌≡◌, ◌<◌, ◌≤◌, ◌+◌, ℕ, length, true, IfOk, OnOk};
ghost use Rattle.op_outside.specs.Disks.{disk_end, Called, Costs};
ghost use Rattle.op_journal.specs.Areas.{IsGeneration, IsNextGate, header_len};
ghost use Rattle.op_journal.specs.Rows.{IsClosed};
ghost use Rattle.op_journal.specs.Beginnings.{IsFormattable, IsOldOrNone, OpensGate, Formats};
ghost use Rattle.op_journal.specs.Calls.{format_calls};
ghost use Rattle.op_journal.specs.Failing.{TellsFault};

use crate::fail::{DiskFault, fault_of};
use crate::framed::Framed;
use crate::journal::Journal;
use crate::reading::{CLOSED, OPEN};
use crate::synced::write_synced;
use op_outside::Disk;

impl Journal {
    /// Begins an area of one record on a disk, in place of what it held, and gives the byte offset of the
    /// closed gate after the record. The gate is closed first, unless a closed one stands before more bytes,
    /// as `is_closed` says: without it, older bytes could be taken for an area. It fails where a call of the
    /// disk does, with its count of faults.
    pub fn format<D: Disk>(
        disk: &mut D,
        is_closed: bool,
        generation: u64,
        framed: Framed,
    ) -> Result<u64, DiskFault>
        requires known { IsGeneration generation }
        ensures formats { IsFormattable (D.state disk.old).content is_closed →
            Formats generation framed (D.state disk.old) (D.state disk.new) result }
        ensures calls { Costs (format_calls is_closed) (D.state disk.old) (D.state disk.new) result }
        ensures end { IfOk result (IsNextGate header_len framed) }
        ensures told { TellsFault (D.state disk.old) (D.state disk.new) result }
        ensures called { Called (D.state disk.old) (D.state disk.new) }
    {
        let bytes = framed.into_area(generation);
        begin_area(disk, is_closed, &bytes)?;
        Ok(bytes.len() as u64)
    }
}

/// Closes the gate of a disk, unless it is closed, writes all that is to stand after it, and opens it.
fn begin_area<D: Disk>(disk: &mut D, is_closed: bool, bytes: &[u8]) -> Result<(), DiskFault>
    ensures opens_gate { IsFormattable (D.state disk.old).content is_closed →
        OpensGate (IsOldOrNone (D.state disk.old).content) bytes.now
        (D.state disk.old) (D.state disk.new) result }
    ensures calls { Costs (format_calls is_closed) (D.state disk.old) (D.state disk.new) result }
    ensures room { OnOk result (1 + length bytes.now ≤ disk_end) }
    ensures told { TellsFault (D.state disk.old) (D.state disk.new) result }
    ensures called { Called (D.state disk.old) (D.state disk.new) }
{
    if is_closed {
        return write_area(disk, bytes);
    }
    write_synced(disk, 0, &[CLOSED])?;
    write_area(disk, bytes)
}

/// Writes all that is to stand after a closed gate, and opens it.
fn write_area<D: Disk>(disk: &mut D, bytes: &[u8]) -> Result<(), DiskFault>
    ensures opens_gate { IsClosed (D.state disk.old).content →
        OpensGate IsClosed bytes.now (D.state disk.old) (D.state disk.new) result }
    ensures calls { Costs (format_calls true) (D.state disk.old) (D.state disk.new) result }
    ensures room { OnOk result (1 + length bytes.now ≤ disk_end) }
    ensures told { TellsFault (D.state disk.old) (D.state disk.new) result }
    ensures called { Called (D.state disk.old) (D.state disk.new) }
{
    let Ok(()) = disk.cut(1) else {
        return Err(fault_of(disk));
    };
    write_synced(disk, 1, bytes)?;
    write_synced(disk, 0, &[OPEN])
}
