//! A node's folder says whose it is, and whether its node has begun.
ghost use Rattle.std.specs.Prelude.{◌≡◌, ◌≤◌, ◌↔◌, take, length, IfOk, IfErr, IsTrue};
ghost use Rattle.op_serve.specs.Folders.{
  AreaLooks,
  AreasLook,
  Claims,
  HasAreas,
  HasText,
  IsMarking,
  Looks,
  MayBegin,
  ReadsIll,
  SaysTo,
  marking_of,
  most_text,
};

use crate::claim::Claim;
use crate::node_disks::NodeDisks;
use op_outside::{Disk, DiskFail};
use op_setup::{BEGUN_LINE, ClusterName, Identity, Settings, identity_of};
use op_status::Status;
use op_types::Pid;

/// How many bytes of a folder's text are read at most: its line is shorter.
const MOST_TEXT: usize = 128;

/// The first byte of an area that isn't closed.
const OPEN_GATE: u8 = 0xA5;

/// Whether the node of this id may begin on these disks, and where its folder is to be told that it has, if
/// it isn't yet. The status tells why it may not.
pub(crate) fn may_begin<D: Disk>(
    id: Pid,
    settings: &Settings,
    disks: &mut NodeDisks<D>,
) -> Result<Option<u64>, Status>
    ensures { MayBegin D.Disk id settings.now disks.old disks.new result }
{
    let Some(name) = &settings.cluster else {
        return Ok(None);
    };
    let claim = match asked(id, name.as_slice(), &mut disks.identity) {
        Ok(claim) => claim,
        Err(DiskFail) => return Err(Status::DiskFault),
    };
    match claim {
        Claim::Nobodys => Err(Status::NoIdentity),
        Claim::Others(id, name) => Err(Status::OtherIdentity { id, name }),
        Claim::New(at) => Ok(Some(at)),
        Claim::Begun => has_areas(settings.is_mirrored, disks),
    }
}

/// What the folder's text says to the node of this id, of the cluster of this name.
fn asked<D: Disk>(id: Pid, name: &[u8], disk: &mut D) -> Result<Claim, DiskFail>
    ensures { Claims id name.now (D.state disk.old) (D.state disk.new) result }
{
    let mut buf = [0; MOST_TEXT];
    match read_start(disk, &mut buf) {
        Ok(len) => Ok(claim_of(id, name, &buf[..len])),
        Err(DiskFail) => Err(DiskFail),
    }
}

/// What a text says to a node.
fn claim_of(id: Pid, name: &[u8], text: &[u8]) -> Claim
    requires { length text.now ≤ most_text }
    ensures { SaysTo id name.now text.now result }
{
    let Some(found) = identity_of(text) else {
        return Claim::Nobodys;
    };
    if !names(&found, id, name) {
        return Claim::Others(found.id, ClusterName::new(found.name));
    }
    if found.after.is_empty() {
        Claim::New(text.len() as u64)
    } else {
        Claim::Begun
    }
}

/// Whether this is the node of this id, of the cluster of this name.
fn names(found: &Identity, id: Pid, name: &[u8]) -> bool
    ensures { IsTrue result ↔ ((found.now.id ≡ id) × (found.now.name.now ≡ name.now)) }
{
    found.id == id && found.name == name
}

/// Reads the first bytes of a disk, as many as the buffer holds at most, and gives how many.
fn read_start<D: Disk>(disk: &mut D, buf: &mut [u8; MOST_TEXT]) -> Result<usize, DiskFail>
    ensures most { IfOk result (λ n. n ≤ most_text) }
    ensures read { IfOk result (λ n. HasText (take n buf.new) (D.state disk.old) (D.state disk.new)) }
    ensures failed { IfErr result (λ _. ReadsIll (D.state disk.old) (D.state disk.new)) }
{
    let len = match disk.len() {
        Ok(len) => len.min(MOST_TEXT as u64) as usize,
        Err(DiskFail) => return Err(DiskFail),
    };
    match disk.read(0, &mut buf[..len]) {
        Ok(()) => Ok(len),
        Err(DiskFail) => Err(DiskFail),
    }
}

/// No place where the folder is to be told, if the areas of a node that has begun store something.
fn has_areas<D: Disk>(is_mirrored: bool, disks: &mut NodeDisks<D>) -> Result<Option<u64>, Status>
    ensures { HasAreas D.Disk is_mirrored disks.old disks.new result }
{
    match store_nothing(is_mirrored, disks) {
        Ok(is_nothing) => {
            if is_nothing {
                Err(Status::NoIdentity)
            } else {
                Ok(None)
            }
        }
        Err(DiskFail) => Err(Status::DiskFault),
    }
}

/// Whether both areas store nothing.
fn store_nothing<D: Disk>(is_mirrored: bool, disks: &mut NodeDisks<D>) -> Result<bool, DiskFail>
    ensures { AreasLook D.Disk is_mirrored disks.old disks.new result }
{
    match stores_nothing(is_mirrored, &mut disks.first, &mut disks.first_copy) {
        Ok(is_nothing) => {
            if !is_nothing {
                return Ok(false);
            }
            stores_nothing(is_mirrored, &mut disks.second, &mut disks.second_copy)
        }
        Err(DiskFail) => Err(DiskFail),
    }
}

/// Whether an area stores nothing, by its first copy or, of a mirrored node, by the second one where the
/// first one fails.
fn stores_nothing<D: Disk>(is_mirrored: bool, first: &mut D, copy: &mut D) -> Result<bool, DiskFail>
    ensures { AreaLooks D.Disk is_mirrored first.old copy.old first.new copy.new result }
{
    if !is_mirrored {
        return is_empty(first);
    }
    match is_empty(first) {
        Ok(is_nothing) => Ok(is_nothing),
        Err(DiskFail) => is_empty(copy),
    }
}

/// Whether there is no area on a disk.
fn is_empty<D: Disk>(disk: &mut D) -> Result<bool, DiskFail>
    ensures { Looks (D.state disk.old) (D.state disk.new) result }
{
    let len = match disk.len() {
        Ok(len) => len,
        Err(DiskFail) => return Err(DiskFail),
    };
    if len <= 1 {
        return Ok(true);
    }
    let mut first = [0; 1];
    match disk.read(0, &mut first) {
        Ok(()) => Ok(first[0] != OPEN_GATE),
        Err(DiskFail) => Err(DiskFail),
    }
}

/// Tells the folder that the node has begun, at this byte offset, if that is to be told.
pub(crate) fn mark<D: Disk>(begins_at: Option<u64>, identity: &mut D) -> Result<(), DiskFail>
    ensures { IsMarking D.state begins_at identity.old identity.new (marking_of result) }
{
    let Some(at) = begins_at else {
        return Ok(());
    };
    match identity.write_at(at, &BEGUN_LINE) {
        Ok(()) => identity.sync(),
        Err(DiskFail) => Err(DiskFail),
    }
}
