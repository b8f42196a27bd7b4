//! Disks in memory that share a power switch, and whether the same is pending of them.

use op_memory::{MemDisk, Power};
use op_outside::Disk;
use std::alloc::{AllocError, Global};
use std::test::Fail;

/// A disk that holds `ab`, shares this switch, and stops in this call, unless that is 0.
fn disk(alloc: Global, power: &Power, stop: u64) -> Result<MemDisk, AllocError> {
    let mut disk = MemDisk::new(alloc, Vec::from_slice(alloc, b"ab")?)?;
    disk.share_power(power.share()?);
    if stop != 0 {
        disk.stop_at(stop);
    }
    Ok(disk)
}

/// Appends a byte; whether that is done.
fn is_appended(disk: &mut MemDisk, byte: u8) -> bool {
    let end = disk.bytes().len() as u64;
    disk.write_at(end, &[byte]).is_ok()
}

/// What is left of a disk: how often it failed, and its image with and without the call in which it stopped.
type Left<'a> = (u64, &'a [u8], &'a [u8]);

fn is_left(disk: &MemDisk, left: Left) -> Result<bool, AllocError> {
    let (faults, whole, before) = left;
    Ok(
        disk.faults() == faults
            && disk.image(1)?.as_slice() == whole
            && disk.image_before(1)?.as_slice() == before,
    )
}

/// Appends three bytes to each of two disks in turn.
fn append_to_both(first: &mut MemDisk, second: &mut MemDisk) {
    for byte in *b"cde" {
        let _ = is_appended(first, byte);
        let _ = is_appended(second, byte);
    }
}

/// The calls in which two disks stop, unless they are 0, what is left of each, and whether the same is
/// pending of both.
type Row = ((u64, u64), Left<'static>, Left<'static>, bool);

const ROWS: [Row; 4] = [
    (
        (0, 0),
        (0, b"abcde", b"abcde"),
        (0, b"abcde", b"abcde"),
        true,
    ),
    // The other one stops in its next call.
    ((2, 0), (2, b"abcd", b"abc"), (2, b"abcd", b"abc"), true),
    ((0, 2), (1, b"abcde", b"abcd"), (2, b"abcd", b"abc"), false),
    ((1, 3), (3, b"abc", b"ab"), (3, b"abc", b"ab"), true),
];

/// Two disks that share this switch, and stop in these calls.
fn pair(
    alloc: Global,
    power: &Power,
    stops: &(u64, u64),
) -> Result<(MemDisk, MemDisk), AllocError> {
    let first = disk(alloc, power, stops.0)?;
    Ok((first, disk(alloc, power, stops.1)?))
}

/// Whether two disks are left so.
fn are_left(first: &MemDisk, second: &MemDisk, row: &Row) -> Result<bool, AllocError> {
    Ok(is_left(first, row.1)? && is_left(second, row.2)? && first.pends_as(second)? == row.3)
}

/// Whether a disk that is told nothing any more runs again.
fn runs_again(disk: &mut MemDisk) -> bool {
    disk.clear_script();
    disk.sync().is_ok()
}

/// Whether two disks that share this switch and get the same three bytes in turn are left so, and run again.
fn stop_so(alloc: Global, power: &Power, row: &Row) -> Result<bool, AllocError> {
    let (mut first, mut second) = pair(alloc, power, &row.0)?;
    append_to_both(&mut first, &mut second);
    let are_left = are_left(&first, &second, row);
    let run = runs_again(&mut first) && runs_again(&mut second);
    Ok(are_left? && run)
}

/// The first of these rows that goes otherwise, or leaves the switch so.
fn first_wrong(alloc: Global, rows: &[Row]) -> Result<Option<usize>, AllocError> {
    for (place, row) in rows.iter().enumerate() {
        let power = Power::new(alloc)?;
        if !stop_so(alloc, &power, row)? || power.is_off() == (row.0 == (0, 0)) {
            return Ok(Some(place));
        }
    }
    Ok(None)
}

#[test]
fn a_stop_switches_the_other_disk_off(rt: HostRuntime) -> Result<(), Fail> {
    assert_eq!(rt; first_wrong(rt.alloc(), &ROWS)?, None);
    Ok(())
}
