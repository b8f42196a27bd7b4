//! Stops in a call of one copy of a mirrored area: both copies close, and are opened again as far as that
//! call had come.

use op_areas::{Area, Arming, CallAt, DiskPair, MemMirror, Opening, Stop};
use op_memory::Power;
use op_outside::Disk;
use op_types::NoMemory;
use std::alloc::Global;
use std::test::Fail;

/// An area that is opened on these copies.
fn opened(alloc: Global, copies: DiskPair) -> Result<MemMirror, NoMemory> {
    match MemMirror::open(alloc, copies)? {
        Opening::Opened(area) => Ok(area),
        Opening::Failed(_) => Err(NoMemory),
    }
}

/// Copies of an empty area that stopped in this call of one of them. It is asked for a write, a read, a sync,
/// a write and a cut; whether the sync was done.
fn stopped(alloc: Global, at: CallAt) -> Result<(DiskPair, bool), NoMemory> {
    let area = opened(alloc, MemMirror::empty(alloc)?)?;
    let power = Power::new(alloc)?;
    let mut area = area.armed(Arming::Stop {
        power,
        at: Some(at),
    })?;
    let _ = area.write_at(0, b"ab");
    let _ = area.read(0, &mut [0]);
    let is_synced = area.sync().is_ok();
    let _ = area.write_at(0, b"e");
    let _ = area.cut(1);
    Ok((area.close()?, is_synced))
}

/// What this stop and this image of it leave, opened again; and whether the sync was done.
fn reopened(alloc: Global, at: CallAt, image: u8) -> Result<(MemMirror, bool), NoMemory> {
    let (copies, is_synced) = stopped(alloc, at)?;
    let stop = Stop {
        image,
        copy: Some(at.copy),
        faults: 0,
    };
    let left = MemMirror::left(alloc, &copies, stop)?;
    Ok((opened(alloc, left)?, is_synced))
}

/// The length and the first byte, 0 if there is none.
fn first_of<D: Disk>(area: &mut D) -> (u64, u8) {
    let len = area.len().unwrap_or(u64::MAX);
    let mut byte = [0];
    let _ = area.read(0, &mut byte);
    (len, byte[0])
}

/// A copy, its call in which both stop, the image, and whether the sync was done, with the length and the
/// first byte then.
type Row = (u8, u8, u8, (bool, u64, u8));

const ROWS: [Row; 12] = [
    (0, 1, 0, (false, 0, 0)),
    (0, 1, 1, (false, 2, b'a')),
    (0, 3, 0, (false, 0, 0)),
    (0, 3, 1, (false, 2, b'a')),
    (1, 1, 0, (false, 0, 0)),
    (1, 1, 1, (false, 2, b'a')),
    // The first copy was synced.
    (1, 2, 0, (false, 2, b'a')),
    (1, 2, 7, (false, 2, b'a')),
    (1, 3, 0, (true, 2, b'a')),
    (1, 3, 1, (true, 2, b'e')),
    (1, 3, 7, (true, 2, 7)),
    (1, 4, 1, (true, 1, b'e')),
];

/// The first of these rows that goes otherwise.
fn first_wrong(alloc: Global, rows: &[Row]) -> Result<Option<usize>, NoMemory> {
    for (place, (copy, call, image, read)) in rows.iter().enumerate() {
        let at = CallAt {
            copy: *copy,
            call: *call,
        };
        let (mut area, is_synced) = reopened(alloc, at, *image)?;
        let (len, byte) = first_of(&mut area);
        if (is_synced, len, byte) != *read {
            return Ok(Some(place));
        }
    }
    Ok(None)
}

#[test]
fn a_stop_of_one_copy_stops_the_other(rt: HostRuntime) -> Result<(), Fail> {
    assert_eq!(rt; first_wrong(rt.alloc(), &ROWS)?, None);
    Ok(())
}
