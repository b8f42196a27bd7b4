//! Openings that stop in a call of a disk, and what the next one then finds: an area that is begun, one that
//! is cut, and one of the first version that is carried over.

use crate::areas::{CLOSED, END, FIRST, NOW, OLD, Pair, RECORD, SECOND, STEP, THIRD};
use crate::stores::{Finds, disks, opened};
use op_memory::MemDisk;
use op_store::StoreFail;
use std::alloc::{AllocError, Global};
use std::test::Fail;

/// What both disks hold, whether the second one stops, and in which call.
type Stop = (Pair, bool, u64);

/// A stop, the images of both disks, and what their opening finds.
type Row = (Stop, (u8, u8), Finds);

/// No area.
const EMPTY: Pair = (&[], &[]);

/// An older area behind a closed gate.
const OLDER: Pair = (&[END, NOW, FIRST, RECORD, STEP, END], &[]);

/// Two calls read an empty disk, and seven begin an area, the last two of which open its gate; three read a
/// disk of which more stands behind a closed gate, and then five begin one. Where the gate is open, the fresh
/// state is there.
const BEGINNINGS: [Row; 14] = [
    ((EMPTY, false, 1), (0, 0), Finds::Nothing),
    ((EMPTY, false, 3), (0xA5, 0), Finds::Nothing),
    ((EMPTY, false, 5), (0xA5, 0), Finds::Nothing),
    ((EMPTY, false, 7), (1, 0), Finds::Nothing),
    ((EMPTY, false, 8), (0, 0), Finds::Nothing),
    ((EMPTY, false, 8), (0x37, 0), Finds::Nothing),
    ((EMPTY, false, 8), (1, 0), Finds::Fresh),
    ((EMPTY, false, 9), (0, 0), Finds::Nothing),
    ((EMPTY, false, 9), (0xA5, 0), Finds::Fresh),
    ((OLDER, false, 4), (0xA5, 0), Finds::Nothing),
    ((OLDER, false, 6), (1, 0), Finds::Nothing),
    ((OLDER, false, 7), (0xA5, 0), Finds::Fresh),
    ((OLDER, false, 8), (0, 0), Finds::Nothing),
    ((OLDER, false, 8), (1, 0), Finds::Fresh),
];

/// Areas of generations 1 and 2, each with more bytes behind it: the second one's are cut.
const LONGER: Pair = (
    &[NOW, FIRST, RECORD, END, b"fives"],
    &[NOW, SECOND, RECORD, STEP, END, b"sixes"],
);

/// Three calls read a disk, and two more cut what lies behind the area that is chosen.
const CUTS: [Row; 4] = [
    ((LONGER, false, 3), (0, 0), Finds::Decided(1)),
    ((LONGER, true, 1), (1, 1), Finds::Decided(1)),
    ((LONGER, true, 4), (0, 0xA5), Finds::Decided(1)),
    ((LONGER, true, 5), (0, 0x37), Finds::Decided(1)),
];

/// An area of the first version, with more bytes behind it, and nothing on the second disk, an earlier area,
/// or a later one behind a closed gate.
const ALONE: Pair = (&[OLD, SECOND, RECORD, STEP, END, b"more"], &[]);

const EARLIER: Pair = (
    &[OLD, SECOND, RECORD, STEP, END, b"more"],
    &[NOW, FIRST, RECORD, END],
);

const SHUT: Pair = (
    &[OLD, SECOND, RECORD, STEP, END, b"more"],
    &[CLOSED, THIRD, RECORD, STEP, END],
);

/// Its own disk is read and cut by five calls, and the other one is read, and an area is begun, by nine, ten
/// or eight. Whatever is left is opened with the same state.
const CARRYINGS: [Row; 13] = [
    ((ALONE, false, 1), (0, 0), Finds::Decided(1)),
    ((ALONE, false, 4), (0xA5, 1), Finds::Decided(1)),
    ((ALONE, false, 5), (1, 0x37), Finds::Decided(1)),
    ((ALONE, true, 1), (0, 0), Finds::Decided(1)),
    ((ALONE, true, 3), (0, 0xA5), Finds::Decided(1)),
    ((ALONE, true, 6), (1, 1), Finds::Decided(1)),
    ((ALONE, true, 8), (0, 0xA5), Finds::Decided(1)),
    ((ALONE, true, 9), (0x37, 0), Finds::Decided(1)),
    ((ALONE, true, 9), (1, 1), Finds::Decided(1)),
    ((EARLIER, true, 5), (0, 0xA5), Finds::Decided(1)),
    ((EARLIER, true, 10), (1, 1), Finds::Decided(1)),
    ((SHUT, true, 7), (0, 0xA5), Finds::Decided(1)),
    ((SHUT, true, 8), (1, 2), Finds::Decided(1)),
];

/// The opening that stops tells one fault.
const STOPPED: Finds = Finds::Refused(StoreFail::DiskFault { count: 1 });

/// What an opening finds that stops so, and the disks then.
fn stopped(alloc: Global, stop: &Stop) -> Result<(Finds, MemDisk, MemDisk), AllocError> {
    let (pair, is_second, call) = stop;
    let (mut first, mut second) = disks(alloc, pair)?;
    if *is_second {
        second.stop_at(*call);
    } else {
        first.stop_at(*call);
    }
    Ok(opened(alloc, (first, second)))
}

/// A disk that holds the image of this number.
fn image(alloc: Global, disk: &MemDisk, number: u8) -> Result<MemDisk, AllocError> {
    MemDisk::new(alloc, disk.image(number)?)
}

/// Whether an opening stops so, and these images are then opened with that.
fn goes(alloc: Global, row: &Row) -> Result<bool, AllocError> {
    let (stop, images, finds) = row;
    let (told, first, second) = stopped(alloc, stop)?;
    let left = (
        image(alloc, &first, images.0)?,
        image(alloc, &second, images.1)?,
    );
    let (found, _, _) = opened(alloc, left);
    Ok(told == STOPPED && found == *finds)
}

/// The first of these rows that goes otherwise.
fn first_wrong(alloc: Global, rows: &[Row]) -> Result<Option<usize>, AllocError> {
    for (place, row) in rows.iter().enumerate() {
        if !goes(alloc, row)? {
            return Ok(Some(place));
        }
    }
    Ok(None)
}

#[test]
fn a_stopped_opening_leaves_one_whole_state(rt: HostRuntime) -> Result<(), Fail> {
    assert_eq!(rt; first_wrong(rt.alloc(), &BEGINNINGS)?, None);
    assert_eq!(rt; first_wrong(rt.alloc(), &CUTS)?, None);
    assert_eq!(rt; first_wrong(rt.alloc(), &CARRYINGS)?, None);
    Ok(())
}
