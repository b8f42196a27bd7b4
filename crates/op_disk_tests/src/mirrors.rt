//! A mirror of two disks in memory: what its opening makes of copies that differ, by which calls, and where
//! one copy fails.

use op_memory::MemDisk;
use op_mirror::{Mirror, OpenCause};
use std::alloc::{AllocError, Global};
use std::test::Fail;

/// A disk with these bytes, which fails at this call and at each later one, unless that is 0.
fn copy(alloc: Global, bytes: &[u8], stop: u64) -> Result<MemDisk, AllocError> {
    let bytes = Vec::from_slice(alloc, bytes)?;
    let mut disk = MemDisk::new(alloc, bytes)?;
    if stop != 0 {
        disk.stop_at(stop);
    }
    Ok(disk)
}

/// What an opening leaves of a copy: whether it lives, how many calls were made of it, and its bytes.
type Left<'a> = (bool, u64, &'a [u8]);

fn is_left(disk: &MemDisk, lives: bool, left: Left) -> bool {
    lives == left.0 && disk.calls() == left.1 && disk.bytes() == left.2
}

/// What a copy holds, and the call in which it stops, unless that is 0.
type Held = (&'static [u8], u64);

/// Both copies, and what an opening leaves of each.
type Row = (Held, Held, Left<'static>, Left<'static>);

/// Both copies.
fn copies(alloc: Global, first: &Held, second: &Held) -> Result<(MemDisk, MemDisk), AllocError> {
    let first = copy(alloc, first.0, first.1)?;
    Ok((first, copy(alloc, second.0, second.1)?))
}

/// Whether an opening leaves these copies so.
fn are_left(alloc: Global, copies: (MemDisk, MemDisk), row: &Row) -> bool {
    match Mirror::open(alloc, copies.0, copies.1) {
        Ok(mirror) => {
            let (first, second, halves) = mirror.apart();
            is_left(&first, halves.has_first(), row.2)
                && is_left(&second, halves.has_second(), row.3)
        }
        Err(fail) => {
            fail.cause == OpenCause::DiskFail
                && is_left(&fail.first, false, row.2)
                && is_left(&fail.second, false, row.3)
        }
    }
}

/// The first copy is synced, its length is asked, and it is read where it has a byte.
const EQUAL: [Row; 7] = [
    // Of the second one the length is asked, and it is synced.
    ((b"", 0), (b"", 0), (true, 2, b""), (true, 2, b"")),
    (
        (b"abcd", 0),
        (b"abcd", 0),
        (true, 3, b"abcd"),
        (true, 3, b"abcd"),
    ),
    // It lacks all, or the rest: one write.
    (
        (b"abcd", 0),
        (b"", 0),
        (true, 3, b"abcd"),
        (true, 3, b"abcd"),
    ),
    (
        (b"abcd", 0),
        (b"ab", 0),
        (true, 3, b"abcd"),
        (true, 4, b"abcd"),
    ),
    // One write for each run that differs.
    (
        (b"abcdef", 0),
        (b"abXdYZ", 0),
        (true, 3, b"abcdef"),
        (true, 5, b"abcdef"),
    ),
    // It is longer: a cut.
    (
        (b"abc", 0),
        (b"abcdef", 0),
        (true, 3, b"abc"),
        (true, 4, b"abc"),
    ),
    ((b"", 0), (b"abc", 0), (true, 2, b""), (true, 3, b"")),
];

/// Copies that differ.
const ONE: &[u8] = b"abcd";

const TWO: &[u8] = b"aXcY";

/// A copy that fails in an opening is out.
const FAILING: [Row; 10] = [
    // Once the first copy has failed only the second one's sync is left.
    ((ONE, 1), (TWO, 0), (false, 1, ONE), (true, 1, TWO)),
    ((ONE, 2), (TWO, 0), (false, 2, ONE), (true, 1, TWO)),
    ((ONE, 3), (TWO, 0), (false, 3, ONE), (true, 2, TWO)),
    // Once the second one has failed nothing is left.
    ((ONE, 0), (TWO, 1), (true, 2, ONE), (false, 1, TWO)),
    ((ONE, 0), (TWO, 2), (true, 3, ONE), (false, 2, TWO)),
    ((ONE, 0), (TWO, 3), (true, 3, ONE), (false, 3, TWO)),
    ((ONE, 0), (TWO, 4), (true, 3, ONE), (false, 4, b"abcY")),
    ((ONE, 0), (TWO, 5), (true, 3, ONE), (false, 5, ONE)),
    // Both fail.
    ((ONE, 1), (TWO, 1), (false, 1, ONE), (false, 1, TWO)),
    ((ONE, 3), (TWO, 2), (false, 3, ONE), (false, 2, TWO)),
];

/// The first of these rows that goes otherwise.
fn first_wrong(alloc: Global, rows: &[Row]) -> Result<Option<usize>, AllocError> {
    for (place, row) in rows.iter().enumerate() {
        if !are_left(alloc, copies(alloc, &row.0, &row.1)?, row) {
            return Ok(Some(place));
        }
    }
    Ok(None)
}

#[test]
fn an_opening_makes_the_second_copy_equal(rt: HostRuntime) -> Result<(), Fail> {
    assert_eq!(rt; first_wrong(rt.alloc(), &EQUAL)?, None);
    Ok(())
}

#[test]
fn a_copy_that_fails_in_an_opening_is_out(rt: HostRuntime) -> Result<(), Fail> {
    assert_eq!(rt; first_wrong(rt.alloc(), &FAILING)?, None);
    Ok(())
}
