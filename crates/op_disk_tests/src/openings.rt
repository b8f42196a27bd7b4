//! What openings find in areas that are new, of one version or the other, or not right, and what they leave
//! of them.

use crate::areas::{
    AFTER_STEP, BASE, CLOSE, CLOSED_NEWER, END, FIRST, FORGET_STEP, FRESH, JOIN_DONE, LAST,
    MANY_STEP, NEWER, NEXT_STEP, NONE, NOW, OLD, Pair, RECORD, SECOND, STEP, TEN_MEMBERS, THIRD,
    TRIM,
};
use crate::stores::{Finds, disks, has, opened};
use op_store::StoreFail;
use std::alloc::{AllocError, Global};
use std::test::Fail;

/// What both disks hold, what an opening finds, and what it leaves.
type Changed = (Pair, Finds, Pair);

/// What both disks hold and keep, and what an opening finds.
type Kept = (Pair, Finds);

/// The first area, just begun, on the first disk.
const BEGUN: Pair = (&[NOW, FIRST, FRESH, END], &[]);

/// An area is new while its first byte is no open gate, or nothing lies behind that.
const NEW: &[Changed] = &[
    ((&[], &[]), Finds::Nothing, BEGUN),
    ((&[&[0xA5]], &[]), Finds::Nothing, BEGUN),
    (
        (&[END, NOW, FIRST, RECORD, STEP, END], &[]),
        Finds::Nothing,
        BEGUN,
    ),
    (
        (&[b"\x37OMNIPAX\x02", FIRST, RECORD, END], &[]),
        Finds::Nothing,
        BEGUN,
    ),
];

/// Areas of the version of now.
const WHOLE: &[Kept] = &[
    ((&[NOW, FIRST, RECORD, STEP, END], &[]), Finds::Decided(1)),
    (
        (&[NOW, FIRST, RECORD, STEP, NEXT_STEP, END], &[]),
        Finds::Decided(2),
    ),
    ((&[NOW, FIRST, TEN_MEMBERS, END], &[]), Finds::Decided(0)),
    (
        (&[NOW, FIRST, RECORD, MANY_STEP, END], &[]),
        Finds::Decided(1),
    ),
    (
        (&[NOW, FIRST, RECORD, FORGET_STEP, END], &[]),
        Finds::Decided(1),
    ),
    // The area of the later generation is chosen.
    (
        (
            &[NOW, FIRST, RECORD, STEP, END],
            &[NOW, SECOND, RECORD, END],
        ),
        Finds::Decided(0),
    ),
    (
        (
            &[NOW, SECOND, RECORD, STEP, END],
            &[NOW, FIRST, RECORD, END],
        ),
        Finds::Decided(1),
    ),
    // Of two of one generation the first one is.
    (
        (&[NOW, FIRST, RECORD, END], &[NOW, FIRST, RECORD, STEP, END]),
        Finds::Decided(0),
    ),
    // There is one only.
    ((&[], &[NOW, FIRST, RECORD, STEP, END]), Finds::Decided(1)),
    (
        (&[END, RECORD], &[NOW, FIRST, RECORD, STEP, END]),
        Finds::Decided(1),
    ),
    (
        (&[NOW, FIRST, RECORD, STEP, END], &[END, RECORD]),
        Finds::Decided(1),
    ),
    // Records of an area that isn't chosen aren't looked at.
    (
        (&[NOW, FIRST, RECORD, STEP], &[NOW, SECOND, RECORD, END]),
        Finds::Decided(0),
    ),
    // One of the version of now is gone on with, also of the last generation.
    (
        (&[NOW, LAST, RECORD, STEP, END], &[OLD, FIRST, RECORD, END]),
        Finds::Decided(1),
    ),
];

/// What lies behind the closed gate of the area that is chosen is cut, and nothing else.
const CUT: &[Changed] = &[
    (
        (&[NOW, FIRST, RECORD, END, b"fives"], &[]),
        Finds::Decided(0),
        (&[NOW, FIRST, RECORD, END], &[]),
    ),
    (
        (
            &[NOW, FIRST, RECORD, END, b"fives"],
            &[NOW, SECOND, RECORD, END, b"sixes"],
        ),
        Finds::Decided(0),
        (
            &[NOW, FIRST, RECORD, END, b"fives"],
            &[NOW, SECOND, RECORD, END],
        ),
    ),
];

/// An area of the first version is carried over into the other one, and left as it is.
const CARRIED: &[Changed] = &[
    // The other disk is empty.
    (
        (&[OLD, FIRST, RECORD, END], &[]),
        Finds::Decided(0),
        (&[OLD, FIRST, RECORD, END], &[NOW, SECOND, RECORD, END]),
    ),
    // There stands an earlier area, and more bytes lie behind the one that is carried over.
    (
        (
            &[NOW, FIRST, RECORD, END],
            &[OLD, SECOND, RECORD, STEP, END, b"more"],
        ),
        Finds::Decided(1),
        (
            &[NOW, THIRD, AFTER_STEP, END],
            &[OLD, SECOND, RECORD, STEP, END],
        ),
    ),
];

/// Damage of the first area at its header, and at its first, second and third record.
const HEAD: Finds = Finds::Refused(StoreFail::Damaged { area: 0, at: 0 });

const FIRST_RECORD: Finds = Finds::Refused(StoreFail::Damaged { area: 0, at: 17 });

const SECOND_RECORD: Finds = Finds::Refused(StoreFail::Damaged { area: 0, at: 111 });

const THIRD_RECORD: Finds = Finds::Refused(StoreFail::Damaged { area: 0, at: 163 });

/// The same of the second area.
const OTHER_HEAD: Finds = Finds::Refused(StoreFail::Damaged { area: 1, at: 0 });

const OTHER_THIRD_RECORD: Finds = Finds::Refused(StoreFail::Damaged { area: 1, at: 163 });

/// An area of version 9, on either disk.
const NEWER_FIRST: Finds = Finds::Refused(StoreFail::NewerVersion {
    area: 0,
    version: 9,
});

const NEWER_SECOND: Finds = Finds::Refused(StoreFail::NewerVersion {
    area: 1,
    version: 9,
});

/// Behind an open gate no right header stands.
const HEADERS: &[Kept] = &[
    ((&[b"\xA5O"], &[]), HEAD),
    ((&[b"\xA5XMNIPAX\x02", FIRST, RECORD, END], &[]), HEAD),
    ((&[NONE, FIRST, RECORD, STEP, END], &[]), HEAD),
    // There is no generation 0.
    ((&[NOW, &[0, 0, 0, 0, 0, 0, 0, 0], RECORD, END], &[]), HEAD),
    // No record stands there, or one behind a closed gate.
    ((&[NOW, FIRST], &[]), HEAD),
    ((&[NOW, FIRST, END, b"more"], &[]), HEAD),
    // The first disk's header is looked at first, and then the second's.
    (
        (&[NONE, FIRST, RECORD, END], &[NOW, FIRST, RECORD, END]),
        HEAD,
    ),
    (
        (&[NONE, FIRST, RECORD, END], &[NONE, FIRST, RECORD, END]),
        HEAD,
    ),
    (
        (&[NOW, SECOND, RECORD, END], &[NONE, FIRST, RECORD, END]),
        OTHER_HEAD,
    ),
    (
        (&[NOW, SECOND, RECORD], &[NONE, FIRST, RECORD, END]),
        OTHER_HEAD,
    ),
    (
        (&[OLD, FIRST, RECORD, END], &[NONE, FIRST, RECORD, END]),
        OTHER_HEAD,
    ),
];

/// Records of the area that is chosen are not right.
const RECORDS: &[Kept] = &[
    // The first one is cut short, tells more bytes than there are, or is a batch.
    ((&[NOW, FIRST, &[0xA5, 0, 0, 0]], &[]), FIRST_RECORD),
    (
        (
            &[NOW, FIRST, &[0xA5, 1, 0, 0, 0, 0, 0, 0, 85], RECORD, END],
            &[],
        ),
        FIRST_RECORD,
    ),
    ((&[NOW, FIRST, STEP, END], &[]), FIRST_RECORD),
    // No gate stands behind it.
    ((&[NOW, FIRST, RECORD], &[]), SECOND_RECORD),
    ((&[NOW, FIRST, RECORD, &[0xA5]], &[]), SECOND_RECORD),
    // The second one has no change's tag, decides more than there is, or is a whole durable state.
    (
        (
            &[
                NOW,
                FIRST,
                RECORD,
                &[0xA5, 0, 0, 0, 0, 0, 0, 0, 3, 2, 1, 13],
                END,
            ],
            &[],
        ),
        SECOND_RECORD,
    ),
    ((&[NOW, FIRST, RECORD, NEXT_STEP, END], &[]), SECOND_RECORD),
    ((&[NOW, FIRST, RECORD, RECORD, END], &[]), SECOND_RECORD),
    // It trims what isn't decided, closes by a stop-sign that isn't decided, or ends a joining that isn't
    // there.
    ((&[NOW, FIRST, RECORD, TRIM, BASE, END], &[]), SECOND_RECORD),
    (
        (&[NOW, FIRST, RECORD, CLOSE, BASE, END], &[]),
        SECOND_RECORD,
    ),
    (
        (&[NOW, FIRST, RECORD, JOIN_DONE, BASE, END], &[]),
        SECOND_RECORD,
    ),
    (
        (&[NOW, FIRST, RECORD, STEP, CLOSE, BASE, END], &[]),
        THIRD_RECORD,
    ),
    // They are those of either area.
    (
        (&[NOW, FIRST, RECORD, END], &[NOW, SECOND, RECORD, STEP]),
        OTHER_THIRD_RECORD,
    ),
    (
        (&[NOW, SECOND, RECORD, STEP], &[NOW, FIRST, RECORD, END]),
        THIRD_RECORD,
    ),
];

/// The first version has nine members at most and no `many` and no `forget`, and of its last generation it
/// can't be carried over.
const FIRST_VERSION: &[Kept] = &[
    ((&[OLD, FIRST, TEN_MEMBERS, END], &[]), FIRST_RECORD),
    ((&[OLD, FIRST, RECORD, MANY_STEP, END], &[]), SECOND_RECORD),
    (
        (&[OLD, FIRST, RECORD, FORGET_STEP, END], &[]),
        SECOND_RECORD,
    ),
    ((&[OLD, LAST, RECORD, END], &[]), HEAD),
    ((&[OLD, LAST, &[0xA5, 1], RECORD, END], &[]), HEAD),
    (
        (&[OLD, SECOND, RECORD, END], &[OLD, LAST, RECORD, END]),
        OTHER_HEAD,
    ),
];

/// Later versions aren't read. The first disk is looked at first, whatever lies behind its version.
const LATER_VERSIONS: &[Kept] = &[
    ((&[NEWER, FIRST, RECORD, END], &[]), NEWER_FIRST),
    ((&[NEWER], &[NOW, FIRST, RECORD, END]), NEWER_FIRST),
    ((&[NEWER], &[NEWER]), NEWER_FIRST),
    ((&[NEWER], &[NONE, FIRST, RECORD, END]), NEWER_FIRST),
    ((&[NOW, FIRST, RECORD, END], &[NEWER, SECOND]), NEWER_SECOND),
    (
        (&[CLOSED_NEWER, FIRST, RECORD, END], &[NEWER]),
        NEWER_SECOND,
    ),
    ((&[NONE, FIRST, RECORD, END], &[NEWER]), HEAD),
];

/// Whether an opening of these disks finds this, and leaves that.
fn goes(alloc: Global, before: &Pair, finds: Finds, left: &Pair) -> Result<bool, AllocError> {
    let (found, first, second) = opened(alloc, disks(alloc, before)?);
    Ok(found == finds && has(&first, left.0) && has(&second, left.1))
}

/// The first of these rows that goes otherwise.
fn first_wrong(alloc: Global, rows: &[Changed]) -> Result<Option<usize>, AllocError> {
    for (place, (before, finds, left)) in rows.iter().enumerate() {
        if !goes(alloc, before, *finds, left)? {
            return Ok(Some(place));
        }
    }
    Ok(None)
}

#[test]
fn areas_are_begun_cut_or_carried_over(rt: HostRuntime) -> Result<(), Fail> {
    for rows in [NEW, CUT, CARRIED] {
        assert_eq!(rt; first_wrong(rt.alloc(), rows)?, None);
    }
    Ok(())
}

/// The first of these that goes otherwise, or is changed.
fn first_changed(alloc: Global, rows: &[Kept]) -> Result<Option<usize>, AllocError> {
    for (place, (before, finds)) in rows.iter().enumerate() {
        if !goes(alloc, before, *finds, before)? {
            return Ok(Some(place));
        }
    }
    Ok(None)
}

#[test]
fn areas_are_gone_on_with_or_refused(rt: HostRuntime) -> Result<(), Fail> {
    for rows in [WHOLE, HEADERS, RECORDS, FIRST_VERSION, LATER_VERSIONS] {
        assert_eq!(rt; first_changed(rt.alloc(), rows)?, None);
    }
    Ok(())
}
