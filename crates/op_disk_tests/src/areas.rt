//! Areas as bytes, laid by hand.

/// Parts of what a disk holds, one after the other.
pub type Parts = &'static [&'static [u8]];

/// The same of two disks.
pub type Pair = (Parts, Parts);

/// Headers up to their generation: of the version of now, of the first one, of one to come, and of one that
/// never was.
pub const NOW: &[u8] = b"\xA5OMNIPAX\x02";

pub const OLD: &[u8] = b"\xA5OMNIPAX\x01";

pub const NEWER: &[u8] = b"\xA5OMNIPAX\x09";

pub const NONE: &[u8] = b"\xA5OMNIPAX\x00";

/// Headers of the version of now and of one to come, behind a closed gate.
pub const CLOSED: &[u8] = b"\0OMNIPAX\x02";

pub const CLOSED_NEWER: &[u8] = b"\0OMNIPAX\x09";

/// Generations, and the last one.
pub const FIRST: &[u8] = &[0, 0, 0, 0, 0, 0, 0, 1];

pub const SECOND: &[u8] = &[0, 0, 0, 0, 0, 0, 0, 2];

pub const THIRD: &[u8] = &[0, 0, 0, 0, 0, 0, 0, 3];

pub const LAST: &[u8] = &[0x3F, 0xFF, 0xFF, 0xFF, 0xFF, 0xFF, 0xFF, 0xFF];

/// A closed gate.
pub const END: &[u8] = &[0];

/// The record of a fresh durable state: there is no part, and no closed and no joining configuration.
pub const FRESH: &[u8] = &[0xA5, 0, 0, 0, 0, 0, 0, 0, 4, 1, 0, 0, 0];

/// What the sole member 1 stores at first.
pub const RECORD: &[u8] = &[
    0xA5, 0, 0, 0, 0, 0, 0, 0, 85, // an open gate, and a body of 85 bytes
    1, 1, 0, 0, 0, 1, // a whole durable state, and a part of configuration 1
    1, 0, 0, 0, 1, // one member: server 1
    0, 0, 0, 0, 0, 0, 0, 0, 0, 0, 0, 0, 0, 0, 0, 0, 0, 0, 0, 0, 0, 0, 0, 0, // promised, accepted: none
    0, 0, 0, 0, 0, 0, 0, 16, 0, 0, 0, 0, 0, 0, 0, 0, 0, 0, 0, 0, 0, 0, 0, 0, // no pairs and no clients
    0, 0, 0, 0, 0, 0, 0, 0, // nothing is trimmed
    0, 0, 0, 0, 0, 0, 0, 0, 0, 0, 0, 0, 0, 0, 0, 0, // no entries, and none is decided
    0, 0, // no closed and no joining configuration
];

/// The record of its first step: client 7 puts x at a with number 1, and that is decided.
pub const STEP: &[u8] = &[
    0xA5, 0, 0, 0, 0, 0, 0, 0, 43, 2, 2, // an open gate, and a batch of two changes
    4, 0, 0, 0, 0, 0, 0, 0, 1, 1, 0, 0, 0, 0, 0, 0, 0, 7, 0, 0, 0, 0, 0, 0, 0, 1, // an entry of client 7
    1, 1, b'a', 0, 1, b'x', // puts x at a
    5, 0, 0, 0, 0, 0, 0, 0, 1, // one entry is decided
];

/// The record of its second step, with number 2.
pub const NEXT_STEP: &[u8] = &[
    0xA5, 0, 0, 0, 0, 0, 0, 0, 43, 2, 2, // an open gate, and a batch of two changes
    4, 0, 0, 0, 0, 0, 0, 0, 1, 1, 0, 0, 0, 0, 0, 0, 0, 7, 0, 0, 0, 0, 0, 0, 0, 2, // an entry of client 7
    1, 1, b'a', 0, 1, b'x', // puts x at a
    5, 0, 0, 0, 0, 0, 0, 0, 2, // two entries are decided
];

/// The record of the whole state behind the first step.
pub const AFTER_STEP: &[u8] = &[
    0xA5, 0, 0, 0, 0, 0, 0, 0, 108, // an open gate, and a body of 108 bytes
    1, 1, 0, 0, 0, 1, 1, 0, 0, 0, 1, // a part of configuration 1, whose member is server 1
    0, 0, 0, 0, 0, 0, 0, 0, 0, 0, 0, 0, 0, 0, 0, 0, 0, 0, 0, 0, 0, 0, 0, 0, // promised, accepted: none
    0, 0, 0, 0, 0, 0, 0, 16, 0, 0, 0, 0, 0, 0, 0, 0, 0, 0, 0, 0, 0, 0, 0, 0, // no pairs and no clients
    0, 0, 0, 0, 0, 0, 0, 0, // nothing is trimmed
    0, 0, 0, 0, 0, 0, 0, 1, 1, 0, 0, 0, 0, 0, 0, 0, 7, 0, 0, 0, 0, 0, 0, 0, 1, 1, 1, b'a', 0, 1,
    b'x', // one entry: client 7 puts x at a with number 1
    0, 0, 0, 0, 0, 0, 0, 1, // it is decided
    0, 0, // no closed and no joining configuration
];

/// The record of a whole durable state of ten members, which the first version hasn't.
pub const TEN_MEMBERS: &[u8] = &[
    0xA5, 0, 0, 0, 0, 0, 0, 0, 121, 1, 1, 0, 0, 0, 1, // a body of 121 bytes, a part of configuration 1
    10, 0, 0, 0, 1, 0, 0, 0, 2, 0, 0, 0, 3, 0, 0, 0, 4, 0, 0, 0, 5, // of servers 1 to 5
    0, 0, 0, 6, 0, 0, 0, 7, 0, 0, 0, 8, 0, 0, 0, 9, 0, 0, 0, 10, // and 6 to 10
    0, 0, 0, 0, 0, 0, 0, 0, 0, 0, 0, 0, 0, 0, 0, 0, 0, 0, 0, 0, 0, 0, 0, 0, // promised, accepted: none
    0, 0, 0, 0, 0, 0, 0, 16, 0, 0, 0, 0, 0, 0, 0, 0, 0, 0, 0, 0, 0, 0, 0, 0, // no pairs and no clients
    0, 0, 0, 0, 0, 0, 0, 0, // nothing is trimmed
    0, 0, 0, 0, 0, 0, 0, 0, 0, 0, 0, 0, 0, 0, 0, 0, // no entries, and none is decided
    0, 0, // no closed and no joining configuration
];

/// The record of a step that appends and decides `many 7 1 del a`, which the first version hasn't.
pub const MANY_STEP: &[u8] = &[
    0xA5, 0, 0, 0, 0, 0, 0, 0, 42, 2, 2, // an open gate, and a batch of two changes
    4, 0, 0, 0, 0, 0, 0, 0, 1, 1, 0, 0, 0, 0, 0, 0, 0, 7, 0, 0, 0, 0, 0, 0, 0, 1, // an entry of client 7
    5, 1, 2, 1, b'a', // of one write, which takes out a
    5, 0, 0, 0, 0, 0, 0, 0, 1, // one entry is decided
];

/// The same of `forget 7 1 8`.
pub const FORGET_STEP: &[u8] = &[
    0xA5, 0, 0, 0, 0, 0, 0, 0, 46, 2, 2, // an open gate, and a batch of two changes
    4, 0, 0, 0, 0, 0, 0, 0, 1, 1, 0, 0, 0, 0, 0, 0, 0, 7, 0, 0, 0, 0, 0, 0, 0, 1, // an entry of client 7
    6, 0, 0, 0, 0, 0, 0, 0, 8, // client 8 is forgotten
    5, 0, 0, 0, 0, 0, 0, 0, 1, // one entry is decided
];

/// The base of a state without pairs and clients, behind its length.
pub const BASE: &[u8] = &[
    0, 0, 0, 0, 0, 0, 0, 16, 0, 0, 0, 0, 0, 0, 0, 0, 0, 0, 0, 0, 0, 0, 0, 0,
];

/// Records of steps with one change, up to its base: a trim to position 1, a close by a stop-sign that names
/// the node, and the end of a joining.
pub const TRIM: &[u8] = &[
    0xA5, 0, 0, 0, 0, 0, 0, 0, 35, 2, 1, 6, 0, 0, 0, 0, 0, 0, 0, 1,
];

pub const CLOSE: &[u8] = &[0xA5, 0, 0, 0, 0, 0, 0, 0, 28, 2, 1, 7, 1];

pub const JOIN_DONE: &[u8] = &[0xA5, 0, 0, 0, 0, 0, 0, 0, 27, 2, 1, 12];
