//! A node that is the only member, and of whose disks a call fails.
use crate::scripts::{Row, Server, Step, Wrote};
use op_outside::Happening;
use op_pump::ServeEnd;

/// After so many turns there is a tick, at which the only member leads.
const TICK: usize = 10;

/// The turns before the next one, where one turn was taken since.
const NEXT_TICK: usize = 9;

/// The second call of the put's record on the first disk: nine are made at the opening, and four for each
/// record.
const SECOND_OF_PUT: u64 = 9 + 4 + 2;

/// Client 7's first command, which puts `x` at `a`.
const PUT: &[u8] = b"C\0\0\0\x17\x01\0\0\0\0\0\0\0\x07\0\0\0\0\0\0\0\x01\x01\x01a\0\x01x";

/// It is done.
const DONE: &[u8] = b"\0\0\0\x11\0\0\0\0\0\0\0\x07\0\0\0\0\0\0\0\x01\x01";

/// It is refused since a disk failed, once so far.
const REFUSED: &[u8] = b"\0\0\0\x1a\0\0\0\0\0\0\0\x07\0\0\0\0\0\0\0\x01\x06\x01\0\0\0\0\0\0\0\x01";

/// A request for the status.
const STATUS: &[u8] = b"C\0\0\0\x01\x04";

/// It is refused since the node doesn't lead.
const NOT_LED: &[u8] = b"\0\0\0\x12\0\0\0\0\0\0\0\x07\0\0\0\0\0\0\0\x01\x06\x03";

/// A put meets the fault, and a status is asked for in the same turn. So are both once the next tick has
/// opened the node again, and once the tick behind that has let it lead.
const FAULT_AND_OPENING: &[Step] = &[
    Step::Idles(TICK),
    Step::Happens(&[
        Happening::Accepted(5),
        Happening::Accepted(6),
        Happening::Readable(5),
        Happening::Readable(6),
    ]),
    Step::Comes(PUT),
    Step::Comes(STATUS),
    Step::Idles(NEXT_TICK),
    Step::Happens(&[
        Happening::Accepted(7),
        Happening::Accepted(8),
        Happening::Readable(7),
        Happening::Readable(8),
    ]),
    Step::Comes(PUT),
    Step::Comes(STATUS),
    Step::Idles(NEXT_TICK),
    Step::Happens(&[
        Happening::Accepted(9),
        Happening::Accepted(10),
        Happening::Readable(9),
        Happening::Readable(10),
    ]),
    Step::Comes(PUT),
    Step::Comes(STATUS),
];

pub const ROWS: &[Row] = &[Row {
    server: Server::Failing(SECOND_OF_PUT),
    steps: FAULT_AND_OPENING,
    turns: 31,
    conns: &[
        (5, Wrote::Bytes(REFUSED), 0),
        (
            6,
            Wrote::Reply(b"\x0c\0\x2anode 1 config 1 decided 0 trimmed 0 failed"),
            0,
        ),
        (7, Wrote::Bytes(NOT_LED), 0),
        (
            8,
            Wrote::Reply(b"\x0c\0\x23node 1 config 1 decided 0 trimmed 0"),
            0,
        ),
        (9, Wrote::Bytes(DONE), 0),
        (
            10,
            Wrote::Reply(b"\x0c\0\x23node 1 config 1 decided 1 trimmed 0"),
            0,
        ),
    ],
    end: ServeEnd::TurnsOver,
    lost: 0,
}];
