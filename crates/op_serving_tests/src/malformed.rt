//! What no client and no peer sends, or not so: each closes its own session, or waits, and changes no other.
use crate::scripts::{Conduct, Row, Server, Step, Wrote};
use op_outside::{Happening, Took};
use op_pump::ServeEnd;

/// A client's first byte, and a request for the status.
const STATUS: &[u8] = b"C\0\0\0\x01\x04";

/// The reply to it.
const LINE: &[u8] = b"\x0c\0\x23node 1 config 1 decided 0 trimmed 0";

/// The connection of session 3 ends after a write of three bytes. Session 4 sends the greatest head of a
/// client's frame, 5 a message of no kind, 6 the head of a peer's longest frame, whose body has 1,048,576
/// bytes, 7 two bytes of a hello, 8 a request in single bytes, 9 one in one piece, and 10 the head of a
/// peer's frame that is a byte too long.
const MALFORMED: &[Step] = &[
    Step::Happens(&[
        Happening::Accepted(3),
        Happening::Accepted(4),
        Happening::Accepted(5),
        Happening::Accepted(6),
        Happening::Accepted(7),
        Happening::Accepted(8),
        Happening::Accepted(9),
        Happening::Accepted(10),
        Happening::Readable(3),
    ]),
    Step::Comes(STATUS),
    Step::Takes(Took::Bytes(3)),
    Step::Takes(Took::Ended),
    Step::Happens(&[
        Happening::Readable(4),
        Happening::Readable(5),
        Happening::Readable(6),
        Happening::Readable(7),
        Happening::Readable(8),
        Happening::Readable(8),
        Happening::Readable(8),
        Happening::Readable(8),
        Happening::Readable(8),
        Happening::Readable(8),
        Happening::Readable(9),
        Happening::Readable(10),
    ]),
    Step::Comes(b"C\xff\xff\xff\xff"),
    Step::Comes(b"Q\0\0\0\x03\0\0\0\0\0\0\0\x0d\0\0\0\x03\0\0\0\x01\x63\0\0\0\x01"),
    Step::Comes(b"Q\0\0\0\x02\0\0\0\0\0\x10\0\0"),
    Step::Comes(b"Q\0"),
    Step::Comes(b"C"),
    Step::Comes(b"\0"),
    Step::Comes(b"\0"),
    Step::Comes(b"\0"),
    Step::Comes(b"\x01"),
    Step::Comes(b"\x04"),
    Step::Comes(STATUS),
    Step::Comes(b"Q\0\0\0\x03\0\0\0\0\0\x10\0\x01"),
];

/// Sessions 3 to 5 and 10 are closed; 6 and 7 wait for more, and 8 and 9 are answered.
const EACH_ALONE: &[Conduct] = &[
    (3, Wrote::Any, 1),
    (4, Wrote::Bytes(b""), 1),
    (5, Wrote::Bytes(b""), 1),
    (6, Wrote::Any, 0),
    (7, Wrote::Bytes(b""), 0),
    (8, Wrote::Reply(LINE), 0),
    (9, Wrote::Reply(LINE), 0),
    (10, Wrote::Any, 1),
];

/// Session 4 is a peer's, 3 the other one's, which sends the greatest head of a frame, and 5 a client's.
const GREATEST_HEAD: &[Step] = &[
    Step::Happens(&[
        Happening::Accepted(3),
        Happening::Accepted(4),
        Happening::Accepted(5),
        Happening::Readable(4),
        Happening::Readable(3),
        Happening::Readable(5),
    ]),
    Step::Comes(b"Q\0\0\0\x02"),
    Step::Comes(b"Q\0\0\0\x03\xff\xff\xff\xff\xff\xff\xff\xff"),
    Step::Comes(STATUS),
];

/// Session 3 is closed, and nothing is written to it; the others go on.
const IT_ALONE: &[Conduct] = &[
    (3, Wrote::Bytes(b""), 1),
    (4, Wrote::Any, 0),
    (5, Wrote::Reply(LINE), 0),
];

pub const ROWS: &[Row] = &[
    Row {
        server: Server::Alone,
        steps: MALFORMED,
        turns: 3,
        conns: EACH_ALONE,
        end: ServeEnd::TurnsOver,
        lost: 0,
    },
    Row {
        server: Server::Alone,
        steps: GREATEST_HEAD,
        turns: 2,
        conns: IT_ALONE,
        end: ServeEnd::TurnsOver,
        lost: 0,
    },
];
