//! Sessions of nobody that a node knows, and a second one of a peer.

use crate::scripts::{Conduct, Row, Server, Step, Wrote};
use op_outside::Happening;
use op_pump::ServeEnd;

/// Sessions 3 to 9 send another first byte, an unknown id, the own id, a frame that is no message, one to
/// another node, a status, and the hello of a node of the version before.
const STRANGERS: &[Step] = &[
    Step::Happens(&[
        Happening::Accepted(3),
        Happening::Accepted(4),
        Happening::Accepted(5),
        Happening::Accepted(6),
        Happening::Accepted(7),
        Happening::Accepted(8),
        Happening::Accepted(9),
    ]),
    Step::Happens(&[
        Happening::Readable(3),
        Happening::Readable(4),
        Happening::Readable(5),
        Happening::Readable(6),
        Happening::Readable(7),
        Happening::Readable(8),
        Happening::Readable(9),
    ]),
    Step::Comes(b"X"),
    Step::Comes(b"Q\x00\x00\x00\x09"),
    Step::Comes(b"Q\x00\x00\x00\x01"),
    Step::Comes(b"Q\x00\x00\x00\x02\x00\x00\x00\x00\x00\x00\x00\x01\x00"),
    Step::Comes(b"Q\0\0\0\x03\0\0\0\0\0\0\0\x0d\0\0\0\x03\0\0\0\x02\x09\0\0\0\x01"),
    Step::Comes(b"C\x00\x00\x00\x01\x04"),
    Step::Comes(b"P\x00\x00\x00\x02"),
];

/// Sessions 3 to 6 and 9 are closed, and nothing is written to them.
const CLOSED_ALONE: &[Conduct] = &[
    (3, Wrote::Bytes(b""), 1),
    (4, Wrote::Bytes(b""), 1),
    (5, Wrote::Bytes(b""), 1),
    (6, Wrote::Bytes(b""), 1),
    (7, Wrote::Any, 0),
    (8, Wrote::Something, 0),
    (9, Wrote::Bytes(b""), 1),
];

pub const ROWS: &[Row] = &[
    // Malformed sessions are closed alone.
    Row {
        server: Server::Alone,
        steps: STRANGERS,
        turns: 3,
        conns: CLOSED_ALONE,
        end: ServeEnd::TurnsOver,
        lost: 0,
    },
    // A second session of a peer ends the first.
    Row {
        server: Server::Alone,
        steps: &[
            Step::Happens(&[
                Happening::Accepted(4),
                Happening::Accepted(5),
                Happening::Readable(4),
                Happening::Readable(5),
            ]),
            Step::Comes(b"Q\x00\x00\x00\x02"),
            Step::Comes(b"Q\x00\x00\x00\x02"),
        ],
        turns: 1,
        conns: &[(4, Wrote::Any, 1), (5, Wrote::Any, 0)],
        end: ServeEnd::TurnsOver,
        lost: 0,
    },
];
