//! A node that trims by itself, right behind a tick, once so many decided entries are not trimmed.
use crate::scripts::{Row, Server, Step, Wrote};
use op_outside::Happening;
use op_pump::ServeEnd;

/// After so many turns there is a tick, at which the only member leads.
const TICK: usize = 10;

/// The turns before the next one, where one turn was taken since.
const NEXT_TICK: usize = 9;

/// A client's first byte, and a request for the status.
const STATUS: &[u8] = b"C\0\0\0\x01\x04";

/// Client 8's first command, which puts `x` at `a`.
const PUT: &[u8] = b"C\0\0\0\x17\x01\0\0\0\0\0\0\0\x08\0\0\0\0\0\0\0\x01\x01\x01a\0\x01x";

/// Two entries are decided behind the first tick, and a third one behind the second. The status is asked
/// for behind the second and the third.
const THREE_PUTS: &[Step] = &[
    Step::Idles(TICK),
    Step::Happens(&[Happening::Accepted(5), Happening::Readable(5)]),
    Step::ComesPuts(2),
    Step::Idles(NEXT_TICK),
    Step::Happens(&[
        Happening::Accepted(6),
        Happening::Readable(6),
        Happening::Accepted(7),
        Happening::Readable(7),
    ]),
    Step::Comes(STATUS),
    Step::Comes(PUT),
    Step::Idles(NEXT_TICK),
    Step::Happens(&[Happening::Accepted(8), Happening::Readable(8)]),
    Step::Comes(STATUS),
];

pub const ROWS: &[Row] = &[
    // It trims at three entries.
    Row {
        server: Server::Trimming(3),
        steps: THREE_PUTS,
        turns: 31,
        conns: &[
            (5, Wrote::Dones(2), 0),
            (
                6,
                Wrote::Reply(b"\x0c\0\x23node 1 config 1 decided 2 trimmed 0"),
                0,
            ),
            (
                7,
                Wrote::Bytes(b"\0\0\0\x11\0\0\0\0\0\0\0\x08\0\0\0\0\0\0\0\x01\x01"),
                0,
            ),
            (
                8,
                Wrote::Reply(b"\x0c\0\x23node 1 config 1 decided 3 trimmed 3"),
                0,
            ),
        ],
        end: ServeEnd::TurnsOver,
        lost: 0,
    },
];
