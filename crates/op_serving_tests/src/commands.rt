//! Commands that are read one after another are given as one list, each answered at its own connection.
use crate::scripts::{Row, Server, Step, Wrote};
use op_outside::Happening;
use op_pump::ServeEnd;

/// After so many turns there is a tick, at which the only member leads.
const TICK: usize = 10;

/// The most commands that one list has, and one more.
const ONE_MORE: u64 = 65;

/// Client 7's first command, which puts `x` at `a`.
const PUT: &[u8] = b"C\0\0\0\x17\x01\0\0\0\0\0\0\0\x07\0\0\0\0\0\0\0\x01\x01\x01a\0\x01x";

/// Client 8's.
const OTHER_PUT: &[u8] = b"C\0\0\0\x17\x01\0\0\0\0\0\0\0\x08\0\0\0\0\0\0\0\x01\x01\x01a\0\x01x";

/// Both are done.
const DONE: &[u8] = b"\0\0\0\x11\0\0\0\0\0\0\0\x07\0\0\0\0\0\0\0\x01\x01";

const OTHER_DONE: &[u8] = b"\0\0\0\x11\0\0\0\0\0\0\0\x08\0\0\0\0\0\0\0\x01\x01";

/// A request for the status, and one to end.
const STATUS: &[u8] = b"C\0\0\0\x01\x04";

const END: &[u8] = b"C\0\0\0\x01\x05";

/// Session 5 puts so often in one read.
const MANY: &[Step] = &[
    Step::Idles(TICK),
    Step::Happens(&[Happening::Accepted(5), Happening::Readable(5)]),
    Step::ComesPuts(ONE_MORE),
];

/// Two sessions put, and a third asks for the status in the same turn.
const PUTS_AND_STATUS: &[Step] = &[
    Step::Idles(TICK),
    Step::Happens(&[
        Happening::Accepted(5),
        Happening::Accepted(6),
        Happening::Accepted(7),
        Happening::Readable(5),
        Happening::Readable(6),
        Happening::Readable(7),
    ]),
    Step::Comes(PUT),
    Step::Comes(OTHER_PUT),
    Step::Comes(STATUS),
];

/// An end request between two commands.
const CUT_BY_END: &[Step] = &[
    Step::Idles(TICK),
    Step::Happens(&[
        Happening::Accepted(5),
        Happening::Accepted(6),
        Happening::Accepted(7),
        Happening::Readable(5),
        Happening::Readable(6),
        Happening::Readable(7),
    ]),
    Step::Comes(PUT),
    Step::Comes(END),
    Step::Comes(OTHER_PUT),
];

pub const ROWS: &[Row] = &[
    // Sixty-four commands, and one more.
    Row {
        server: Server::Alone,
        steps: MANY,
        turns: 11,
        conns: &[(5, Wrote::Dones(ONE_MORE), 0)],
        end: ServeEnd::TurnsOver,
        lost: 0,
    },
    // A status tells of the commands before it.
    Row {
        server: Server::Alone,
        steps: PUTS_AND_STATUS,
        turns: 11,
        conns: &[
            (5, Wrote::Bytes(DONE), 0),
            (6, Wrote::Bytes(OTHER_DONE), 0),
            (
                7,
                Wrote::Reply(b"\x0c\0\x23node 1 config 1 decided 2 trimmed 0"),
                0,
            ),
        ],
        end: ServeEnd::TurnsOver,
        lost: 0,
    },
    // An end request cuts a list. The reply to it is the tag of Ended.
    Row {
        server: Server::Alone,
        steps: CUT_BY_END,
        turns: 20,
        conns: &[
            (5, Wrote::Bytes(DONE), 0),
            (6, Wrote::Reply(&[13]), 0),
            (7, Wrote::Bytes(OTHER_DONE), 0),
        ],
        end: ServeEnd::Ended,
        lost: 0,
    },
];
