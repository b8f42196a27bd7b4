//! A client that asks for more than may wait for it.
use crate::scripts::{Row, Server, Step, Wrote};
use op_outside::Happening;
use op_pump::ServeEnd;

/// After so many turns there is a tick, at which the only member leads.
const TICK: usize = 10;

/// How many bytes the reply to a get has: its head, client and number, tag, and the value with its length.
const REPLY: usize = 4 + 16 + 1 + 2 + 4096;

/// So many replies are the most that may wait: 16,776,687 of 16,777,216 bytes.
const MOST_REPLIES: u64 = 4073;

/// How many gets a read has room for.
const IN_A_READ: u64 = 2700;

/// Client 9's first command, which puts `x` at `b`, and that it is done.
const PUT: &[u8] = b"C\0\0\0\x17\x01\0\0\0\0\0\0\0\x09\0\0\0\0\0\0\0\x01\x01\x01b\0\x01x";

const DONE: &[u8] = b"\0\0\0\x11\0\0\0\0\0\0\0\x09\0\0\0\0\0\0\0\x01\x01";

/// Session 6 asks in two reads, and session 7 in one.
const TWO_SESSIONS: &[Happening] = &[
    Happening::Accepted(6),
    Happening::Accepted(7),
    Happening::Readable(6),
    Happening::Readable(6),
    Happening::Readable(7),
];

/// Session 6 gets a value of 4096 bytes so often in one turn, in which session 7 puts: nothing is written
/// before its end.
pub const ROWS: &[Row] = &[
    // The most replies wait, and go out.
    Row {
        server: Server::Alone,
        steps: &[
            Step::Idles(TICK),
            Step::Happens(&[Happening::Accepted(5), Happening::Readable(5)]),
            Step::ComesLongPut,
            Step::Happens(TWO_SESSIONS),
            Step::ComesGets(1, IN_A_READ),
            Step::ComesGets(IN_A_READ + 1, MOST_REPLIES),
            Step::Comes(PUT),
        ],
        turns: 12,
        conns: &[
            (6, Wrote::Long(4073 * REPLY), 0),
            (7, Wrote::Bytes(DONE), 0),
        ],
        end: ServeEnd::TurnsOver,
        lost: 0,
    },
    // With one reply more the session is closed alone.
    Row {
        server: Server::Alone,
        steps: &[
            Step::Idles(TICK),
            Step::Happens(&[Happening::Accepted(5), Happening::Readable(5)]),
            Step::ComesLongPut,
            Step::Happens(TWO_SESSIONS),
            Step::ComesGets(1, IN_A_READ),
            Step::ComesGets(IN_A_READ + 1, MOST_REPLIES + 1),
            Step::Comes(PUT),
        ],
        turns: 12,
        conns: &[(6, Wrote::Bytes(b""), 1), (7, Wrote::Bytes(DONE), 0)],
        end: ServeEnd::TurnsOver,
        lost: 0,
    },
];
