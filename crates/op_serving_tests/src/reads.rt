//! Reads, each answered without an entry of the log, behind the commands of its own connection that came
//! before it.
use crate::scripts::{Conduct, Row, Server, Step, Wrote, seen_of};
use op_outside::{Conn, Happening};
use op_pump::ServeEnd;
use std::alloc::Global;
use std::test::Fail;

/// After so many turns there is a tick, at which the only member leads.
const TICK: usize = 10;

/// The turns before the next tick, at which the only member leads, where one turn was taken.
const NEXT_TICK: usize = 9;

/// A client's first byte, and client 7's read 1 of `a`.
const READ: &[u8] = b"C\0\0\0\x13\x06\0\0\0\0\0\0\0\x07\0\0\0\0\0\0\0\x01\x01a";

/// A client's first byte, client 7's command 1, which puts `x` at `a`, and its read 1 of `a`.
const PUT_AND_READ: &[u8] =
    b"C\0\0\0\x17\x01\0\0\0\0\0\0\0\x07\0\0\0\0\0\0\0\x01\x01\x01a\0\x01x\0\0\0\x13\x06\0\0\0\0\0\0\0\x07\0\0\0\0\0\0\0\x01\x01a";

/// A client's first byte, and client 8's read 3 of `b`.
const READ_B: &[u8] = b"C\0\0\0\x13\x06\0\0\0\0\0\0\0\x08\0\0\0\0\0\0\0\x03\x01b";

/// A read before the node leads, and after it a put and two reads.
const READS: &[Step] = &[
    Step::Happens(&[Happening::Accepted(5), Happening::Readable(5)]),
    Step::Comes(READ),
    Step::Idles(NEXT_TICK),
    Step::Happens(&[
        Happening::Accepted(6),
        Happening::Readable(6),
        Happening::Accepted(7),
        Happening::Readable(7),
    ]),
    Step::Comes(PUT_AND_READ),
    Step::Comes(READ_B),
];

/// The first call of the first disk in the first tick, and behind it: nine are made at the opening, and four
/// for each record.
const CALL_OF_TICK: u64 = 9 + 1;

const CALL_AFTER_TICK: u64 = 9 + 4 + 1;

/// A client's first byte, and client 7's command 1, which puts `x` at `a`.
const PUT: &[u8] = b"C\0\0\0\x17\x01\0\0\0\0\0\0\0\x07\0\0\0\0\0\0\0\x01\x01\x01a\0\x01x";

/// Client 7's read 1 is answered that there is no value.
const ABSENT: &[u8] = b"\0\0\0\x11\0\0\0\0\0\0\0\x07\0\0\0\0\0\0\0\x01\x03";

/// A read, and then a put.
const READ_AND_PUT: &[Step] = &[
    Step::Idles(TICK),
    Step::Happens(&[
        Happening::Accepted(5),
        Happening::Readable(5),
        Happening::Accepted(6),
        Happening::Readable(6),
    ]),
    Step::Comes(READ),
    Step::Comes(PUT),
];

pub const ROWS: &[Row] = &[
    // A leader answers reads.
    Row {
        server: Server::Alone,
        steps: READS,
        turns: 11,
        conns: &[
            // The tag of NotLeading.
            (
                5,
                Wrote::Bytes(b"\0\0\0\x11\0\0\0\0\0\0\0\x07\0\0\0\0\0\0\0\x01\x0b"),
                0,
            ),
            // The put is done, and then the value is `x`.
            (
                6,
                Wrote::Bytes(
                    b"\0\0\0\x11\0\0\0\0\0\0\0\x07\0\0\0\0\0\0\0\x01\x01\0\0\0\x14\0\0\0\0\0\0\0\x07\0\0\0\0\0\0\0\x01\x02\0\x01x",
                ),
                0,
            ),
            // There is no value.
            (
                7,
                Wrote::Bytes(b"\0\0\0\x11\0\0\0\0\0\0\0\x08\0\0\0\0\0\0\0\x03\x03"),
                0,
            ),
        ],
        end: ServeEnd::TurnsOver,
        lost: 0,
    },
    // A node whose tick couldn't be stored refuses a read, since a disk has failed once.
    Row {
        server: Server::Failing(CALL_OF_TICK),
        steps: &[
            Step::Idles(TICK),
            Step::Happens(&[Happening::Accepted(5), Happening::Readable(5)]),
            Step::Comes(READ),
        ],
        turns: 11,
        conns: &[(
            5,
            Wrote::Bytes(
                b"\0\0\0\x1a\0\0\0\0\0\0\0\x07\0\0\0\0\0\0\0\x01\x06\x01\0\0\0\0\0\0\0\x01",
            ),
            0,
        )],
        end: ServeEnd::TurnsOver,
        lost: 0,
    },
    // A read makes no call of a disk: the call that fails is the put's.
    Row {
        server: Server::Failing(CALL_AFTER_TICK),
        steps: READ_AND_PUT,
        turns: 11,
        conns: &[
            (5, Wrote::Bytes(ABSENT), 0),
            (
                6,
                Wrote::Bytes(
                    b"\0\0\0\x1a\0\0\0\0\0\0\0\x07\0\0\0\0\0\0\0\x01\x06\x01\0\0\0\0\0\0\0\x01",
                ),
                0,
            ),
        ],
        end: ServeEnd::TurnsOver,
        lost: 0,
    },
];

/// Node 2's first bytes.
const HELLO: &[u8] = b"Q\0\0\0\x02";

/// Its reply in heartbeat round 1: it stands for the ballot (1, 2), and hasn't heard a majority.
const REPLY: &[u8] =
    b"\0\0\0\0\0\0\0\x22\0\0\0\x02\0\0\0\x01\x02\0\0\0\x01\0\0\0\0\0\0\0\x01\0\0\0\0\0\0\0\x01\0\0\0\x02\0";

/// Its promise of the ballot (1, 1), with an empty log.
const PROMISE: &[u8] =
    b"\0\0\0\0\0\0\0\x45\0\0\0\x02\0\0\0\x01\x04\0\0\0\x01\0\0\0\0\0\0\0\x01\0\0\0\x01\
\0\0\0\0\0\0\0\0\0\0\0\0\0\0\0\0\0\0\0\0\0\0\0\0\0\0\0\0\0\0\0\0\0\0\0\0\0\0\0\0\0\0\0\0";

/// It confirms that ballot for the reads of numbers 1 and 2.
const CONFIRMED: &[u8] =
    b"\0\0\0\0\0\0\0\x21\0\0\0\x02\0\0\0\x01\x18\0\0\0\x01\0\0\0\0\0\0\0\x01\0\0\0\x01\0\0\0\0\0\0\0\x01\
\0\0\0\0\0\0\0\x21\0\0\0\x02\0\0\0\x01\x18\0\0\0\x01\0\0\0\0\0\0\0\x01\0\0\0\x01\0\0\0\0\0\0\0\x02";

/// It asks for a promise of the ballot (5, 2).
const PREPARE: &[u8] =
    b"\0\0\0\0\0\0\0\x35\0\0\0\x02\0\0\0\x01\x03\0\0\0\x01\0\0\0\0\0\0\0\x05\0\0\0\x02\
\0\0\0\0\0\0\0\0\0\0\0\0\0\0\0\0\0\0\0\0\0\0\0\0\0\0\0\0";

/// What sessions 6 and 7 ask of node 1, which leads with node 2; what node 2 then says; and what comes of it.
const WAITING: [(&[u8], &[u8], &[u8], &[Conduct]); 2] = [
    // The same read twice is answered once, where it was asked last.
    (
        READ,
        READ,
        CONFIRMED,
        &[
            (5, Wrote::Something, 0),
            (6, Wrote::Bytes(b""), 0),
            (7, Wrote::Bytes(ABSENT), 0),
        ],
    ),
    // Two reads are given up for a greater ballot.
    (
        READ,
        READ_B,
        PREPARE,
        &[
            (5, Wrote::Something, 0),
            (
                6,
                Wrote::Bytes(
                    b"\0\0\0\x1e\0\0\0\0\0\0\0\x07\0\0\0\0\0\0\0\x01\x05\x01\0\0\0\0\0\0\0\x05\0\0\0\x02",
                ),
                0,
            ),
            (
                7,
                Wrote::Bytes(
                    b"\0\0\0\x1e\0\0\0\0\0\0\0\x08\0\0\0\0\0\0\0\x03\x05\x01\0\0\0\0\0\0\0\x05\0\0\0\x02",
                ),
                0,
            ),
        ],
    ),
];

/// The first connection with which it goes otherwise.
fn otherwise<'a>(
    alloc: Global,
    first: &'a [u8],
    second: &'a [u8],
    said: &'a [u8],
    conns: &[Conduct],
) -> Result<Option<Conn>, Fail> {
    let steps = [
        Step::Happens(&[Happening::Accepted(5), Happening::Readable(5)]),
        Step::Comes(HELLO),
        Step::Idles(NEXT_TICK),
        Step::Happens(&[Happening::Readable(5)]),
        Step::Comes(REPLY),
        Step::Idles(NEXT_TICK),
        Step::Happens(&[Happening::Readable(5)]),
        Step::Comes(PROMISE),
        Step::Happens(&[
            Happening::Accepted(6),
            Happening::Readable(6),
            Happening::Accepted(7),
            Happening::Readable(7),
            Happening::Readable(5),
        ]),
        Step::Comes(first),
        Step::Comes(second),
        Step::Comes(said),
    ];
    let row = Row {
        server: Server::Beside,
        steps: &steps,
        turns: 22,
        conns,
        end: ServeEnd::TurnsOver,
        lost: 0,
    };
    Ok(seen_of(alloc, &row)?.wrong)
}

#[test]
fn reads_wait_for_a_majority(rt: HostRuntime) -> Result<(), Fail> {
    for (first, second, said, conns) in WAITING {
        assert_eq!(rt; otherwise(rt.alloc(), first, second, said, conns)?, None);
    }
    Ok(())
}
