//! Messages of a peer and commands of clients that come in one turn are stored by one commit, whatever is
//! read between them.
use crate::scripts::{Row, Server, Step, Wrote, seen_of};
use op_outside::Happening;
use op_pump::ServeEnd;
use std::alloc::Global;
use std::test::Fail;

/// The turns before the next tick, where one turn was taken.
const NEXT_TICK: usize = 9;

/// The same where three turns were taken.
const AFTER_THREE: usize = 7;

/// Node 2's first bytes.
const HELLO: &[u8] = b"Q\0\0\0\x02";

/// Its reply in heartbeat round 1: it stands for the ballot (1, 2), and hasn't heard a majority.
const REPLY: &[u8] =
    b"\0\0\0\0\0\0\0\x22\0\0\0\x02\0\0\0\x01\x02\0\0\0\x01\0\0\0\0\0\0\0\x01\0\0\0\0\0\0\0\x01\0\0\0\x02\0";

/// Its promise of the ballot (1, 1), with an empty log.
const PROMISE: &[u8] =
    b"\0\0\0\0\0\0\0\x45\0\0\0\x02\0\0\0\x01\x04\0\0\0\x01\0\0\0\0\0\0\0\x01\0\0\0\x01\
\0\0\0\0\0\0\0\0\0\0\0\0\0\0\0\0\0\0\0\0\0\0\0\0\0\0\0\0\0\0\0\0\0\0\0\0\0\0\0\0\0\0\0\0";

/// It has accepted one entry in that ballot, and then two.
const ACCEPTED: &[u8] =
    b"\0\0\0\0\0\0\0\x21\0\0\0\x02\0\0\0\x01\x07\0\0\0\x01\0\0\0\0\0\0\0\x01\0\0\0\x01\0\0\0\0\0\0\0\x01\
\0\0\0\0\0\0\0\x21\0\0\0\x02\0\0\0\x01\x07\0\0\0\x01\0\0\0\0\0\0\0\x01\0\0\0\x01\0\0\0\0\0\0\0\x02";

/// Client 7's first command, which puts `x` at `a`.
const PUT: &[u8] = b"C\0\0\0\x17\x01\0\0\0\0\0\0\0\x07\0\0\0\0\0\0\0\x01\x01\x01a\0\x01x";

/// Client 8's.
const OTHER_PUT: &[u8] = b"C\0\0\0\x17\x01\0\0\0\0\0\0\0\x08\0\0\0\0\0\0\0\x01\x01\x01a\0\x01x";

/// Both are refused since a disk failed, once so far.
const REFUSED: &[u8] = b"\0\0\0\x1a\0\0\0\0\0\0\0\x07\0\0\0\0\0\0\0\x01\x06\x01\0\0\0\0\0\0\0\x01";

const OTHER_REFUSED: &[u8] =
    b"\0\0\0\x1a\0\0\0\0\0\0\0\x08\0\0\0\0\0\0\0\x01\x06\x01\0\0\0\0\0\0\0\x01";

/// Client 9's read 1 of `a`.
const READ: &[u8] = b"C\0\0\0\x13\x06\0\0\0\0\0\0\0\x09\0\0\0\0\0\0\0\x01\x01a";

/// A request for the status.
const STATUS: &[u8] = b"C\0\0\0\x01\x04";

/// The calls of the first disk before the put of session 7: nine are made at the opening, and four for each
/// record. The tick at which node 1 is elected stores its promise, and node 2's promise and the puts of
/// session 6 are a record each.
const CALLS_BEFORE: u64 = 9 + 3 * 4;

/// Node 1 leads with node 2, session 6 puts twice, and in one turn node 2 accepts the one and the other, and
/// session 7 puts.
const ACCEPTED_AND_PUT: &[Step] = &[
    Step::Happens(&[Happening::Accepted(5), Happening::Readable(5)]),
    Step::Comes(HELLO),
    Step::Idles(NEXT_TICK),
    Step::Happens(&[Happening::Readable(5)]),
    Step::Comes(REPLY),
    Step::Idles(NEXT_TICK),
    Step::Happens(&[Happening::Readable(5)]),
    Step::Comes(PROMISE),
    Step::Happens(&[Happening::Accepted(6), Happening::Readable(6)]),
    Step::ComesPuts(2),
    Step::Happens(&[
        Happening::Accepted(7),
        Happening::Readable(7),
        Happening::Readable(5),
    ]),
    Step::Comes(OTHER_PUT),
    Step::Comes(ACCEPTED),
];

/// The same, and between the put and what node 2 accepts session 8 reads: that waits for node 2 to confirm
/// it.
const ACCEPTED_PUT_AND_READ: &[Step] = &[
    Step::Happens(&[Happening::Accepted(5), Happening::Readable(5)]),
    Step::Comes(HELLO),
    Step::Idles(NEXT_TICK),
    Step::Happens(&[Happening::Readable(5)]),
    Step::Comes(REPLY),
    Step::Idles(NEXT_TICK),
    Step::Happens(&[Happening::Readable(5)]),
    Step::Comes(PROMISE),
    Step::Happens(&[Happening::Accepted(6), Happening::Readable(6)]),
    Step::ComesPuts(2),
    Step::Happens(&[
        Happening::Accepted(7),
        Happening::Readable(7),
        Happening::Accepted(8),
        Happening::Readable(8),
        Happening::Readable(5),
    ]),
    Step::Comes(OTHER_PUT),
    Step::Comes(READ),
    Step::Comes(ACCEPTED),
];

/// What comes of both: the last turn makes the calls of one record.
const ONE_COMMIT: [Row<'static>; 2] = [
    Row {
        server: Server::Beside,
        steps: ACCEPTED_AND_PUT,
        turns: 23,
        conns: &[
            (5, Wrote::Something, 0),
            (6, Wrote::Dones(2), 0),
            (7, Wrote::Bytes(b""), 0),
        ],
        end: ServeEnd::TurnsOver,
        lost: 0,
    },
    Row {
        server: Server::Beside,
        steps: ACCEPTED_PUT_AND_READ,
        turns: 23,
        conns: &[
            (5, Wrote::Something, 0),
            (6, Wrote::Dones(2), 0),
            (7, Wrote::Bytes(b""), 0),
            (8, Wrote::Bytes(b""), 0),
        ],
        end: ServeEnd::TurnsOver,
        lost: 0,
    },
];

/// Each first disk's calls, up to the first row that goes otherwise.
fn disk_calls_of(alloc: Global, rows: &[Row]) -> Result<Vec<u64>, Fail> {
    let mut calls = Vec::new(alloc);
    for row in rows {
        let seen = seen_of(alloc, row)?;
        if !seen.is_ended || seen.wrong.is_some() {
            return Ok(calls);
        }
        calls.push(seen.disk_calls)?;
    }
    Ok(calls)
}

#[test]
fn what_comes_in_a_turn_is_one_commit(rt: HostRuntime) -> Result<(), Fail> {
    let calls = disk_calls_of(rt.alloc(), &ONE_COMMIT)?;
    assert_eq!(rt;
        calls.as_slice(),
        [CALLS_BEFORE + 4, CALLS_BEFORE + 4].as_slice()
    );
    Ok(())
}

/// The put of session 6 waits for node 2 as a put of session 7 meets a fault. A status is asked for in that
/// turn, and once the next tick has opened the node again.
const FAULT_WHILE_ONE_WAITS: &[Step] = &[
    Step::Happens(&[Happening::Accepted(5), Happening::Readable(5)]),
    Step::Comes(HELLO),
    Step::Idles(NEXT_TICK),
    Step::Happens(&[Happening::Readable(5)]),
    Step::Comes(REPLY),
    Step::Idles(NEXT_TICK),
    Step::Happens(&[Happening::Readable(5)]),
    Step::Comes(PROMISE),
    Step::Happens(&[Happening::Accepted(6), Happening::Readable(6)]),
    Step::Comes(PUT),
    Step::Happens(&[
        Happening::Accepted(7),
        Happening::Readable(7),
        Happening::Accepted(8),
        Happening::Readable(8),
    ]),
    Step::Comes(OTHER_PUT),
    Step::Comes(STATUS),
    Step::Idles(AFTER_THREE),
    Step::Happens(&[Happening::Accepted(9), Happening::Readable(9)]),
    Step::Comes(STATUS),
];

pub const ROWS: &[Row] = &[Row {
    server: Server::FailingBeside(CALLS_BEFORE + 2),
    steps: FAULT_WHILE_ONE_WAITS,
    turns: 31,
    conns: &[
        (5, Wrote::Something, 0),
        (6, Wrote::Bytes(REFUSED), 0),
        (7, Wrote::Bytes(OTHER_REFUSED), 0),
        (
            8,
            Wrote::Reply(b"\x0c\0\x2anode 1 config 1 decided 0 trimmed 0 failed"),
            0,
        ),
        (
            9,
            Wrote::Reply(b"\x0c\0\x23node 1 config 1 decided 0 trimmed 0"),
            0,
        ),
    ],
    end: ServeEnd::TurnsOver,
    lost: 0,
}];
