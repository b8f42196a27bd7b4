//! A node that is the only member, on disks in memory.

use crate::scripts::{Row, Server, Step, Wrote, seen_of};
use op_outside::Happening;
use op_pump::ServeEnd;
use std::test::Fail;

/// Session 6 begins a request. Session 5 sends the longest body, of zeros, in three reads, and then the head
/// of a longer one; session 6 ends its request.
const ZEROS_AND_HALVES: &[Step] = &[
    Step::Happens(&[
        Happening::Accepted(5),
        Happening::Accepted(6),
        Happening::Readable(6),
        Happening::Readable(5),
        Happening::Readable(5),
        Happening::Readable(5),
    ]),
    Step::Happens(&[Happening::Readable(5), Happening::Readable(6)]),
    Step::Comes(b"C\x00\x00"),
    Step::ComesLongestBegun,
    Step::ComesLongestGoesOn,
    Step::Comes(&[0, 0, 0, 0, 0]),
    Step::Comes(b"\x00\x02\x00\x01"),
    Step::Comes(b"\x00\x01\x04"),
];

/// The reply to the request.
const LINE: &[u8] = b"\x0c\x00\x23node 1 config 1 decided 0 trimmed 0";

/// A bad request, and a frame that is too long.
pub const ROWS: &[Row] = &[Row {
    server: Server::Alone,
    steps: ZEROS_AND_HALVES,
    turns: 2,
    conns: &[
        (5, Wrote::Reply(&[14, 0, 0, 0, 0, 0, 0, 0, 0]), 1),
        (6, Wrote::Reply(LINE), 0),
    ],
    end: ServeEnd::TurnsOver,
    lost: 0,
}];

/// Runs on which nothing comes, and the calls of the net: three waits without a happening, and a second wait
/// that fails.
const CALLS: [(Row<'static>, usize); 2] = [
    (
        Row {
            server: Server::Alone,
            steps: &[],
            turns: 3,
            conns: &[],
            end: ServeEnd::TurnsOver,
            lost: 0,
        },
        3,
    ),
    (
        Row {
            server: Server::Alone,
            steps: &[Step::Fails(2)],
            turns: 3,
            conns: &[],
            end: ServeEnd::NetFault,
            lost: 0,
        },
        2,
    ),
];

#[test]
fn each_turn_waits_once(rt: HostRuntime) -> Result<(), Fail> {
    for (row, calls) in CALLS {
        let seen = seen_of(rt.alloc(), &row)?;
        assert!(rt; seen.is_ended && seen.calls == calls, "{calls} calls");
    }
    Ok(())
}
