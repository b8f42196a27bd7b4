//! A client that asks a node to end.

use crate::scripts::{Row, Server, Step, Wrote};
use op_outside::Happening;
use op_pump::ServeEnd;

/// The reply is the tag of Ended.
pub const ROWS: &[Row] = &[Row {
    server: Server::Alone,
    steps: &[
        Step::Happens(&[Happening::Accepted(5), Happening::Readable(5)]),
        Step::Comes(b"C\x00\x00\x00\x01\x05"),
    ],
    turns: 9,
    conns: &[(5, Wrote::Reply(&[13]), 0)],
    end: ServeEnd::Ended,
    lost: 0,
}];
