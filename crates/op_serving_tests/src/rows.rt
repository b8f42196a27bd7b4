//! All rows of nodes that serve, by table.

use crate::scripts::{Row, first_other};
use crate::{
    alone, commands, disks, ends, groups, malformed, queues, reads, requests, strangers, trimming,
};
use std::test::Fail;

/// A table of rows, and what it shows.
type Table = (&'static str, &'static [Row<'static>]);

const TABLES: [Table; 11] = [
    ("a bad request, and a frame that is too long", alone::ROWS),
    ("commands are given as lists", commands::ROWS),
    ("a node that failed is opened again at a tick", disks::ROWS),
    ("an end request is answered", ends::ROWS),
    ("a fault refuses all who wait", groups::ROWS),
    (
        "each malformed session is closed or waits alone",
        malformed::ROWS,
    ),
    ("the most replies wait and go out", queues::ROWS),
    ("reads are answered or refused", reads::ROWS),
    ("requests are told what becomes of them", requests::ROWS),
    ("strange sessions are closed alone", strangers::ROWS),
    ("a leader trims by itself", trimming::ROWS),
];

#[test]
fn nodes_serve_as_they_are_told(rt: HostRuntime) -> Result<(), Fail> {
    for (what, rows) in TABLES {
        let wrong = first_other(rt.alloc(), rows)?;
        assert!(rt; wrong.is_none(), "{what}: row {wrong:?}");
    }
    Ok(())
}
