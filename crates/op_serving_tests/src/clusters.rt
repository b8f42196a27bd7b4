use op_cluster::{ClusterFail, cluster};
use op_memory::{FakeSpawner, MemSink};
use op_outside::{Sink, Spawner};
use op_types::Pid;
use std::alloc::{AllocError, Global};
use std::collections::VecDeque;
use std::test::Fail;

const IDS: &[Pid] = &[1, 20, 999];

const INPUT: &[u8] = b"settings";

const LINES: &[u8] = b"child 1 status 0\nchild 20 status 255\nchild 999 status 13\n";

/// What a cluster is given, and what comes of it.
struct Row<'a> {
    ids: &'a [Pid],
    /// The calls of the spawner, from 1, that fail.
    failing_calls: &'a [u64],
    /// The writes, from 1, that fail.
    failing_writes: &'a [u64],
    result: Result<(), ClusterFail>,
    written: &'a [u8],
    /// How often the spawner and the sink have failed then.
    faults: (u64, u64),
    /// Children that are then waited for, and the status of each, or None where it doesn't run.
    ends: &'a [(Pid, Option<u8>)],
}

const ROWS: [Row<'static>; 5] = [
    Row {
        ids: IDS,
        failing_calls: &[],
        failing_writes: &[],
        result: Ok(()),
        written: LINES,
        faults: (0, 0),
        ends: &[],
    },
    // No child: the first call would fail.
    Row {
        ids: &[],
        failing_calls: &[1],
        failing_writes: &[1],
        result: Ok(()),
        written: &[],
        faults: (0, 0),
        ends: &[],
    },
    // The third call is the third start: all are started before any is waited for. The first two run, the
    // third doesn't.
    Row {
        ids: IDS,
        failing_calls: &[3],
        failing_writes: &[],
        result: Err(ClusterFail::ChildFault),
        written: &[],
        faults: (1, 0),
        ends: &[(1, Some(0)), (20, Some(255)), (999, None)],
    },
    // The fifth call is the second end.
    Row {
        ids: IDS,
        failing_calls: &[5],
        failing_writes: &[],
        result: Err(ClusterFail::ChildFault),
        written: b"child 1 status 0\n",
        faults: (1, 0),
        ends: &[(999, Some(255))],
    },
    // The parts of the first line take 2, 1, 2, 1 and 1 writes: the ninth ends `child ` of the second line,
    // and fails. The third child isn't waited for.
    Row {
        ids: IDS,
        failing_calls: &[],
        failing_writes: &[9],
        result: Err(ClusterFail::WriteFault),
        written: b"child 1 status 0\nchil",
        faults: (0, 1),
        ends: &[(999, Some(13))],
    },
];

/// A spawner whose children end with 0, 255 and 13, and whose calls of these numbers, from 1, fail.
fn spawner(alloc: Global, fails: &[u64]) -> Result<FakeSpawner, AllocError> {
    let mut statuses = VecDeque::new(alloc);
    for status in [0, 255, 13] {
        statuses.push_back(status)?;
    }
    Ok(FakeSpawner::new(alloc, statuses, Vec::from_slice(alloc, fails)?))
}

/// A sink that takes four bytes a write at most, and whose writes of these numbers, from 1, fail.
fn sink(alloc: Global, fails: &[u64]) -> Result<MemSink, AllocError> {
    Ok(MemSink::new(Vec::new(alloc), 4, Vec::from_slice(alloc, fails)?))
}

/// Whether children end so.
fn end_so<S: Spawner>(children: &mut S, ends: &[(Pid, Option<u8>)]) -> bool {
    for (id, status) in ends {
        if children.end(*id).ok() != *status {
            return false;
        }
    }
    true
}

/// Whether a cluster goes so.
fn goes(alloc: Global, row: &Row) -> Result<bool, AllocError> {
    let mut children = spawner(alloc, row.failing_calls)?;
    let mut out = sink(alloc, row.failing_writes)?;
    let result = cluster(row.ids, INPUT, &mut out, &mut children);
    let faults = (children.faults(), out.faults());
    let is_told = result == row.result && out.bytes.as_slice() == row.written;
    Ok(is_told && faults == row.faults && end_so(&mut children, row.ends))
}

/// The first of these rows that goes otherwise.
fn first_wrong(alloc: Global, rows: &[Row]) -> Result<Option<usize>, AllocError> {
    for (place, row) in rows.iter().enumerate() {
        if !goes(alloc, row)? {
            return Ok(Some(place));
        }
    }
    Ok(None)
}

#[test]
fn clusters_go_as_their_children_and_their_output_do(rt: HostRuntime) -> Result<(), Fail> {
    assert_eq!(rt; first_wrong(rt.alloc(), &ROWS)?, None);
    Ok(())
}
