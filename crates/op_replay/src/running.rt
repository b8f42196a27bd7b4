//! From a schedule's bytes to the report of its run.
ghost use Rattle.std.specs.Prelude.{◌≡◌, map, IfOk};
ghost use Rattle.op_types.specs.Ranges.{MembersInRange};
ghost use Rattle.op_runs.specs.Possible.{ObserversInRange, SparesInRange};
ghost use Rattle.op_sched.specs.Failing.{IfBadLine};
ghost use Rattle.op_sched.specs.Grammar.{AreInRange};
ghost use Rattle.op_world.specs.Runs.{IsReportOfRun};
ghost use Rattle.op_replay.specs.Replay.{IsLineOfFirstBad};
ghost use Rattle.op_replay.specs.Called.{Reports, IsBadAt};

use op_runs::{Event, Events, Summary};
use op_sched::{SchedFail, read, report};
use op_types::Members;
use op_world::{RunFail, World};
use std::alloc::{AllocError, Global};

/// The line of each event, in order.
fn lines_of(alloc: Global, events: &[Event]) -> Result<Vec<u64>, AllocError>
    ensures { IfOk result (λ lines. lines.items ≡ map (λ e. e.line) events.now) }
{
    let mut lines = Vec::new(alloc);
    for event in events {
        lines.push(event.line)?;
    }
    Ok(lines)
}

/// Runs the events at these members, spares and observers, whose disks are mirrored or not. A refusal tells
/// the line of the first event that can't come in this run.
fn run(
    alloc: Global,
    members: Members,
    spares: Members,
    observers: Members,
    is_mirrored: bool,
    events: Events,
) -> Result<Summary, SchedFail>
    requires members { MembersInRange members }
    requires spares { SparesInRange members spares }
    requires observers { ObserversInRange members spares observers }
    requires range { AreInRange events }
    ensures report { IfOk result (IsReportOfRun members spares observers is_mirrored events) }
    ensures bad { IfBadLine result (IsLineOfFirstBad members spares observers is_mirrored events) }
{
    let Ok(lines) = lines_of(alloc, events.as_slice()) else {
        return Err(SchedFail::NoMemory);
    };
    match World::run(alloc, members, spares, observers, is_mirrored, events) {
        Ok(summary) => Ok(summary),
        Err(RunFail::BadEvent { index }) => Err(SchedFail::BadLine {
            line: lines[index as usize],
        }),
        Err(RunFail::NoMemory) => Err(SchedFail::NoMemory),
    }
}

/// The report of a run of the schedule that bytes say. The bytes are let go before the run.
pub fn replayed(alloc: Global, bytes: Vec<u8>) -> Result<Vec<u8>, SchedFail>
    ensures reports { IfOk result (λ text. Reports bytes.items text.items) }
    ensures bad { IfBadLine result (IsBadAt bytes.items) }
{
    let schedule = read(alloc, &bytes)?;
    drop(bytes);
    let summary = run(
        alloc,
        schedule.members,
        schedule.spares,
        schedule.observers,
        schedule.is_mirrored,
        schedule.events,
    )?;
    Ok(report(alloc, &summary)?)
}
