//! A drill of events that are drawn.
ghost use Rattle.std.specs.Prelude.{◌≡◌, ◌≤◌, IfOk};
ghost use Rattle.op_types.specs.Limits.{greatest_number};
ghost use Rattle.op_world.specs.Runs.{IsReportOfDrawn};
ghost use Rattle.op_drill.specs.Drills.{IsSummaryTextOf, RandomDrillEnds};

use crate::telling::tell;
use op_outside::Sink;
use op_runs::Summary;
use op_sched::summary_text;
use op_status::Status;
use op_types::NoMemory;
use op_world::World;
use std::alloc::Global;

/// Runs so many events that a seed draws, and writes a summary of what they leave, nothing before the last is
/// done. `WriteFault` comes where a write failed.
pub fn drill<K: Sink>(alloc: Global, seed: u64, events: u64, out: &mut K) -> Status
    requires few { events ≤ greatest_number }
    ensures { RandomDrillEnds seed events
        (K.held out.old, K.fault_count out.old) (K.held out.new, K.fault_count out.new) result }
{
    match drill_text(alloc, seed, events) {
        Ok(text) => tell(&text, out),
        Err(NoMemory) => Status::NoMemory,
    }
}

/// What is written.
fn drill_text(alloc: Global, seed: u64, events: u64) -> Result<Vec<u8>, NoMemory>
    requires { events ≤ greatest_number }
    ensures { IfOk result (λ text. IsSummaryTextOf seed events text.items) }
{
    let summary = drilled(alloc, seed, events)?;
    summary_text(alloc, seed, events, &summary)
}

/// What is reported of the drill. No event of it is refused, so that an error is want of memory.
fn drilled(alloc: Global, seed: u64, events: u64) -> Result<Summary, NoMemory>
    requires { events ≤ greatest_number }
    ensures { IfOk result (IsReportOfDrawn seed events) }
{
    match World::drill(alloc, seed, events) {
        Ok(summary) => Ok(summary),
        Err(_) => Err(NoMemory),
    }
}
