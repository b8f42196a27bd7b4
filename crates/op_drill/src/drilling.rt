//! A drill of links.
ghost use Rattle.std.specs.Prelude.{◌≡◌, IfOk};
ghost use Rattle.std.specs.List.{flat_map};
ghost use Rattle.op_sched.specs.Text.{line_text};
ghost use Rattle.op_gen.specs.Scenarios.{links_of, members_of};
ghost use Rattle.op_world.specs.Drills.{IsReportOfDrill};
ghost use Rattle.op_drill.specs.Drills.{DrillEnds, IsTextOf, first_line};

use crate::telling::tell;
use op_gen::Scenario;
use op_outside::Sink;
use op_runs::{Lines, Lists, NodeLines, Summary};
use op_sched::report;
use op_status::Status;
use op_types::NoMemory;
use op_world::World;
use std::alloc::Global;

/// Runs three lockstep rounds over all links among the scenario's members, then so many over the links that
/// it leaves, and writes which ballots each member then knows. `WriteFault` comes where a write failed.
pub fn drill_links<K: Sink>(alloc: Global, scenario: Scenario, rounds: u64, out: &mut K) -> Status
    ensures { DrillEnds scenario rounds
        (K.held out.old, K.fault_count out.old) (K.held out.new, K.fault_count out.new) result }
{
    match drill_text(alloc, scenario, rounds) {
        Ok(text) => tell(&text, out),
        Err(NoMemory) => Status::NoMemory,
    }
}

/// What is written.
fn drill_text(alloc: Global, scenario: Scenario, rounds: u64) -> Result<Vec<u8>, NoMemory>
    ensures { IfOk result (λ text. IsTextOf scenario rounds text.items) }
{
    let summary = drilled(alloc, scenario, rounds)?;
    let mut text = first_line(alloc, scenario, rounds)?;
    let lines = lines_text(alloc, summary.lines)?;
    text.extend_from_slice(&lines)?;
    Ok(text)
}

/// What is reported of the drill. No event of it is refused, so that an error is want of memory.
fn drilled(alloc: Global, scenario: Scenario, rounds: u64) -> Result<Summary, NoMemory>
    ensures { IfOk result (IsReportOfDrill (members_of scenario) (links_of scenario) rounds) }
{
    let members = scenario.members()?;
    let links = scenario.links();
    match World::lockstep(alloc, members, &links, rounds) {
        Ok(summary) => Ok(summary),
        Err(_) => Err(NoMemory),
    }
}

/// The first line, which names the drill.
fn first_line(alloc: Global, scenario: Scenario, rounds: u64) -> Result<Vec<u8>, NoMemory>
    ensures { IfOk result (λ text. text.items ≡ first_line scenario rounds) }
{
    Ok(format!(in alloc; "links {} {rounds}\n", scenario.name())?.into_bytes())
}

/// Lines of a report, as text.
fn lines_text(alloc: Global, lines: Lines) -> Result<Vec<u8>, NoMemory>
    ensures { IfOk result (λ text. text.items ≡ flat_map line_text lines) }
{
    let summary = Summary {
        lines,
        lists: Lists::new(alloc),
        nodes: NodeLines::new(alloc),
        sent: 0,
    };
    report(alloc, &summary)
}
