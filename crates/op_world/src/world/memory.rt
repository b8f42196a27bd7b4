//! Worlds whose areas are in memory.
ghost use Rattle.std.specs.Prelude.{◌≤◌, All, IfOk};
ghost use Rattle.op_types.specs.Limits.{greatest_number};
ghost use Rattle.op_types.specs.Ranges.{MembersInRange};
ghost use Rattle.op_runs.specs.Possible.{ObserversInRange, SparesInRange, WhatInRange};
ghost use Rattle.op_runs.specs.Schedules.{IsFirstRefused};
ghost use Rattle.op_executions.specs.Failing.{IfBadEvent};
ghost use Rattle.op_world.specs.Drills.{IsReportOfDrill};
ghost use Rattle.op_world.specs.Runs.{IsReportOfDrawn, IsReportOfRun};

use super::World;
use op_areas::MemMirror;
use op_executions::RunFail;
use op_gen::Links;
use op_memory::MemDisk;
use op_runs::{Events, Summary};
use op_types::Members;
use std::alloc::Global;

impl World<MemDisk> {
    /// Runs events at these members, spares and observers, whose areas are mirrored or not, from their start
    /// on, and reports what the run leaves. It is refused exactly where an event names a server that is none
    /// of these, in a stop-sign an observer, or a message that wasn't sent: the first such event is told.
    pub fn run(
        alloc: Global,
        members: Members,
        spares: Members,
        observers: Members,
        is_mirrored: bool,
        events: Events,
    ) -> Result<Summary, RunFail>
        requires members { MembersInRange members }
        requires spares { SparesInRange members spares }
        requires observers { ObserversInRange members spares observers }
        requires events { All (λ e. WhatInRange e.what) events }
        ensures report { IfOk result (IsReportOfRun members spares observers is_mirrored events) }
        ensures bad { IfBadEvent result (IsFirstRefused members spares observers is_mirrored events) }
    {
        if is_mirrored {
            return World::<MemMirror>::run_over(alloc, members, spares, observers, events);
        }
        World::<MemDisk>::run_over(alloc, members, spares, observers, events)
    }

    /// Runs so many events at the drill's members and spares, from their start on, and reports what they
    /// leave. The seed draws each where those before it are done, so that no list of them is kept. No event
    /// is refused.
    pub fn drill(alloc: Global, seed: u64, count: u64) -> Result<Summary, RunFail>
        requires few { count ≤ greatest_number }
        ensures report { IfOk result (IsReportOfDrawn seed count) }
        ensures never_bad { IfBadEvent result (λ _. ⊥) }
    {
        World::<MemDisk>::drill_over(alloc, seed, count)
    }

    /// Runs a drill of links at these members, from their start on, and reports it: three lockstep rounds
    /// over all links, so many over these, and a tick of each member, which then tells its ballots. No event
    /// of it is refused.
    pub fn lockstep(
        alloc: Global,
        members: Members,
        links: &Links<'_>,
        rounds: u64,
    ) -> Result<Summary, RunFail>
        requires { MembersInRange members }
        ensures report { IfOk result (IsReportOfDrill members links.now.pairs.now rounds) }
        ensures never_bad { IfBadEvent result (λ _. ⊥) }
    {
        World::<MemDisk>::lockstep_over(alloc, members, links, rounds)
    }
}
