ghost use Rattle.std.specs.Prelude.{◌≡◌, ◌++◌, All, IfOk};
ghost use Rattle.op_types.specs.Ranges.{MembersInRange};
ghost use Rattle.op_runs.specs.Possible.{ObserversInRange, SparesInRange, WhatInRange};
ghost use Rattle.op_runs.specs.Schedules.{observers_begun};
ghost use Rattle.op_runs.specs.World as runs;
ghost use Rattle.op_executions.specs.Failing.{IfBadEvent};
ghost use Rattle.op_pure.specs.Happenings.{happenings_of, IsFirstBad};
ghost use Rattle.op_pure.specs.Runs.{KeepsTheLaws};
ghost use Rattle.op_pure.specs.Worlds.{Shows};

use crate::happening::{Foretold, Happening, Happenings};
use crate::node::PureNode;
use op_executions::{RunFail, ServerWorld};
use op_runs::Line;
use op_types::Members;
use std::alloc::Global;
use std::marker::Model;

/// Members, spares and observers without disks, all messages that were sent, and what the happenings gave to
/// be reported.
#[derive(Drop)]
pub struct PureWorld {
    world: ServerWorld<PureNode>,
}

impl Model for PureWorld {
    ghost use Rattle.op_pure.specs.Worlds.{Parts};

    ghost Value = { Parts };

    ghost view = { λ w. record {
      nodes = w.world.servers.items;
      messages = w.world.messages.items;
      lines = w.world.lines;
    } };
}

impl PureWorld {
    /// Runs these happenings at these members, spares and observers, from their start on. It is refused
    /// exactly where an event names a server that is none of these, in a stop-sign an observer, or a message
    /// that wasn't sent: the first such event is told.
    pub fn run(
        alloc: Global,
        members: Members,
        spares: Members,
        observers: Members,
        happenings: Happenings,
    ) -> Result<PureWorld, RunFail>
        requires members { MembersInRange members }
        requires spares { SparesInRange members spares }
        requires observers { ObserversInRange members spares observers }
        requires happenings { All (λ h. WhatInRange h.event.what) happenings }
        ensures world { IfOk result (λ w.
            Shows w (runs.run_of (runs.first_world members spares)
            (observers_begun observers ++ happenings_of happenings))) }
        ensures laws { IfOk result (λ _. KeepsTheLaws members spares observers (happenings_of happenings)) }
        ensures bad { IfBadEvent result (IsFirstBad members spares observers (happenings_of happenings)) }
    {
        let mut world: ServerWorld<PureNode> = ServerWorld::new(
            alloc, members, &spares, &observers,
        )?;
        let mut index = 0;
        for happening in happenings.into_vec() {
            let Happening {
                event,
                fate,
                finds_after,
            } = happening;
            match world.event(event, Foretold { fate, finds_after }) {
                Ok(_) => index += 1,
                Err(RunFail::BadEvent { .. }) => return Err(RunFail::BadEvent { index }),
                Err(RunFail::NoMemory) => return Err(RunFail::NoMemory),
            }
        }
        Ok(PureWorld { world })
    }

    /// What the happenings gave to be reported.
    pub fn lines(&self) -> &[Line]
        ensures { result.now ≡ self.now.lines }
    {
        self.world.lines.as_slice()
    }
}
