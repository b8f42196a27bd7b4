//! A drill of events that are drawn one at a time.
ghost use Rattle.std.specs.Prelude.{◌≡◌, ◌≤◌, [], false, IfOk};
ghost use Rattle.op_types.specs.Limits.{greatest_number};
ghost use Rattle.op_runs.specs.Run.{first_execution};
ghost use Rattle.op_areas.specs.Media.{medium};
ghost use Rattle.op_runs.specs.Schedules.{no_plans};
ghost use Rattle.op_gen.specs.Draws.{drill_ids, drill_members, drill_spares};
ghost use Rattle.op_executions.specs.Failing.{IfBadEvent};
ghost use Rattle.op_world.specs.Plans.{ArePlanned};
ghost use Rattle.op_world.specs.Runs.{IsReportOfDrawn};
ghost use Rattle.op_world.specs.Worlds.{Shows};

use super::World;
use op_areas::Area;
use op_executions::RunFail;
use op_gen::Gen;
use op_runs::Summary;
use op_types::{Members, NoMemory};
use std::alloc::Global;

/// The drill's members and spares at their start, with empty disks.
fn first_world<A: Area>(alloc: Global) -> Result<World<A>, NoMemory>
    ensures shows { IfOk result (λ w.
        Shows (medium A.state A.holds A.IS_MIRRORED) w (first_execution drill_members drill_spares)) }
    ensures members { IfOk result (λ w. w.members ≡ drill_members) }
    ensures ids { IfOk result (λ w. w.ids ≡ drill_ids) }
    ensures proposed { IfOk result (λ w. w.proposed ≡ 0) }
    ensures planned { IfOk result (λ w. ArePlanned w.nodes no_plans) }
{
    let members = Members::from_slice(&[1, 2, 3])?;
    let spares = Members::from_slice(&[4, 5])?;
    let none = Members::new();
    World::<A>::new(alloc, members, &spares, &none)
}

impl<A: Area> World<A> {
    /// Runs so many events at the drill's members and spares, from their start on, and reports what they
    /// leave. The seed draws each where those before it are done, so that no list of them is kept. No event
    /// is refused. Its areas are not mirrored.
    pub(crate) fn drill_over(alloc: Global, seed: u64, count: u64) -> Result<Summary, RunFail>
        requires plain { A.IS_MIRRORED ≡ false }
        requires few { count ≤ greatest_number }
        ensures report { IfOk result (IsReportOfDrawn seed count) }
        ensures never_bad { IfBadEvent result (λ _. ⊥) }
    {
        let mut world = first_world::<A>(alloc)?;
        let mut events = Gen::new(seed);
        for _done in 0..count {
            let event = events.next(alloc, world.sent())?;
            world = world.event(event)?;
        }
        Ok(world.summary()?)
    }
}
