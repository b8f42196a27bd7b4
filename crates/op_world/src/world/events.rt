//! What happens by an event in a world, and what awaits a node from it on.
ghost use Rattle.std.specs.Prelude.{◌≡◌, ◌<◌, length, IfOk, IfSome, OnOk};
ghost use Rattle.op_types.specs.Ranges.{IsMember};
ghost use Rattle.op_runs.specs.Possible.{is_possible, WhatInRange};
ghost use Rattle.op_areas.specs.Media.{medium};
ghost use Rattle.op_runs.specs.Run.{Execution};
ghost use Rattle.op_runs.specs.Schedules.{DiskPlans};
ghost use Rattle.op_executions.specs.Failing.{IfBadEvent};
ghost use Rattle.op_executions.specs.Worlds.{KeepsServers};
ghost use Rattle.op_world.specs.Events.{parts_of, IsPlannedAt, CanCome, EventComes, HappensAt, IsBadEvent, IsCounted, StopsAt};
ghost use Rattle.op_world.specs.Plans.{ArePlanned};
ghost use Rattle.op_replay_nodes.specs.Nodes.{area_nodes};
ghost use Rattle.op_world.specs.Worlds.{IsWorld, Shows};

use crate::ledger::Ledger;
use op_areas::Area;
use op_executions::{RunFail, ServerWorld, place_of};
use op_replay_nodes::{Planned, WorldNode};
use op_runs::{Event, What};
use op_types::{NoMemory, Pid};

/// An event comes: it happens, and where a stop is due then the node stops; or it awaits a node from now on.
#[inline(always)]
pub fn come<A: Area>(
    world: &mut ServerWorld<WorldNode<A, A::Copies>>,
    ledger: &mut Ledger,
    event: Event,
) -> Result<(), RunFail>
    requires range { WhatInRange event.what }
    requires kept { IsWorld (medium A.state A.holds A.IS_MIRRORED) (parts_of world.old ledger.old) }
    ensures comes { OnOk result ((t : Execution) (plans : DiskPlans)
        → Shows (medium A.state A.holds A.IS_MIRRORED) (parts_of world.old ledger.old) t
        → ArePlanned world.old.servers.items plans
        → EventComes (medium A.state A.holds A.IS_MIRRORED) (parts_of world.old ledger.old) event t plans
        (parts_of world.new ledger.new)) }
    ensures kept { OnOk result
        (IsWorld (medium A.state A.holds A.IS_MIRRORED) (parts_of world.new ledger.new)) }
    ensures can { OnOk result
        (CanCome (parts_of world.old ledger.old) event (parts_of world.new ledger.new)) }
    ensures bad { IfBadEvent result (IsBadEvent (parts_of world.old ledger.old) event) }
{
    let line = event.line;
    let planned = Planned::by(&event.what);
    match happen(world, ledger, event)? {
        Some(place) => {
            if !world.servers[place].is_due {
                return Ok(());
            }
            stop_at(world, ledger, place, line)
        }
        None => {
            let Some((pid, planned)) = planned else {
                return Ok(());
            };
            plan_at(world, pid, planned)?;
            Ok(())
        }
    }
}

/// An event happens: where something is done at a node, that shows what it has stored then. Gives the node's
/// place.
#[inline(always)]
fn happen<A: Area>(
    world: &mut ServerWorld<WorldNode<A, A::Copies>>,
    ledger: &mut Ledger,
    event: Event,
) -> Result<Option<usize>, RunFail>
    requires range { WhatInRange event.what }
    requires kept { IsWorld (medium A.state A.holds A.IS_MIRRORED) (parts_of world.old ledger.old) }
    ensures happens { IfOk result (λ at. (t : Execution) (plans : DiskPlans)
        → Shows (medium A.state A.holds A.IS_MIRRORED) (parts_of world.old ledger.old) t
        → ArePlanned world.old.servers.items plans
        → HappensAt (medium A.state A.holds A.IS_MIRRORED) (parts_of world.old ledger.old) event t plans at
        (parts_of world.new ledger.new)) }
    ensures place { IfOk result (λ at. IfSome at (λ place. place < length world.new.servers.items)) }
    ensures kept { OnOk result
        (IsWorld (medium A.state A.holds A.IS_MIRRORED) (parts_of world.new ledger.new)) }
    ensures can { OnOk result
        (CanCome (parts_of world.old ledger.old) event (parts_of world.new ledger.new)) }
    ensures bad { IfBadEvent result (IsBadEvent (parts_of world.old ledger.old) event) }
{
    match world.event(event, ())? {
        Some(place) => {
            ledger.show_server(&world.servers[place])?;
            Ok(Some(place))
        }
        None => Ok(None),
    }
}

/// The node at this place stops, as this line of the schedule says.
#[inline(never)]
fn stop_at<A: Area>(
    world: &mut ServerWorld<WorldNode<A, A::Copies>>,
    ledger: &mut Ledger,
    place: usize,
    line: u64,
) -> Result<(), RunFail>
    requires kept { IsWorld (medium A.state A.holds A.IS_MIRRORED) (parts_of world.old ledger.old) }
    requires there { place < length world.old.servers.items }
    ensures stops { OnOk result ((t : Execution) (plans : DiskPlans)
        → Shows (medium A.state A.holds A.IS_MIRRORED) (parts_of world.old ledger.old) t
        → ArePlanned world.old.servers.items plans
        → StopsAt (medium A.state A.holds A.IS_MIRRORED) (parts_of world.old ledger.old) place line t plans
        (parts_of world.new ledger.new)) }
    ensures kept { OnOk result
        (IsWorld (medium A.state A.holds A.IS_MIRRORED) (parts_of world.new ledger.new)) }
    ensures same { OnOk result (IsCounted (parts_of world.old ledger.old) 0 (parts_of world.new ledger.new)) }
    ensures never_bad { IfBadEvent result (λ _. ⊥) }
{
    let pid = world.servers[place].pid;
    let what = What::Crash(pid);
    happen(world, ledger, Event { line, what })?;
    Ok(())
}

/// From now on this is planned for the disks of a node.
#[inline(never)]
fn plan_at<A: Area>(
    world: &mut ServerWorld<WorldNode<A, A::Copies>>,
    pid: Pid,
    planned: Planned,
) -> Result<(), NoMemory>
    requires kept { KeepsServers (area_nodes (medium A.state A.holds A.IS_MIRRORED)) world.old }
    requires known { IsMember world.old.ids.items pid }
    ensures { OnOk result
        (IsPlannedAt (medium A.state A.holds A.IS_MIRRORED) pid planned world.old world.new) }
{
    let alloc = world.alloc;
    let place = place_of(&world.ids, pid);
    world.servers[place].plan_on(alloc, planned)
}
