//! What an observer is shown, and what that does to its service.
ghost use Rattle.std.specs.Prelude.{◌≡◌, ◌≤◌, ◌+◌, true, None, length, is_some, IfOk};
ghost use Rattle.op_types.specs.Changes.{len_of, EndsNowhere};
ghost use Rattle.op_types.specs.Effects.{nothing_plan};
ghost use Rattle.op_types.specs.Limits.{last_conf, positions_end};
ghost use Rattle.op_kv.specs.Bases.{IsBase};
ghost use Rattle.op_change.specs.Over.{nothing_written};
ghost use Rattle.op_plans.specs.Positions.{FitsPositions};
ghost use Rattle.op_observer.specs.Plans.{Hears, Shows, Takes, GoesOn, Rebases, Bases};

use crate::observer_plan::ObserverPlan;
use op_deciding::{Served, service_from};
use op_kv::Map;
use op_plans::Member;
use op_types::{
    Blob, Body, Change, ConfNo, Entries, Members, Msg, NoMemory, Piece, Plan, Shared, Turn, Watch,
};
use op_watch::{BaseStage, completed, lacking, rebased, shown, staged};
use std::alloc::Global;

/// A message comes: it drops all but what members show it.
pub(crate) fn hear(
    member: &Member,
    stage: &BaseStage,
    service: &Map,
    message: Msg,
) -> Result<ObserverPlan, NoMemory>
    requires positions { FitsPositions member.now.part.now }
    requires settled { service.now.waiting ≡ 0 }
    ensures { IfOk result (Hears member.now stage.now service.now.service message) }
{
    let Msg { conf, body } = message;
    match body {
        Body::Watch(watch) => hear_member(member, stage, service, conf, watch),
        _ => Ok(doing_nothing(member)),
    }
}

/// What a member shows it comes. What it asks itself is nothing to it.
fn hear_member(
    member: &Member,
    stage: &BaseStage,
    service: &Map,
    conf: ConfNo,
    watch: Watch,
) -> Result<ObserverPlan, NoMemory>
    requires positions { FitsPositions member.now.part.now }
    requires settled { service.now.waiting ≡ 0 }
    ensures { IfOk result (Hears member.now stage.now service.now.service
        (record { conf = conf; body = Body.Watch watch })) }
{
    match watch {
        Watch::Shown(at, entries) => take_entries(member, service, conf, at, entries),
        Watch::Base(members, piece) => take_piece(member, stage, conf, members, piece),
        Watch::Ask(_) => Ok(doing_nothing(member)),
    }
}

/// Nothing happens.
fn doing_nothing(member: &Member) -> ObserverPlan
    ensures { result ≡ record { plan = nothing_plan; change = nothing_written; service = None } }
{
    ObserverPlan::alone(member.alloc, member.nothing())
}

/// Decided entries come.
fn take_entries(
    member: &Member,
    service: &Map,
    conf: ConfNo,
    at: u64,
    entries: Entries,
) -> Result<ObserverPlan, NoMemory>
    requires positions { FitsPositions member.now.part.now }
    requires settled { service.now.waiting ≡ 0 }
    ensures { IfOk result (Shows member.now service.now.service conf at entries) }
{
    match lacking(member, conf, at, entries)? {
        Some(new) => take_new(member, service, new),
        None => Ok(doing_nothing(member)),
    }
}

/// What it lacks of them goes to its log, and to the service.
fn take_new(member: &Member, service: &Map, new: Entries) -> Result<ObserverPlan, NoMemory>
    requires positions { FitsPositions member.now.part.now }
    requires settled { service.now.waiting ≡ 0 }
    requires room { len_of member.now.part.now + length new ≤ positions_end }
    requires stops { EndsNowhere member.now.part.now.conf new }
    ensures { IfOk result (Takes member.now service.now.service new) }
{
    let mut served = Served::nothing(member.alloc);
    served.serve(member.alloc, service, new.as_slice())?;
    let plan = shown(member, new)?;
    go_on_behind(member, service, plan, served)
}

/// Behind a stop-sign it goes on in the next configuration, with the service's state after the whole list.
fn go_on_behind(
    member: &Member,
    service: &Map,
    mut plan: Plan,
    served: Served,
) -> Result<ObserverPlan, NoMemory>
    requires settled { service.now.waiting ≡ 0 }
    requires number { is_some served.stop ≡ true → member.now.part.now.conf ≡ last_conf → ⊥ }
    ensures { IfOk result (GoesOn member.now.part.now.conf service.now.service plan served) }
{
    let Served { change, stop, .. } = served;
    match stop {
        Some(stop) => {
            let base = service.base_bytes_after(member.alloc, &change)?;
            let members = Shared::new(member.alloc, stop.members)?;
            let conf = member.part.conf + 1;
            plan.batch.push(Change::Rebase(conf, members, 0, base))?;
            plan.set_turn(Turn::Renew);
            Ok(ObserverPlan::serving(plan, change))
        }
        None => Ok(ObserverPlan::serving(plan, change)),
    }
}

/// A piece of a base comes. Where it completes the base, the observer goes on from there, and the service is
/// read from it.
fn take_piece(
    member: &Member,
    stage: &BaseStage,
    conf: ConfNo,
    members: Shared<Members>,
    piece: Piece,
) -> Result<ObserverPlan, NoMemory>
    requires { FitsPositions member.now.part.now }
    ensures { IfOk result (Bases member.now stage.now conf members piece) }
{
    match completed(member, stage, conf, &piece)? {
        Some(base) => rebase(member.alloc, conf, members, piece.at, base),
        None => {
            let plan = staged(member, stage, conf, piece)?;
            Ok(ObserverPlan::alone(member.alloc, plan))
        }
    }
}

/// The observer goes on from a base, and its service is read from that.
fn rebase(
    alloc: Global,
    conf: ConfNo,
    members: Shared<Members>,
    at: u64,
    base: Blob,
) -> Result<ObserverPlan, NoMemory>
    requires { IsBase base }
    ensures { IfOk result (Rebases conf members at base) }
{
    let service = service_from(alloc, base.as_slice(), &[])?;
    let plan = rebased(alloc, conf, members, at, base)?;
    Ok(ObserverPlan::anew(alloc, plan, service))
}
