//! A leader's entries come in parts, and are staged until they go on from the log.
ghost use Rattle.std.specs.Prelude.{◌≡◌, ◌≤◌, ◌+◌, ◌-◌, true, length, IfOk};
ghost use Rattle.op_types.specs.Limits.{positions_end};
ghost use Rattle.op_types.specs.Changes.{len_of};
ghost use Rattle.op_types.specs.Joinings.{held_with};
ghost use Rattle.op_types.specs.declared.messages.Body.TheVariants.{Accepted};
ghost use Rattle.op_types.specs.declared.turn.Turn.TheVariants.{Stage};
ghost use Rattle.op_protocol.specs.Parts.{is_run_to};
ghost use Rattle.op_protocol.specs.Follower.{synced_changes, on_first_part, appended_staged, on_accept_sync_part};
ghost use Rattle.op_plans.specs.Positions.{FitsPositions};
ghost use Rattle.op_follower.specs.Staging.{StagedIsAdmitted, DoesStep, HasRoomToStage, telling, appended_body};

use crate::fronts::{front, whole_sync};
use op_accepting::synced_batch;
use op_plans::{Member, push_append};
use op_types::{Ballot, Body, Entries, Entry, Held, POSITIONS_END, Pid, Plan, SyncRun, Turn};
use std::alloc::AllocError as NoMemory;

/// A part of an accept sync comes in the promised round: it is staged, and what goes on from the log then is
/// added to it. Nothing changes yet but the room for it.
pub fn on_accept_sync_part(
    member: &Member,
    staged: &mut Held,
    from: Pid,
    ballot: Ballot,
    part: SyncRun,
) -> Result<Plan, NoMemory>
    requires positions { FitsPositions member.now.part.now }
    requires admitted { part.at + length part.run ≤ positions_end }
    requires staged { StagedIsAdmitted member.now.part.now.conf staged.old.items }
    ensures row { IfOk result (λ plan. DoesStep staged.old.items plan
        (λ v. on_accept_sync_part member.now.part.now v from ballot part)) }
    ensures same { staged.new.items ≡ staged.old.items }
    ensures room { IfOk result (λ plan. HasRoomToStage plan.turn staged.new) }
{
    let own = member.part;
    if !own.promised.is_same(ballot) || !is_run_to(part.end, part.at, part.run.as_slice()) {
        return Ok(member.nothing());
    }
    if own.accepted.is_below(ballot) {
        return first_part(member, staged, from, ballot, part);
    }
    if own.accepted.is_same(ballot) {
        return later_part(member, staged, from, ballot, part);
    }
    Ok(member.nothing())
}

/// Whether a run isn't empty, and ends at most there.
fn is_run_to(end: u64, at: u64, run: &[Entry]) -> bool
    requires { at + length run.now ≤ positions_end }
    ensures { result ≡ is_run_to end at run.now }
{
    !run.is_empty() && at + run.len() as u64 <= end
}

/// A part of the first accept sync of the promised ballot: the leader's log takes the place of the own one
/// once all of the accept sync is there.
fn first_part(
    member: &Member,
    staged: &mut Held,
    from: Pid,
    ballot: Ballot,
    part: SyncRun,
) -> Result<Plan, NoMemory>
    requires positions { FitsPositions member.now.part.now }
    requires admitted { part.at + length part.run ≤ positions_end }
    requires run { is_run_to part.end part.at part.run ≡ true }
    requires staged { StagedIsAdmitted member.now.part.now.conf staged.old.items }
    ensures row { IfOk result (λ plan. DoesStep staged.old.items plan
        (λ v. on_first_part member.now.part.now v from ballot part)) }
    ensures same { staged.new.items ≡ staged.old.items }
    ensures room { IfOk result (λ plan. HasRoomToStage plan.turn staged.new) }
{
    let len = member.log_len();
    if part.start < member.part.decided || len < part.start || part.at < part.start {
        return Ok(member.nothing());
    }
    match whole_sync(member.alloc, staged.as_slice(), &part)? {
        None => staging(staged, member.nothing(), part, 0),
        Some(entries) => {
            let end = part.start + entries.len() as u64;
            let plan = synced(member, from, ballot, part.start, entries)?;
            staging(staged, plan, part, end)
        }
    }
}

/// The leader's log takes the place of the own one from a position on, which is told.
fn synced(
    member: &Member,
    to: Pid,
    ballot: Ballot,
    start: u64,
    entries: Entries,
) -> Result<Plan, NoMemory>
    requires positions { FitsPositions member.now.part.now }
    requires decided { member.now.part.now.decided ≤ start }
    requires within { start ≤ len_of member.now.part.now }
    requires admitted { start + length entries ≤ positions_end }
    ensures { IfOk result (λ plan. plan ≡ telling member.now.part.now to
        (synced_changes member.now.part.now ballot start entries)
        (Accepted ballot (start + length entries))) }
{
    let len = start + entries.len() as u64;
    let mut plan = member.saying(to, Body::Accepted(ballot, len))?;
    plan.batch = synced_batch(member, ballot, start, entries)?;
    Ok(plan)
}

/// A part of a later accept sync: what is staged from the log's end on is added, up to the first gap.
fn later_part(
    member: &Member,
    staged: &mut Held,
    from: Pid,
    ballot: Ballot,
    part: SyncRun,
) -> Result<Plan, NoMemory>
    requires positions { FitsPositions member.now.part.now }
    requires admitted { part.at + length part.run ≤ positions_end }
    requires staged { StagedIsAdmitted member.now.part.now.conf staged.old.items }
    ensures row { IfOk result (λ plan. DoesStep staged.old.items plan (λ v.
        appended_staged member.now.part.now v from ballot part.at
        (held_with v.staged part.at part.run))) }
    ensures same { staged.new.items ≡ staged.old.items }
    ensures room { IfOk result (λ plan. HasRoomToStage plan.turn staged.new) }
{
    let len = member.log_len();
    let entries = front(member.alloc, staged.as_slice(), &part, len, POSITIONS_END)?;
    let new_len = len + entries.len() as u64;
    let mut plan = member.saying(from, appended_body(ballot, new_len, part.at))?;
    push_append(&mut plan.batch, entries)?;
    staging(staged, plan, part, new_len)
}

/// What the leader is told of the log's new length: where entries are still missing before a place, it is
/// asked to prepare.
fn appended_body(ballot: Ballot, len: u64, at: u64) -> Body
    ensures { result ≡ appended_body ballot len at }
{
    if len < at {
        Body::PrepareReq
    } else {
        Body::Accepted(ballot, len)
    }
}

/// The plan stages a part too, for which there is room then; of all that is staged, what stands below a
/// position leaves.
fn staging(staged: &mut Held, plan: Plan, part: SyncRun, from: u64) -> Result<Plan, NoMemory>
    requires { part.at + length part.run ≤ positions_end }
    ensures plan { IfOk result (λ x. x ≡ record plan { turn = Stage part.at part.run from }) }
    ensures same { staged.new.items ≡ staged.old.items }
    ensures room { IfOk result (λ plan. HasRoomToStage plan.turn staged.new) }
{
    staged.make_room(part.run.len())?;
    Ok(plan.with_turn(Turn::Stage(part.at, part.run, from)))
}
