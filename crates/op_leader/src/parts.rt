//! A part of a promise comes.
ghost use Rattle.std.specs.Prelude.{◌≡◌, ◌≤◌, ◌<◌, ◌+◌, ◌&&◌, ◌==◌, ℕ, nat_le, List, length, IfOk};
ghost use Rattle.op_types.specs.Limits.{positions_end};
ghost use Rattle.op_types.specs.Effects.{effects_of};
ghost use Rattle.op_types.specs.RoleStates.{promises_with, told_by};
ghost use Rattle.op_types.specs.Roles.{role_of, preparing_of, HasRoom};
ghost use Rattle.op_types.specs.declared.log.Entry.{Entry};
ghost use Rattle.op_types.specs.declared.role.Role.TheVariants as role;
ghost use Rattle.op_protocol.specs.Parts.{is_run_to};
ghost use Rattle.op_protocol.specs.Promises.{is_usable, has_quorum};
ghost use Rattle.op_protocol.specs.Leader.{on_promise_part};
ghost use Rattle.op_plans.specs.Positions.{FitsPositions};
ghost use Rattle.op_choosing.specs.Choosing.{AreAdmitted};
ghost use Rattle.op_leader.specs.Adopting.{PromisesAreAdmitted, AreStagedWithin, StagesAreAdmitted};
ghost use Rattle.op_leader.specs.Completing.{IsRun, takes_part, keeps_part};

use crate::adopting::adopt;
use crate::promised::sync_again;
use crate::staged::{completes, make_stage_room, told_by, whole_promise};
use op_choosing::{Offers, is_above};
use op_plans::Member;
use op_types::{Ballot, Entries, Pid, Plan, Preparing, Promised, PromisedRun, Role, Turn};
use std::alloc::AllocError as NoMemory;

/// A part of a promise comes: it is staged until all of the promise is there, which then counts as if it had
/// come whole. At a leader the last part counts as a promise without entries.
pub fn on_promise_part(
    member: &Member,
    role: &mut Role,
    from: Pid,
    ballot: Ballot,
    part: PromisedRun,
) -> Result<Plan, NoMemory>
    requires positions { FitsPositions member.now.part.now }
    requires members { 0 < length member.now.part.now.members }
    requires promises { PromisesAreAdmitted (role_of role.old) }
    requires stages { StagesAreAdmitted (role_of role.old) }
    requires admitted { part.at + length part.run ≤ positions_end }
    ensures row { IfOk result (λ plan. effects_of role.old plan
        ≡ on_promise_part member.now.me member.now.part.now (role_of role.old) from ballot part) }
    ensures role { role_of role.new ≡ role_of role.old }
    ensures room { IfOk result (λ plan. HasRoom plan.turn role.new) }
{
    match role {
        Role::Idle => Ok(member.nothing()),
        Role::Preparing(preparing) => {
            if ballot.is_same(preparing.ballot) && is_run(&part) {
                take_part(member, preparing, from, part)
            } else {
                Ok(member.nothing())
            }
        }
        Role::Leading(leading) => {
            if is_last(&part) && ballot.is_same(leading.ballot) {
                leading.synced.make_room(1)?;
                let promised = told_by(from, &part, Entries::new(member.alloc));
                sync_again(member, leading, promised)
            } else {
                Ok(member.nothing())
            }
        }
    }
}

/// Whether a part's run isn't empty, and stands among its promise's entries.
fn is_run(part: &PromisedRun) -> bool
    requires { part.now.at + length part.now.run ≤ positions_end }
    ensures { result
        ≡ (nat_le part.now.start part.now.at && is_run_to part.now.len part.now.at part.now.run) }
{
    part.start <= part.at && !part.run.is_empty() && part.at + part.run.len() as u64 <= part.len
}

/// Whether a part's run ends where its promise's entries end.
fn is_last(part: &PromisedRun) -> bool
    requires { part.now.at + length part.now.run ≤ positions_end }
    ensures { result ≡ (part.now.at + length part.now.run == part.now.len) }
{
    part.at + part.run.len() as u64 == part.len
}

/// A part comes to a node that prepares: it is staged, or the promise that it completes counts.
fn take_part(
    member: &Member,
    preparing: &mut Preparing,
    from: Pid,
    part: PromisedRun,
) -> Result<Plan, NoMemory>
    requires positions { FitsPositions member.now.part.now }
    requires members { 0 < length member.now.part.now.members }
    requires promises { AreAdmitted preparing.old.promises.items }
    requires stages { AreStagedWithin (preparing_of preparing.old).stages }
    requires run { IsRun part }
    ensures row { IfOk result (λ plan. effects_of (role.Preparing preparing.old) plan
        ≡ takes_part member.now.me member.now.part.now (preparing_of preparing.old) from part) }
    ensures role { preparing_of preparing.new ≡ preparing_of preparing.old }
    ensures room { IfOk result (λ plan. HasRoom plan.turn (role.Preparing preparing.new)) }
{
    if !completes(preparing.stages.as_slice(), from, &part) {
        return keep_part(member, preparing, from, part);
    }
    if !is_usable_whole(member, &part) {
        let mut plan = member.nothing();
        plan.set_turn(Turn::DropParts(from));
        return Ok(plan);
    }
    let told = told_by(from, &part, Entries::new(member.alloc));
    if !have_quorum_with(member, preparing.promises.as_slice(), told) {
        return keep_part(member, preparing, from, part);
    }
    let whole = whole_promise(member.alloc, preparing.stages.as_slice(), from, part)?;
    let new = Some(whole);
    let offers = Offers {
        kept: preparing.promises.as_slice(),
        new: &new,
    };
    adopt(
        member,
        preparing.ballot,
        &offers,
        preparing.buffer.as_slice(),
    )
}

/// A part is kept, and the promise once all of it is there.
fn keep_part(
    member: &Member,
    preparing: &mut Preparing,
    from: Pid,
    part: PromisedRun,
) -> Result<Plan, NoMemory>
    requires { IsRun part }
    ensures row { IfOk result (λ plan. effects_of (role.Preparing preparing.old) plan
        ≡ keeps_part (preparing_of preparing.old) from part) }
    ensures role { preparing_of preparing.new ≡ preparing_of preparing.old }
    ensures room { IfOk result (λ plan. HasRoom plan.turn (role.Preparing preparing.new)) }
{
    let fresh = make_stage_room(member.alloc, &mut preparing.stages, from, part.run.len())?;
    preparing.stages.make_room(1)?;
    preparing.promises.make_room(1)?;
    let mut plan = member.nothing();
    plan.set_turn(Turn::KeepPart(from, part, fresh));
    Ok(plan)
}

/// Whether the promise that a part is of can be adopted, once all of its entries are there.
fn is_usable_whole(member: &Member, part: &PromisedRun) -> bool
    requires { FitsPositions member.now.part.now }
    ensures { (q : ℕ) (entries : List Entry) → part.now.start + length entries ≡ part.now.len →
        result ≡ is_usable member.now.part.now (told_by q part.now entries) }
{
    let len = member.log_len();
    !is_above(part.accepted, part.len, member.part.accepted, len)
        || member.part.decided <= part.start && part.start <= len
}

/// Whether the node and those that promised are a majority, with one that comes now. Its entries don't count.
fn have_quorum_with(member: &Member, kept: &[Promised], promised: Promised) -> bool
    ensures { result
        ≡ has_quorum member.now.me member.now.part.now.members (promises_with kept.now promised) }
{
    let new = Some(promised);
    let offers = Offers { kept, new: &new };
    offers.have_quorum(member)
}
