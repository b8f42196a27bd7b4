//! A leader asks for a promise.
ghost use Rattle.std.specs.Prelude.{◌≡◌, [], IfOk};
ghost use Rattle.op_protocol.specs.Follower.{suffix_start, promise_higher, on_prepare};
ghost use Rattle.op_types.specs.Effects.{effects_of};
ghost use Rattle.op_plans.specs.Positions.{FitsPositions};
ghost use Rattle.op_types.specs.Roles.{role_of, HasRoom};

use op_plans::{Member, given_up};
use op_types::{Ballot, Body, Cause, Change, Pid, Plan, Role, Turn};
use std::alloc::AllocError as NoMemory;

/// What a leader asks to be promised, and how far its own log goes.
#[derive(Clone, Copy)]
pub struct Prepare {
    /// The ballot to be promised.
    pub ballot: Ballot,
    /// The round in which the leader's log was accepted.
    pub accepted: Ballot,
    /// The length of the leader's log, trimmed entries too.
    pub len: u64,
    /// How many entries the leader has decided.
    pub decided: u64,
}

/// A ballot is promised that isn't below the promise, and refused otherwise.
pub fn on_prepare(
    member: &Member,
    role: &Role,
    from: Pid,
    prepare: Prepare,
) -> Result<Plan, NoMemory>
    requires positions { FitsPositions member.now.part.now }
    ensures row { IfOk result (λ plan. effects_of role.now plan
        ≡ on_prepare member.now.part.now (role_of role.now) from
        prepare.ballot prepare.accepted prepare.len prepare.decided) }
    ensures room { IfOk result (λ plan. HasRoom plan.turn role.now) }
{
    let part = member.part;
    if prepare.ballot.is_below(part.promised) {
        return member.saying(from, Body::Refuse(prepare.ballot, part.promised));
    }
    let start = suffix_start(member, prepare);
    if start < part.trimmed {
        return Ok(member.nothing());
    }
    let mut plan = promise_higher(member, role, prepare.ballot)?;
    member.send_promise(&mut plan.sends, from, prepare.ballot, start)?;
    Ok(plan)
}

/// From where the leader may lack the log.
fn suffix_start(member: &Member, prepare: Prepare) -> u64
    requires { FitsPositions member.now.part.now }
    ensures { result ≡ suffix_start member.now.part.now prepare.accepted prepare.len prepare.decided }
{
    let accepted = member.part.accepted;
    if prepare.accepted.is_below(accepted) {
        prepare.decided
    } else if accepted.is_same(prepare.accepted) {
        prepare.len
    } else {
        member.log_len()
    }
}

/// A ballot above the promise is promised, and the role is given up.
fn promise_higher(member: &Member, role: &Role, ballot: Ballot) -> Result<Plan, NoMemory>
    ensures sends { IfOk result (λ plan. plan.sends ≡ []) }
    ensures row { IfOk result (λ plan. effects_of role.now plan
        ≡ promise_higher member.now.part.now (role_of role.now) ballot) }
    ensures room { IfOk result (λ plan. HasRoom plan.turn role.now) }
{
    let mut plan = member.nothing();
    if member.part.promised.is_below(ballot) {
        plan.batch.push(Change::Promise(ballot))?;
        plan.set_turn(Turn::Become(Role::Idle));
        plan.replies = given_up(member.alloc, role, Cause::Ballot(ballot))?;
    }
    Ok(plan)
}
