//! The leader tells what is decided.
ghost use Rattle.std.specs.Prelude.{◌≡◌, IfOk};
ghost use Rattle.op_protocol.specs.Follower.{on_decide};
ghost use Rattle.op_types.specs.Effects.{effects_of};
ghost use Rattle.op_plans.specs.Positions.{FitsPositions};
ghost use Rattle.op_types.specs.Roles.{role_of, HasRoom};

use op_plans::Member;
use op_types::{Ballot, Change, Plan, Role};
use std::alloc::AllocError as NoMemory;

/// What is decided is taken as far as the own log goes.
pub fn on_decide(member: &Member, role: &Role, ballot: Ballot, len: u64) -> Result<Plan, NoMemory>
    requires positions { FitsPositions member.now.part.now }
    ensures row { IfOk result (λ plan.
        effects_of role.now plan ≡ on_decide member.now.part.now (role_of role.now) ballot len) }
    ensures room { IfOk result (λ plan. HasRoom plan.turn role.now) }
{
    let part = member.part;
    let mut plan = member.nothing();
    let decided = len.min(member.log_len());
    if part.promised.is_same(ballot) && part.accepted.is_same(ballot) && part.decided < decided {
        plan.batch.push(Change::Decided(decided))?;
    }
    Ok(plan)
}
