//! A leader that is read from asks whether its ballot is still promised.
ghost use Rattle.std.specs.Prelude.{◌≡◌, IfOk};
ghost use Rattle.op_types.specs.Effects.{effects_of};
ghost use Rattle.op_types.specs.Roles.{role_of, HasRoom};
ghost use Rattle.op_protocol.specs.Reading.{on_confirm};

use op_plans::Member;
use op_types::{Ballot, Body, NoMemory, Pid, Plan, Role};

/// The leader of a ballot asks whether it is still promised, for the read of this number.
pub fn on_confirm(
    member: &Member,
    role: &Role,
    from: Pid,
    ballot: Ballot,
    number: u64,
) -> Result<Plan, NoMemory>
    ensures row { IfOk result (λ plan. effects_of role.now plan
        ≡ on_confirm member.now.part.now (role_of role.now) from ballot number) }
    ensures room { IfOk result (λ plan. HasRoom plan.turn role.now) }
{
    if member.part.promised.is_same(ballot) {
        member.saying(from, Body::Confirmed(ballot, number))
    } else {
        Ok(member.nothing())
    }
}
