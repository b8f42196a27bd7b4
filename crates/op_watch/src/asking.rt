//! An observer asks for what is decided behind what it has.
ghost use Rattle.std.specs.Prelude.{◌≡◌, IfOk};
ghost use Rattle.op_types.specs.Effects.{nothing_plan};
ghost use Rattle.op_protocol.specs.Watching.{ask_body, asks_all, asks_one};
ghost use Rattle.op_plans.specs.Positions.{FitsPositions};

use op_plans::Member;
use op_types::{Body, NoMemory, Pid, Plan, Watch, is_among};

/// Each member of its configuration.
pub fn ask_all(member: &Member) -> Result<Plan, NoMemory>
    requires { FitsPositions member.now.part.now }
    ensures { IfOk result (λ plan. plan
        ≡ record nothing_plan { sends = asks_all member.now.part.now }) }
{
    let mut plan = member.nothing();
    let members = member.part.members.as_slice();
    member.send_each(&mut plan.sends, members, &ask_body(member))?;
    Ok(plan)
}

/// A server whose session begins, if it is such a member.
pub fn ask_one(member: &Member, peer: Pid) -> Result<Plan, NoMemory>
    requires { FitsPositions member.now.part.now }
    ensures { IfOk result (λ plan. plan
        ≡ record nothing_plan { sends = asks_one member.now.part.now peer }) }
{
    if is_among(member.part.members.as_slice(), peer) {
        member.saying(peer, ask_body(member))
    } else {
        Ok(member.nothing())
    }
}

/// What it asks.
fn ask_body(member: &Member) -> Body
    requires { FitsPositions member.now.part.now }
    ensures { result ≡ ask_body member.now.part.now }
{
    Body::Watch(Watch::Ask(member.log_len()))
}
