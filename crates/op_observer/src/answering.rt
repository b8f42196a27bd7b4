//! What an observer does that stores nothing: it asks, and refuses what clients want.
ghost use Rattle.std.specs.Prelude.{◌≡◌, Some, IfOk};
ghost use Rattle.op_types.specs.Effects.{nothing_plan};
ghost use Rattle.op_plans.specs.Positions.{FitsPositions};
ghost use Rattle.op_observer.specs.Plans.{answer_plan};

use op_plans::Member;
use op_types::{Input, NoMemory, Outcome, Plan, Refusal};
use op_watch::{ask_all, ask_one};

/// What comes of an input that brings no message. It knows no leader, and leads nothing.
pub(crate) fn answer(member: &Member, input: &Input) -> Result<Plan, NoMemory>
    requires { FitsPositions member.now.part.now }
    ensures { IfOk result (λ plan. plan ≡ answer_plan member.now.part.now input.now) }
{
    match input {
        Input::Tick => ask_all(member),
        Input::Up(peer) => ask_one(member, *peer),
        Input::Commands(_) | Input::Stop(_) => {
            Ok(saying(member, Outcome::Refused(Refusal::NoLeader)))
        }
        Input::TrimNow | Input::Read(_) => Ok(saying(member, Outcome::NotLeading)),
        Input::Deliver(_, _) | Input::Down(_) => Ok(member.nothing()),
    }
}

/// An outcome, and nothing else.
fn saying(member: &Member, outcome: Outcome) -> Plan
    ensures { result ≡ record nothing_plan { outcome = Some outcome } }
{
    let mut plan = member.nothing();
    plan.outcome = Some(outcome);
    plan
}
