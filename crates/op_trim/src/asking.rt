//! A client asks for trimming, and the leader asks how much is decided.
ghost use Rattle.std.specs.Prelude.{◌≡◌, [], Some, IfOk};
ghost use Rattle.op_types.specs.Effects.{effects_of};
ghost use Rattle.op_types.specs.declared.answers.Outcome.TheVariants as outcome;
ghost use Rattle.op_types.specs.declared.role.Role.TheVariants as role;
ghost use Rattle.op_types.specs.declared.turn.Turn.TheVariants as turn;
ghost use Rattle.op_types.specs.Roles as states;
ghost use Rattle.op_types.specs.Roles.{leading_of, role_of, HasRoom};
ghost use Rattle.op_protocol.specs.Parts.{others};
ghost use Rattle.op_protocol.specs.Trimming.{least_reported, on_trim_ask, trim_now};
ghost use Rattle.op_trim.specs.Plans.{trims_told, asks_plan};

use crate::reporting::least_reported;
use crate::trimming::trims;
use op_plans::{Member, first};
use op_types::{Ballot, Batch, Body, Leading, Outcome, Pid, Plan, Replies, Role, Turn};
use std::alloc::AllocError as NoMemory;

/// A client asks for trimming: a leader asks the others anew what they have decided, and trims at once where
/// there are none.
pub fn trim_now(member: &Member, role: &Role) -> Result<Plan, NoMemory>
    ensures row { IfOk result (λ plan. effects_of role.now plan
        ≡ trim_now member.now.me member.now.part.now (role_of role.now)) }
    ensures room { IfOk result (λ plan. HasRoom plan.turn role.now) }
{
    match role {
        Role::Idle | Role::Preparing(_) => {
            let mut plan = member.nothing();
            plan.outcome = Some(Outcome::NotLeading);
            Ok(plan)
        }
        Role::Leading(leading) => leader_asks(member, leading),
    }
}

/// A leader asks the others anew.
fn leader_asks(member: &Member, leading: &Leading) -> Result<Plan, NoMemory>
    ensures row { IfOk result (λ plan. effects_of (role.Leading leading.now) plan
        ≡ trim_now member.now.me member.now.part.now (states.Leading (leading_of leading.now))) }
    ensures turn { IfOk result (λ plan. plan.turn ≡ turn.ClearReports) }
{
    asks(member, leading.ballot)
}

/// The leader of this ballot asks the others anew.
fn asks(member: &Member, ballot: Ballot) -> Result<Plan, NoMemory>
    ensures { IfOk result (λ plan. plan ≡ asks_plan member.now.me member.now.part.now ballot) }
{
    let asked = member.to_others(&Body::TrimAsk(ballot))?;
    let alloc = member.alloc;
    let plan = first(
        Batch::new(alloc),
        asked,
        Replies::new(alloc),
        trims_alone(member)?,
    )?;
    Ok(asking(plan))
}

/// The same plan, of a leader that asks anew.
fn asking(plan: Plan) -> Plan
    ensures { result ≡ record plan { turn = turn.ClearReports; outcome = Some outcome.Asked } }
{
    let mut plan = plan.with_turn(Turn::ClearReports);
    plan.outcome = Some(Outcome::Asked);
    plan
}

/// What is decided is trimmed at once, where there are no others.
fn trims_alone(member: &Member) -> Result<Plan, NoMemory>
    ensures { IfOk result (λ plan. plan ≡ trims_told member.now.me member.now.part.now
        (least_reported [] (others member.now.me member.now.part.now.members) member.now.part.now.decided)) }
{
    let pids = member.others()?;
    match least_reported(&[], pids.as_slice(), member.part.decided) {
        None => Ok(member.nothing()),
        Some(x) => trims(member, x),
    }
}

/// The leader of the promised ballot asks what is decided.
pub fn on_trim_ask(
    member: &Member,
    role: &Role,
    from: Pid,
    ballot: Ballot,
) -> Result<Plan, NoMemory>
    ensures row { IfOk result (λ plan. effects_of role.now plan
        ≡ on_trim_ask member.now.part.now (role_of role.now) from ballot) }
    ensures room { IfOk result (λ plan. HasRoom plan.turn role.now) }
{
    let part = member.part;
    if part.promised.is_same(ballot) {
        member.saying(from, Body::Progress(ballot, part.decided))
    } else {
        Ok(member.nothing())
    }
}
