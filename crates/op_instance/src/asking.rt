//! Whom a member asks that heard no majority.
ghost use Rattle.std.specs.Prelude.{◌≡◌, ◌++◌, filter, IfOk};
ghost use Rattle.op_protocol.specs.Heartbeats.{has_replied};
ghost use Rattle.op_protocol.specs.Parts.{others};
ghost use Rattle.op_protocol.specs.Tick.{asks_leaders};

use op_elect::greatest;
use op_plans::Member;
use op_types::{Ballot, Body, Heard, Pid, Plan};
use std::alloc::AllocError as NoMemory;

/// A tick's plan, behind which a member that heard no majority asks those that replied to prepare it, where
/// its promise is above the ballots of all that heard one.
pub(crate) fn also_asking(
    member: &Member,
    heard: &[Heard],
    flag: bool,
    plan: Plan,
) -> Result<Plan, NoMemory>
    ensures { IfOk result (λ x. x ≡ record plan {
      sends = plan.sends ++ asks_leaders member.now.me member.now.part.now heard.now flag;
    }) }
{
    let mut plan = plan;
    if !flag && greatest(Ballot::NONE, heard).is_below(member.part.promised) {
        let pids = those_heard(member, heard)?;
        member.send_each(&mut plan.sends, pids.as_slice(), &Body::PrepareReq)?;
    }
    Ok(plan)
}

/// The other members that replied.
fn those_heard(member: &Member, heard: &[Heard]) -> Result<Vec<Pid>, NoMemory>
    ensures { IfOk result (λ pids. pids.items ≡ filter (λ q. has_replied heard.now q)
        (others member.now.me member.now.part.now.members)) }
{
    let mut pids = member.others()?;
    pids.retain(|pid| has_replied(heard, *pid));
    Ok(pids)
}

/// Whether a server sent one of these replies.
fn has_replied(heard: &[Heard], pid: Pid) -> bool
    ensures { result ≡ has_replied heard.now pid }
{
    heard.iter().any(|reply| reply.from == pid)
}
