//! A step that decides its part's stop-sign closes the part.
ghost use Rattle.std.specs.Prelude.{◌≡◌, ◌++◌, ◌<◌, Some, IfOk, OnOk};
ghost use Rattle.op_types.specs.Limits.{last_conf};
ghost use Rattle.op_types.specs.Roles.{role_of, turned, if_preparing};
ghost use Rattle.op_types.specs.RoleStates.{with_buffered};
ghost use Rattle.op_types.specs.Changes.{closed_by};
ghost use Rattle.op_types.specs.Stops.{stop_at_end};
ghost use Rattle.op_plans.specs.Positions.{FitsPositions};
ghost use Rattle.op_protocol.specs.Parts.{part_after, decided_since};
ghost use Rattle.op_protocol.specs.Leader.{given_up_by};
ghost use Rattle.op_protocol.specs.Configurations.{news_of};

use op_deciding::{decided_after, trimmed_after};
use op_plans::{given_up, push_dropped};
use op_types::{
    Body, Buffered, Cause, Change, Msg, NoMemory, Part, Replies, Role, Sends, Shared, StopSign,
    Turn, is_among,
};
use std::alloc::Global;

/// Who is told when the role that a turn leaves is given up.
pub(crate) fn given_up_after(
    alloc: Global,
    turn: &Turn,
    role: &Role,
    cause: Cause,
) -> Result<Replies, NoMemory>
    ensures { IfOk result (λ replies. replies ≡ given_up_by (turned turn.now (role_of role.now)) cause) }
{
    match turn {
        Turn::Become(next) => given_up(alloc, next, cause),
        Turn::NextRound(_, next) => match next {
            Some(next) => given_up(alloc, next, cause),
            None => given_up(alloc, role, cause),
        },
        Turn::Renew => Ok(Replies::new(alloc)),
        Turn::Buffer(more) => given_up_with(alloc, role, more.as_slice(), cause),
        _ => given_up(alloc, role, cause),
    }
}

/// The same, where a role that prepares keeps these proposals too.
fn given_up_with(
    alloc: Global,
    role: &Role,
    more: &[Buffered],
    cause: Cause,
) -> Result<Replies, NoMemory>
    ensures { IfOk result (λ replies. replies
        ≡ given_up_by (if_preparing (λ s. with_buffered s more.now) (role_of role.now)) cause) }
{
    let mut replies = given_up(alloc, role, cause)?;
    if let Role::Preparing(_) = role {
        'buffered: for buffered in more {
            push_dropped(&mut replies, buffered, cause)?;
        }
    }
    Ok(replies)
}

/// The news of the configuration after a part's, to those of its members that weren't in the part's: the
/// batch decides this stop-sign.
pub(crate) fn push_news(
    alloc: Global,
    sends: &mut Sends,
    part: &Part,
    batch: &[Change],
    stop: &StopSign,
) -> Result<(), NoMemory>
    requires stop { stop_at_end (decided_since part.now (part_after part.now batch.now)) ≡ Some stop.now }
    requires fits { FitsPositions (part_after part.now batch.now) }
    requires number { part.now.conf < last_conf }
    ensures { OnOk result (sends.new ≡ sends.old ++ news_of (closed_by (part_after part.now batch.now))) }
{
    let conf = part.conf + 1;
    let len = decided_after(part, batch);
    let trimmed = trimmed_after(part, batch);
    'members: for pid in stop.members.as_slice() {
        if !is_among(part.members.as_slice(), *pid) {
            let members = Shared::new(alloc, stop.members.copy())?;
            let olds = Shared::new(alloc, part.members.copy())?;
            let body = Body::NextConf(members, olds, len, trimmed);
            sends.push((*pid, Msg { conf, body }))?;
        }
    }
    Ok(())
}
