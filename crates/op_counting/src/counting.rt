//! What a majority has acknowledged is decided.
ghost use Rattle.std.specs.Prelude.{◌≡◌, ◌<◌, ◌++◌, length, filter, nat_eq, IfOk, OnOk};
ghost use Rattle.std.specs.Set.{is_member};
ghost use Rattle.op_types.specs.RoleStates.{acknowledged_with};
ghost use Rattle.op_types.specs.Roles.{role_of, HasRoom};
ghost use Rattle.op_types.specs.Effects.{effects_of};
ghost use Rattle.op_types.specs.declared.messages.Body.TheVariants.{Decide};
ghost use Rattle.op_types.specs.declared.turn.Turn.TheVariants.{Stay};
ghost use Rattle.op_protocol.specs.Parts.{others, to_each};
ghost use Rattle.op_protocol.specs.Leader.{counted, decided_again, on_accepted};
ghost use Rattle.op_plans.specs.Positions.{FitsPositions};
ghost use Rattle.op_counting.specs.Counting.{Counts, CountsBehind};

use arrayvec::ArrayVec;
use op_plans::Member;
use op_quorum::greatest_backed;
use op_types::{
    Acknowledged, Ballot, Body, Change, MOST_IDS, Pid, Plan, Role, Sends, Turn, acknowledged_by,
    is_among,
};
use std::alloc::{AllocError as NoMemory, Global};

/// The greatest length up to this one that a majority of the members has.
fn counted(member: &Member, acknowledged: &[Acknowledged], len: u64) -> Result<u64, NoMemory>
    requires { 0 < length member.now.part.now.members }
    ensures { IfOk result (λ x.
        x ≡ counted member.now.me member.now.part.now.members len acknowledged.now) }
{
    let mut lengths: ArrayVec<u64, MOST_IDS> = ArrayVec::new();
    for pid in member.part.members.as_slice() {
        let length = if *pid == member.me {
            len
        } else {
            acknowledged_by(acknowledged, *pid)
        };
        if lengths.try_push(length.min(len)).is_err() {
            return Err(NoMemory);
        }
    }
    Ok(greatest_backed(lengths.as_slice()))
}

/// The other members that are synced.
pub fn synced_others(member: &Member, synced: &[Pid]) -> Result<ArrayVec<Pid, MOST_IDS>, NoMemory>
    ensures { IfOk result (λ pids. pids.items
        ≡ filter (λ q. is_member nat_eq synced.now q) (others member.now.me member.now.part.now.members)) }
{
    let mut pids = ArrayVec::new();
    for pid in member.part.members.as_slice() {
        if *pid != member.me && is_among(synced, *pid) {
            if pids.try_push(*pid).is_err() {
                return Err(NoMemory);
            }
        }
    }
    Ok(pids)
}

/// What a majority has is decided, and each synced follower is told, where the own log has this length. If
/// that is nothing new, these messages go out. The role stays.
pub fn count(
    member: &Member,
    len: u64,
    ballot: Ballot,
    synced: &[Pid],
    acknowledged: &[Acknowledged],
    otherwise: Sends,
) -> Result<Plan, NoMemory>
    requires { 0 < length member.now.part.now.members }
    ensures counts { IfOk result
        (Counts member.now.me member.now.part.now len ballot synced.now acknowledged.now otherwise) }
    ensures turn { IfOk result (λ plan. plan.turn ≡ Stay) }
{
    let mut plan = member.nothing();
    if !count_behind(member, len, ballot, synced, acknowledged, &mut plan)? {
        plan.sends = otherwise;
    }
    Ok(plan)
}

/// The same behind what a plan has. Says whether anything new is decided.
pub fn count_behind(
    member: &Member,
    len: u64,
    ballot: Ballot,
    synced: &[Pid],
    acknowledged: &[Acknowledged],
    plan: &mut Plan,
) -> Result<bool, NoMemory>
    requires { 0 < length member.now.part.now.members }
    ensures { IfOk result
        (CountsBehind member.now.me member.now.part.now len ballot synced.now acknowledged.now
        plan.old plan.new) }
{
    let decided = counted(member, acknowledged, len)?;
    if decided <= member.part.decided {
        return Ok(false);
    }
    plan.batch.push(Change::Decided(decided))?;
    let pids = synced_others(member, synced)?;
    match pids.as_slice() {
        [] => {}
        pids => tell_decided(member, &mut plan.sends, pids, ballot, decided)?,
    }
    Ok(true)
}

/// Each of these followers is told what is decided.
#[inline(never)]
fn tell_decided(
    member: &Member,
    sends: &mut Sends,
    pids: &[Pid],
    ballot: Ballot,
    decided: u64,
) -> Result<(), NoMemory>
    ensures { OnOk result (sends.new
        ≡ sends.old ++ to_each member.now.part.now.conf pids.now (Decide ballot decided)) }
{
    member.send_each(sends, pids, &Body::Decide(ballot, decided))
}

/// The acknowledged lengths with a sender's, where it is greater than before.
fn acknowledged_with(
    alloc: Global,
    acknowledged: &[Acknowledged],
    new: Acknowledged,
) -> Result<Vec<Acknowledged>, NoMemory>
    ensures { IfOk result (λ all. all.items ≡ acknowledged_with acknowledged.now new) }
{
    if new.len <= acknowledged_by(acknowledged, new.from) {
        return Ok(Vec::from_slice(alloc, acknowledged)?);
    }
    let mut all = Vec::new(alloc);
    for other in acknowledged {
        if other.from != new.from {
            all.push(*other)?;
        }
    }
    all.push(new)?;
    Ok(all)
}

/// Tells a follower again what is decided, if anything is.
fn decided_again(member: &Member, to: Pid, ballot: Ballot) -> Result<Sends, NoMemory>
    ensures { IfOk result (λ sends. sends ≡ decided_again member.now.part.now to ballot) }
{
    let mut sends = Sends::new(member.alloc);
    let decided = member.part.decided;
    if decided > 0 {
        member.send(&mut sends, to, Body::Decide(ballot, decided))?;
    }
    Ok(sends)
}

/// A follower has accepted up to a length in the leader's round.
pub fn on_accepted(
    member: &Member,
    role: &mut Role,
    from: Pid,
    ballot: Ballot,
    accepted: u64,
) -> Result<Plan, NoMemory>
    requires positions { FitsPositions member.now.part.now }
    requires members { 0 < length member.now.part.now.members }
    ensures row { IfOk result (λ plan. effects_of role.old plan
        ≡ on_accepted member.now.me member.now.part.now (role_of role.old) from ballot accepted) }
    ensures role { role_of role.new ≡ role_of role.old }
    ensures room { IfOk result (λ plan. HasRoom plan.turn role.new) }
{
    let Role::Leading(leading) = role else {
        return Ok(member.nothing());
    };
    let len = member.log_len();
    if !ballot.is_same(leading.ballot) || len < accepted {
        return Ok(member.nothing());
    }
    leading.acknowledged.make_room(1)?;
    let new = Acknowledged {
        from,
        len: accepted,
    };
    let all = acknowledged_with(member.alloc, leading.acknowledged.as_slice(), new)?;
    let again = decided_again(member, from, leading.ballot)?;
    let synced = leading.synced.as_slice();
    let mut plan = count(member, len, leading.ballot, synced, all.as_slice(), again)?;
    plan.set_turn(Turn::Acknowledge(new));
    Ok(plan)
}
