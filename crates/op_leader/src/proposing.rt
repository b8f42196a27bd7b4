//! Entries are proposed together, or were forwarded.
ghost use Rattle.std.specs.Prelude.{◌≡◌, ◌<◌, ◌≤◌, ◌+◌, ◌++◌, ◌∷◌, [], Some, length, IfOk, OnOk};
ghost use Rattle.op_types.specs.Limits.{positions_end};
ghost use Rattle.op_types.specs.Changes.{len_of};
ghost use Rattle.op_types.specs.Effects.{effects_of, nothing_plan};
ghost use Rattle.op_types.specs.Roles.{role_of, preparing_of, leading_of, HasRoom};
ghost use Rattle.op_types.specs.declared.answers.Outcome.TheVariants.{Forwarded};
ghost use Rattle.op_types.specs.declared.messages.Body.TheVariants.{Accept};
ghost use Rattle.op_types.specs.declared.role.Role.TheVariants as role;
ghost use Rattle.op_types.specs.declared.turn.Turn.TheVariants.{Stay, Buffer};
ghost use Rattle.op_protocol.specs.Parts.{message, to_each};
ghost use Rattle.op_protocol.specs.Leader.{synced_others, extends, propose, on_forward, forward_body, waiting_as};
ghost use Rattle.op_plans.specs.Positions.{FitsPositions};

use op_counting::{count_behind, synced_others};
use op_plans::Member;
use op_types::{
    Ballot, Body, Buffer, Buffered, Change, Entries, Leading, Outcome, POSITIONS_END, Pid, Plan,
    Preparing, Role, Sends, Turn, copy_entries,
};
use std::alloc::{AllocError as NoMemory, Global};

/// Entries are added to the log, wait in the buffer, or go to whom the node takes for the leader, together,
/// by a plan in which nothing happens yet.
pub fn propose(
    member: &Member,
    role: &mut Role,
    entries: Entries,
    plan: &mut Plan,
) -> Result<(), NoMemory>
    requires positions { FitsPositions member.now.part.now }
    requires members { 0 < length member.now.part.now.members }
    requires end { len_of member.now.part.now + length entries ≤ positions_end }
    requires nothing { plan.old ≡ nothing_plan }
    ensures row { OnOk result (effects_of role.old plan.new
        ≡ propose member.now.me member.now.part.now (role_of role.old) entries) }
    ensures role { role_of role.new ≡ role_of role.old }
    ensures room { OnOk result (HasRoom plan.new.turn role.new) }
{
    match role {
        Role::Idle => forwards(member, entries, plan),
        Role::Preparing(preparing) => {
            buffers(member, preparing, entries, true, plan)?;
            plan.outcome = Some(Outcome::Buffered);
            Ok(())
        }
        Role::Leading(leading) => {
            append(member, leading, entries, plan)?;
            plan.outcome = Some(Outcome::Appended(member.part.conf, member.log_len()));
            Ok(())
        }
    }
}

/// A node that follows forwards entries to whom it takes for the leader.
#[inline(never)]
fn forwards(member: &Member, entries: Entries, plan: &mut Plan) -> Result<(), NoMemory>
    requires nothing { plan.old ≡ nothing_plan }
    ensures { let leader = member.now.part.now.promised.pid in OnOk result (plan.new
        ≡ record nothing_plan {
          sends = message member.now.part.now.conf leader (forward_body entries) ∷ [];
          outcome = Some (Forwarded leader);
        }) }
{
    let leader = member.part.promised.pid;
    member.send(&mut plan.sends, leader, forward(entries))?;
    plan.outcome = Some(Outcome::Forwarded(leader));
    Ok(())
}

/// Proposals were forwarded together: they are taken where the node leads or prepares.
pub fn on_forward(member: &Member, role: &mut Role, entries: Entries) -> Result<Plan, NoMemory>
    requires positions { FitsPositions member.now.part.now }
    requires members { 0 < length member.now.part.now.members }
    ensures row { IfOk result (λ plan. effects_of role.old plan
        ≡ on_forward member.now.me member.now.part.now (role_of role.old) entries) }
    ensures role { role_of role.new ≡ role_of role.old }
    ensures room { IfOk result (λ plan. HasRoom plan.turn role.new) }
{
    match role {
        Role::Idle => Ok(member.nothing()),
        Role::Preparing(preparing) => {
            let mut plan = member.nothing();
            buffers(member, preparing, entries, false, &mut plan)?;
            Ok(plan)
        }
        Role::Leading(leading) => {
            if member.pending().is_some() {
                return Ok(member.nothing());
            }
            if POSITIONS_END - member.log_len() < entries.len() as u64 {
                return Ok(member.nothing());
            }
            extend(member, leading, entries)
        }
    }
}

/// Entries as a message for the leader: one alone, or several together.
fn forward(entries: Entries) -> Body
    ensures { result ≡ forward_body entries }
{
    let mut entries = entries.into_vec();
    if entries.len() == 1 {
        if let Some(entry) = entries.pop() {
            return Body::Forward(entry);
        }
    }
    Body::Forwards(Entries::from_vec(entries))
}

/// Entries wait for the log to be adopted, by a plan in which nothing happens yet.
#[inline(never)]
fn buffers(
    member: &Member,
    preparing: &mut Preparing,
    entries: Entries,
    is_own: bool,
    plan: &mut Plan,
) -> Result<(), NoMemory>
    requires nothing { plan.old ≡ nothing_plan }
    ensures plan { OnOk result (plan.new
        ≡ record nothing_plan { turn = Buffer (waiting_as is_own entries) }) }
    ensures role { preparing_of preparing.new ≡ preparing_of preparing.old }
    ensures room { OnOk result (length entries ≤ preparing.new.buffer.room) }
{
    preparing.buffer.make_room(entries.len())?;
    plan.set_turn(Turn::Buffer(waiting(member.alloc, entries, is_own)?));
    Ok(())
}

/// Entries as they wait in a buffer.
fn waiting(alloc: Global, entries: Entries, is_own: bool) -> Result<Buffer, NoMemory>
    ensures { IfOk result (λ all. all ≡ waiting_as is_own entries) }
{
    let mut all = Buffer::new(alloc);
    for entry in entries.into_vec() {
        all.push(Buffered { entry, is_own })?;
    }
    Ok(all)
}

/// A leader adds entries that were forwarded.
fn extend(member: &Member, leading: &Leading, entries: Entries) -> Result<Plan, NoMemory>
    requires positions { FitsPositions member.now.part.now }
    requires members { 0 < length member.now.part.now.members }
    requires end { len_of member.now.part.now + length entries ≤ positions_end }
    ensures row { IfOk result (λ plan. effects_of (role.Leading leading.now) plan
        ≡ extends member.now.me member.now.part.now (leading_of leading.now) entries) }
    ensures turn { IfOk result (λ plan. plan.turn ≡ Stay) }
{
    let mut plan = member.nothing();
    append(member, leading, entries, &mut plan)?;
    Ok(plan)
}

/// Entries go to a leader's log and to its followers, by a plan in which nothing happens yet.
fn append(
    member: &Member,
    leading: &Leading,
    entries: Entries,
    plan: &mut Plan,
) -> Result<(), NoMemory>
    requires positions { FitsPositions member.now.part.now }
    requires members { 0 < length member.now.part.now.members }
    requires end { len_of member.now.part.now + length entries ≤ positions_end }
    requires nothing { plan.old ≡ nothing_plan }
    ensures row { OnOk result (effects_of (role.Leading leading.now) plan.new
        ≡ extends member.now.me member.now.part.now (leading_of leading.now) entries) }
    ensures turn { OnOk result (plan.new.turn ≡ Stay) }
{
    let len = member.log_len();
    let more = entries.len() as u64;
    send_to_synced(member, &mut plan.sends, leading, len, &entries)?;
    plan.batch.push(Change::Append(entries))?;
    let synced = leading.synced.as_slice();
    let acknowledged = leading.acknowledged.as_slice();
    count_behind(
        member,
        len + more,
        leading.ballot,
        synced,
        acknowledged,
        plan,
    )?;
    Ok(())
}

/// Entries that go to the log's end go to each synced follower: one copy for each.
fn send_to_synced(
    member: &Member,
    sends: &mut Sends,
    leading: &Leading,
    len: u64,
    entries: &Entries,
) -> Result<(), NoMemory>
    ensures { OnOk result (sends.new ≡ sends.old ++ to_each member.now.part.now.conf
        (synced_others member.now.me member.now.part.now.members (leading_of leading.now))
        (Accept leading.now.ballot len entries.now)) }
{
    let pids = synced_others(member, leading.synced.as_slice())?;
    send_accepts(member, sends, pids.as_slice(), leading.ballot, len, entries)
}

/// The same entries go to each of these.
fn send_accepts(
    member: &Member,
    sends: &mut Sends,
    pids: &[Pid],
    ballot: Ballot,
    len: u64,
    entries: &Entries,
) -> Result<(), NoMemory>
    ensures { OnOk result (sends.new ≡ sends.old
        ++ to_each member.now.part.now.conf pids.now (Accept ballot len entries.now)) }
{
    for pid in pids {
        let copied = copy_entries(member.alloc, entries.as_slice())?;
        member.send(sends, *pid, Body::Accept(ballot, len, copied))?;
    }
    Ok(())
}
