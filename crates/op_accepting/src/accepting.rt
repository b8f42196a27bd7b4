//! A leader's entries are accepted.
ghost use Rattle.std.specs.Prelude.{◌≡◌, ◌≤◌, ◌+◌, length, IfOk};
ghost use Rattle.op_types.specs.Limits.{positions_end};
ghost use Rattle.op_types.specs.Changes.{len_of};
ghost use Rattle.op_protocol.specs.Parts.{part_after, appending};
ghost use Rattle.op_protocol.specs.Follower.{accepts, accept_entries, on_accept, synced_changes, sync_entries, on_accept_sync};
ghost use Rattle.op_types.specs.Effects.{effects_of};
ghost use Rattle.op_plans.specs.Positions.{FitsPositions};
ghost use Rattle.op_types.specs.Roles.{role_of, HasRoom};

use op_plans::{Member, push_append, without_prefix};
use op_types::{Ballot, Batch, Body, Change, Entries, Pid, Plan, Role};
use std::alloc::AllocError as NoMemory;

/// What a leader sends of its log.
#[derive(Drop)]
pub struct Accept {
    /// The leader's.
    pub ballot: Ballot,
    /// The position of the first of the entries.
    pub at: u64,
    /// The leader's entries from there on.
    pub entries: Entries,
}

/// Entries come from a position on. They are taken if their round is the one that is promised and accepted.
pub fn on_accept(member: &Member, role: &Role, from: Pid, accept: Accept) -> Result<Plan, NoMemory>
    requires positions { FitsPositions member.now.part.now }
    requires admitted { accept.at + length accept.entries ≤ positions_end }
    ensures row { IfOk result (λ plan. effects_of role.now plan
        ≡ on_accept member.now.part.now (role_of role.now) from accept.ballot accept.at accept.entries) }
    ensures room { IfOk result (λ plan. HasRoom plan.turn role.now) }
{
    let part = member.part;
    if part.promised.is_same(accept.ballot) && part.accepted.is_same(accept.ballot) {
        accept_entries(member, role, from, accept)
    } else {
        Ok(member.nothing())
    }
}

/// Entries of the accepted round come: they are added as far as they are new.
fn accept_entries(member: &Member, role: &Role, from: Pid, accept: Accept) -> Result<Plan, NoMemory>
    requires positions { FitsPositions member.now.part.now }
    requires admitted { accept.at + length accept.entries ≤ positions_end }
    ensures row { IfOk result (λ plan. effects_of role.now plan
        ≡ accept_entries member.now.part.now (role_of role.now) from accept.ballot accept.at accept.entries) }
    ensures room { IfOk result (λ plan. HasRoom plan.turn role.now) }
{
    let len = member.log_len();
    if len < accept.at {
        return member.saying(from, Body::PrepareReq);
    }
    let more = without_prefix(member.alloc, accept.entries, len - accept.at)?;
    let new_len = len + more.len() as u64;
    let mut batch = Batch::new(member.alloc);
    push_append(&mut batch, more)?;
    accepted(member, role, from, accept.ballot, batch, new_len)
}

/// The log is changed, and its new length is told.
fn accepted(
    member: &Member,
    role: &Role,
    to: Pid,
    ballot: Ballot,
    batch: Batch,
    len: u64,
) -> Result<Plan, NoMemory>
    requires { len ≡ len_of (part_after member.now.part.now batch) }
    ensures row { IfOk result (λ plan. effects_of role.now plan
        ≡ accepts member.now.part.now (role_of role.now) to ballot batch) }
    ensures room { IfOk result (λ plan. HasRoom plan.turn role.now) }
{
    let mut plan = member.saying(to, Body::Accepted(ballot, len))?;
    plan.batch = batch;
    Ok(plan)
}

/// The leader's log comes from a position on. In a round that is accepted already this never shortens the
/// log.
pub fn on_accept_sync(
    member: &Member,
    role: &Role,
    from: Pid,
    accept: Accept,
) -> Result<Plan, NoMemory>
    requires positions { FitsPositions member.now.part.now }
    requires admitted { accept.at + length accept.entries ≤ positions_end }
    ensures row { IfOk result (λ plan. effects_of role.now plan
        ≡ on_accept_sync member.now.part.now (role_of role.now) from accept.ballot accept.at accept.entries) }
    ensures room { IfOk result (λ plan. HasRoom plan.turn role.now) }
{
    let part = member.part;
    if part.promised.is_same(accept.ballot) && part.accepted.is_below(accept.ballot) {
        sync_entries(member, role, from, accept)
    } else {
        on_accept(member, role, from, accept)
    }
}

/// The leader's log takes the place of the own one from a position on, in its round.
fn sync_entries(member: &Member, role: &Role, from: Pid, accept: Accept) -> Result<Plan, NoMemory>
    requires positions { FitsPositions member.now.part.now }
    requires admitted { accept.at + length accept.entries ≤ positions_end }
    ensures row { IfOk result (λ plan. effects_of role.now plan
        ≡ sync_entries member.now.part.now (role_of role.now) from accept.ballot accept.at accept.entries) }
    ensures room { IfOk result (λ plan. HasRoom plan.turn role.now) }
{
    let Accept {
        ballot,
        at,
        entries,
    } = accept;
    if member.part.decided <= at && at <= member.log_len() {
        let len = at + entries.len() as u64;
        let batch = synced_batch(member, ballot, at, entries)?;
        accepted(member, role, from, ballot, batch, len)
    } else {
        Ok(member.nothing())
    }
}

/// The changes by which the leader's log takes the place of the own one.
pub fn synced_batch(
    member: &Member,
    ballot: Ballot,
    at: u64,
    entries: Entries,
) -> Result<Batch, NoMemory>
    requires { FitsPositions member.now.part.now }
    ensures { IfOk result (λ batch. batch ≡ synced_changes member.now.part.now ballot at entries) }
{
    let mut batch = Batch::new(member.alloc);
    member.push_cut(&mut batch, at)?;
    push_append(&mut batch, entries)?;
    batch.push(Change::Accept(ballot))?;
    Ok(batch)
}
