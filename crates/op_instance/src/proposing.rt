//! Entries are proposed together, or refused.
ghost use Rattle.std.specs.Prelude.{◌≡◌, ◌∷◌, [], List, Some, None, length, IfOk, OnOk, IfNone};
ghost use Rattle.op_types.specs.Effects.{nothing_plan};
ghost use Rattle.op_types.specs.Roles.{role_of};
ghost use Rattle.op_types.specs.declared.answers.Outcome.TheVariants.{Refused};
ghost use Rattle.op_types.specs.declared.log.Entry.{Entry};
ghost use Rattle.op_types.specs.declared.log.Entry.TheVariants as entry;
ghost use Rattle.op_protocol.specs.Parts.{has_stop};
ghost use Rattle.op_protocol.specs.Rows.{is_idle, knows_no_leader, open_refusal, pending_at, refusal_of, entries_of, stop_for, proposal_at, proposal_step};
ghost use Rattle.op_instance.specs.Memory.{volatile_of, part_step_of, HasRoomIn};
ghost use Rattle.op_instance.specs.Sound.{IsNode, IfNodeOf, IfListFits, IfPositionsFit};
ghost use Rattle.op_instance.specs.Proposals.{Admits, HasPlaces, IfEnd, IfNumberLeft};
ghost use Rattle.op_plans.specs.Positions.{FitsPositions};

use crate::stored::{Stored, closed_len};
use crate::volatile::Volatile;
use op_leader::propose;
use op_plans::{Member, one};
use op_types::{
    Ballot, Commands, Entries, Entry, LAST_CONF, Members, NoMemory, Outcome, POSITIONS_END, Plan,
    Refusal, Role, Shared, StopSign,
};
use std::alloc::Global;

/// What is proposed together: how many entries, and whether a stop-sign is among them.
#[derive(Clone, Copy)]
pub(crate) struct Proposed {
    pub(crate) count: usize,
    pub(crate) has_stop: bool,
}

impl Stored<'_> {
    /// Why entries that are proposed together are refused, the first cause first: a stop-sign ends the log,
    /// the node knows no leader, positions end before the last of them, or no number is left for the
    /// configuration after a stop-sign.
    fn refusal(&self, role: &Role, proposed: Proposed) -> Option<Refusal>
        requires part { IfPositionsFit self.now.durable.now.part }
        requires closed { IfListFits self.now.durable.now.closed }
        ensures cause { (entries : List Entry) → length entries ≡ proposed.count
            → has_stop entries ≡ proposed.has_stop
            → result ≡ refusal_of self.now.me (role_of role.now) self.now.durable.now entries }
        ensures places { IfNone result (HasPlaces self.now.durable.now.part proposed) }
    {
        if let Some(pos) = self.pending() {
            return Some(Refusal::PendingStop { pos });
        }
        if self.durable.joining.is_some() {
            return Some(Refusal::NoLeader);
        }
        match &self.durable.part {
            Some(part) => open_refusal(&self.at(part), role, proposed),
            None => Some(Refusal::NoLeader),
        }
    }

    /// Where a stop-sign ends the log, or the closed list of a node without a part.
    fn pending(&self) -> Option<u64>
        requires part { IfPositionsFit self.now.durable.now.part }
        requires closed { IfListFits self.now.durable.now.closed }
        ensures { result ≡ pending_at self.now.durable.now.part self.now.durable.now.closed }
    {
        match &self.durable.part {
            Some(part) => self.at(part).pending(),
            None => {
                let closed = self.durable.closed.as_ref()?;
                Some(closed_len(closed).saturating_sub(1))
            }
        }
    }

    /// Commands are proposed together, by a plan in which nothing happens yet.
    pub(crate) fn propose_commands(
        &self,
        volatile: &mut Volatile,
        commands: Commands,
        plan: &mut Plan,
    ) -> Result<(), NoMemory>
        requires node { IsNode self.now.me self.now.durable.now volatile.old }
        requires nothing { plan.old ≡ nothing_plan }
        ensures step { OnOk result (part_step_of plan.new (volatile_of volatile.old)
            ≡ proposal_step self.now.me self.now.durable.now (volatile_of volatile.old)
            (entries_of commands)) }
        ensures rest { volatile.new ≡ record volatile.old {
          role = volatile.new.role;
          staged = volatile.new.staged;
        } }
        ensures same { volatile_of volatile.new ≡ volatile_of volatile.old }
        ensures room { OnOk result (HasRoomIn plan.new.turn volatile.new) }
    {
        let proposed = Proposed {
            count: commands.len(),
            has_stop: false,
        };
        match self.refusal(&volatile.role, proposed) {
            Some(cause) => {
                refuse(plan, cause);
                Ok(())
            }
            None => self.propose(volatile, entries_of(self.alloc, commands)?, plan),
        }
    }

    /// A stop-sign is proposed, with these members in the next configuration.
    #[inline(never)]
    pub(crate) fn propose_stop(
        &self,
        volatile: &mut Volatile,
        members: Shared<Members>,
        plan: &mut Plan,
    ) -> Result<(), NoMemory>
        requires node { IsNode self.now.me self.now.durable.now volatile.old }
        requires nothing { plan.old ≡ nothing_plan }
        ensures step { OnOk result (part_step_of plan.new (volatile_of volatile.old)
            ≡ proposal_step self.now.me self.now.durable.now (volatile_of volatile.old)
            (entry.Stop (stop_for self.now.durable.now.part members) ∷ [])) }
        ensures rest { volatile.new ≡ record volatile.old {
          role = volatile.new.role;
          staged = volatile.new.staged;
        } }
        ensures same { volatile_of volatile.new ≡ volatile_of volatile.old }
        ensures room { OnOk result (HasRoomIn plan.new.turn volatile.new) }
    {
        let proposed = Proposed {
            count: 1,
            has_stop: true,
        };
        match self.refusal(&volatile.role, proposed) {
            Some(cause) => {
                refuse(plan, cause);
                Ok(())
            }
            None => {
                let stop = self.stop_entry(members.get())?;
                self.propose(volatile, one(self.alloc, stop)?, plan)
            }
        }
    }
}

impl Stored<'_> {
    /// Entries that nothing refuses are proposed together.
    fn propose(
        &self,
        volatile: &mut Volatile,
        entries: Entries,
        plan: &mut Plan,
    ) -> Result<(), NoMemory>
        requires node { IfNodeOf self.now.me self.now.durable.now.part volatile.old }
        requires places { IfEnd self.now.durable.now.part (length entries) }
        requires nothing { plan.old ≡ nothing_plan }
        ensures step { OnOk result (part_step_of plan.new (volatile_of volatile.old)
            ≡ proposal_at self.now.me self.now.durable.now.part (volatile_of volatile.old) entries None) }
        ensures rest { volatile.new ≡ record volatile.old {
          role = volatile.new.role;
          staged = volatile.new.staged;
        } }
        ensures same { volatile_of volatile.new ≡ volatile_of volatile.old }
        ensures room { OnOk result (HasRoomIn plan.new.turn volatile.new) }
    {
        match &self.durable.part {
            Some(part) => propose(&self.at(part), &mut volatile.role, entries, plan),
            None => {
                refuse(plan, Refusal::NoLeader);
                Ok(())
            }
        }
    }

    /// The stop-sign that ends the part's configuration, with these members in the next one.
    fn stop_entry(&self, members: &Members) -> Result<Entry, NoMemory>
        requires { IfNumberLeft self.now.durable.now.part }
        ensures { IfOk result (λ e. e ≡ entry.Stop (stop_for self.now.durable.now.part members.now)) }
    {
        let next = match &self.durable.part {
            Some(part) => part.conf + 1,
            None => 1,
        };
        let members = members.copy();
        let stop = Shared::new(self.alloc, StopSign { next, members })?;
        Ok(Entry::Stop(stop))
    }
}

/// The same cause, where the node joins nothing and no stop-sign ends the log.
fn open_refusal(member: &Member, role: &Role, proposed: Proposed) -> Option<Refusal>
    requires { FitsPositions member.now.part.now }
    ensures cause { (entries : List Entry) → length entries ≡ proposed.count
        → has_stop entries ≡ proposed.has_stop
        → result ≡ open_refusal member.now.me (role_of role.now) member.now.part.now entries }
    ensures places { IfNone result (Admits member.now.part.now proposed) }
{
    if knows_no_leader(member, role) {
        return Some(Refusal::NoLeader);
    }
    let room = POSITIONS_END - member.log_len();
    if room < proposed.count as u64 || member.part.conf == LAST_CONF && proposed.has_stop {
        return Some(Refusal::PositionsEnd);
    }
    None
}

/// Whether the node has promised no ballot, or its own and doesn't stand for it.
fn knows_no_leader(member: &Member, role: &Role) -> bool
    ensures { result ≡ knows_no_leader member.now.me (role_of role.now) member.now.part.now }
{
    let promised = member.part.promised;
    promised.is_same(Ballot::NONE) || promised.pid == member.me && is_idle(role)
}

/// Whether a node neither leads nor prepares.
fn is_idle(role: &Role) -> bool
    ensures { result ≡ is_idle (role_of role.now) }
{
    match role {
        Role::Idle => true,
        Role::Preparing(_) | Role::Leading(_) => false,
    }
}

/// Commands as entries of a log.
fn entries_of(alloc: Global, commands: Commands) -> Result<Entries, NoMemory>
    ensures { IfOk result (λ entries. entries ≡ entries_of commands) }
{
    let mut entries = Entries::new(alloc);
    for command in commands.into_vec() {
        entries.push(Entry::Command(command))?;
    }
    Ok(entries)
}

/// The proposal is refused.
fn refuse(plan: &mut Plan, cause: Refusal)
    ensures { plan.new ≡ record plan.old { outcome = Some (Refused cause) } }
{
    plan.outcome = Some(Outcome::Refused(cause));
}
