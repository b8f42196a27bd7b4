//! A node's step.
ghost use Rattle.std.specs.Prelude.{◌≡◌, nat_eq, false, IfOk, OnOk};
ghost use Rattle.std.specs.Set.{is_member};
ghost use Rattle.op_protocol.specs.Parts.{others};
ghost use Rattle.op_protocol.specs.Rows.{session_up, tick_at, trim_at, up_at, step_at};
ghost use Rattle.op_types.specs.Effects.{effects_of, nothing_plan};
ghost use Rattle.op_types.specs.Roles.{role_of, HasRoom};
ghost use Rattle.op_instance.specs.Memory.{volatile_of, part_step_of, HasRoomIn};
ghost use Rattle.op_instance.specs.Proposals.{proposes};
ghost use Rattle.op_instance.specs.Sound.{IfListFits, IfNodeOf, IsNode};

use crate::delivering::deliver;
use crate::stored::Stored;
use crate::ticking::tick;
use crate::volatile::Volatile;
use op_leader::session_down;
use op_plans::Member;
use op_trim::trim_now;
use op_types::{Body, Input, NoMemory, Outcome, Pid, Plan, Role, is_among};

impl Stored<'_> {
    /// What comes of an input, but for the base of what it trims, what it decides, what it brings of a closed
    /// list, and what comes of reads, by a plan in which nothing happens yet. Nothing changes yet, but the
    /// room that the plan's turn needs.
    pub fn step(
        &self,
        volatile: &mut Volatile,
        input: Input,
        plan: &mut Plan,
    ) -> Result<(), NoMemory>
        requires node { IsNode self.now.me self.now.durable.now volatile.old }
        requires nothing { plan.old ≡ nothing_plan }
        ensures step { OnOk result (part_step_of plan.new (volatile_of volatile.old)
            ≡ step_at self.now.me self.now.durable.now (volatile_of volatile.old) input) }
        ensures rest { volatile.new ≡ record volatile.old {
          role = volatile.new.role;
          staged = volatile.new.staged;
        } }
        ensures same { volatile_of volatile.new ≡ volatile_of volatile.old }
        ensures room { OnOk result (HasRoomIn plan.new.turn volatile.new) }
    {
        match input {
            Input::Commands(commands) => self.propose_commands(volatile, commands, plan),
            Input::Stop(members) => self.propose_stop(volatile, members, plan),
            input => self.react(volatile, input, plan),
        }
    }

    /// The same, of an input that proposes nothing.
    #[inline(never)]
    fn react(&self, volatile: &mut Volatile, input: Input, plan: &mut Plan) -> Result<(), NoMemory>
        requires node { IsNode self.now.me self.now.durable.now volatile.old }
        requires other { proposes input ≡ false }
        ensures step { OnOk result (part_step_of plan.new (volatile_of volatile.old)
            ≡ step_at self.now.me self.now.durable.now (volatile_of volatile.old) input) }
        ensures rest { volatile.new ≡ record volatile.old {
          role = volatile.new.role;
          staged = volatile.new.staged;
        } }
        ensures same { volatile_of volatile.new ≡ volatile_of volatile.old }
        ensures room { OnOk result (HasRoomIn plan.new.turn volatile.new) }
    {
        put(plan, self.reaction(volatile, input)?);
        Ok(())
    }

    /// What comes of an input that proposes nothing.
    fn reaction(&self, volatile: &mut Volatile, input: Input) -> Result<Plan, NoMemory>
        requires node { IsNode self.now.me self.now.durable.now volatile.old }
        requires other { proposes input ≡ false }
        ensures step { IfOk result (λ plan. part_step_of plan (volatile_of volatile.old)
            ≡ step_at self.now.me self.now.durable.now (volatile_of volatile.old) input) }
        ensures rest { volatile.new ≡ record volatile.old {
          role = volatile.new.role;
          staged = volatile.new.staged;
        } }
        ensures same { volatile_of volatile.new ≡ volatile_of volatile.old }
        ensures room { IfOk result (λ plan. HasRoomIn plan.turn volatile.new) }
    {
        match input {
            Input::Tick => self.tick(volatile),
            Input::Deliver(from, message) => deliver(self, volatile, from, message),
            Input::TrimNow => self.trim(volatile),
            Input::Read(_) => Ok(self.nothing()),
            Input::Up(peer) => self.up(volatile, peer),
            Input::Down(peer) => Ok(session_down(self.alloc, &volatile.role, peer)),
            Input::Commands(_) | Input::Stop(_) => unreachable!(),
        }
    }

    /// A node that joins asks for what it lacks; another one ends its heartbeat round.
    fn tick(&self, volatile: &Volatile) -> Result<Plan, NoMemory>
        requires { IfNodeOf self.now.me self.now.durable.now.part volatile.now }
        ensures step { IfOk result (λ plan. part_step_of plan (volatile_of volatile.now)
            ≡ tick_at self.now.me self.now.durable.now.part self.now.durable.now.joining
            (volatile_of volatile.now)) }
        ensures room { IfOk result (λ plan. HasRoomIn plan.turn volatile.now) }
    {
        if let Some(joining) = &self.durable.joining {
            return Ok(self.sending(op_segments::plan(self.alloc, joining)?));
        }
        match &self.durable.part {
            Some(part) => tick(&self.at(part), volatile),
            None => Ok(self.nothing()),
        }
    }

    /// A client asks for trimming.
    fn trim(&self, volatile: &Volatile) -> Result<Plan, NoMemory>
        ensures step { IfOk result (λ plan. part_step_of plan (volatile_of volatile.now)
            ≡ trim_at self.now.me self.now.durable.now.part (volatile_of volatile.now)) }
        ensures room { IfOk result (λ plan. HasRoomIn plan.turn volatile.now) }
    {
        match &self.durable.part {
            Some(part) => trim_now(&self.at(part), &volatile.role),
            None => {
                let mut plan = self.nothing();
                plan.outcome = Some(Outcome::NotLeading);
                Ok(plan)
            }
        }
    }

    /// A session with another server begins. A node that has left its configuration tells a member of the
    /// next one of it, and one that joins asks nobody.
    fn up(&self, volatile: &Volatile, peer: Pid) -> Result<Plan, NoMemory>
        requires { IfListFits self.now.durable.now.closed }
        ensures step { IfOk result (λ plan. part_step_of plan (volatile_of volatile.now)
            ≡ up_at self.now.me self.now.durable.now self.now.durable.now.part
            self.now.durable.now.joining (volatile_of volatile.now) peer) }
        ensures room { IfOk result (λ plan. HasRoomIn plan.turn volatile.now) }
    {
        if self.durable.joining.is_some() {
            return Ok(self.nothing());
        }
        match &self.durable.part {
            Some(part) => session_up(&self.at(part), &volatile.role, peer),
            None => Ok(self.sending(self.answer_older(peer)?)),
        }
    }
}

/// A session with another member begins: if it leads, it is to prepare this node.
fn session_up(member: &Member, role: &Role, peer: Pid) -> Result<Plan, NoMemory>
    ensures row { IfOk result (λ plan. effects_of role.now plan
        ≡ session_up member.now.me member.now.part.now (role_of role.now) peer) }
    ensures room { IfOk result (λ plan. HasRoom plan.turn role.now) }
{
    if is_other(member, peer) {
        member.saying(peer, Body::PrepareReq)
    } else {
        Ok(member.nothing())
    }
}

#[tactic(auto, using(op_quorum::proofs::Meeting::member_passing))]
/// Whether a server is another member.
fn is_other(member: &Member, pid: Pid) -> bool
    ensures { result ≡ is_member nat_eq (others member.now.me member.now.part.now.members) pid }
{
    is_among(member.part.members.as_slice(), pid) && pid != member.me
}

/// Takes a plan's place.
fn put(plan: &mut Plan, new: Plan)
    ensures { plan.new ≡ new }
{
    *plan = new;
}
