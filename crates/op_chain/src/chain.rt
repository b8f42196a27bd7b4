ghost use Rattle.std.specs.Prelude.{◌≡◌, ◌≤◌, ℕ, List, length, map, fold, Option, Some, None, option_map, IfOk, OnOk, IfSome};
ghost use Rattle.op_types.specs.Effects.{nothing_plan};
ghost use Rattle.op_types.specs.Stops.{stop_at_end};
ghost use Rattle.op_types.specs.Roles.{role_of};
ghost use Rattle.op_types.specs.Rooms.{with_room, no_needs};
ghost use Rattle.op_types.specs.Stages.{Pieces};
ghost use Rattle.op_types.specs.declared.durable.Joining.{Joining};
ghost use Rattle.op_types.specs.declared.events.Input as input;
ghost use Rattle.op_types.specs.declared.messages.Body as body;
ghost use Rattle.op_record.specs.Ranges.{BatchInRange};
ghost use Rattle.op_protocol.specs.Serving.{dropping_reply};
ghost use Rattle.op_protocol.specs.Joining.{brought_to, holds_more};
ghost use Rattle.op_protocol.specs.Rows.{table_plan, step_at, brought_by, newly_decided, based_batch};
ghost use Rattle.op_protocol.specs.Starting as starts;
ghost use Rattle.op_kv.specs.Bases.{IsBase};
ghost use Rattle.op_change.specs.Over.{service_over};
ghost use Rattle.op_instance.specs.Memory.{volatile_of, part_step_of, HasRoomIn};
ghost use Rattle.op_chain.specs.Answering.{dropped_of};
ghost use Rattle.op_chain.specs.Bringing.{IfJoined};
ghost use Rattle.op_chain.specs.Chains.{state_of, first_state, ballots_in, pairs_in, IsSoundChain, IsSame, Admits, CanOpen};
ghost use Rattle.op_chain.specs.Plans.{Plans, Prepares, Adopts, nothing_ready};
ghost use Rattle.op_chain.specs.Plans.{waiters_of, waiting_by, Serves, IfMayClose, IfCloses, IfGoesOn};
ghost use Rattle.op_chain.specs.Waiting.{with_waiters};
ghost use Rattle.op_chain.specs.Plans.{told_anew, volatile_anew, service_by};

mod leading;
mod reopening;

use crate::answering::{give, give_up};
use crate::brought::Brought;
use crate::chain_plan::ChainPlan;
use crate::closing::{given_up_after, push_news};
use crate::given::Given;
use crate::joining::{bringing, turn_holding};
use crate::ready_plan::ReadyPlan;
use crate::renewal::{Anew, Renewal, begin, push_requests};
use crate::room::Room;
use crate::trimming::add_bases;
use crate::waiting_set::WaitingSet;
use op_deciding::{Served, decided_after, serve_decided, service_at};
use op_instance::{Stored, Volatile, first_volatile, spare_volatile, volatile_after_restart};
use op_kv::Map;
use op_plans::{put, starved};
use op_types::{
    Ballot, Batch, Cause, Change, Command, Durable, Input, NoMemory, Outcome, Part, Pid, Plan,
    PlanParts, Reply, Reserved, StopSign, is_among,
};
use std::alloc::Global;

/// A node over its configurations: what is stored, and what it keeps in memory.
pub struct Chain {
    alloc: Global,
    me: Pid,
    durable: Durable,
    volatile: Volatile,
    /// The service has applied all that is decided.
    service: Map,
    /// Who waits for a reply here.
    waiting: WaitingSet,
}

/// Letting go of it is one call for whoever holds it.
impl Drop for Chain {
    fn drop(self) {
        let Chain {
            alloc: _,
            me: _,
            durable: _,
            volatile: _,
            service: _,
            waiting: _,
        } = self;
    }
}

impl Chain {
    /// A node at its first start, which has stored this. Its service keeps nothing, and nobody waits.
    pub fn first(alloc: Global, me: Pid, durable: Durable) -> Result<Chain, NoMemory>
        requires { CanOpen me durable }
        ensures me { IfOk result (λ c. c.me ≡ me) }
        ensures state { IfOk result (λ c. state_of c ≡ first_state me durable) }
        ensures sound { IfOk result IsSoundChain }
    {
        let volatile = match &durable.part {
            Some(part) => first_volatile(alloc, me, &part.members)?,
            None => spare_volatile(alloc, me)?,
        };
        Ok(Chain {
            alloc,
            me,
            durable,
            volatile,
            service: Map::new(alloc),
            waiting: WaitingSet::new(alloc),
        })
    }

    /// A node that is opened again, and has stored this. Its service is made anew from its base and what is
    /// decided behind it, and nobody waits.
    pub fn again(alloc: Global, me: Pid, durable: Durable) -> Result<Chain, NoMemory>
        requires { CanOpen me durable }
        ensures me { IfOk result (λ c. c.me ≡ me) }
        ensures state { IfOk result (λ c. state_of c ≡ starts.state_after_restart me durable) }
        ensures sound { IfOk result IsSoundChain }
    {
        let volatile = match &durable.part {
            Some(part) => volatile_after_restart(alloc, me, part)?,
            None => spare_volatile(alloc, me)?,
        };
        let service = service_of(alloc, &durable.part)?;
        Ok(Chain {
            alloc,
            me,
            durable,
            volatile,
            service,
            waiting: WaitingSet::new(alloc),
        })
    }

    /// What a step is to do, with all the memory that it takes. Nothing changes but room, and a plan may be
    /// dropped.
    pub fn plan(&mut self, input: Input) -> Result<ReadyPlan, NoMemory>
        requires { Admits self.old input }
        ensures same { IsSame self.old self.new }
        ensures plans { IfOk result (λ plan. Plans self.new input plan) }
    {
        self.durable.leave_room();
        let plan = self.prepare(input)?;
        self.durable.room_for(plan.batch())?;
        Ok(plan)
    }

    /// The same, but for room in what is stored, of which there is none.
    fn prepare(&mut self, input: Input) -> Result<ReadyPlan, NoMemory>
        requires admits { Admits self.old input }
        requires rested { with_room no_needs self.old.durable ≡ self.old.durable }
        ensures same { IsSame self.old self.new }
        ensures rested { self.new.durable ≡ self.old.durable }
        ensures prepares { IfOk result
            (Prepares self.new (table_plan self.old.me (state_of self.old) input)) }
    {
        if self.durable.joining.is_none() {
            self.plan_step(input)
        } else {
            self.plan_brought(input)
        }
    }

    /// The same, of a node that joins: an input may bring something of the closed list.
    #[inline(never)]
    fn plan_brought(&mut self, input: Input) -> Result<ReadyPlan, NoMemory>
        requires admits { Admits self.old input }
        requires rested { with_room no_needs self.old.durable ≡ self.old.durable }
        ensures same { IsSame self.old self.new }
        ensures rested { self.new.durable ≡ self.old.durable }
        ensures prepares { IfOk result
            (Prepares self.new (table_plan self.old.me (state_of self.old) input)) }
    {
        let latest = self.stored().latest();
        let brought = bringing(
            self.alloc,
            latest,
            &self.durable.joining,
            &self.volatile.pieces,
            input,
        )?;
        match brought {
            Brought::Nothing(input) => self.plan_step(input),
            Brought::Changes(batch, service) => self.plan_joining(batch, service),
        }
    }

    /// The node and what it stores.
    fn stored(&self) -> Stored<'_>
        ensures me { result.me ≡ self.now.me }
        ensures durable { result.durable.now ≡ self.now.durable }
    {
        Stored {
            alloc: self.alloc,
            me: self.me,
            durable: &self.durable,
        }
    }

    /// The plan of an input that brings nothing of a closed list: the part that decides its stop-sign is
    /// closed.
    fn plan_step(&mut self, input: Input) -> Result<ReadyPlan, NoMemory>
        requires admits { Admits self.old input }
        requires rested { with_room no_needs self.old.durable ≡ self.old.durable }
        requires none { brought_by self.old.durable (volatile_of self.old.volatile) input ≡ None }
        ensures same { IsSame self.old self.new }
        ensures rested { self.new.durable ≡ self.old.durable }
        ensures prepares { IfOk result
            (Prepares self.new (table_plan self.old.me (state_of self.old) input)) }
    {
        let Ok(mut plan) = ChainPlan::nothing(self.alloc) else {
            return Err(starved(input));
        };
        let Ok(()) = self.fill(input, &mut *plan) else {
            return Err(starved(plan));
        };
        Ok(ReadyPlan::new(plan))
    }

    /// The same, by a plan in which nothing happens yet.
    fn fill(&mut self, input: Input, plan: &mut ChainPlan) -> Result<(), NoMemory>
        requires admits { Admits self.old input }
        requires rested { with_room no_needs self.old.durable ≡ self.old.durable }
        requires none { brought_by self.old.durable (volatile_of self.old.volatile) input ≡ None }
        requires nothing { plan.old ≡ nothing_ready }
        ensures same { IsSame self.old self.new }
        ensures rested { self.new.durable ≡ self.old.durable }
        ensures prepares { OnOk result
            (Prepares self.new (table_plan self.old.me (state_of self.old) input) plan.new) }
    {
        self.step(input, &mut plan.plan)?;
        add_bases(self.alloc, &self.durable.part, &mut plan.plan.batch)?;
        self.serve(plan)
    }

    /// What the plan decides is served, and its part closed where it decides a stop-sign. There is room then
    /// for all who are told, and still for those that are to wait, unless they are refused.
    fn serve(&mut self, plan: &mut ChainPlan) -> Result<(), NoMemory>
        requires may { IfMayClose self.old.durable.part plan.old.plan.batch }
        requires nothing { plan.old ≡ record nothing_ready { plan = plan.old.plan } }
        ensures rest { self.new ≡ record self.old {
          service = self.new.service;
          waiting = self.new.waiting;
        } }
        ensures service { self.new.service.service ≡ self.old.service.service }
        ensures waiting { self.new.waiting.waiting ≡ self.old.waiting.waiting }
        ensures served { OnOk result ((waiters : List (ℕ × ℕ)) →
            self.old.waiting.next ≡ with_waiters self.old.waiting.waiting waiters →
            Serves self.old plan.old.plan waiters self.new plan.new) }
    {
        self.service.settle()?;
        let batch = plan.plan.batch.as_slice();
        let part = &self.durable.part;
        serve_decided(self.alloc, &self.service, part, batch, &mut plan.served)?;
        self.close(plan)?;
        self.let_refused_go(&plan.plan.outcome);
        plan.make_room()
    }

    /// The plan of changes by which a node that joins holds more: it goes on in the new configuration with
    /// this service, if it has all then.
    #[inline(never)]
    fn plan_joining(&mut self, batch: Batch, service: Option<Map>) -> Result<ReadyPlan, NoMemory>
        requires sound { IsSoundChain self.old }
        requires rested { with_room no_needs self.old.durable ≡ self.old.durable }
        requires brought { (o : Option Pieces) × (c : ℕ) × (b : body.Body)
            × (brought_to self.old.durable.joining o c b ≡ Some batch) }
        requires served { (j : Joining) × (self.old.durable.joining ≡ Some j) × IfJoined j batch service }
        requires range { BatchInRange (holds_more self.old.me (state_of self.old) batch).batch }
        ensures same { IsSame self.old self.new }
        ensures rested { self.new.durable ≡ self.old.durable }
        ensures prepares { IfOk result
            (Prepares self.new (holds_more self.old.me (state_of self.old) batch)) }
    {
        self.service.settle()?;
        let mut boxed = ChainPlan::nothing(self.alloc)?;
        let plan = &mut *boxed;
        plan.plan
            .set_turn(turn_holding(&self.durable.joining, batch.as_slice()));
        plan.plan.batch = batch;
        let renewal = self.go_on(&mut plan.plan, service)?;
        put(&mut plan.renewal, renewal);
        self.waiting.give_up_room();
        plan.make_room()?;
        Ok(ReadyPlan::new(boxed))
    }

    /// What the input does in the configurations, but for the base of what it trims. Nothing changes yet, but
    /// the room that the plan's turn needs, and the room for the clients of the input's commands.
    fn step(&mut self, input: Input, plan: &mut Plan) -> Result<(), NoMemory>
        requires sound { IsSoundChain self.old }
        requires nothing { plan.old ≡ nothing_plan }
        ensures rest { self.new ≡ record self.old {
          volatile = record self.old.volatile {
            role = self.new.volatile.role;
            staged = self.new.volatile.staged;
          };
          waiting = self.new.waiting;
        } }
        ensures same { volatile_of self.new.volatile ≡ volatile_of self.old.volatile }
        ensures waiting { self.new.waiting.waiting ≡ self.old.waiting.waiting }
        ensures waiters { OnOk result (self.new.waiting.next
            ≡ with_waiters self.old.waiting.waiting (waiters_of input)) }
        ensures step { OnOk result (part_step_of plan.new (volatile_of self.old.volatile)
            ≡ step_at self.old.me self.old.durable (volatile_of self.old.volatile) input) }
        ensures room { OnOk result (HasRoomIn plan.new.turn self.new.volatile) }
    {
        let Ok(()) = self.waiting.make_room(commands_of(&input)) else {
            return Err(starved(input));
        };
        let stored = Stored {
            alloc: self.alloc,
            me: self.me,
            durable: &self.durable,
        };
        stored.step(&mut self.volatile, input, plan)
    }

    /// Where a plan decides its part's stop-sign, the part is closed: the new members hear of the next
    /// configuration, and all that is kept in memory of the part begins anew.
    fn close(&self, plan: &mut ChainPlan) -> Result<(), NoMemory>
        requires settled { self.now.service.waiting ≡ 0 }
        requires may { IfMayClose self.now.durable.part plan.old.plan.batch }
        requires stop { plan.old.served.stop
            ≡ stop_at_end (newly_decided self.now.durable.part plan.old.plan.batch) }
        requires nothing { plan.old.renewal ≡ None }
        ensures rest { plan.new
            ≡ record plan.old { plan = plan.new.plan; renewal = plan.new.renewal } }
        ensures closes { OnOk result (IfCloses self.now.me self.now.durable.part
            (service_over self.now.service.service plan.old.served.change)
            (role_of self.now.volatile.role) plan.old.plan plan.new.plan plan.new.renewal) }
    {
        let Some(part) = &self.durable.part else {
            return Ok(());
        };
        let served = &plan.served;
        let Some(stop) = &served.stop else {
            return Ok(());
        };
        let anew = self.close_at(&mut plan.plan, served, part, stop)?;
        put(&mut plan.renewal, anew);
        Ok(())
    }

    /// The same, of this part at this stop-sign.
    #[inline(never)]
    fn close_at(
        &self,
        plan: &mut Plan,
        served: &Served,
        part: &Part,
        stop: &StopSign,
    ) -> Result<Anew, NoMemory>
        requires settled { self.now.service.waiting ≡ 0 }
        requires may { IfMayClose self.now.durable.part plan.old.batch }
        requires decided { stop_at_end (newly_decided self.now.durable.part plan.old.batch) ≡ Some stop.now }
        requires part { self.now.durable.part ≡ Some part.now }
        ensures { IfOk result (IfCloses self.now.me self.now.durable.part
            (service_over self.now.service.service served.now.change)
            (role_of self.now.volatile.role) plan.old plan.new) }
    {
        let named = is_among(stop.members.as_slice(), self.me);
        let cause = Cause::Stop(decided_after(part, plan.batch.as_slice()).saturating_sub(1));
        push_news(
            self.alloc,
            &mut plan.sends,
            part,
            plan.batch.as_slice(),
            stop,
        )?;
        let base = self.service.base_bytes_after(self.alloc, &served.change)?;
        plan.batch.push(Change::Close(named, base))?;
        let given_up = given_up_after(self.alloc, &plan.turn, &self.volatile.role, cause)?;
        let renewal = Renewal {
            volatile: begin(self.alloc, self.me, &stop.members)?,
            service: None,
            given_up,
        };
        Anew::from_renewal(self.alloc, renewal)
    }

    /// Where a node that joins has all, so that this is its service, it goes on in the new configuration:
    /// whoever leads is asked to prepare it.
    fn go_on(&self, plan: &mut Plan, service: Option<Map>) -> Result<Anew, NoMemory>
        ensures { IfOk result (IfGoesOn self.now.me self.now.durable.joining service
            (role_of self.now.volatile.role) plan.old plan.new) }
    {
        let Some(joining) = &self.durable.joining else {
            return Ok(Anew::nothing());
        };
        let Some(service) = service else {
            return Ok(Anew::nothing());
        };
        plan.batch
            .push(Change::JoinDone(service.base_bytes(self.alloc)?))?;
        push_requests(&mut plan.sends, self.me, joining)?;
        let cause = Cause::Stop(joining.len.saturating_sub(1));
        let given_up = given_up_after(self.alloc, &plan.turn, &self.volatile.role, cause)?;
        let renewal = Renewal {
            volatile: begin(self.alloc, self.me, &joining.members)?,
            service: Some(service),
            given_up,
        };
        Anew::from_renewal(self.alloc, renewal)
    }

    /// Those whose commands are refused are not to wait.
    fn let_refused_go(&mut self, outcome: &Option<Outcome>)
        ensures rest { self.new ≡ record self.old { waiting = self.new.waiting } }
        ensures same { self.new.waiting.waiting ≡ self.old.waiting.waiting }
        ensures room { (waiters : List (ℕ × ℕ)) →
            self.old.waiting.next ≡ with_waiters self.old.waiting.waiting waiters →
            self.new.waiting.next ≡ waiting_by outcome.now self.old.waiting.waiting waiters }
    {
        if let Some(Outcome::Refused(_)) = outcome {
            self.waiting.give_up_room();
        }
    }

    /// The plan takes effect. It can't fail, and takes no memory.
    pub fn adopt(&mut self, plan: ReadyPlan) -> Given
        requires { (x : input.Input) × Plans self.old x plan }
        ensures { (x : input.Input) → Plans self.old x plan →
            Adopts self.old (table_plan self.old.me (state_of self.old) x) self.new result }
    {
        let ChainPlan {
            plan,
            served,
            renewal,
            room,
        } = plan.into_plan();
        let Served {
            change,
            replies,
            ..
        } = served;
        let PlanParts {
            batch,
            turn,
            sends,
            replies: given_up,
            outcome,
        } = plan.into_parts();
        let Room {
            replies: mut given,
            mut told,
        } = room;
        self.volatile.adopt(turn, &batch);
        self.durable.adopt(batch);
        self.service.adopt(change);
        self.waiting.let_wait();
        give_up(&mut self.waiting, &mut told, given_up);
        give(&mut self.waiting, &mut given, replies);
        given.add_all(told.into_seq());
        self.renew(&mut given, renewal);
        Given {
            sends,
            replies: given.into_seq(),
            outcome,
        }
    }

    /// What begins anew takes its place, and those are told whose proposals are given up with it.
    fn renew(&mut self, given: &mut Reserved<Reply>, anew: Anew)
        requires { length (told_anew anew) ≤ given.old.room }
        ensures rest { self.new ≡ record self.old {
          volatile = volatile_anew anew self.old.volatile;
          service = self.new.service;
          waiting = self.new.waiting;
        } }
        ensures service { self.new.service.service ≡ service_by anew self.old.service.service }
        ensures told { dropped_of self.new.waiting given.new
            ≡ fold dropping_reply (dropped_of self.old.waiting given.old) (told_anew anew) }
    {
        if anew.is_some() {
            self.begin_anew(given, anew);
        }
    }

    /// The same, where something begins anew.
    #[inline(never)]
    fn begin_anew(&mut self, given: &mut Reserved<Reply>, anew: Anew)
        requires { length (told_anew anew) ≤ given.old.room }
        ensures rest { self.new ≡ record self.old {
          volatile = volatile_anew anew self.old.volatile;
          service = self.new.service;
          waiting = self.new.waiting;
        } }
        ensures service { self.new.service.service ≡ service_by anew self.old.service.service }
        ensures told { dropped_of self.new.waiting given.new
            ≡ fold dropping_reply (dropped_of self.old.waiting given.old) (told_anew anew) }
    {
        let Some(
            Renewal {
                volatile,
                service,
                given_up: dropped,
            },
        ) = anew.into_renewal()
        else {
            return;
        };
        put(&mut self.volatile, volatile);
        if let Some(service) = service {
            put(&mut self.service, service);
        }
        give_up(&mut self.waiting, given, dropped);
    }

    /// Whose node this is.
    pub fn me(&self) -> Pid
        ensures { result ≡ self.now.me }
    {
        self.me
    }

    /// What is stored.
    pub fn durable(&self) -> &Durable
        ensures { with_room no_needs result.now ≡ (state_of self.now).durable }
    {
        &self.durable
    }

    /// What is stored, without what is kept in memory. Room that was made for a batch is given up.
    pub fn into_durable(self) -> Durable
        ensures { result ≡ (state_of self).durable }
    {
        let Chain {
            alloc: _,
            me: _,
            mut durable,
            volatile: _,
            service: _,
            waiting: _,
        } = self;
        durable.leave_room();
        durable
    }

    /// The service, after all that is decided.
    pub fn service(&self) -> &Map
        ensures { result.now.service ≡ (state_of self.now).service }
    {
        &self.service
    }

    /// The ballot that the node stands for, its leader's as far as it knows, and the one that it promised;
    /// none without a part.
    pub fn ballots(&self) -> Option<(Ballot, Ballot, Ballot)>
        ensures { result ≡ ballots_in (state_of self.now).volatile (state_of self.now).durable.part }
    {
        let part = self.durable.part.as_ref()?;
        let election = &self.volatile.election;
        Some((election.own(), election.leader(), part.promised))
    }

    /// The service, whose pairs stand there to be read; none without a part.
    pub fn pairs(&self) -> Option<&Map>
        ensures { option_map (λ m. m.now.service.pairs) result
            ≡ pairs_in (state_of self.now).service (state_of self.now).durable.part }
    {
        match self.durable.part {
            Some(_) => Some(&self.service),
            None => None,
        }
    }
}

/// The commands that an input proposes.
fn commands_of(input: &Input) -> &[Command]
    ensures { map (λ c. (c.client, c.seq)) result.now ≡ waiters_of input.now }
{
    match input {
        Input::Commands(commands) => commands.as_slice(),
        _ => &[],
    }
}

/// The service of a part: that of its base, and then of what is decided behind it.
fn service_of(alloc: Global, part: &Option<Part>) -> Result<Map, NoMemory>
    requires { IfSome part.now (λ p. IsBase p.base) }
    ensures { IfOk result (λ m. m.service ≡ starts.service_after_restart part.now) }
{
    match part {
        Some(part) => service_at(alloc, part, part.decided),
        None => Ok(Map::new(alloc)),
    }
}
