ghost use Rattle.std.specs.Prelude.{◌≡◌, [], Some, OnOk, OnErr, IfOk, IfSome};
ghost use Rattle.op_types.specs.Rooms.{with_room, no_needs};
ghost use Rattle.op_types.specs.declared.events.Input as input;
ghost use Rattle.op_kv.specs.Bases.{IsBase};
ghost use Rattle.op_protocol.specs.Starting as starts;
ghost use Rattle.op_protocol.specs.Watching.{watch_plan};
ghost use Rattle.op_runs.specs.World.{state_after_reopening};
ghost use Rattle.op_plans.specs.Positions.{FitsPositions};
ghost use Rattle.op_observer.specs.Observers.{state_of, begun_state, IsSoundObserver, IsSame, Admits, CanWatch};
ghost use Rattle.op_observer.specs.Plans.{service_anew, Plans, Prepares, Adopts};

use crate::answering::answer;
use crate::observer_plan::ObserverPlan;
use crate::taking::hear;
use op_deciding::service_at;
use op_kv::Map;
use op_plans::{Member, put};
use op_types::{
    Durable, Given, Input, NoMemory, Outcome, Part, Pid, Plan, PlanParts, Replies, Sends,
};
use op_watch::BaseStage;
use std::alloc::Global;

/// An observer: what is stored, and what it keeps in memory.
pub struct Observer {
    pub(crate) alloc: Global,
    pub(crate) me: Pid,
    pub(crate) durable: Durable,
    /// What came so far of a base that it is to go on from.
    pub(crate) stage: BaseStage,
    /// The service has applied all that is stored.
    pub(crate) service: Map,
}

/// Letting go of it is one call for whoever holds it.
impl Drop for Observer {
    fn drop(self) {
        let Observer {
            alloc: _,
            me: _,
            durable: _,
            stage: _,
            service: _,
        } = self;
    }
}

impl Observer {
    /// An observer at its first start, which has stored this. Its service keeps nothing.
    pub fn first(alloc: Global, me: Pid, durable: Durable) -> Observer
        requires { CanWatch durable }
        ensures me { result.me ≡ me }
        ensures state { state_of result ≡ begun_state me durable }
        ensures sound { IsSoundObserver result }
    {
        let stage = BaseStage::new();
        let service = Map::new(alloc);
        Observer {
            alloc,
            me,
            durable,
            stage,
            service,
        }
    }

    /// An observer that is opened again, and has stored this. Its service is made anew from its base and what
    /// is decided behind it.
    pub fn again(alloc: Global, me: Pid, durable: Durable) -> Result<Observer, NoMemory>
        requires { CanWatch durable }
        ensures me { IfOk result (λ o. o.me ≡ me) }
        ensures state { IfOk result (λ o. state_of o ≡ starts.state_after_restart me durable) }
        ensures sound { IfOk result IsSoundObserver }
    {
        let service = service_of(alloc, &durable.part)?;
        let stage = BaseStage::new();
        Ok(Observer {
            alloc,
            me,
            durable,
            stage,
            service,
        })
    }

    /// Opens the observer again in place, which has stored this: all that it keeps in memory begins anew.
    /// Without memory it stays as it is.
    pub fn reopen(&mut self, durable: Durable) -> Result<(), NoMemory>
        requires { CanWatch durable }
        ensures me { self.new.me ≡ self.old.me }
        ensures state { OnOk result (state_of self.new
            ≡ state_after_reopening self.old.me (state_of self.old) durable) }
        ensures sound { OnOk result (IsSoundObserver self.new) }
        ensures unchanged { OnErr result (self.new ≡ self.old) }
    {
        let again = Observer::again(self.alloc, self.me, durable)?;
        put(self, again);
        Ok(())
    }

    /// What a step is to do, with all the memory that it takes. Nothing changes but room, and a plan may be
    /// dropped.
    pub fn plan(&mut self, input: Input) -> Result<ObserverPlan, NoMemory>
        requires { Admits self.old input }
        ensures same { IsSame self.old self.new }
        ensures plans { IfOk result (λ plan. Plans self.new input plan) }
    {
        self.durable.leave_room();
        self.service.settle()?;
        let plan = self.prepare(input)?;
        self.durable.room_for(plan.batch())?;
        Ok(plan)
    }

    /// The same, but for room in what is stored.
    fn prepare(&self, input: Input) -> Result<ObserverPlan, NoMemory>
        requires sound { IsSoundObserver self.now }
        requires settled { self.now.service.waiting ≡ 0 }
        ensures { IfOk result (Prepares self.now input) }
    {
        match &self.durable.part {
            Some(part) => self.prepare_at(part, input),
            None => {
                let plan = Plan::nothing(self.alloc);
                Ok(ObserverPlan::alone(self.alloc, plan))
            }
        }
    }

    /// The same, of this part.
    fn prepare_at(&self, part: &Part, input: Input) -> Result<ObserverPlan, NoMemory>
        requires part { self.now.durable.part ≡ Some part.now }
        requires positions { FitsPositions part.now }
        requires settled { self.now.service.waiting ≡ 0 }
        ensures { IfOk result (Prepares self.now input) }
    {
        let member = Member {
            alloc: self.alloc,
            me: self.me,
            part,
        };
        match input {
            Input::Deliver(_, message) => hear(&member, &self.stage, &self.service, message),
            input => {
                let plan = answer(&member, &input)?;
                Ok(ObserverPlan::alone(self.alloc, plan))
            }
        }
    }

    /// The plan takes effect. It can't fail, and takes no memory.
    pub fn adopt(&mut self, plan: ObserverPlan) -> Given
        requires { (x : input.Input) × Plans self.old x plan }
        ensures { (x : input.Input) → Plans self.old x plan →
            Adopts self.old (watch_plan self.old.me (state_of self.old) x) self.new result }
    {
        let (plan, change, service) = plan.into_parts();
        let PlanParts {
            batch,
            turn,
            sends,
            outcome,
            ..
        } = plan.into_parts();
        self.durable.adopt(batch);
        self.service.adopt(change);
        self.stage.adopt(turn);
        self.renew(service);
        giving(self.alloc, sends, outcome)
    }

    /// The service is this one, if there is one.
    fn renew(&mut self, anew: Option<Map>)
        ensures rest { self.new ≡ record self.old { service = self.new.service } }
        ensures service { self.new.service.service
            ≡ service_anew anew self.old.service.service }
    {
        match anew {
            Some(service) => put(&mut self.service, service),
            None => {}
        }
    }

    /// Whose node this is.
    pub fn me(&self) -> Pid
        ensures { result ≡ self.now.me }
    {
        self.me
    }

    /// What is stored.
    pub fn durable(&self) -> &Durable
        ensures { with_room no_needs result.now ≡ (state_of self.now).durable }
    {
        &self.durable
    }

    /// What is stored, without what is kept in memory. Room that was made for a batch is given up.
    pub fn into_durable(self) -> Durable
        ensures { result ≡ (state_of self).durable }
    {
        let Observer {
            alloc: _,
            me: _,
            mut durable,
            stage: _,
            service: _,
        } = self;
        durable.leave_room();
        durable
    }

    /// The service, after all that is stored.
    pub fn service(&self) -> &Map
        ensures { result.now.service ≡ (state_of self.now).service }
    {
        &self.service
    }
}

/// What an observer gives out: nobody waits at it for an answer.
fn giving(alloc: Global, sends: Sends, outcome: Option<Outcome>) -> Given
    ensures { result ≡ record {
      sends = sends;
      replies = [];
      read_replies = [];
      outcome = outcome;
    } }
{
    Given {
        sends,
        replies: Replies::new(alloc),
        read_replies: Replies::new(alloc),
        outcome,
    }
}

/// The service of a part: that of its base, and then of what is decided behind it.
fn service_of(alloc: Global, part: &Option<Part>) -> Result<Map, NoMemory>
    requires { IfSome part.now (λ p. IsBase p.base) }
    ensures { IfOk result (λ m. m.service ≡ starts.service_after_restart part.now) }
{
    match part {
        Some(part) => service_at(alloc, part, part.decided),
        None => Ok(Map::new(alloc)),
    }
}
