ghost use Rattle.std.specs.Prelude.{◌≡◌, option_map, IfOk};
ghost use Rattle.op_types.specs.Rooms.{with_room, no_needs};
ghost use Rattle.op_types.specs.declared.events.Input as input;
ghost use Rattle.op_chain.specs.Chains.{ballots_in, pairs_in};
ghost use Rattle.op_observer.specs.Observers as observers;
ghost use Rattle.op_server.specs.Seats.{me_of, state_of, planned_at, IsSame, Admits, Plans, Adopts};

use crate::seat_plan::SeatPlan;
use crate::server::Server;
use op_chain::Map;
use op_observer::Observer;
use op_types::{Ballot, Durable, Given, Input, NoMemory, Pid};

/// What a node is in its configurations, with all that it keeps in memory.
#[derive(Drop)]
pub enum Seat {
    /// It votes in each configuration that names it.
    Votes(Server),
    /// It never votes, and keeps what is decided.
    Observes(Observer),
}

impl Seat {
    /// What a step is to do, with all the memory that it takes. Nothing changes but room, and a plan may be
    /// dropped.
    pub fn plan(&mut self, input: Input) -> Result<SeatPlan, NoMemory>
        requires { Admits self.old input }
        ensures same { IsSame self.old self.new }
        ensures plans { IfOk result (λ plan. Plans self.new input plan) }
    {
        match self {
            Seat::Votes(server) => Ok(SeatPlan::Votes(server.plan(input)?)),
            Seat::Observes(observer) => Ok(SeatPlan::Observes(observer.plan(input)?)),
        }
    }

    /// The plan takes effect. It can't fail, and takes no memory.
    pub fn adopt(&mut self, plan: SeatPlan) -> Given
        requires { (x : input.Input) × Plans self.old x plan }
        ensures { (x : input.Input) → Plans self.old x plan →
            Adopts self.old (planned_at self.old x) self.new result }
    {
        match self {
            Seat::Votes(server) => server.adopt(plan.into_server_plan()),
            Seat::Observes(observer) => observer.adopt(plan.into_observer_plan()),
        }
    }

    /// Whose node this is.
    pub fn me(&self) -> Pid
        ensures { result ≡ me_of self.now }
    {
        match self {
            Seat::Votes(server) => server.me(),
            Seat::Observes(observer) => observer.me(),
        }
    }

    /// What is stored.
    pub fn durable(&self) -> &Durable
        ensures { with_room no_needs result.now ≡ (state_of self.now).durable }
    {
        match self {
            Seat::Votes(server) => server.durable(),
            Seat::Observes(observer) => observer.durable(),
        }
    }

    /// What is stored, without what is kept in memory. Room that was made for a batch is given up.
    pub fn into_durable(self) -> Durable
        ensures { result ≡ (state_of self).durable }
    {
        match self {
            Seat::Votes(server) => server.into_durable(),
            Seat::Observes(observer) => observer.into_durable(),
        }
    }

    /// The service, after all that is decided.
    pub fn service(&self) -> &Map
        ensures { result.now.service ≡ (state_of self.now).service }
    {
        match self {
            Seat::Votes(server) => server.service(),
            Seat::Observes(observer) => observer.service(),
        }
    }

    /// The ballot that the node stands for, its leader's as far as it knows, and the one that it promised;
    /// none without a part. An observer never stands for its own.
    pub fn ballots(&self) -> Option<(Ballot, Ballot, Ballot)>
        ensures { result ≡ ballots_in (state_of self.now).volatile (state_of self.now).durable.part }
    {
        match self {
            Seat::Votes(server) => server.ballots(),
            Seat::Observes(observer) => observer_ballots(observer),
        }
    }

    /// The service, whose pairs stand there to be read; none without a part.
    pub fn pairs(&self) -> Option<&Map>
        ensures { option_map (λ m. m.now.service.pairs) result
            ≡ pairs_in (state_of self.now).service (state_of self.now).durable.part }
    {
        match self {
            Seat::Votes(server) => server.pairs(),
            Seat::Observes(observer) => observer_pairs(observer),
        }
    }
}

/// The ballots of an observer: it promised none, and knows no leader.
fn observer_ballots(observer: &Observer) -> Option<(Ballot, Ballot, Ballot)>
    ensures { result ≡ ballots_in (observers.state_of observer.now).volatile
        (observers.state_of observer.now).durable.part }
{
    let own = Ballot {
        number: 1,
        pid: observer.me(),
    };
    match &observer.durable().part {
        Some(part) => Some((own, Ballot::NONE, part.promised)),
        None => None,
    }
}

/// The service of an observer, where it has a part.
fn observer_pairs(observer: &Observer) -> Option<&Map>
    ensures { option_map (λ m. m.now.service.pairs) result
        ≡ pairs_in (observers.state_of observer.now).service
        (observers.state_of observer.now).durable.part }
{
    match &observer.durable().part {
        Some(_) => Some(observer.service()),
        None => None,
    }
}
