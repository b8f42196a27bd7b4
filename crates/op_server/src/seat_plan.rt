ghost use Rattle.std.specs.Prelude.{◌≡◌};
ghost use Rattle.op_server.specs.Seats.{batch_of, IsOfServer, IsOfObserver};

use crate::server_plan::ServerPlan;
use op_observer::ObserverPlan;
use op_types::Batch;

/// What a step is to do, with all its room made: it can be adopted, or dropped.
#[derive(Drop)]
pub enum SeatPlan {
    /// Of a node that votes.
    Votes(ServerPlan),
    /// Of an observer.
    Observes(ObserverPlan),
}

impl SeatPlan {
    /// What is to be stored before the plan is adopted.
    pub fn batch(&self) -> &Batch
        ensures { result.now ≡ batch_of self.now }
    {
        match self {
            SeatPlan::Votes(plan) => plan.batch(),
            SeatPlan::Observes(plan) => plan.batch(),
        }
    }

    /// The plan of a node that votes.
    pub(crate) fn into_server_plan(self) -> ServerPlan
        requires { IsOfServer self }
        ensures { self ≡ SeatPlan.Votes result }
    {
        match self {
            SeatPlan::Votes(plan) => plan,
            SeatPlan::Observes(_) => unreachable!(),
        }
    }

    /// The plan of an observer.
    pub(crate) fn into_observer_plan(self) -> ObserverPlan
        requires { IsOfObserver self }
        ensures { self ≡ SeatPlan.Observes result }
    {
        match self {
            SeatPlan::Observes(plan) => plan,
            SeatPlan::Votes(_) => unreachable!(),
        }
    }

    /// What was to be stored by a plan that is dropped.
    pub fn into_batch(self) -> Batch
        ensures { result ≡ batch_of self }
    {
        match self {
            SeatPlan::Votes(plan) => plan.into_batch(),
            SeatPlan::Observes(plan) => plan.into_batch(),
        }
    }
}
