ghost use Rattle.std.specs.Prelude.{◌≡◌, None, Some};
ghost use Rattle.op_change.specs.Over.{nothing_written};

use op_change::KvChange;
use op_kv::Map;
use op_types::{Batch, Plan};
use std::alloc::Global;

/// What a step of an observer is to do, with all its room made: it can be adopted, or dropped.
pub struct ObserverPlan {
    pub(crate) plan: Plan,
    /// What the entries that it stores do to the service.
    pub(crate) change: KvChange,
    /// The service, where it is read anew from a base.
    pub(crate) service: Option<Map>,
}

/// Letting go of it is one call for whoever holds it.
impl Drop for ObserverPlan {
    fn drop(self) {
        let ObserverPlan {
            plan: _,
            change: _,
            service: _,
        } = self;
    }
}

impl ObserverPlan {
    /// A plan that does nothing to the service.
    pub(crate) fn alone(alloc: Global, plan: Plan) -> ObserverPlan
        ensures { result ≡ record { plan = plan; change = nothing_written; service = None } }
    {
        ObserverPlan::serving(plan, KvChange::new(alloc))
    }

    /// A plan whose entries do this to the service.
    pub(crate) fn serving(plan: Plan, change: KvChange) -> ObserverPlan
        ensures { result ≡ record { plan = plan; change = change; service = None } }
    {
        ObserverPlan {
            plan,
            change,
            service: None,
        }
    }

    /// A plan by which the service is this one.
    pub(crate) fn anew(alloc: Global, plan: Plan, service: Map) -> ObserverPlan
        ensures { result ≡ record {
          plan = plan;
          change = nothing_written;
          service = Some service;
        } }
    {
        ObserverPlan {
            plan,
            change: KvChange::new(alloc),
            service: Some(service),
        }
    }

    /// Takes the plan apart.
    pub(crate) fn into_parts(self) -> (Plan, KvChange, Option<Map>)
        ensures plan { result.0 ≡ self.plan }
        ensures change { result.1 ≡ self.change }
        ensures service { result.2 ≡ self.service }
    {
        let ObserverPlan {
            plan,
            change,
            service,
        } = self;
        (plan, change, service)
    }

    /// What is to be stored before the plan is adopted.
    pub fn batch(&self) -> &Batch
        ensures { result.now ≡ self.now.plan.batch }
    {
        &self.plan.batch
    }

    /// What was to be stored by a plan that is dropped.
    pub fn into_batch(self) -> Batch
        ensures { result ≡ self.plan.batch }
    {
        let (plan, _, _) = self.into_parts();
        plan.into_parts().batch
    }
}
