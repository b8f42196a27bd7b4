ghost use Rattle.std.specs.Prelude.{◌≡◌};

use crate::chain_plan::ChainPlan;
use op_types::{Batch, Sends};
use std::marker::Model;

/// A plan that is ready: it can be adopted, or dropped. It lies on the heap, so that it is handed on without
/// being moved.
pub struct ReadyPlan {
    plan: Box<ChainPlan>,
}

/// Letting go of it is one call for whoever holds it.
impl Drop for ReadyPlan {
    fn drop(self) {
        let ReadyPlan { plan: _ } = self;
    }
}

impl Model for ReadyPlan {
    ghost use Rattle.op_chain.specs.declared.chain_plan.ChainPlan.{ChainPlan};

    ghost Value = { ChainPlan };

    ghost view = { λ p. p.plan.value };
}

impl ReadyPlan {
    /// This plan.
    pub(crate) fn new(plan: Box<ChainPlan>) -> ReadyPlan
        ensures { result ≡ plan.value }
    {
        ReadyPlan { plan }
    }

    /// What it is to do.
    pub(crate) fn get(&self) -> &ChainPlan
        ensures { result.now ≡ self.now }
    {
        &self.plan
    }

    /// What it is to do, to be adopted.
    pub(crate) fn into_plan(self) -> ChainPlan
        ensures { result ≡ self }
    {
        let ReadyPlan { plan } = self;
        Box::into_inner(plan)
    }

    /// What is to be stored before the plan is adopted.
    pub fn batch(&self) -> &Batch
        ensures { result.now ≡ self.now.plan.batch }
    {
        &self.plan.plan.batch
    }

    /// The messages that go out once it is adopted.
    pub fn sends(&self) -> &Sends
        ensures { result.now ≡ self.now.plan.sends }
    {
        &self.plan.plan.sends
    }

    /// What was to be stored by a plan that is dropped.
    pub fn into_batch(self) -> Batch
        ensures { result ≡ self.plan.batch }
    {
        self.into_plan().plan.into_parts().batch
    }
}
