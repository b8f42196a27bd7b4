//! What a node leads, and what is left of that once a plan is adopted: what those need to know who wait for
//! the ballot that it leads.
ghost use Rattle.std.specs.Prelude.{◌≡◌, IsSome, option_copied};
ghost use Rattle.op_types.specs.Changes.{durable_after};
ghost use Rattle.op_types.specs.declared.events.Input as input;
ghost use Rattle.op_spec.specs.Service.{value_at};
ghost use Rattle.op_protocol.specs.Configurations.{latest_of};
ghost use Rattle.op_protocol.specs.Reading.{decided_of, why_given_up};
ghost use Rattle.op_chain.specs.Chains.{state_of, IsSoundChain};
ghost use Rattle.op_chain.specs.Leads.{lead_of, why_closed, why_joined, why_anew};
ghost use Rattle.op_chain.specs.Plans.{planned_by, Plans, service_in};

use super::Chain;
use crate::lead::{Lead, lead_after, lead_of};
use crate::ready_plan::ReadyPlan;
use op_deciding::{decided_after, promised_after};
use op_types::{Ballot, Blob, Cause, Change};

impl Chain {
    /// What the node leads.
    pub fn lead(&self) -> Option<Lead>
        ensures { result ≡ lead_of (state_of self.now).volatile.role }
    {
        lead_of(&self.volatile.role)
    }

    /// What it leads once the plan is adopted.
    pub fn lead_after(&self, plan: &ReadyPlan) -> Option<Lead>
        requires { (x : input.Input) × Plans self.now x plan.now }
        ensures { result ≡ lead_of (planned_by self.now plan.now).volatile.role }
    {
        if plan.get().renewal.is_some() {
            return None;
        }
        lead_after(&plan.get().plan.turn, &self.volatile.role)
    }

    /// How much is decided of its part then; nothing without a part.
    pub fn decided_after(&self, plan: &ReadyPlan) -> u64
        requires { (x : input.Input) × Plans self.now x plan.now }
        ensures { result
            ≡ decided_of (durable_after (state_of self.now).durable plan.now.plan.batch).part }
    {
        if plan.get().renewal.is_some() {
            return 0;
        }
        match &self.durable.part {
            Some(part) => decided_after(part, plan.batch().as_slice()),
            None => 0,
        }
    }

    /// A key's value then.
    pub fn value_after<'a>(&'a self, plan: &'a ReadyPlan, key: &Blob) -> Option<&'a Blob>
        requires { (x : input.Input) × Plans self.now x plan.now }
        ensures { option_copied result ≡ value_at key.now (planned_by self.now plan.now).service.pairs }
    {
        match plan.get().renewal.service() {
            Some(service) => service.get(key),
            None => self.service.value_after(&plan.get().served.change, key),
        }
    }

    /// Why a node with a part that leads no more then does so no more: a greater ballot is promised, or the
    /// configuration ended at its stop-sign.
    pub fn why_given_up(&self, plan: &ReadyPlan) -> Cause
        requires plans { (x : input.Input) × Plans self.now x plan.now }
        requires part { IsSome self.now.durable.part }
        ensures { let d = durable_after (state_of self.now).durable plan.now.plan.batch in
            result ≡ why_given_up (latest_of (state_of self.now).durable) d.part d.closed }
    {
        if plan.get().renewal.is_some() {
            return self.why_anew(plan);
        }
        match &self.durable.part {
            Some(part) => Cause::Ballot(promised_after(part, plan.batch().as_slice())),
            None => unreachable!(),
        }
    }

    /// The same, where something begins anew.
    fn why_anew(&self, plan: &ReadyPlan) -> Cause
        requires { (x : input.Input) × Plans self.now x plan.now }
        ensures { result ≡ why_anew (state_of self.now).durable plan.now.plan.batch
            (service_in plan.now.renewal) }
    {
        match plan.get().renewal.service() {
            Some(_) => self.why_joined(),
            None => self.why_closed(plan.batch().as_slice()),
        }
    }

    /// The stop-sign at which its part is closed.
    fn why_closed(&self, batch: &[Change]) -> Cause
        ensures { result ≡ why_closed (state_of self.now).durable.part batch.now }
    {
        match &self.durable.part {
            Some(part) => Cause::Stop(decided_after(part, batch).saturating_sub(1)),
            None => Cause::End,
        }
    }

    /// The stop-sign of the closed list before the configuration that it joins.
    fn why_joined(&self) -> Cause
        requires { IsSoundChain self.now }
        ensures { result
            ≡ why_joined (latest_of (state_of self.now).durable) (state_of self.now).durable.joining }
    {
        match &self.durable.joining {
            Some(joining) if joining.conf == self.stored().latest() => Cause::Ballot(Ballot::NONE),
            Some(joining) => Cause::Stop(joining.len.saturating_sub(1)),
            None => Cause::End,
        }
    }
}
