ghost use Rattle.std.specs.Prelude.{◌≡◌, ◌++◌, ◌↔◌, OnOk, IfOk, IsTrue, map, option_copied};
ghost use Rattle.std.specs.Ordering.{nat_cmp};
ghost use Rattle.std.specs.Cmp.Lexicographic.{slice_cmp};
ghost use Rattle.std.specs.List.Sorted.{IsStrictlySortedBy};
ghost use Rattle.std.specs.Map.{keys_of};
ghost use Rattle.std.specs.Map.Iter.{deref_pair};
ghost use Rattle.op_spec.specs.Service.{new_service, value_at, answer_of, service_with, all_after, base_bytes};
ghost use Rattle.op_spec.specs.ServiceRanges.{ServiceInRange, ServiceIsOrdered};
ghost use Rattle.op_kv.specs.Bases.{IsBase};
ghost use Rattle.op_change.specs.Over.{service_over, answers_of};

use crate::Pairs;
use crate::base::{base_end, tables_of};
use crate::writing::{put_clients, put_pairs};
use op_change::{Answers, KvChange, Tables};
use op_types::{Answer, Blob, Command, Entry, NoMemory};
use std::alloc::Global;
use std::collections::BTreeMap;
use std::marker::Model;

/// The service's state. The change that was adopted last stands over the rest until the next plan.
#[derive(Drop)]
pub struct Map {
    kept: Tables,
    newer: KvChange,
}

impl Model for Map {
    ghost use Rattle.std.specs.Prelude.{◌+◌, length};
    ghost use Rattle.op_change.specs.Over.{service_over};
    ghost use Rattle.op_kv.specs.Maps.{MapState};

    ghost Value = { MapState };

    ghost view = { λ m. record {
      service = service_over m.kept m.newer;
      waiting = length m.newer.pairs + length m.newer.gone + length m.newer.clients
          + length m.newer.forgotten;
    } };
}

impl Map {
    /// The service that nothing was put to.
    pub fn new(alloc: Global) -> Self
        ensures { result ≡ record { service = new_service; waiting = 0 } }
    {
        Map {
            kept: Tables::new(alloc),
            newer: KvChange::new(alloc),
        }
    }

    /// A key's value.
    pub fn get(&self, key: &Blob) -> Option<&Blob>
        ensures { option_copied result ≡ value_at key.now self.now.service.pairs }
    {
        self.newer.value_of(&self.kept, key)
    }

    /// A key's value once a planned change is adopted. The service stays as it is.
    pub fn value_after<'a>(&'a self, change: &'a KvChange, key: &Blob) -> Option<&'a Blob>
        requires { self.now.waiting ≡ 0 }
        ensures { option_copied result
            ≡ value_at key.now (service_over self.now.service change.now).pairs }
    {
        change.value_of(&self.kept, key)
    }

    /// Moves what was adopted last to its place, as each plan does first.
    pub fn settle(&mut self) -> Result<(), NoMemory>
        ensures stays { self.new.service ≡ self.old.service }
        ensures ready { OnOk result (self.new.waiting ≡ 0) }
    {
        self.kept.take_in(&mut self.newer)
    }

    /// What the service answers these commands, and the change that they make. The service stays as it is.
    pub fn plan(
        &mut self,
        alloc: Global,
        commands: &[Entry],
    ) -> Result<(Answers, KvChange), NoMemory>
        ensures stays { self.new.service ≡ self.old.service }
        ensures ready { OnOk result (self.new.waiting ≡ 0) }
        ensures answers { IfOk result (λ r. r.0 ≡ answers_of self.old.service commands.now) }
        ensures change { IfOk result (λ r. service_over self.old.service r.1
            ≡ all_after self.old.service commands.now) }
    {
        self.settle()?;
        let mut answers = Answers::new(alloc);
        let mut change = KvChange::new(alloc);
        self.plan_more(alloc, &mut answers, &mut change, commands)?;
        Ok((answers, change))
    }

    /// Goes on with a plan: the answers to these commands too, and the change that they make too. Without
    /// memory the plan is to be given up, since a part of it is done.
    pub fn plan_more(
        &self,
        alloc: Global,
        answers: &mut Answers,
        change: &mut KvChange,
        commands: &[Entry],
    ) -> Result<(), NoMemory>
        requires { self.now.waiting ≡ 0 }
        ensures answers { OnOk result (answers.new
            ≡ answers.old ++ answers_of (service_over self.now.service change.old) commands.now) }
        ensures change { OnOk result (service_over self.now.service change.new
            ≡ all_after (service_over self.now.service change.old) commands.now) }
    {
        change.serve_all(alloc, &self.kept, answers, commands)
    }

    /// What the service answers one more command of a plan, which takes its effect in the plan's change.
    /// Without memory the plan is to be given up.
    pub fn serve(
        &self,
        alloc: Global,
        change: &mut KvChange,
        command: &Command,
    ) -> Result<Answer, NoMemory>
        requires { self.now.waiting ≡ 0 }
        ensures answer { IfOk result (λ a. a
            ≡ answer_of (service_over self.now.service change.old) command.now) }
        ensures effect { OnOk result (service_over self.now.service change.new
            ≡ service_with (service_over self.now.service change.old) command.now) }
    {
        change.serve(alloc, &self.kept, command)
    }

    /// The planned change takes effect. This can't fail, and takes no memory.
    pub fn adopt(&mut self, change: KvChange)
        requires { self.old.waiting ≡ 0 }
        ensures { self.new.service ≡ service_over self.old.service change }
    {
        self.newer = change;
    }

    /// A copy of the pairs, as they stand, also before what was adopted last is at its place.
    pub fn pairs(&self, alloc: Global) -> Result<Pairs, NoMemory>
        ensures pairs { IfOk result (λ pairs. pairs ≡ self.now.service.pairs) }
        ensures order { OnOk result
            (IsStrictlySortedBy (slice_cmp nat_cmp) (keys_of self.now.service.pairs)) }
    {
        copy_pairs(alloc, &self.kept.pairs_with(alloc, &self.newer)?)
    }

    /// The bytes of the service's state, as they stand, also before what was adopted last is at its place.
    pub fn base_bytes(&self, alloc: Global) -> Result<Blob, NoMemory>
        ensures bytes { IfOk result (λ bytes. bytes ≡ base_bytes self.now.service) }
        ensures order { OnOk result (ServiceIsOrdered self.now.service) }
    {
        bytes_with(alloc, &self.kept, &self.newer)
    }

    /// The bytes of the service's state once a planned change is adopted. The service stays as it is.
    pub fn base_bytes_after(&self, alloc: Global, change: &KvChange) -> Result<Blob, NoMemory>
        requires { self.now.waiting ≡ 0 }
        ensures bytes { IfOk result (λ bytes. bytes
            ≡ base_bytes (service_over self.now.service change.now)) }
        ensures order { OnOk result (ServiceIsOrdered (service_over self.now.service change.now)) }
    {
        bytes_with(alloc, &self.kept, change)
    }

    /// Whether a service in range and in order has these bytes as its base. This takes no memory.
    pub fn is_base(bytes: &[u8]) -> bool
        ensures { IsTrue result ↔ IsBase bytes.now }
    {
        match base_end(bytes) {
            Some(end) => end == bytes.len(),
            None => false,
        }
    }

    /// The service that has these bytes as its base, settled.
    pub fn from_base(alloc: Global, bytes: &[u8]) -> Result<Self, NoMemory>
        requires { IsBase bytes.now }
        ensures bytes { IfOk result (λ m. base_bytes m.service ≡ bytes.now) }
        ensures range { IfOk result (λ m. ServiceInRange m.service) }
        ensures order { IfOk result (λ m. ServiceIsOrdered m.service) }
        ensures settled { IfOk result (λ m. m.waiting ≡ 0) }
    {
        let Some(kept) = tables_of(alloc, bytes)? else {
            unreachable!()
        };
        Ok(Map {
            kept,
            newer: KvChange::new(alloc),
        })
    }
}

/// The bytes of what is kept, with what is written over it.
fn bytes_with(alloc: Global, kept: &Tables, newer: &KvChange) -> Result<Blob, NoMemory>
    ensures bytes { IfOk result (λ bytes. bytes ≡ base_bytes (service_over kept.now newer.now)) }
    ensures order { OnOk result (ServiceIsOrdered (service_over kept.now newer.now)) }
{
    let mut out = Vec::new(alloc);
    put_pairs(&mut out, &kept.pairs_with(alloc, newer)?)?;
    put_clients(&mut out, &kept.clients_with(alloc, newer)?)?;
    Blob::from_vec(out)
}

/// Copies of these pairs, in their order.
fn copy_pairs(alloc: Global, pairs: &BTreeMap<&Blob, &Blob>) -> Result<Pairs, NoMemory>
    ensures { IfOk result (λ copy. copy ≡ map deref_pair pairs.now.entries) }
{
    let mut copy = Pairs::new(alloc);
    'pairs: for (key, value) in pairs {
        copy.push((key.copy()?, value.copy()?))?;
    }
    Ok(copy)
}
