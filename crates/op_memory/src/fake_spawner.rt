ghost use Rattle.std.specs.Prelude.{◌≡◌, ◌==◌, [], ◌∷◌, filter, not, true, Some, IfOk, IsErr};
ghost use Rattle.std.specs.Result.{result_ok};
ghost use Rattle.op_outside.specs.Causes.{FailsOnlyOnFault};
ghost use Rattle.op_outside.specs.Telling.{Grows};
ghost use Rattle.op_outside.specs.Spawners.{ChildCall, Started, EndedWith};
ghost use Rattle.op_memory.specs.Fakes.{fails_next, one_more, left_after};
ghost use Rattle.op_memory.specs.FakeSpawners.{SpawnerState, child_call, end_of, Called, running_after_start, running_after_end};

use op_outside::{ChildFail, Spawner};
use std::alloc::{AllocError, Global};
use std::collections::VecDeque;
use std::marker::Model;

/// A call of a spawner in memory, with its answer, which is None where it failed.
#[derive(Drop)]
pub enum KeptChild {
    /// A start of an id with its input.
    Started(u32, Vec<u8>, Option<()>),
    /// An end of an id with its status.
    Ended(u32, Option<u8>),
}

/// A spawner in memory, which runs nothing and keeps its calls.
#[derive(Drop)]
pub struct FakeSpawner {
    statuses: VecDeque<u8>,
    fails: Vec<u64>,
    calls: u64,
    faults: u64,
    running: Vec<u32>,
    kept: Vec<KeptChild>,
    forgot: bool,
}

impl Model for FakeSpawner {
    ghost use Rattle.std.specs.Prelude.{map};
    ghost use Rattle.op_memory.specs.Fakes.{told_of};
    ghost use Rattle.op_memory.specs.FakeSpawners.{SpawnerState, child_call};

    ghost Value = { SpawnerState };

    ghost view = { λ s. record {
      statuses = s.statuses.items;
      fails = s.fails.items;
      calls = s.calls;
      faults = s.faults;
      running = s.running.items;
      told = told_of s.forgot (map child_call s.kept.items);
    } };
}

impl FakeSpawner {
    /// Ends give these statuses in their order, and 0 after them. The calls `fails`, which count from 1,
    /// fail.
    pub fn new(alloc: Global, statuses: VecDeque<u8>, fails: Vec<u64>) -> FakeSpawner
        ensures { result ≡ record {
          statuses = statuses.items;
          fails = fails.items;
          calls = 0;
          faults = 0;
          running = [];
          told = Some [];
        } }
    {
        FakeSpawner {
            statuses,
            fails,
            calls: 0,
            faults: 0,
            running: Vec::new(alloc),
            kept: Vec::new(alloc),
            forgot: false,
        }
    }

    /// Counts a call, and says whether it is one that fails.
    fn fails(&mut self) -> bool
        ensures fails { result ≡ fails_next self.old.calls self.old.fails }
        ensures called { self.new ≡ record self.old { calls = one_more self.old.calls } }
    {
        self.calls = self.calls.saturating_add(1);
        self.fails.contains(&self.calls)
    }

    /// Keeps a call.
    fn keep(&mut self, call: Result<KeptChild, AllocError>)
        ensures tells { (c : ChildCall) → IfOk call (λ k. child_call k ≡ c)
            → Grows self.old.told (c ∷ []) self.new.told }
        ensures same { self.new ≡ record self.old { told = self.new.told } }
    {
        match call {
            Ok(call) => {
                if self.kept.push(call).is_err() {
                    self.forgot = true;
                }
            }
            Err(_) => self.forgot = true,
        }
    }
}

impl Spawner for FakeSpawner {
    ghost told = { λ s. s.told };

    ghost fault_count = { λ s. s.faults };

    fn faults(&self) -> u64 {
        self.faults
    }

    fn start(&mut self, id: u32, input: &[u8]) -> Result<(), ChildFail>
        ensures tells { Grows self.old.told (Started id input.now (result_ok result) ∷ []) self.new.told }
        ensures cause { FailsOnlyOnFault self.old.faults self.new.faults result }

        ensures fails { fails_next self.old.calls self.old.fails ≡ true → IsErr result }
        ensures called { Called self.old self.new result }
        ensures running { self.new.running ≡ running_after_start id self.old.running result }
        ensures statuses { self.new.statuses ≡ self.old.statuses }
    {
        let copy = Vec::from_slice(*self.kept.allocator(), input);
        if self.fails() || self.running.push(id).is_err() {
            self.faults = self.faults.saturating_add(1);
            self.keep(copy.map(|input| KeptChild::Started(id, input, None)));
            return Err(ChildFail);
        }
        self.keep(copy.map(|input| KeptChild::Started(id, input, Some(()))));
        Ok(())
    }

    fn end(&mut self, id: u32) -> Result<u8, ChildFail>
        ensures tells { Grows self.old.told (EndedWith id (result_ok result) ∷ []) self.new.told }
        ensures cause { FailsOnlyOnFault self.old.faults self.new.faults result }

        ensures answer { result ≡ end_of id self.old }
        ensures called { Called self.old self.new result }
        ensures running { self.new.running ≡ running_after_end id self.old.running result }
        ensures statuses { self.new.statuses ≡ left_after self.old.statuses result }
    {
        if self.fails() || !self.running.contains(&id) {
            self.faults = self.faults.saturating_add(1);
            self.keep(Ok(KeptChild::Ended(id, None)));
            return Err(ChildFail);
        }
        drop_id(&mut self.running, id);
        let status = self.statuses.pop_front().unwrap_or(0);
        self.keep(Ok(KeptChild::Ended(id, Some(status))));
        Ok(status)
    }
}

/// Takes all that are this id out of a list.
fn drop_id(running: &mut Vec<u32>, id: u32)
    ensures { running.new.items ≡ filter (λ other. not (other == id)) running.old.items }
{
    running.retain(|other| *other != id);
}
