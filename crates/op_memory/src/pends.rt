ghost use Rattle.std.specs.Prelude.{◌≡◌, ◌↔◌, IsTrue, IfOk, OnOk};
ghost use Rattle.op_memory.specs.Pends.{IsPendsOf, IsSamePends, Gathers};
ghost use Rattle.op_memory.specs.Histories.{history_state};
ghost use Rattle.op_memory.specs.Images.{state_of, fresh};
ghost use Rattle.op_memory.specs.Syncs.{HasNoSync};

use crate::call::Call;
use crate::disk_history::DiskHistory;
use crate::syncs::last_sync;
use std::alloc::{AllocError, Global};

/// What is pending of a disk. The greatest length follows from the rest.
#[derive(Drop)]
pub struct Pends {
    /// The bytes of the last sync.
    base: Vec<u8>,
    /// The least length since.
    low: u64,
    /// Where each write since begins, and how many bytes it has.
    writes: Vec<(u64, usize)>,
}

impl Pends {
    /// Whether the same is pending.
    pub fn is_same(&self, other: &Pends) -> bool
        ensures { IsTrue result ↔ IsSamePends self.now other.now }
    {
        self.low == other.low && self.base == other.base && are_same(&self.writes, &other.writes)
    }

    /// One call more, which is no sync.
    fn gather(&mut self, call: &Call) -> Result<(), AllocError>
        ensures { OnOk result (Gathers call.now self.old self.new) }
    {
        match call {
            Call::Write(at, piece) | Call::StoppedWrite(at, piece) => {
                self.writes.push((*at, piece.len()))?;
            }
            Call::Cut(len) | Call::StoppedCut(len) => self.low = self.low.min(*len),
            Call::Sync => {}
        }
        Ok(())
    }
}

impl DiskHistory {
    /// What is pending.
    pub fn pends(&self, alloc: Global) -> Result<Pends, AllocError>
        ensures { IfOk result (IsPendsOf (history_state self.now).pending) }
    {
        let synced = last_sync(&self.calls);
        let (_, pending) = self.calls.as_slice().split_at(synced);
        gather_all(alloc, self.content_at(alloc, synced)?, pending)
    }
}

/// Whether these are the same ranges.
fn are_same(ranges: &[(u64, usize)], others: &[(u64, usize)]) -> bool
    ensures { IsTrue result ↔ (ranges.now ≡ others.now) }
{
    ranges == others
}

/// What is pending of a disk that was synced with these bytes before these calls.
fn gather_all(alloc: Global, base: Vec<u8>, calls: &[Call]) -> Result<Pends, AllocError>
    requires { HasNoSync calls.now }
    ensures { IfOk result (IsPendsOf (state_of (fresh base.items) calls.now).pending) }
{
    let mut pends = Pends {
        low: base.len() as u64,
        base,
        writes: Vec::new(alloc),
    };
    'calls: for call in calls {
        pends.gather(call)?;
    }
    Ok(pends)
}
