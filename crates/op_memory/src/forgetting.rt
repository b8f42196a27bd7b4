ghost use Rattle.std.specs.Prelude.{◌≡◌, ◌≤◌, drop, vec_len, IfOk};
ghost use Rattle.op_memory.specs.Histories.{history_state};
ghost use Rattle.op_memory.specs.Syncs.{HasNoSync};

use crate::disk_history::DiskHistory;
use crate::syncs::last_sync;
use std::alloc::AllocError;

impl DiskHistory {
    /// Lets go of the calls up to the last sync. Their room is kept for later ones.
    pub fn forget(self) -> Result<DiskHistory, AllocError>
        ensures forgets { IfOk result (λ new. HasNoSync new.calls.items) }
        ensures bytes { IfOk result (λ new. new.bytes.items ≡ self.bytes.items) }
        ensures state { IfOk result (λ new. history_state new ≡ history_state self) }
    {
        let DiskHistory {
            mut calls,
            mut replaced,
            bytes,
        } = self;
        let done = last_sync(&calls);
        remove_front(&mut calls, done);
        remove_front(&mut replaced, done);
        Ok(DiskHistory {
            calls,
            replaced,
            bytes,
        })
    }
}

/// Removes items at the front, and keeps their room.
fn remove_front<T: Drop>(items: &mut Vec<T>, count: usize)
    requires { count ≤ vec_len items.old }
    ensures { items.new.items ≡ drop count items.old.items }
{
    let left = items.len() - count;
    items.rotate_left(count);
    items.truncate(left);
}
