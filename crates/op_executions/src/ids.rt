//! The ids of a world's servers.
ghost use Rattle.std.specs.Prelude.{◌≡◌, ◌≤◌, length, IfOk, OnOk};
ghost use Rattle.std.specs.BTreeSet.{insert_key};
ghost use Rattle.std.specs.Ordering.{nat_cmp};
ghost use Rattle.op_runs.specs.World as runs;
ghost use Rattle.op_executions.specs.Ids.{count_below};

use op_types::{NoMemory, Pid};
use std::alloc::Global;

/// These ids with more of them, rising.
pub fn node_ids(alloc: Global, first: &[Pid], more: &[Pid]) -> Result<Vec<Pid>, NoMemory>
    ensures { IfOk result (λ ids. ids.items ≡ runs.node_ids first.now more.now) }
{
    let mut ids = Vec::new(alloc);
    ids.extend_from_slice(first)?;
    for pid in more {
        put_id(&mut ids, *pid)?;
    }
    Ok(ids)
}

/// Puts an id at its place, if it isn't there.
fn put_id(ids: &mut Vec<Pid>, pid: Pid) -> Result<(), NoMemory>
    ensures { OnOk result (ids.new.items ≡ insert_key nat_cmp ids.old.items pid) }
{
    let place = count_below(ids, pid);
    if place < ids.len() && ids[place] == pid {
        return Ok(());
    }
    ids.insert(place, pid)?;
    Ok(())
}

/// How many ids, before any other, are below this one.
fn count_below(ids: &[Pid], pid: Pid) -> usize
    ensures count { result ≡ count_below ids.now pid }
    ensures most { result ≤ length ids.now }
{
    match ids {
        [] => 0,
        [first, rest @ ..] => {
            if *first < pid {
                1 + count_below(rest, pid)
            } else {
                0
            }
        }
    }
}
