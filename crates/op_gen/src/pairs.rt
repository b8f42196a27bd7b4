//! Two-way links between servers.
ghost use Rattle.std.specs.Prelude.{◌≡◌, ◌++◌, IfOk, OnOk};
ghost use Rattle.op_gen.specs.Links.{all_links, is_linked, joins, links_from};

use op_types::{NoMemory, Pid};
use std::alloc::Global;

/// Two-way links, each between two servers.
#[derive(Clone, Copy)]
pub struct Links<'a> {
    /// The ids of the two servers of each link, in either order.
    pub pairs: &'a [(Pid, Pid)],
}

impl Links<'_> {
    /// Whether one of the links goes between these two servers.
    pub fn join(&self, one: Pid, other: Pid) -> bool
        ensures { result ≡ is_linked self.now.pairs.now one other }
    {
        for pair in self.pairs {
            if joins(*pair, one, other) {
                return true;
            }
        }
        false
    }
}

/// Whether a link goes between these two servers, either way.
fn joins(pair: (Pid, Pid), one: Pid, other: Pid) -> bool
    ensures { result ≡ joins pair one other }
{
    pair == (one, other) || pair == (other, one)
}

/// The links between any two of these servers. `NoMemory` comes only where the allocator has none.
pub fn all_links(alloc: Global, pids: &[Pid]) -> Result<Vec<(Pid, Pid)>, NoMemory>
    ensures { IfOk result (λ pairs. pairs.items ≡ all_links pids.now) }
{
    let mut pairs = Vec::new(alloc);
    for (place, pid) in pids.iter().enumerate() {
        push_links(&mut pairs, *pid, &pids[place + 1..])?;
    }
    Ok(pairs)
}

/// Adds a link from a server to each of these.
fn push_links(pairs: &mut Vec<(Pid, Pid)>, pid: Pid, others: &[Pid]) -> Result<(), NoMemory>
    ensures { OnOk result (pairs.new.items ≡ pairs.old.items ++ links_from pid others.now) }
{
    for other in others {
        pairs.push((pid, *other))?;
    }
    Ok(())
}
