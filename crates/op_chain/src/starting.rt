//! What a node has stored at first, and what it sends when it is opened again.
ghost use Rattle.std.specs.Prelude.{◌≡◌, IfOk};
ghost use Rattle.op_types.specs.Changes.{empty_durable};
ghost use Rattle.op_types.specs.Ranges.{MembersInRange};
ghost use Rattle.op_record.specs.Ranges.{DurableInRange};
ghost use Rattle.op_protocol.specs.Starting as starts;
ghost use Rattle.op_runs.specs.World as runs;

use op_plans::Member;
use op_types::{Ballot, Blob, Body, Durable, Members, NoMemory, Part, Pid, Reserved, Sends};
use std::alloc::Global;

/// What a member of the first configuration has stored at first: nothing is promised, and its log is empty.
pub fn first_durable(alloc: Global, members: &Members) -> Result<Durable, NoMemory>
    ensures first { IfOk result (λ d. d ≡ runs.first_durable members.now) }
    ensures in_range { MembersInRange members.now → IfOk result DurableInRange }
{
    let part = Part {
        conf: 1,
        members: members.copy(),
        promised: Ballot::NONE,
        accepted: Ballot::NONE,
        base: Blob::from_slice(alloc, [0u8; 16].as_slice())?,
        trimmed: 0,
        tail: Reserved::new(alloc),
        decided: 0,
    };
    Ok(Durable {
        part: Some(part),
        closed: None,
        joining: None,
    })
}

/// What a server has stored at first that no configuration names yet.
pub fn empty_durable() -> Durable
    ensures empty { result ≡ empty_durable }
    ensures in_range { DurableInRange result }
{
    Durable {
        part: None,
        closed: None,
        joining: None,
    }
}

/// A member that is opened again asks whoever leads to prepare it; one that joins another configuration asks
/// nobody.
pub fn sends_after_restart(alloc: Global, me: Pid, durable: &Durable) -> Result<Sends, NoMemory>
    ensures { IfOk result (λ sends. sends ≡ starts.sends_after_restart me durable.now) }
{
    match &durable.part {
        Some(part) if durable.joining.is_none() => {
            Member { alloc, me, part }.to_others(&Body::PrepareReq)
        }
        _ => Ok(Sends::new(alloc)),
    }
}
