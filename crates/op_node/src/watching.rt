//! What an observer begins with: its observer over what its disks store.
ghost use Rattle.std.specs.Prelude.{◌≡◌, IfSome, IfOk};
ghost use Rattle.op_record.specs.Ranges.{PartInRange, DurableInRange};
ghost use Rattle.op_runs.specs.World.{Observes};
ghost use Rattle.op_server.specs.Seats.{kind_of, me_of, state_of, IsSoundSeat};
ghost use Rattle.op_node.specs.Openings as openings;
ghost use Rattle.op_node.specs.Openings.{opening_state, opening_sends};

use op_server::{Observer, Seat};
use op_types::{Ballot, Durable, NoMemory, Part, Pid, Sends};
use std::alloc::Global;

/// Whether an observer stored this part: nothing in it is promised or accepted, and all of it is decided.
fn is_watched(part: &Part) -> bool
    requires { PartInRange part.now }
    ensures { result ≡ openings.is_watched part.now }
{
    part.promised.is_same(Ballot::NONE)
        && part.accepted.is_same(Ballot::NONE)
        && part.decided == part.trimmed + part.tail.len() as u64
}

/// Such a part.
fn watched_part(part: Option<Part>) -> Option<Part>
    requires { IfSome part PartInRange }
    ensures { result ≡ openings.watched_part part }
{
    let part = part?;
    if is_watched(&part) {
        return Some(part);
    }
    None
}

/// What an observer takes of what its disks store.
pub fn watched_for(durable: Durable) -> Durable
    requires { DurableInRange durable }
    ensures { result ≡ openings.watched_for durable }
{
    let Durable {
        part,
        closed: _,
        joining: _,
    } = durable;
    Durable {
        part: watched_part(part),
        closed: None,
        joining: None,
    }
}

/// The observer of a node that is opened. It sends nothing.
pub fn started_watching(
    alloc: Global,
    me: Pid,
    durable: Durable,
    is_new: bool,
) -> Result<(Seat, Sends), NoMemory>
    requires { DurableInRange durable }
    ensures who { IfOk result (λ r. (kind_of r.0 ≡ Observes) × (me_of r.0 ≡ me)) }
    ensures state { IfOk result (λ r. state_of r.0 ≡ opening_state Observes me is_new durable) }
    ensures sends { IfOk result (λ r. r.1 ≡ opening_sends Observes me is_new durable) }
    ensures sound { IfOk result (λ r. IsSoundSeat r.0) }
    ensures range { IfOk result (λ r. DurableInRange (state_of r.0).durable) }
{
    let durable = watched_for(durable);
    let observer = if is_new {
        Observer::first(alloc, me, durable)
    } else {
        Observer::again(alloc, me, durable)?
    };
    Ok((Seat::Observes(observer), Sends::new(alloc)))
}
