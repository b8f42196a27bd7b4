//! A node that failed is opened again in place, as after a restart.
ghost use Rattle.std.specs.Prelude.{◌≡◌, ◌≢◌, Bool, false, None, IfOk, IfErr};
ghost use Rattle.op_types.specs.declared.durable.Durable.{Durable};
ghost use Rattle.op_record.specs.Ranges.{DurableInRange};
ghost use Rattle.op_server.specs.Seats.{kind_of, me_of, state_of, IsSoundSeat};
ghost use Rattle.op_node.specs.Nodes.{node_of, IsSoundNode};
ghost use Rattle.op_node.specs.Openings.{opening_state, opening_sends};
ghost use Rattle.op_node.specs.Reopenings.{Restarts, RefusesAgain};

use super::Node;
use super::reopening::count_kept;
use crate::starting::started;
use crate::watching::started_watching;
use op_outside::Disk;
use op_server::Seat;
use op_store::StoreFail;
use op_types::{Durable, NoMemory, Sends};
use std::alloc::Global;

impl<D: Disk> Node<D> {
    /// Opens a node that failed again, in place, as after a restart: nothing of what it kept in memory
    /// counts. Gives what it sends. Where this is refused the node has failed still; where a disk failed it
    /// keeps the new count.
    pub fn restart(&mut self) -> Result<Sends, StoreFail>
        requires sound { IsSoundNode self.old }
        requires failed { (node_of self.old).failed ≢ None }
        ensures opened { IfOk result (λ sends. (d : Durable) × (is_new : Bool) ×
            Restarts D.state d is_new self.old self.new sends) }
        ensures refused { IfErr result (RefusesAgain D.state self.old self.new) }
        ensures sound { IsSoundNode self.new }
    {
        let Ok(kept) = self.seat.durable().copy(self.alloc) else {
            return Err(StoreFail::NoMemory);
        };
        match self.store.reopen(self.alloc, kept) {
            Ok((durable, _)) => {
                let Ok((seat, sends)) = restarted(self.alloc, &self.seat, durable) else {
                    return Err(StoreFail::NoMemory);
                };
                self.seat = seat;
                self.failed = None;
                Ok(sends)
            }
            Err(cause) => {
                self.failed = count_kept(self.failed, cause);
                Err(cause)
            }
        }
    }
}

/// The same kind of node over what was found, as after a restart, and what it sends.
fn restarted(alloc: Global, seat: &Seat, durable: Durable) -> Result<(Seat, Sends), NoMemory>
    requires { DurableInRange durable }
    ensures who { IfOk result (λ r. (kind_of r.0 ≡ kind_of seat.now) × (me_of r.0 ≡ me_of seat.now)) }
    ensures state { IfOk result (λ r.
        state_of r.0 ≡ opening_state (kind_of seat.now) (me_of seat.now) false durable) }
    ensures sends { IfOk result (λ r.
        r.1 ≡ opening_sends (kind_of seat.now) (me_of seat.now) false durable) }
    ensures sound { IfOk result (λ r. IsSoundSeat r.0) }
    ensures range { IfOk result (λ r. DurableInRange (state_of r.0).durable) }
{
    match seat {
        Seat::Votes(server) => started(alloc, server.me(), durable, false),
        Seat::Observes(observer) => started_watching(alloc, observer.me(), durable, false),
    }
}
