//! A node that failed is opened again in place.
ghost use Rattle.std.specs.Prelude.{◌≡◌, ◌≢◌, ℕ, Bool, [], Option, None, IfOk, IfErr, OnOk, OnErr};
ghost use Rattle.op_types.specs.declared.durable.Durable.{Durable};
ghost use Rattle.op_record.specs.Ranges.{DurableInRange};
ghost use Rattle.op_protocol.specs.Starting as starts;
ghost use Rattle.op_runs.specs.World.{state_after_reopening, sends_as};
ghost use Rattle.op_store.specs.Stores.{disks_of};
ghost use Rattle.op_observer.specs.Observers as observers;
ghost use Rattle.op_server.specs.Servers as servers;
ghost use Rattle.op_server.specs.Seats.{kind_of, me_of, state_of, IsSoundSeat};
ghost use Rattle.op_node.specs.Nodes.{node_of, IsSoundNode};
ghost use Rattle.op_node.specs.Openings as openings;
ghost use Rattle.op_node.specs.Reopenings as reopenings;
ghost use Rattle.op_node.specs.Reopenings.{Reopens, RefusesAgain, StoreOneOf, FindsOneOf};

use super::Node;
use crate::starting::durable_for;
use crate::watching::watched_for;
use op_outside::Disk;
use op_server::{Observer, Seat, Server, sends_after_restart};
use op_store::StoreFail;
use op_types::{Durable, NoMemory, Sends};
use std::alloc::Global;

impl<D: Disk> Node<D> {
    /// Opens a node that failed again, in place, as it is opened after a restart, but that its clients wait
    /// still. Gives what it sends. It finds what it had stored before the step in which a disk failed, or
    /// what that step was to store. Where this is refused the node has failed still, and shows what it
    /// showed; where a disk failed it keeps the new count.
    pub fn reopen(&mut self) -> Result<Sends, StoreFail>
        requires sound { IsSoundNode self.old }
        requires failed { (node_of self.old).failed ≢ None }
        ensures opened { IfOk result (λ sends. (d : Durable) × (is_new : Bool) ×
            Reopens D.state d is_new self.old self.new sends) }
        ensures refused { IfErr result (RefusesAgain D.state self.old self.new) }
        ensures found { (before after : Durable) → StoreOneOf before after (disks_of D.state self.old.store) →
            FindsOneOf D.state before after self.old self.new result }
        ensures sound { IsSoundNode self.new }
    {
        let Ok(kept) = self.seat.durable().copy(self.alloc) else {
            return Err(StoreFail::NoMemory);
        };
        match self.store.reopen(self.alloc, kept) {
            Ok((durable, _)) => {
                let Ok(sends) = reopened(self.alloc, &mut self.seat, durable) else {
                    return Err(StoreFail::NoMemory);
                };
                self.failed = None;
                Ok(sends)
            }
            Err(cause) => {
                self.failed = count_kept(self.failed, cause);
                Err(cause)
            }
        }
    }
}

/// The count of faults that a node keeps whose opening is refused.
pub(super) fn count_kept(failed: Option<u64>, cause: StoreFail) -> Option<u64>
    ensures { result ≡ reopenings.count_kept failed cause }
{
    match cause {
        StoreFail::DiskFault { count } => Some(count),
        StoreFail::Damaged { .. } | StoreFail::NewerVersion { .. } | StoreFail::NoMemory => failed,
    }
}

/// The node goes on with what was found, and says what it sends.
fn reopened(alloc: Global, seat: &mut Seat, durable: Durable) -> Result<Sends, NoMemory>
    requires { DurableInRange durable }
    ensures who { (kind_of seat.new ≡ kind_of seat.old) × (me_of seat.new ≡ me_of seat.old) }
    ensures state { OnOk result (state_of seat.new
        ≡ state_after_reopening (me_of seat.old) (state_of seat.old)
        (openings.kept_from (kind_of seat.old) (me_of seat.old) durable)) }
    ensures sends { IfOk result (λ s. s ≡ sends_as (kind_of seat.old) (me_of seat.old)
        (openings.kept_from (kind_of seat.old) (me_of seat.old) durable)) }
    ensures sound { OnOk result (IsSoundSeat seat.new) }
    ensures unchanged { OnErr result (seat.new ≡ seat.old) }
{
    match seat {
        Seat::Votes(server) => server_reopened(alloc, server, durable),
        Seat::Observes(observer) => observer_reopened(alloc, observer, durable),
    }
}

/// The same, of one that votes.
fn server_reopened(alloc: Global, server: &mut Server, durable: Durable) -> Result<Sends, NoMemory>
    requires { DurableInRange durable }
    ensures me { server.new.chain.me ≡ server.old.chain.me }
    ensures state { OnOk result (servers.state_of server.new ≡ state_after_reopening server.old.chain.me
        (servers.state_of server.old) (openings.durable_for server.old.chain.me durable)) }
    ensures sends { IfOk result (λ s. s ≡ starts.sends_after_restart server.old.chain.me
        (openings.durable_for server.old.chain.me durable)) }
    ensures sound { OnOk result (servers.IsSoundServer server.new) }
    ensures unchanged { OnErr result (server.new ≡ server.old) }
{
    let durable = durable_for(server.me(), durable);
    let sends = sends_after_restart(alloc, server.me(), &durable)?;
    server.reopen(durable)?;
    Ok(sends)
}

/// The same, of an observer, which sends nothing.
fn observer_reopened(
    alloc: Global,
    observer: &mut Observer,
    durable: Durable,
) -> Result<Sends, NoMemory>
    requires { DurableInRange durable }
    ensures me { observer.new.me ≡ observer.old.me }
    ensures state { OnOk result (observers.state_of observer.new ≡ state_after_reopening observer.old.me
        (observers.state_of observer.old) (openings.watched_for durable)) }
    ensures sends { IfOk result (λ s. s ≡ []) }
    ensures sound { OnOk result (observers.IsSoundObserver observer.new) }
    ensures unchanged { OnErr result (observer.new ≡ observer.old) }
{
    observer.reopen(watched_for(durable))?;
    Ok(Sends::new(alloc))
}
