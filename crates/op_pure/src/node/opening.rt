//! A node of the plain program is opened.
ghost use Rattle.std.specs.Prelude.{◌≡◌, ℕ, Bool, [], IfOk};
ghost use Rattle.op_types.specs.Changes.{Applies, durable_after};
ghost use Rattle.op_types.specs.Rooms.{IsAtRest};
ghost use Rattle.op_server.specs.Seats.{kind_of, me_of, state_of};
ghost use Rattle.op_protocol.specs.Starting as starts;
ghost use Rattle.op_runs.specs.Possible.{kind_if};
ghost use Rattle.op_runs.specs.World as runs;
ghost use Rattle.op_executions.specs.Servers.{CanDo};
ghost use Rattle.op_pure.specs.Happenings.{fate_of};
ghost use Rattle.op_pure.specs.Nodes.{pure_nodes, found_by, CanFind, CanOpenAs, HasDone, IsOpened};

use super::{PureNode, Status};
use crate::happening::{Fate, Foretold};
use op_executions::Done;
use op_plans::{put, starved};
use op_server::{Observer, Seat, Server, empty_durable, sends_after_restart};
use op_types::{Batch, Durable, NoMemory, Pid, Sends};
use std::alloc::Global;
use std::mem::replace;

impl PureNode {
    /// An opening of this fate, if it isn't up.
    pub fn open(&mut self, alloc: Global, foretold: Foretold) -> Result<Done, NoMemory>
        requires { CanDo pure_nodes self.old runs.Opens }
        ensures { IfOk result (λ r. (line : ℕ) → HasDone self.old runs.Opens
            (fate_of foretold.fate) foretold.finds_after line self.new r.sends r.told) }
    {
        match foretold.fate {
            Fate::Done => self.open_whole(alloc, foretold.finds_after),
            Fate::Stopped => {
                self.stop_in_opening(alloc);
                Ok(Done::nothing(alloc))
            }
            Fate::Faulted(count) => {
                self.fail_in_opening(count);
                Ok(Done::nothing(alloc))
            }
        }
    }

    /// Is opened, if it isn't up; one that votes asks to be prepared. The clients that wait at one that has
    /// failed wait still.
    fn open_whole(&mut self, alloc: Global, finds_after: bool) -> Result<Done, NoMemory>
        requires { CanDo pure_nodes self.old runs.Opens }
        ensures { IfOk result (λ r. (line : ℕ) → HasDone self.old runs.Opens
            runs.Done finds_after line self.new r.sends r.told) }
    {
        let mut done = Done::nothing(alloc);
        let nothing = Status::Down(empty_durable(), Batch::new(alloc));
        let seat = match replace(&mut self.status, nothing) {
            Status::Up(seat) => seat,
            Status::Down(durable, batch) => {
                let durable = found(durable, batch, finds_after)?;
                let (seat, sends) = opened(alloc, self.pid, self.observes, durable)?;
                done.sends = sends;
                seat
            }
            Status::Failed(seat, _, batch) => {
                let (seat, sends) = reopened(alloc, seat, batch, finds_after)?;
                done.sends = sends;
                seat
            }
        };
        put(&mut self.status, Status::Up(seat));
        Ok(done)
    }

    /// Stops in an opening: one that has failed is down then.
    fn stop_in_opening(&mut self, alloc: Global)
        requires { pure_nodes.is_kept self.old }
        ensures { (finds_after : Bool) → (line : ℕ) →
            HasDone self.old runs.Opens runs.Stopped finds_after line self.new [] [] }
    {
        if let Status::Failed(..) = &self.status {
            self.stop(alloc, Batch::new(alloc));
        }
    }

    /// A disk fails in an opening: one that has failed keeps this count of faults.
    fn fail_in_opening(&mut self, count: u64)
        requires { pure_nodes.is_kept self.old }
        ensures { (finds_after : Bool) → (line : ℕ) →
            HasDone self.old runs.Opens (runs.Faulted count) finds_after line self.new [] [] }
    {
        if let Status::Failed(_, kept, _) = &mut self.status {
            *kept = count;
        }
    }
}

/// A node that is down is opened with what it finds: one of this id, which observes or votes.
fn opened(
    alloc: Global,
    pid: Pid,
    observes: bool,
    durable: Durable,
) -> Result<(Seat, Sends), NoMemory>
    requires { CanOpenAs (kind_if observes) pid durable }
    ensures { IfOk result (λ o.
        IsOpened (kind_if observes) pid (starts.state_after_restart pid durable) o.0 o.1) }
{
    if observes {
        let observer = Observer::again(alloc, pid, durable)?;
        return Ok((Seat::Observes(observer), Sends::new(alloc)));
    }
    let Ok(sends) = sends_after_restart(alloc, pid, &durable) else {
        return Err(starved(durable));
    };
    let server = Server::again(alloc, pid, durable)?;
    Ok((Seat::Votes(server), sends))
}

/// A node that has failed is opened in place with what it finds.
fn reopened(
    alloc: Global,
    mut seat: Seat,
    batch: Batch,
    finds_after: bool,
) -> Result<(Seat, Sends), NoMemory>
    requires finds { CanFind (kind_of seat) (me_of seat) (state_of seat).durable batch finds_after }
    ensures { IfOk result (λ o. let d = found_by finds_after (state_of seat).durable batch in
        IsOpened (kind_of seat) (me_of seat)
        (runs.state_after_reopening (me_of seat) (state_of seat) d) o.0 o.1) }
{
    let Ok(copy) = seat.durable().copy(alloc) else {
        return Err(starved((seat, batch)));
    };
    let Ok(durable) = found(copy, batch, finds_after) else {
        return Err(starved(seat));
    };
    let Ok(sends) = reopened_with(alloc, &mut seat, durable) else {
        return Err(starved(seat));
    };
    Ok((seat, sends))
}

/// The same with this, and what it sends then: an observer sends nothing.
fn reopened_with(alloc: Global, seat: &mut Seat, durable: Durable) -> Result<Sends, NoMemory>
    requires { CanOpenAs (kind_of seat.old) (me_of seat.old) durable }
    ensures { IfOk result (λ sends. IsOpened (kind_of seat.old) (me_of seat.old)
        (runs.state_after_reopening (me_of seat.old) (state_of seat.old) durable) seat.new sends) }
{
    match seat {
        Seat::Votes(server) => {
            let Ok(sends) = sends_after_restart(alloc, server.me(), &durable) else {
                return Err(starved(durable));
            };
            server.reopen(durable)?;
            Ok(sends)
        }
        Seat::Observes(observer) => {
            observer.reopen(durable)?;
            Ok(Sends::new(alloc))
        }
    }
}

/// What an opening finds.
fn found(durable: Durable, batch: Batch, finds_after: bool) -> Result<Durable, NoMemory>
    requires applies { Applies durable batch }
    requires rest { IsAtRest durable }
    ensures { IfOk result (λ d. d ≡ found_by finds_after durable batch) }
{
    if finds_after {
        adopted(durable, batch)
    } else {
        Ok(durable)
    }
}

/// A durable state once a batch is adopted.
fn adopted(mut durable: Durable, batch: Batch) -> Result<Durable, NoMemory>
    requires applies { Applies durable batch }
    requires rest { IsAtRest durable }
    ensures { IfOk result (λ d. d ≡ durable_after durable batch) }
{
    let Ok(()) = durable.room_for(&batch) else {
        return Err(starved((durable, batch)));
    };
    durable.adopt(batch);
    Ok(durable)
}
