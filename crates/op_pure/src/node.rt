//! A node of the plain program: how it runs, and what is done at it.
ghost use Rattle.std.specs.Prelude.{◌≡◌, ℕ, Bool, [], IfOk};
ghost use Rattle.op_types.specs.Ranges.{MembersInRange};
ghost use Rattle.op_record.specs.Ranges.{DurableInRange};
ghost use Rattle.op_chain.specs.Chains.{first_state};
ghost use Rattle.op_server.specs.Seats.{planned_at, state_of, Admits, IsSame};
ghost use Rattle.op_runs.specs.Possible.{kind_if};
ghost use Rattle.op_runs.specs.World as runs;
ghost use Rattle.op_executions.specs.Deeds.{told_of, doing_of};
ghost use Rattle.op_executions.specs.Servers.{CanDo, IsDoneAt, first_as};
ghost use Rattle.op_pure.specs.Happenings.{fate_of};
ghost use Rattle.op_pure.specs.Nodes.{pure_nodes, up_node, CanOpenAs, HasDone, IsFailed, IsStopped, IsUp, SeatKept};
ghost use Rattle.op_pure.specs.declared.node.PureNode as nodes;

mod opening;

use crate::happening::{Fate, Foretold};
use op_executions::{Doing, Done, Told, ballot_lines, pair_lines, push_step_lines};
use op_plans::put;
use op_runs::{Line, Lines};
use op_server::{Given, Observer, Seat, Server, empty_durable, first_durable};
use op_types::{Batch, Durable, Input, Members, NoMemory, Outcome, Pid, Refusal, Sends, is_among};
use std::alloc::Global;
use std::mem::replace;

/// A node, which votes or observes.
#[derive(Drop)]
pub struct PureNode {
    /// Its id.
    pub pid: Pid,
    /// Whether it observes, and so never votes.
    pub observes: bool,
    /// How it runs, and what it has then.
    pub status: Status,
}

/// How a node runs.
#[derive(Drop)]
pub enum Status {
    /// It is up.
    Up(Seat),
    /// It is down, and has stored this. The step in which it stopped or failed was to store this batch, which
    /// is empty where it stopped between two steps.
    Down(Durable, Batch),
    /// A disk of it failed: it keeps what it had before, the count of its disks' faults, and the batch that
    /// the step was to store.
    Failed(Seat, u64, Batch),
}

impl op_executions::Server for PureNode {
    type Fate = Foretold;

    ghost kind = { pure_nodes };

    fn first(
        alloc: Global,
        pid: Pid,
        members: &Members,
        observes: bool,
    ) -> Result<PureNode, NoMemory> {
        let durable = durable_at_start(alloc, pid, members, observes)?;
        let seat = first_seat(alloc, pid, observes, durable)?;
        Ok(PureNode {
            pid,
            observes,
            status: Status::Up(seat),
        })
    }

    /// An opening finds what a step was to store in which the node stopped or failed, or what was stored
    /// before it.
    fn happens(
        &mut self,
        alloc: Global,
        _members: &Members,
        doing: Doing,
        fate: Foretold,
        line: u64,
        lines: &mut Lines,
    ) -> Result<Sends, NoMemory> {
        self.does(alloc, doing, fate, line)?.tell(lines)
    }
}

impl PureNode {
    /// Does this here.
    fn does(
        &mut self,
        alloc: Global,
        doing: Doing,
        fate: Foretold,
        line: u64,
    ) -> Result<Done, NoMemory>
        requires { CanDo pure_nodes self.old (doing_of doing) }
        ensures { IfOk result (λ r.
            IsDoneAt pure_nodes fate self.old (doing_of doing) line self.new r.sends r.told) }
    {
        match doing {
            Doing::Steps(input) => self.step(alloc, input, fate.fate, line),
            Doing::Stops => {
                self.stop(alloc, Batch::new(alloc));
                Ok(Done::nothing(alloc))
            }
            Doing::Opens => self.open(alloc, fate),
            Doing::Tells(told) => self.tell(alloc, told),
        }
    }

    /// A step of this fate, if it is up. Where the node stops in it, what it was to store is kept, and all
    /// memory is lost; where a disk fails, it keeps what it has, and what is proposed is refused.
    fn step(&mut self, alloc: Global, input: Input, fate: Fate, line: u64) -> Result<Done, NoMemory>
        requires { CanDo pure_nodes self.old (runs.Steps input) }
        ensures { IfOk result (λ r. (finds_after : Bool) → HasDone self.old (runs.Steps input)
            (fate_of fate) finds_after line self.new r.sends r.told) }
    {
        let pid = self.pid;
        let Status::Up(seat) = &mut self.status else {
            return self.refuse(alloc, &input, line);
        };
        match fate {
            Fate::Done => step_whole(alloc, pid, seat, input, line),
            Fate::Stopped => {
                let batch = to_store(seat, input)?;
                self.stop(alloc, batch);
                Ok(Done::nothing(alloc))
            }
            Fate::Faulted(count) => {
                let outcome = refusal(count, &input);
                let batch = to_store(seat, input)?;
                self.fail(alloc, count, batch);
                saying(alloc, outcome, line)
            }
        }
    }

    /// What comes at a node that isn't up does nothing; one that has failed refuses what is proposed, and to
    /// trim.
    fn refuse(&self, alloc: Global, input: &Input, line: u64) -> Result<Done, NoMemory>
        requires kept { pure_nodes.is_kept self.now }
        requires down { IsUp self.now → ⊥ }
        ensures { IfOk result (λ r. (fate : runs.Fate) → (finds_after : Bool) → HasDone self.now
            (runs.Steps input.now) fate finds_after line self.now r.sends r.told) }
    {
        match &self.status {
            Status::Failed(_, count, _) => saying(alloc, refusal(*count, input), line),
            _ => Ok(Done::nothing(alloc)),
        }
    }

    /// Stops, if it isn't down, with this batch that it was to store, or with the one that it keeps.
    fn stop(&mut self, alloc: Global, batch: Batch)
        ensures { IsStopped self.old batch self.new }
    {
        let nothing = Status::Down(empty_durable(), Batch::new(alloc));
        let status = match replace(&mut self.status, nothing) {
            Status::Up(seat) => Status::Down(seat.into_durable(), batch),
            Status::Down(durable, kept) => Status::Down(durable, kept),
            Status::Failed(seat, _, kept) => Status::Down(seat.into_durable(), kept),
        };
        put(&mut self.status, status);
    }

    /// Fails, if it is up, with this count of faults, and this batch that it was to store.
    fn fail(&mut self, alloc: Global, count: u64, batch: Batch)
        ensures { IsFailed self.old count batch self.new }
    {
        let nothing = Status::Down(empty_durable(), Batch::new(alloc));
        let status = match replace(&mut self.status, nothing) {
            Status::Up(seat) => Status::Failed(seat, count, batch),
            status => status,
        };
        put(&mut self.status, status);
    }

    /// Tells this, if it isn't down; one that has failed tells its state of before.
    fn tell(&self, alloc: Global, told: Told) -> Result<Done, NoMemory>
        requires { pure_nodes.is_kept self.now }
        ensures { IfOk result (λ r. (fate : runs.Fate) → (finds_after : Bool) → (line : ℕ) → HasDone self.now
            (runs.Tells (told_of told)) fate finds_after line self.now r.sends r.told) }
    {
        match &self.status {
            Status::Up(seat) => telling(alloc, self.pid, seat, told),
            Status::Failed(seat, _, _) => telling(alloc, self.pid, seat, told),
            Status::Down(..) => Ok(Done::nothing(alloc)),
        }
    }
}

/// What a node has stored at its start: a member of the first configuration has its part, and so has an
/// observer.
fn durable_at_start(
    alloc: Global,
    pid: Pid,
    members: &Members,
    observes: bool,
) -> Result<Durable, NoMemory>
    requires { MembersInRange members.now }
    ensures durable { IfOk result (λ d. d ≡ (first_as (kind_if observes) members.now pid).state.durable) }
    ensures range { IfOk result DurableInRange }
{
    if observes || is_among(members.as_slice(), pid) {
        return first_durable(alloc, members);
    }
    Ok(empty_durable())
}

/// What a node is at its start, which has stored this.
fn first_seat(alloc: Global, pid: Pid, observes: bool, durable: Durable) -> Result<Seat, NoMemory>
    requires { CanOpenAs (kind_if observes) pid durable }
    ensures kept { IfOk result (SeatKept (kind_if observes) pid) }
    ensures state { IfOk result (λ c. state_of c ≡ first_state pid durable) }
{
    if observes {
        return Ok(Seat::Observes(Observer::first(alloc, pid, durable)));
    }
    Ok(Seat::Votes(Server::first(alloc, pid, durable)?))
}

/// A step of a node that is up: of the one that has this id and kind.
fn step_whole(
    alloc: Global,
    pid: Pid,
    seat: &mut Seat,
    input: Input,
    line: u64,
) -> Result<Done, NoMemory>
    requires { (n : nodes.PureNode) × CanDo pure_nodes (up_node n seat.old) (runs.Steps input) }
    ensures { IfOk result (λ r. (n : nodes.PureNode) → n.pid ≡ pid
        → CanDo pure_nodes (up_node n seat.old) (runs.Steps input) → (finds_after : Bool)
        → HasDone (up_node n seat.old) (runs.Steps input) runs.Done finds_after line (up_node n seat.new)
        r.sends r.told) }
{
    let plan = seat.plan(input)?;
    let Given {
        sends,
        replies,
        read_replies,
        outcome,
    } = seat.adopt(plan);
    let mut told = Lines::new(alloc);
    push_step_lines(&mut told, line, pid, outcome, replies, read_replies)?;
    Ok(Done { sends, told })
}

/// What a step is to store that isn't done.
fn to_store(seat: &mut Seat, input: Input) -> Result<Batch, NoMemory>
    requires { Admits seat.old input }
    ensures same { IsSame seat.old seat.new }
    ensures batch { IfOk result (λ batch. batch ≡ (planned_at seat.old input).batch) }
{
    let plan = seat.plan(input)?;
    Ok(plan.into_batch())
}

/// What an input is answered where disks have failed so often: proposals, wishes to trim and reads are
/// refused.
fn refusal(count: u64, input: &Input) -> Option<Outcome>
    ensures { result ≡ runs.failed_outcome count input.now }
{
    match input {
        Input::Commands(_) | Input::Stop(_) | Input::TrimNow | Input::Read(_) => Some(
            Outcome::Refused(Refusal::StorageFailed { count }),
        ),
        Input::Tick | Input::Deliver(_, _) | Input::Up(_) | Input::Down(_) => None,
    }
}

/// An outcome alone is told.
fn saying(alloc: Global, outcome: Option<Outcome>, line: u64) -> Result<Done, NoMemory>
    ensures { IfOk result (λ r. r ≡ record { sends = []; told = runs.outcome_lines line outcome }) }
{
    let mut done = Done::nothing(alloc);
    if let Some(outcome) = outcome {
        done.told.push(Line::Answer(line, outcome))?;
    }
    Ok(done)
}

/// What a node tells.
fn telling(alloc: Global, pid: Pid, seat: &Seat, told: Told) -> Result<Done, NoMemory>
    ensures { IfOk result (λ r. let s = state_of seat.now in
        r ≡ record { sends = []; told = runs.told_lines (told_of told) pid s s.durable.part }) }
{
    let told = told_lines(alloc, pid, seat, told)?;
    Ok(Done {
        sends: Sends::new(alloc),
        told,
    })
}

/// The lines of what a node tells.
fn told_lines(alloc: Global, pid: Pid, seat: &Seat, told: Told) -> Result<Lines, NoMemory>
    ensures { IfOk result (λ lines. let s = state_of seat.now in
        lines ≡ runs.told_lines (told_of told) pid s s.durable.part) }
{
    match told {
        Told::Pairs => pair_lines(alloc, pid, seat.pairs()),
        Told::Ballots => ballot_lines(alloc, pid, seat.ballots()),
    }
}
