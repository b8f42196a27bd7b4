//! A step and an opening of a node that stops in a call of its disks, or one of whose calls fails.
ghost use Rattle.std.specs.Prelude.{◌≡◌, ◌≢◌, ℕ, [], false, None, IfOk};
ghost use Rattle.op_types.specs.Ranges.{MembersInRange};
ghost use Rattle.op_areas.specs.Media.{medium};
ghost use Rattle.op_runs.specs.Possible.{kind_if};
ghost use Rattle.op_runs.specs.World as runs;
ghost use Rattle.op_runs.specs.World.{failed_outcome};
ghost use Rattle.op_node.specs.Nodes.{node_of, AdmitsInput, IsSoundNode};
ghost use Rattle.op_replay_nodes.specs.Plans.{is_stop};
ghost use Rattle.op_replay_nodes.specs.Became.{BecomesOf, IsAfterFault, IsClosedAgain, IsDownAgain, GoesOnUp, IsInRange, IsNotUp, fault_lines, refused_if, given_lines};
ghost use Rattle.op_replay_nodes.specs.Nodes.{RunsAs, HasFailed, IsKept};
ghost use Rattle.op_replay_nodes.specs.declared.node_state.NodeState.TheVariants as states;

use crate::disks::{
    Areas, armed_down, armed_node, closed_node, left_of, open_areas, told_down, told_node,
};
use crate::given::done_by;
use crate::node_state::{DownNode, NodeState};
use crate::opening::open_node;
use crate::plan::Plan;
use crate::told::Told;
use op_areas::{Area, Arming};
use op_executions::Done;
use op_node::{Given, Node, StepFail};
use op_plans::{let_go, starved};
use op_runs::{Line, Lines};
use op_store::{Returned, StoreFail};
use op_types::{Durable, Input, Members, NoMemory, Outcome, Pid, Refusal, Sends};
use std::alloc::Global;

/// What became of a step or an opening.
#[derive(Drop)]
pub struct Became<D, C> {
    /// How the node is then.
    pub state: NodeState<D, C>,
    /// What it sends.
    pub sends: Sends,
    /// What is reported.
    pub told: Lines,
    /// Whether it stops after that: the call in which it was to stop was not made.
    pub is_due: bool,
}

/// How a node is after a fault, and whether it stops after that.
#[derive(Drop)]
pub struct Fallen<D, C> {
    pub state: NodeState<D, C>,
    pub is_due: bool,
}

impl<D, C> Fallen<D, C> {
    /// Nothing is sent, and this is reported.
    fn telling(self, alloc: Global, told: Lines) -> Became<D, C>
        ensures { result ≡ record { state = self.state; sends = []; told = told; is_due = self.is_due } }
    {
        Became {
            state: self.state,
            sends: Sends::new(alloc),
            told,
            is_due: self.is_due,
        }
    }

    /// Nothing is sent or reported.
    fn quietly(self, alloc: Global) -> Became<D, C>
        ensures { result ≡ record { state = self.state; sends = []; told = []; is_due = self.is_due } }
    {
        self.telling(alloc, Lines::new(alloc))
    }
}

/// A step of a node that is up, for whose disks this is planned.
pub fn step_told<A: Area>(
    alloc: Global,
    pid: Pid,
    node: Node<A>,
    input: Input,
    plan: Plan,
    line: u64,
) -> Result<Became<A, A::Copies>, NoMemory>
    requires { AdmitsInput node input }
    ensures { IfOk result (λ r. (kind : runs.Kind)
        → RunsAs (medium A.state A.holds A.IS_MIRRORED) kind pid node
        → BecomesOf (medium A.state A.holds A.IS_MIRRORED) kind pid plan
        (states.Up node) (runs.Steps input) line r) }
{
    let is_proposal = is_proposal(&input);
    let Ok((mut node, told)) = told_node(alloc, node, plan) else {
        return Err(starved(input));
    };
    match node.step(input) {
        Ok(given) => stepped(alloc, pid, node, given, plan, line),
        Err(StepFail::DiskFail { count }) => {
            let fallen = after_fault(alloc, node, &told)?;
            let Ok(lines) = fault_lines(alloc, &fallen.state, line, is_proposal, count) else {
                return Err(starved(fallen.state));
            };
            Ok(fallen.telling(alloc, lines))
        }
        Err(StepFail::NoMemory) => Err(starved(node)),
    }
}

/// A step that is done.
fn stepped<A: Area>(
    alloc: Global,
    pid: Pid,
    node: Node<A>,
    given: Given,
    plan: Plan,
    line: u64,
) -> Result<Became<A, A::Copies>, NoMemory>
    ensures { IfOk result (GoesOnUp (medium A.state A.holds A.IS_MIRRORED) node
        given.sends (given_lines pid line given) (is_stop plan.awaited)) }
{
    let Ok(Done { sends, told }) = done_by(alloc, pid, line, given) else {
        return Err(starved(node));
    };
    Ok(Became {
        state: NodeState::Up(armed_node(node, Arming::Clear, Arming::Clear)?),
        sends,
        told,
        is_due: plan.awaited.is_stop(),
    })
}

/// The opening of a node that isn't up, for whose disks this is planned.
pub fn opened_any<A: Area>(
    alloc: Global,
    pid: Pid,
    members: &Members,
    observes: bool,
    state: NodeState<A, A::Copies>,
    plan: Plan,
) -> Result<Became<A, A::Copies>, NoMemory>
    requires members { MembersInRange members.now }
    requires kept { IsKept (medium A.state A.holds A.IS_MIRRORED) (kind_if observes) pid state }
    requires range { IsInRange (medium A.state A.holds A.IS_MIRRORED) (kind_if observes) pid state }
    requires down { IsNotUp state }
    ensures { IfOk result (λ r. (line : ℕ) → BecomesOf (medium A.state A.holds A.IS_MIRRORED)
        (kind_if observes) pid plan state runs.Opens line r) }
{
    match state {
        NodeState::Up(node) => {
            let fallen = Fallen {
                state: NodeState::Up(node),
                is_due: false,
            };
            Ok(fallen.quietly(alloc))
        }
        NodeState::Failed(node) => reopened(alloc, pid, node, plan),
        NodeState::Down(down) => { opened_again::<A>(alloc, pid, members, observes, down, plan) }
    }
}

/// The opening of a node that failed, for whose disks this is planned. No area is opened anew.
fn reopened<A: Area>(
    alloc: Global,
    pid: Pid,
    node: Node<A>,
    plan: Plan,
) -> Result<Became<A, A::Copies>, NoMemory>
    requires sound { IsSoundNode node }
    requires failed { (node_of node).failed ≢ None }
    ensures { IfOk result (λ r. (kind : runs.Kind) → HasFailed kind pid node
        → IsInRange (medium A.state A.holds A.IS_MIRRORED) kind pid (states.Failed node) → (line : ℕ)
        → BecomesOf (medium A.state A.holds A.IS_MIRRORED) kind pid plan (states.Failed node) runs.Opens
        line r) }
{
    let (mut node, told) = told_node(alloc, node, plan)?;
    match node.reopen() {
        Ok(sends) => opened(alloc, node, sends, plan),
        Err(StoreFail::DiskFault { .. }) => {
            let fallen = after_fault(alloc, node, &told)?;
            Ok(fallen.quietly(alloc))
        }
        Err(_) => Err(starved(node)),
    }
}

/// The opening of a node that is down, for whose disks this is planned: its areas are opened, and it goes on
/// with what they store. One that votes asks to be prepared.
fn opened_again<A: Area>(
    alloc: Global,
    pid: Pid,
    members: &Members,
    observes: bool,
    down: DownNode<A::Copies>,
    plan: Plan,
) -> Result<Became<A, A::Copies>, NoMemory>
    requires members { MembersInRange members.now }
    requires range { IsInRange (medium A.state A.holds A.IS_MIRRORED) (kind_if observes) pid
        (states.Down down) }
    ensures { IfOk result (λ r. (line : ℕ) → BecomesOf (medium A.state A.holds A.IS_MIRRORED)
        (kind_if observes) pid plan (states.Down down) runs.Opens line r) }
{
    let (down, told) = told_down::<A>(alloc, down, plan)?;
    let DownNode {
        shown,
        first,
        second,
    } = down;
    let Ok(areas) = open_areas::<A>(alloc, first, second) else {
        return Err(starved(shown));
    };
    match areas {
        Areas::Opened(first, second) => {
            match open_node(alloc, pid, members, observes, first, second) {
                Ok((node, sends)) => {
                    let_go(shown);
                    opened(alloc, node, sends, plan)
                }
                Err(returned) => {
                    let fallen = closed_again(alloc, shown, returned, &told)?;
                    Ok(fallen.quietly(alloc))
                }
            }
        }
        Areas::Failed(first, second) => {
            let down = DownNode {
                shown,
                first,
                second,
            };
            let fallen = down_again::<A>(alloc, down, &told)?;
            Ok(fallen.quietly(alloc))
        }
    }
}

/// An opening that is done.
fn opened<A: Area>(
    alloc: Global,
    node: Node<A>,
    sends: Sends,
    plan: Plan,
) -> Result<Became<A, A::Copies>, NoMemory>
    ensures { IfOk result
        (GoesOnUp (medium A.state A.holds A.IS_MIRRORED) node sends [] (is_stop plan.awaited)) }
{
    Ok(Became {
        state: NodeState::Up(armed_node(node, Arming::Clear, Arming::Clear)?),
        sends,
        told: Lines::new(alloc),
        is_due: plan.awaited.is_stop(),
    })
}

/// What is left of a node that stopped in a call of its areas, or one of whose calls failed. A fault that
/// nothing awaited, of areas none of which is lost, is want of memory.
fn after_fault<A: Area>(
    alloc: Global,
    node: Node<A>,
    told: &Told,
) -> Result<Fallen<A, A::Copies>, NoMemory>
    ensures { IfOk result (IsAfterFault (medium A.state A.holds A.IS_MIRRORED) told.now.plan node) }
{
    if told.has_stopped() {
        let (closed, _) = closed_node(node)?;
        let left = left_of::<A>(alloc, closed, told.stops())?;
        return Ok(Fallen {
            state: NodeState::Down(left),
            is_due: false,
        });
    }
    if !told.plan.lets_fail(A::IS_MIRRORED) {
        return Err(starved(node));
    }
    Ok(Fallen {
        state: NodeState::Failed(armed_node(node, Arming::Clear, Arming::Clear)?),
        is_due: told.plan.awaited.is_stop(),
    })
}

/// What is left of a node that was down and stopped in a call of its opening, or one of whose calls failed.
/// Its areas store one of two states, so that no damage is found.
fn closed_again<A: Area>(
    alloc: Global,
    shown: Durable,
    returned: Returned<A>,
    told: &Told,
) -> Result<Fallen<A, A::Copies>, NoMemory>
    ensures { IfOk result
        (IsClosedAgain (medium A.state A.holds A.IS_MIRRORED) told.now.plan shown returned.first
        returned.second) }
{
    let Returned {
        cause,
        first,
        second,
    } = returned;
    if cause == StoreFail::NoMemory {
        return Err(starved(shown));
    }
    let Ok(first) = first.close() else {
        return Err(starved(shown));
    };
    let Ok(second) = second.close() else {
        return Err(starved(shown));
    };
    let down = DownNode {
        shown,
        first,
        second,
    };
    down_again::<A>(alloc, down, told)
}

/// The same of one whose areas are closed.
fn down_again<A: Area>(
    alloc: Global,
    down: DownNode<A::Copies>,
    told: &Told,
) -> Result<Fallen<A, A::Copies>, NoMemory>
    ensures { IfOk result (IsDownAgain (medium A.state A.holds A.IS_MIRRORED) told.now.plan down) }
{
    if told.has_stopped() {
        let left = left_of::<A>(alloc, down, told.stops())?;
        return Ok(Fallen {
            state: NodeState::Down(left),
            is_due: false,
        });
    }
    if !told.plan.lets_fail(A::IS_MIRRORED) {
        return Err(starved(down));
    }
    Ok(Fallen {
        state: NodeState::Down(armed_down::<A>(down, Arming::Clear, Arming::Clear)?),
        is_due: told.plan.awaited.is_stop(),
    })
}

/// Whether a node that has failed refuses this.
fn is_proposal(input: &Input) -> bool
    ensures { (count : ℕ) → failed_outcome count input.now ≡ refused_if result count }
{
    match input {
        Input::Commands(_) | Input::Stop(_) | Input::TrimNow | Input::Read(_) => true,
        Input::Tick | Input::Deliver(_, _) | Input::Up(_) | Input::Down(_) => false,
    }
}

/// What is reported of a step, said in this line of the schedule, after which a node that met a fault is so:
/// where it failed, that what was proposed is refused.
fn fault_lines<D, C>(
    alloc: Global,
    state: &NodeState<D, C>,
    line: u64,
    is_proposal: bool,
    count: u64,
) -> Result<Lines, NoMemory>
    ensures { IfOk result (λ lines.
        lines ≡ fault_lines state.now line (refused_if is_proposal count)) }
{
    let mut lines = Lines::new(alloc);
    if is_proposal && !matches!(state, NodeState::Down(_)) {
        let outcome = Outcome::Refused(Refusal::StorageFailed { count });
        lines.push(Line::Answer(line, outcome))?;
    }
    Ok(lines)
}
