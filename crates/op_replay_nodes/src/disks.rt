//! The areas of a node: armed, opened, closed, and what a stop leaves of them.
ghost use Rattle.std.specs.Prelude.{◌≡◌, IfOk};
ghost use Rattle.op_areas.specs.Media.{medium};
ghost use Rattle.op_node.specs.Nodes.{node_of};
ghost use Rattle.op_replay_nodes.specs.Disks.{AreOpened, IsClosedAs, StaysDown, StaysNode};
ghost use Rattle.op_replay_nodes.specs.Nodes.{StaysSame};

use crate::node_state::{DownNode, NodeState};
use crate::plan::Plan;
use crate::told::{Faults, Told};
use op_areas::{Area, Arming, Opening, Stop};
use op_node::Node;
use op_plans::starved;
use op_types::NoMemory;
use std::alloc::Global;

/// What the opening of both areas of a node gives.
#[derive(Drop)]
pub enum Areas<D, C> {
    /// Both.
    Opened(D, D),
    /// Their copies, closed again.
    Failed(C, C),
}

/// Opens the first area, and then the second; that isn't opened where the first failed.
pub fn open_areas<A: Area>(
    alloc: Global,
    first: A::Copies,
    second: A::Copies,
) -> Result<Areas<A, A::Copies>, NoMemory>
    ensures { IfOk result (AreOpened A.state A.holds first second) }
{
    let first = match A::open(alloc, first)? {
        Opening::Opened(first) => first,
        Opening::Failed(first) => return Ok(Areas::Failed(first, second)),
    };
    match A::open(alloc, second)? {
        Opening::Opened(second) => Ok(Areas::Opened(first, second)),
        Opening::Failed(second) => Ok(Areas::Failed(first.close()?, second)),
    }
}

/// What a stop leaves of a node that is closed.
pub fn left_of<A: Area>(
    alloc: Global,
    down: DownNode<A::Copies>,
    stops: (Stop, Stop),
) -> Result<DownNode<A::Copies>, NoMemory>
    ensures { IfOk result (StaysDown A.holds down) }
{
    let DownNode {
        shown,
        first,
        second,
    } = down;
    let Ok(first) = A::left(alloc, &first, stops.0) else {
        return Err(starved(shown));
    };
    let Ok(second) = A::left(alloc, &second, stops.1) else {
        return Err(starved(shown));
    };
    Ok(DownNode {
        shown,
        first,
        second,
    })
}

/// The node, closed: it is down, and its copies hold what a crash leaves of its areas. With how often these
/// had failed.
pub fn closed_node<A: Area>(node: Node<A>) -> Result<(DownNode<A::Copies>, Faults), NoMemory>
    ensures { IfOk result (λ r. IsClosedAs A.state A.holds
        (node_of node).state.durable node.store.first node.store.second r.0) }
{
    let (rest, first, second) = node.park();
    let faults = Faults {
        first: first.faults(),
        second: second.faults(),
    };
    let Ok(first) = first.close() else {
        return Err(starved(rest));
    };
    let Ok(second) = second.close() else {
        return Err(starved(rest));
    };
    let down = DownNode {
        shown: rest.into_durable(),
        first,
        second,
    };
    Ok((down, faults))
}

/// The node whose areas are told of its plan.
pub fn told_node<A: Area>(
    alloc: Global,
    node: Node<A>,
    plan: Plan,
) -> Result<(Node<A>, Told), NoMemory>
    ensures same { IfOk result (λ r. StaysNode A.state node r.0) }
    ensures plan { IfOk result (λ r. r.1.plan ≡ plan) }
{
    let (rest, first, second) = node.park();
    let faults = Faults {
        first: first.faults(),
        second: second.faults(),
    };
    let Ok(told) = Told::new(alloc, plan, faults) else {
        return Err(starved(rest));
    };
    let Ok((arming, second_arming)) = told.armings() else {
        return Err(starved(rest));
    };
    let Ok(first) = first.armed(arming) else {
        return Err(starved(rest));
    };
    let Ok(second) = second.armed(second_arming) else {
        return Err(starved(rest));
    };
    Ok((Node::resume(rest, first, second), told))
}

/// The node whose areas are armed so.
pub fn armed_node<A: Area>(
    node: Node<A>,
    arming: Arming,
    second_arming: Arming,
) -> Result<Node<A>, NoMemory>
    ensures { IfOk result (StaysNode A.state node) }
{
    let (rest, first, second) = node.park();
    let Ok(first) = first.armed(arming) else {
        return Err(starved(rest));
    };
    let Ok(second) = second.armed(second_arming) else {
        return Err(starved(rest));
    };
    Ok(Node::resume(rest, first, second))
}

/// The node that is down whose copies are told of its plan.
pub fn told_down<A: Area>(
    alloc: Global,
    down: DownNode<A::Copies>,
    plan: Plan,
) -> Result<(DownNode<A::Copies>, Told), NoMemory>
    ensures same { IfOk result (λ r. StaysDown A.holds down r.0) }
    ensures plan { IfOk result (λ r. r.1.plan ≡ plan) }
{
    let faults = Faults {
        first: A::faults_of(&down.first),
        second: A::faults_of(&down.second),
    };
    let Ok(told) = Told::new(alloc, plan, faults) else {
        return Err(starved(down));
    };
    let Ok((arming, second_arming)) = told.armings() else {
        return Err(starved(down));
    };
    Ok((armed_down::<A>(down, arming, second_arming)?, told))
}

/// The node that is down whose copies are armed so.
pub fn armed_down<A: Area>(
    down: DownNode<A::Copies>,
    arming: Arming,
    second_arming: Arming,
) -> Result<DownNode<A::Copies>, NoMemory>
    ensures { IfOk result (StaysDown A.holds down) }
{
    let DownNode {
        shown,
        mut first,
        mut second,
    } = down;
    let Ok(()) = A::arm(&mut first, arming) else {
        return Err(starved(shown));
    };
    let Ok(()) = A::arm(&mut second, second_arming) else {
        return Err(starved(shown));
    };
    Ok(DownNode {
        shown,
        first,
        second,
    })
}

/// The same node, up, failed or down, whose areas or copies are armed so.
pub fn armed_state<A: Area>(
    state: NodeState<A, A::Copies>,
    arming: Arming,
    second_arming: Arming,
) -> Result<NodeState<A, A::Copies>, NoMemory>
    ensures { IfOk result (StaysSame (medium A.state A.holds A.IS_MIRRORED) state) }
{
    match state {
        NodeState::Up(node) => Ok(NodeState::Up(armed_node(node, arming, second_arming)?)),
        NodeState::Failed(node) => {
            Ok(NodeState::Failed(armed_node(node, arming, second_arming)?))
        }
        NodeState::Down(down) => {
            Ok(NodeState::Down(armed_down::<A>(down, arming, second_arming)?))
        }
    }
}
