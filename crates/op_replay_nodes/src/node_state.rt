//! A node, which has its areas in memory: up, failed or down.
use crate::plan::Plan;
use op_node::Node;
use op_types::{Durable, Pid};

/// A node of a world, which votes or observes: over these areas while it isn't down, and over these closed
/// copies while it is.
#[derive(Drop)]
pub struct WorldNode<D, C> {
    /// Its id.
    pub pid: Pid,
    /// Whether it observes, and so never votes.
    pub observes: bool,
    /// How it runs, with its areas.
    pub state: NodeState<D, C>,
    /// What is planned for its disks.
    pub plan: Plan,
    /// Whether it stops after what was done last: the call in which it was to stop was not made.
    pub is_due: bool,
    /// How many steps its disks keep the calls of.
    pub kept_steps: u8,
}

/// How a node is.
#[derive(Drop)]
pub enum NodeState<D, C> {
    /// It is up, and has its areas open.
    Up(Node<D>),
    /// A call of its areas failed.
    Failed(Node<D>),
    /// It is down.
    Down(DownNode<C>),
}

/// What is left of a node that is down.
#[derive(Drop)]
pub struct DownNode<C> {
    /// What it had stored before the step in which it stopped.
    pub shown: Durable,
    /// The copies of its first area. The two areas store what is shown, or what that step was to store.
    pub first: C,
    /// The copies of its second area.
    pub second: C,
}
