//! A node of a replay over its areas in memory, and what is done at it.
#![tactic(auto)]

mod awaited;
mod became;
mod disks;
mod given;
mod happening;
mod node_state;
mod opening;
mod plan;
mod told;

pub use awaited::{Awaited, Planned};
pub use node_state::{DownNode, NodeState, WorldNode};
pub use plan::{Killed, Plan};
