//! A node over its disks, as serving knows it.
#![tactic(auto)]

mod end;
mod groups;
mod handing;
mod laws;
mod line;
mod node_core;
mod place;
mod stepping;

pub use laws::{
    opened_nodes_can_be_served, opened_nodes_store, reopened_nodes_can_be_served,
    runs_find_what_is_stored,
};
pub use line::short_line;
pub use node_core::NodeCore;
pub use place::Place;
