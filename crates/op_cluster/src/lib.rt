//! The nodes of a cluster, run as programs beside this one.
#![tactic(auto)]

mod child_line;
mod cluster_fail;
mod running;

pub use cluster_fail::ClusterFail;
pub use running::cluster;
