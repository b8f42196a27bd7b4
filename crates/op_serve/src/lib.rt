//! The command `node`: a node is opened on its disks, listens, tells that it is ready, and serves.
#![tactic(auto)]

mod claim;
mod command;
mod duty;
mod ended;
mod ending;
mod folder;
mod laws;
mod mirrored;
mod node_disks;
mod seat;
mod serving;

pub use command::serve_as;
pub use ending::Ending;
pub use laws::{
    looks_change_nothing, mirrors_follow, openings_begin_lives, processes_are_lives,
    what_is_not_read_is_told,
};
pub use node_disks::NodeDisks;
pub use seat::Seat;
