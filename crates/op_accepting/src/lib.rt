//! What a follower accepts of its leader's log.
#![tactic(auto)]

mod accepting;

pub use accepting::{Accept, on_accept, on_accept_sync, synced_batch};
