//! What a leader counts: lengths that a majority has acknowledged are decided, and its followers told.
#![tactic(auto)]

mod counting;

pub use counting::{count, count_behind, on_accepted, synced_others};
