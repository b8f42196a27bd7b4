//! Heartbeat rounds: who replied in the current one.
#![tactic(auto)]

mod rounds;

pub use rounds::{Rounds, round_after};
