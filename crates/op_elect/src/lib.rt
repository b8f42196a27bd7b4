//! The election of a leader's ballot from what a server heard in a heartbeat round.
#![tactic(auto)]

mod election;
mod laws;

pub use election::{Election, greatest};
pub use laws::{elected_ballots_rise, rounds_end_in_one_way};
pub use op_types::Verdict;
