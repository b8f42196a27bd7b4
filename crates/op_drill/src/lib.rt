//! The command `drill`: events that a seed draws are run and summed up; or a scenario of partial links is run
//! in lockstep rounds, and the members tell their ballots.
#![tactic(auto)]

mod drilling;
mod random;
mod telling;

pub use drilling::drill_links;
pub use random::drill;
