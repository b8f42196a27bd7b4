//! What drills run: scenarios of partial links, and events that are drawn.
#![tactic(auto)]

mod draws;
mod generator;
mod kind;
mod pairs;
mod scenario;

pub use generator::Gen;
pub use pairs::{Links, all_links};
pub use scenario::{Scenario, links};
