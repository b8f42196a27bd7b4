//! Which log a node that prepares adopts: the greatest that was promised, and behind it what is buffered.
#![tactic(auto)]

mod choosing;
mod filling;

pub use choosing::{Candidate, Offers, choose, is_above, is_usable};
pub use filling::{fitting, left_over, stop_in_both};
