//! The steps of trimming: what all members have decided is trimmed.
#![tactic(auto)]

mod asking;
mod reporting;
mod trimming;

pub use asking::{on_trim_ask, trim_now};
pub use reporting::on_progress;
pub use trimming::on_trim;
