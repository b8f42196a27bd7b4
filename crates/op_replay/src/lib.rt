//! The command `replay`: the schedule of the input is run, and the run is reported.
#![tactic(auto)]

mod command;
mod laws;
mod running;

pub use command::replay;
pub use laws::plain_schedules_end_in_one_way;
