//! Schedules as text, and the report of a run.
#![tactic(auto)]

mod laws;
mod reading;
mod reporting;
mod schedule;

pub use laws::{schedule_is_unambiguous, schedule_suits_its_disks};
pub use op_runs::{Line, Lines, Listed, Lists, NodeLine, NodeLines, Running, Summary};
pub use reading::read;
pub use reporting::{report, summary_text};
pub use schedule::{SchedFail, Schedule};
