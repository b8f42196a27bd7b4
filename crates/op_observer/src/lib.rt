//! A node that never votes and keeps what is decided, without its disks: each step is planned with all the
//! memory that it takes, and adopted once its batch is stored.
#![tactic(auto)]

mod answering;
mod observer;
mod observer_plan;
mod taking;

pub use observer::Observer;
pub use observer_plan::ObserverPlan;
