//! A node over all its configurations, its service and its waiting clients, without its disks and its reads:
//! each step is planned with all the memory that it takes, and adopted once its batch is stored.
#![tactic(auto)]

mod answering;
mod brought;
mod chain;
mod chain_plan;
mod closing;
mod given;
mod joining;
mod lead;
mod ready_plan;
mod renewal;
mod room;
mod starting;
mod trimming;
mod waiting_set;

pub use chain::Chain;
pub use given::Given;
pub use lead::Lead;
pub use op_kv::{Map, Pairs};
pub use ready_plan::ReadyPlan;
pub use starting::{empty_durable, first_durable, sends_after_restart};
