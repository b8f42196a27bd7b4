//! A node over all its configurations with the reads that wait at it, without its disks: each step is planned
//! with all the memory that it takes, and adopted once its batch is stored.
#![tactic(auto)]

mod answering;
mod asking;
mod reading;
mod seat;
mod seat_plan;
mod server;
mod server_plan;

pub use op_chain::{Map, Pairs, empty_durable, first_durable, sends_after_restart};
pub use op_observer::Observer;
pub use op_types::Given;
pub use seat::Seat;
pub use seat_plan::SeatPlan;
pub use server::Server;
pub use server_plan::ServerPlan;
