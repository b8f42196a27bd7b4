//! Reads that wait at a leader until a majority has confirmed its ballot.
#![tactic(auto)]

mod asked_read;
mod reads;
mod waiting_read;

pub use asked_read::{Asked, AskedRead};
pub use reads::{AskFail, Reads};
