//! How the program ends: its exit status, and the line that tells it.
#![tactic(auto)]

mod status;

pub use status::Status;
