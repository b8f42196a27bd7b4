//! The program's input: its bytes up to a limit, and the settings that they are.
#![tactic(auto)]

mod reading;
mod settings;

pub use reading::{INPUT_LIMIT, read_input};
pub use settings::{Configured, read_settings};
