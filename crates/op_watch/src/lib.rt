//! What an observer asks, what a member shows it, and what it makes of that. An observer never votes: it
//! keeps what is decided.
#![tactic(auto)]

mod asking;
mod basing;
mod decided;
mod showing;
mod stage;
mod taking;

pub use asking::{ask_all, ask_one};
pub use basing::{completed, rebased, staged};
pub use showing::asked;
pub use stage::BaseStage;
pub use taking::{lacking, shown};
