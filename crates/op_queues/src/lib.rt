//! The sessions of a node that is served: what waits for each, who asked for what, what was read and is to be
//! given together, and what was lost for want of memory.
#![tactic(auto)]

mod asked;
mod asker_table;
mod behind;
mod count_table;
mod encoding;
mod front;
mod gathered;
mod group;
mod hearing;
mod run;
mod session_table;
mod sessions;
mod unsent;
mod untold;

pub use asked::{asked_by, of_no_command};
pub use front::Front;
pub use gathered::Results;
pub use group::Group;
pub use sessions::Sessions;
