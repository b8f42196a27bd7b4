//! The serving loop: it waits for what happens on its connections, gives it to the driver, and writes what
//! comes of it.
#![tactic(auto)]

mod happenings;
mod pump;
mod room;
mod serving;
mod timer;
mod turn;
mod writing;

pub use op_serving::{Core, Mark, Place, ServeEnd};
pub use serving::{Served, serve};
