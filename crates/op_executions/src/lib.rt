//! A world of servers, event by event, over any kind of server.
#![tactic(auto)]

mod deed;
mod fail;
mod ids;
mod plain;
mod possible;
mod sent;
mod server;
mod telling;
mod world;

pub use deed::{Deed, Doing, Told};
pub use fail::RunFail;
pub use plain::plain_runs_are_done;
pub use sent::Sent;
pub use server::{Done, Server};
pub use telling::{ballot_lines, pair_lines, push_step_lines};
pub use world::{ServerWorld, place_of};
