//! What a node that is served makes of bytes and happenings: no net and no clock is known here.
#![tactic(auto)]

mod answering;
mod driver;
mod laws;
mod ungiven;

pub use driver::Driver;
pub use laws::driver_follows_losses;
