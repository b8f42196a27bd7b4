//! The top call: what the words ask is done, and its status is told.
#![tactic(auto)]

mod clusters;
mod host;
mod sessions;
mod top;

pub use host::Host;
pub use op_serve::{Ending, NodeDisks};
pub use op_status::Status;
pub use sessions::session;
pub use top::omni;
