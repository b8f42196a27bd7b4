//! The client's call of a node: a request is written, and the first frame that comes is its reply.
#![tactic(auto)]

mod call_fail;
mod calling;
mod client;
mod encoding;
mod laws;

pub use call_fail::CallFail;
pub use calling::call;
pub use laws::calls_follow_answers;
