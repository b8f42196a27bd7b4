//! What serving a node is, in definitions, and the plain types that they speak of.
#![tactic(auto)]

mod anew;
mod excess;
mod greeting;
mod hearing;
mod keys;
mod kind;
mod mark;
mod node;
mod serve_end;
mod session;
mod urgent;
mod wanted;

pub use anew::begins_anew;
pub use excess::is_excess;
pub use greeting::{Greeting, HELLO_LEN, read_greeting};
pub use hearing::Heard;
pub use keys::{Awaited, Key, Keys};
pub use kind::{Kind, goes_up};
pub use mark::{Mark, Place};
pub use node::{Core, StepFail};
pub use op_types::Given;
pub use serve_end::ServeEnd;
pub use session::{
    CLIENT_HEAD, CLIENT_LIMIT, MOST_BEHIND, MOST_BROUGHT, PEER_HEAD, PEER_LIMIT, Session,
};
pub use urgent::is_urgent;
pub use wanted::Wanted;
