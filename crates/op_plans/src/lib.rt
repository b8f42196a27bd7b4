//! Pieces of plans: a node at its part, the log and its changes, what may come to it, messages, and lists
//! that are put together.
#![tactic(auto)]

mod admitting;
mod dropping;
mod head;
mod joining;
mod letting_go;
mod log;
mod member;
mod parts;
mod sends;

pub use admitting::{has_stop, is_admitted};
pub use dropping::{given_up, push_dropped};
pub use head::Head;
pub use joining::{first, one};
pub use letting_go::{let_go, put, starved};
pub use log::{ends_with_stop, is_stop, push_append, suffix, without_prefix};
pub use member::Member;
