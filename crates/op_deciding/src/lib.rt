//! What a step newly decides, and what that does to the service, before any of it takes effect; and the
//! service of a base.
#![tactic(auto)]

mod basing;
mod deciding;
mod served;

pub use basing::{is_base, service_at, service_from};
pub use deciding::{between, decided_after, index, promised_after, serve_decided, trimmed_after};
pub use served::Served;
