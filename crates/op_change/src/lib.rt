//! What commands write over a service: a change of it, and what they are answered.
#![tactic(auto)]

mod change;
mod standing;
mod tables;

pub use change::KvChange;
pub use tables::Tables;

/// What commands are answered, in order.
pub type Answers = op_types::Seq<op_types::Answer>;
