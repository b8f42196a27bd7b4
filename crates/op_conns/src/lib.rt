//! The bytes that wait for each open connection.
#![tactic(auto)]

mod dropping;
mod encode;
mod laws;
mod queue;
mod table;

pub use dropping::drop_front;
pub use encode::Encode;
pub use laws::queues_apart;
pub use queue::Queue;
pub use table::Table;
