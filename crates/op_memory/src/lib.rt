//! The outside in memory, for tests and replays.
#![tactic(auto)]

mod adding;
mod call;
mod call_fate;
mod crash;
mod disk;
mod disk_history;
mod edits;
mod fake_clock;
mod fake_spawner;
mod fault_count;
mod fault_script;
mod forgetting;
mod laws;
mod pends;
mod piece;
mod power;
mod replaced;
mod replay;
mod script_net;
mod sink;
mod source;
mod syncs;

pub use disk::MemDisk;
pub use fake_clock::FakeClock;
pub use fake_spawner::{FakeSpawner, KeptChild};
pub use laws::what_a_crash_leaves;
pub use power::Power;
pub use script_net::{Incoming, KeptCall, NetScript, ScriptNet};
pub use sink::MemSink;
pub use source::MemSource;
