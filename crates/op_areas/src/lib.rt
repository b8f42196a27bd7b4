//! An area of a node in memory: a disk, or a mirror of two. What holds its bytes while its node is down, and
//! what a schedule does to that.
#![tactic(auto)]

mod area;
mod arming;
mod bracing;
mod copy_call;
mod laws;
mod mem_mirror;
mod memory;
mod mirror;
mod pair;
mod seen;
mod stop;

pub use area::{Area, Opening};
pub use arming::{Arming, CallAt};
pub use laws::pairs_hold_what_mixes;
pub use mem_mirror::MemMirror;
pub use pair::DiskPair;
pub use stop::Stop;
