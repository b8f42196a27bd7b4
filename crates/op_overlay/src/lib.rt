//! Entries by rising key that were written over others, and wait to go to their places.
#![tactic(auto)]

mod overlay;

pub use overlay::{Overlay, insert_all};
