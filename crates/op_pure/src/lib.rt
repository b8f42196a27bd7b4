//! The plain program of the definition: members, spares and observers without disks, whose happenings' fates
//! are given.
#![tactic(auto)]

mod happening;
mod node;
mod world;

pub use happening::{Fate, Foretold, Happening, Happenings};
pub use world::PureWorld;
