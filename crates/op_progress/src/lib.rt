//! What a majority whose members hear one another reaches, whatever happens at the others.
#![tactic(auto)]

mod laws;

pub use laws::{majorities_agree, majorities_decide, trims_are_decided};
