//! What full rounds of a majority reach, in which sessions begin anew and all that is sent comes.
#![tactic(auto)]

mod laws;

pub use laws::majorities_lead;
