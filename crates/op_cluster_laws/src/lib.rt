//! What holds of nodes that serve together.
#![tactic(auto)]

mod laws;

pub use laws::{
    answers_are_of_one_order, clusters_are_executions, deeds_have_causes, reads_are_current,
};
