//! What clients of a cluster see: one order of all that they call, in which a plain map gives every answer.
#![tactic(auto)]

mod laws;

pub use laws::{
    clusters_are_linear, clusters_are_linearizable, clusters_exist, effects_come_once,
    traces_are_runs,
};
