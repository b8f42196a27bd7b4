//! What serving keeps to each connection, over every run of it.
#![tactic(auto)]

mod laws;

pub use laws::{
    clients_are_told, connections_keep, few_frames_wait, nodes_fold, runs_follow_answers,
    turns_take_all,
};
