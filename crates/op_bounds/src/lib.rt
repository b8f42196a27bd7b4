//! Every step keeps all that is stored and sent in range, and each message that is sent fits into a frame.
#![tactic(auto)]

mod laws;

pub use laws::{
    messages_fit_frames, observers_own_no_ballot, openings_stay_in_range, runs_stay_in_range,
    steps_stay_in_range,
};
