//! The tasks of the program.

use op_gen::Scenario;
use op_outside::Addr;
use op_types::{Pid, Request};

/// The greatest number of events of a drill.
pub const MOST_EVENTS: u64 = 1_000_000;

/// The greatest number of rounds of a drill of links.
pub const MOST_ROUNDS: u64 = 1000;

/// What the program is asked to do.
#[derive(Drop)]
pub enum Task {
    /// To serve as the node of this id.
    Node(Pid),
    /// To run the schedule of the input, and to report the run.
    Replay,
    /// To ask the node at this address.
    Call(Addr, Request),
    /// To run each node of the settings as a program of its own.
    Cluster,
    /// To run so many events that this seed draws, 1 to 1,000,000.
    Drill(u64, u64),
    /// To drill this scenario of partial links for so many lockstep rounds, 1 to 1,000.
    DrillLinks(Scenario, u64),
}
