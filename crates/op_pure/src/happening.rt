use op_runs::Event;
use op_types::Seq;

/// What becomes of an event's step.
#[derive(Clone, Copy, Debug, PartialEq, Eq)]
pub enum Fate {
    /// It is done.
    Done,
    /// The node stops inside it: nothing is given out, and the next opening finds what was stored before it
    /// or after it.
    Stopped,
    /// A disk fails inside it, and this is the count of its disks' faults then: the node has failed, and the
    /// next opening finds what was stored before it or after it.
    Faulted(u64),
}

/// What is said of a happening beforehand.
#[derive(Clone, Copy, Debug, PartialEq, Eq)]
pub struct Foretold {
    /// What becomes of its step.
    pub fate: Fate,
    /// Whether an opening finds the state after the step in which the node stopped or failed, or the one
    /// before.
    pub finds_after: bool,
}

/// An event, and what becomes of it.
#[derive(Drop)]
pub struct Happening {
    /// The event.
    pub event: Event,
    /// What becomes of its step.
    pub fate: Fate,
    /// Whether an opening finds the state after the step in which the node stopped or failed, or the one
    /// before.
    pub finds_after: bool,
}

/// What happens, in order.
pub type Happenings = Seq<Happening>;
