use op_types::{Commands, Members, Pid, Read, Seq, Shared};

/// What happens.
#[derive(Drop)]
pub enum What {
    /// A tick of this node.
    Tick(Pid),
    /// Clients propose commands together, 1 to 64.
    Commands(Pid, Commands),
    /// A client proposes to end the configuration, with these members in the next one. They are rare, and lie
    /// apart.
    Stop(Pid, Shared<Members>),
    /// A client asks for trimming.
    Trim(Pid),
    /// A client reads.
    Read(Pid, Read),
    /// The message of this number reaches its addressee.
    Deliver(u64),
    /// At the first node, a session with the second one begins.
    Up(Pid, Pid),
    /// At the first node, a session with the second one ends.
    Down(Pid, Pid),
    /// The node stops between two steps.
    Crash(Pid),
    /// The node stops in this call of a disk, of its next step or opening, and this image is left of each
    /// disk. Calls 1 to 50 are the first disk's, 51 to 100 the second's, and so on to the fourth's. Where the
    /// call isn't made, it stops after the step.
    CrashAt(Pid, u8, u8),
    /// This call of a disk, of the node's next step or opening, fails; calls are numbered as for `CrashAt`.
    /// Where the call isn't made, nothing fails.
    Fail(Pid, u8),
    /// This disk of the node fails at every call from now on, over starts too. Disks 1 and 2 hold its two
    /// areas; where they are mirrored, 3 and 4 hold the second copies.
    Kill(Pid, u8),
    /// A node that is down is opened again.
    Start(Pid),
    /// The pairs of the node's service are told.
    Show(Pid),
    /// The node's ballots are told.
    Ballots(Pid),
}

/// An event of a schedule.
#[derive(Drop)]
pub struct Event {
    /// The line of the schedule that says so, from 1.
    pub line: u64,
    /// What happens.
    pub what: What,
}

/// What happens in a run, in order.
pub type Events = Seq<Event>;
