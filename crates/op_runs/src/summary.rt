use op_types::{Answer, Ballot, Blob, Cause, ConfNo, Entries, Members, Outcome, Pid, Seq};

/// A line of a report that an event gave.
#[derive(Drop)]
pub enum Line {
    /// What the proposal of this schedule's line was answered.
    Answer(u64, Outcome),
    /// What a client (its number, and the command's) was answered at a node.
    Reply(Pid, u64, u64, Answer),
    /// A proposal (its client, and its number) that was buffered at a node and is given up.
    Dropped(Pid, u64, u64, Cause),
    /// What a read (its client, and its number) was answered at a node.
    Read(Pid, u64, u64, Answer),
    /// A key of a node's service, and its value.
    Pair(Pid, Blob, Blob),
    /// A node's own ballot, the leader's as far as it knows, and what it has promised.
    Ballots(Pid, Ballot, Ballot, Ballot),
}

/// A configuration's one list.
#[derive(Drop)]
pub struct Listed {
    /// The configuration's number.
    pub conf: ConfNo,
    /// Its members.
    pub members: Members,
    /// The entries that are decided, from position 0.
    pub entries: Entries,
}

/// How a node runs.
#[derive(Clone, Copy, Debug, PartialEq, Eq)]
pub enum Running {
    /// It is up.
    Up,
    /// It is down, and a start opens it again.
    Down,
    /// A disk of it failed, and a start opens it again.
    Failed,
}

/// Where a node stands in the end.
#[derive(Clone, Copy, Debug, PartialEq, Eq)]
pub struct NodeLine {
    /// The node's id.
    pub pid: Pid,
    /// The configuration, how much of it is decided, and how much is trimmed; a spare has none.
    pub at: Option<(ConfNo, u64, u64)>,
    /// The configuration that the node is joining.
    pub joining: Option<ConfNo>,
    /// How it runs at the end.
    pub running: Running,
}

/// Lines that events gave, in the order of the events.
pub type Lines = Seq<Line>;

/// Lists, by rising configuration.
pub type Lists = Seq<Listed>;

/// Where the nodes stand, by rising id.
pub type NodeLines = Seq<NodeLine>;

/// What a run leaves to be reported.
#[derive(Drop)]
pub struct Summary {
    /// What the events gave, in order.
    pub lines: Lines,
    /// The list of each configuration.
    pub lists: Lists,
    /// Where each node stands.
    pub nodes: NodeLines,
    /// How many messages were sent.
    pub sent: u64,
}
