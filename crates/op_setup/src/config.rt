//! What a text of settings sets.

use op_outside::Addr;
use op_types::{Blob, Members, Pid, Seq};

/// The most milliseconds between two ticks.
pub const MOST_TICK_MS: u64 = 60_000;

/// The most turns of the serving loop.
pub const MOST_TURNS: u64 = 1_000_000_000_000;

/// The most untrimmed entries at which a leader may be set to trim by itself.
pub const MOST_TRIM_EVERY: u64 = 1_000_000_000_000;

/// The most nodes of a cluster.
pub const MOST_PEERS: usize = 62;

/// The keys that settings have.
pub const KEYS: [&str; 8] = [
    "tick_ms",
    "turns",
    "members",
    "peers",
    "mirror",
    "observers",
    "trim_every",
    "cluster",
];

/// Each node's id and its address, by rising id.
pub type Peers = Seq<(Pid, Addr)>;

/// The settings of a node, or of a cluster.
#[derive(Drop)]
pub struct Settings {
    /// Milliseconds between two ticks, from 1 to 60,000.
    pub tick_ms: u64,
    /// The turns that the serving loop takes, from 1 to 10^12.
    pub turns: u64,
    /// The members of the first configuration, 1 to 31, rising.
    pub members: Members,
    /// The nodes, 1 to 62, every member among them.
    pub peers: Peers,
    /// Each of the node's two areas is kept twice, on disks of their own.
    pub is_mirrored: bool,
    /// The nodes that never vote, rising: each is among the peers, and none is a member.
    pub observers: Seq<Pid>,
    /// At how many decided entries that are not trimmed, from 1 to 10^12, the leader trims by itself, behind
    /// a tick. None: it trims only where it is asked to.
    pub trim_every: Option<u64>,
    /// The name of the cluster, of 1 to 64 letters, digits, `.` or `_`, which a node's folder has to say,
    /// too. None: nothing is asked of the folder.
    pub cluster: Option<Blob>,
}
