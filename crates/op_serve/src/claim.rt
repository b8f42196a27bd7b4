use op_setup::ClusterName;
use op_types::Pid;

/// What the text of a folder says to a node.
#[derive(Clone, Copy)]
pub enum Claim {
    /// The folder is nobody's: the text isn't there, or isn't the line of a node.
    Nobodys,
    /// It is another node's, or of another cluster: this id, and the cluster's name.
    Others(Pid, ClusterName),
    /// It is the node's own, which hasn't begun: `begun` is to be written at this byte offset, behind the
    /// line, once it has.
    New(u64),
    /// It is the node's own, which has begun: something stands behind the line.
    Begun,
}
