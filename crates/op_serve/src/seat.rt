use crate::node_disks::NodeDisks;
use op_types::Pid;

/// A server's place on this machine: its id, and the disks of its node.
#[derive(Drop)]
pub struct Seat<D> {
    /// The server's id.
    pub id: Pid,
    /// The disks of its node.
    pub disks: NodeDisks<D>,
}
