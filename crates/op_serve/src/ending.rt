ghost use Rattle.std.specs.Prelude.{◌≡◌, []};

use crate::node_disks::NodeDisks;
use op_serving::Mark;
use op_status::Status;
use std::alloc::Global;

/// How a command ended.
#[derive(Drop)]
pub struct Ending<D> {
    /// Its status.
    pub status: Status,
    /// The disks that it was handed.
    pub disks: NodeDisks<D>,
    /// What a node lost for want of memory, in order.
    pub lost: Vec<Mark>,
}

impl<D> Ending<D> {
    /// It ended with nothing lost.
    pub fn early(alloc: Global, status: Status, disks: NodeDisks<D>) -> Ending<D>
        ensures status { result.status ≡ status }
        ensures disks { result.disks ≡ disks }
        ensures lost { result.lost.items ≡ [] }
    {
        Ending {
            status,
            disks,
            lost: Vec::new(alloc),
        }
    }
}
