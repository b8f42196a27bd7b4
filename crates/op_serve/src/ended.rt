ghost use Rattle.std.specs.Prelude.{◌≡◌, []};

use op_serving::Mark;
use op_status::Status;
use std::alloc::Global;

/// How a node ended over the disks of its two areas.
#[derive(Drop)]
pub(crate) struct Ended<D> {
    pub status: Status,
    pub first: D,
    pub second: D,
    pub lost: Vec<Mark>,
}

impl<D> Ended<D> {
    /// It ended with nothing lost.
    pub fn early(alloc: Global, status: Status, first: D, second: D) -> Ended<D>
        ensures status { result.status ≡ status }
        ensures first { result.first ≡ first }
        ensures second { result.second ≡ second }
        ensures lost { result.lost.items ≡ [] }
    {
        Ended {
            status,
            first,
            second,
            lost: Vec::new(alloc),
        }
    }
}
