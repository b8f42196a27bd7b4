ghost use Rattle.op_types.specs.Ranges.{IsPid};
ghost use Rattle.op_serve.specs.Mirrored.{Serves, environment};

use crate::duty::Duty;
use crate::ending::Ending;
use crate::folder::may_begin;
use crate::mirrored::serve_node;
use crate::seat::Seat;
use op_input::read_settings;
use op_outside::{Clock, Disk, Net, Sink, Source};
use std::alloc::Global;

/// Serves as the node of this server: reads its settings, looks at its folder where they name the cluster,
/// opens it on its disks, listens at its own address, tells that it is ready, and serves until an end request
/// or the last turn. The disks are handed back, and what was lost for want of memory is told.
pub fn serve_as<D: Disk, N: Net, C: Clock, S: Source, K: Sink>(
    alloc: Global,
    seat: Seat<D>,
    net: &mut N,
    clock: &mut C,
    input: &mut S,
    out: &mut K,
) -> Ending<D>
    requires { IsPid seat.id }
    ensures { Serves D.Disk seat.id
        (S.left input.old, S.fault_count input.old) (S.left input.new, S.fault_count input.new)
        (environment seat.disks (N.told net.old, N.fault_count net.old) (C.answers clock.old)
        (K.held out.old, K.fault_count out.old))
        (environment result.disks (N.told net.new, N.fault_count net.new) (C.answers clock.new)
        (K.held out.new, K.fault_count out.new))
        result.status result.lost.items }
{
    let Seat { id, mut disks } = seat;
    let found = match read_settings(alloc, input, Some(id)) {
        Ok(found) => found,
        Err(status) => return Ending::early(alloc, status, disks),
    };
    let settings = &found.settings;
    match may_begin(id, settings, &mut disks) {
        Ok(begins_at) => {
            let duty = Duty {
                id,
                settings,
                begins_at,
            };
            serve_node(alloc, duty, disks, net, clock, out)
        }
        Err(status) => Ending::early(alloc, status, disks),
    }
}
