//! A node over disks that may be mirrored.
ghost use Rattle.std.specs.Prelude.{◌≡◌, ◌<◌};
ghost use Rattle.op_mirror.specs.Crashes.{LeavesAllMixes};
ghost use Rattle.op_serve.specs.Mirrored.{EndsAlone, EndsMirrored, EndsWith, HaveFailed, environment, status_of_cause};
ghost use Rattle.op_serve.specs.Nodes.{IsNodeOf};

use crate::duty::Duty;
use crate::ended::Ended;
use crate::ending::Ending;
use crate::node_disks::NodeDisks;
use crate::serving::serve_on;
use op_mirror::{Mirror, OpenCause};
use op_outside::{Clock, Disk, Net, Sink};
use op_status::Status;
use std::alloc::Global;

/// Serves, over mirrors where the settings say so.
pub(crate) fn serve_node<D: Disk, N: Net, C: Clock, K: Sink>(
    alloc: Global,
    duty: Duty<'_>,
    disks: NodeDisks<D>,
    net: &mut N,
    clock: &mut C,
    out: &mut K,
) -> Ending<D>
    requires { IsNodeOf duty.id duty.settings.now }
    ensures { EndsWith D.Disk duty.entry.settings.now.is_mirrored duty.entry.begins_at
        duty.entry.id duty.entry.settings.now
        (environment disks (N.told net.old, N.fault_count net.old) (C.answers clock.old)
        (K.held out.old, K.fault_count out.old))
        (environment result.disks (N.told net.new, N.fault_count net.new) (C.answers clock.new)
        (K.held out.new, K.fault_count out.new))
        result.status result.lost.items }
{
    if duty.settings.is_mirrored {
        serve_mirrored(alloc, duty, disks, net, clock, out)
    } else {
        serve_alone(alloc, duty, disks, net, clock, out)
    }
}

/// Serves over the first copy of each area alone.
fn serve_alone<D: Disk, N: Net, C: Clock, K: Sink>(
    alloc: Global,
    duty: Duty<'_>,
    disks: NodeDisks<D>,
    net: &mut N,
    clock: &mut C,
    out: &mut K,
) -> Ending<D>
    requires { IsNodeOf duty.id duty.settings.now }
    ensures { EndsAlone D.Disk duty.entry.begins_at duty.entry.id duty.entry.settings.now
        (environment disks (N.told net.old, N.fault_count net.old) (C.answers clock.old)
        (K.held out.old, K.fault_count out.old))
        (environment result.disks (N.told net.new, N.fault_count net.new) (C.answers clock.new)
        (K.held out.new, K.fault_count out.new))
        result.status result.lost.items }
{
    let NodeDisks {
        first,
        second,
        first_copy,
        second_copy,
        mut identity,
    } = disks;
    let Ended {
        status,
        first,
        second,
        lost,
    } = serve_on(alloc, duty, first, second, &mut identity, net, clock, out);
    Ending {
        status,
        disks: NodeDisks {
            first,
            second,
            first_copy,
            second_copy,
            identity,
        },
        lost,
    }
}

/// Opens the mirror of each area, and serves over the two.
fn serve_mirrored<D: Disk, N: Net, C: Clock, K: Sink>(
    alloc: Global,
    duty: Duty<'_>,
    disks: NodeDisks<D>,
    net: &mut N,
    clock: &mut C,
    out: &mut K,
) -> Ending<D>
    requires { IsNodeOf duty.id duty.settings.now }
    ensures { EndsMirrored D.Disk duty.entry.begins_at duty.entry.id duty.entry.settings.now
        (environment disks (N.told net.old, N.fault_count net.old) (C.answers clock.old)
        (K.held out.old, K.fault_count out.old))
        (environment result.disks (N.told net.new, N.fault_count net.new) (C.answers clock.new)
        (K.held out.new, K.fault_count out.new))
        result.status result.lost.items }
{
    let NodeDisks {
        first,
        second,
        first_copy,
        second_copy,
        mut identity,
    } = disks;
    let first = match Mirror::open(alloc, first, first_copy) {
        Ok(mirror) => mirror,
        Err(refused) => {
            let area = (refused.first, refused.second);
            let disks = NodeDisks::of_areas(area, (second, second_copy), identity);
            return Ending::early(alloc, status_of_cause(refused.cause), disks);
        }
    };
    let second = match Mirror::open(alloc, second, second_copy) {
        Ok(mirror) => mirror,
        Err(refused) => {
            let area = (refused.first, refused.second);
            let disks = NodeDisks::of_areas(copies_of(first), area, identity);
            return Ending::early(alloc, status_of_cause(refused.cause), disks);
        }
    };
    let ended = serve_on(alloc, duty, first, second, &mut identity, net, clock, out);
    Ending {
        status: ended.status,
        disks: NodeDisks::of_areas(copies_of(ended.first), copies_of(ended.second), identity),
        lost: ended.lost,
    }
}

/// The copies of a mirror.
fn copies_of<D: Disk>(mirror: Mirror<D>) -> (D, D)
    ensures first { result.0 ≡ mirror.first }
    ensures second { result.1 ≡ mirror.second }
    ensures failed { 0 < mirror.faults → HaveFailed D.Disk mirror }
    ensures mixes { LeavesAllMixes D.state mirror }
{
    let _faults = mirror.faults();
    let (first, second, _) = mirror.apart();
    (first, second)
}

/// The status that tells why a mirror was not opened.
fn status_of_cause(cause: OpenCause) -> Status
    ensures { result ≡ status_of_cause cause }
{
    match cause {
        OpenCause::DiskFail => Status::DiskFault,
        OpenCause::NoMemory => Status::NoMemory,
    }
}
