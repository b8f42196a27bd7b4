ghost use Rattle.std.specs.Prelude.{◌≡◌, map, string_bytes};
ghost use Rattle.op_outside.specs.Seen.{Tells};
ghost use Rattle.op_status.specs.Statuses.{status_line};
ghost use Rattle.op_top.specs.Tasks.{Does, outside};

use crate::clusters::run_cluster;
use op_call::call_node;
use op_drill::{drill, drill_links};
use op_outside::{Clock, Disk, Net, Sink, Source, Spawner};
use op_replay::replay;
use op_serve::{Ending, NodeDisks, Seat, serve_as};
use op_setup::{Task, TaskFail, task};
use op_status::Status;
use std::alloc::Global;

/// Does what the words ask, and answers how it ended. The status's line is told to `err` with no memory
/// taken; a write to it that fails changes no status. The disks are a node's, and are handed back; the child
/// programs are a cluster's.
pub fn omni<D: Disk, N: Net, C: Clock, S: Source, K: Sink, P: Spawner>(
    alloc: Global,
    words: &[String],
    disks: NodeDisks<D>,
    net: &mut N,
    clock: &mut C,
    input: &mut S,
    out: &mut K,
    err: &mut K,
    children: &mut P,
) -> Ending<D>
    ensures does { Does D.Disk (map string_bytes words.now)
        (outside disks (N.told net.old, N.fault_count net.old) (C.answers clock.old)
        (S.left input.old, S.fault_count input.old) (K.held out.old, K.fault_count out.old)
        (P.told children.old, P.fault_count children.old))
        (outside result.disks (N.told net.new, N.fault_count net.new) (C.answers clock.new)
        (S.left input.new, S.fault_count input.new) (K.held out.new, K.fault_count out.new)
        (P.told children.new, P.fault_count children.new))
        result.status result.lost.items }
    ensures told { Tells (K.held err.old, K.fault_count err.old) (K.held err.new, K.fault_count err.new)
        (status_line result.status) }
{
    let ending = done(alloc, words, disks, net, clock, input, out, children);
    ending.status.tell(err);
    ending
}

/// Does what the words ask.
fn done<D: Disk, N: Net, C: Clock, S: Source, K: Sink, P: Spawner>(
    alloc: Global,
    words: &[String],
    disks: NodeDisks<D>,
    net: &mut N,
    clock: &mut C,
    input: &mut S,
    out: &mut K,
    children: &mut P,
) -> Ending<D>
    ensures { Does D.Disk (map string_bytes words.now)
        (outside disks (N.told net.old, N.fault_count net.old) (C.answers clock.old)
        (S.left input.old, S.fault_count input.old) (K.held out.old, K.fault_count out.old)
        (P.told children.old, P.fault_count children.old))
        (outside result.disks (N.told net.new, N.fault_count net.new) (C.answers clock.new)
        (S.left input.new, S.fault_count input.new) (K.held out.new, K.fault_count out.new)
        (P.told children.new, P.fault_count children.new))
        result.status result.lost.items }
{
    match task(alloc, words) {
        Ok(Task::Replay) => Ending::early(alloc, replay(alloc, input, out), disks),
        Ok(Task::Node(id)) => {
            let seat = Seat { id, disks };
            serve_as(alloc, seat, net, clock, input, out)
        }
        Ok(Task::Call(addr, request)) => {
            let status = call_node(alloc, &addr, &request, net, out);
            Ending::early(alloc, status, disks)
        }
        Ok(Task::Cluster) => {
            let status = run_cluster(alloc, input, out, children);
            Ending::early(alloc, status, disks)
        }
        Ok(Task::Drill(seed, events)) => {
            let status = drill(alloc, seed, events, out);
            Ending::early(alloc, status, disks)
        }
        Ok(Task::DrillLinks(scenario, rounds)) => {
            let status = drill_links(alloc, scenario, rounds, out);
            Ending::early(alloc, status, disks)
        }
        Err(TaskFail::Usage) => Ending::early(alloc, Status::Usage, disks),
        Err(TaskFail::NoMemory) => Ending::early(alloc, Status::NoMemory, disks),
    }
}
