ghost use Rattle.std.specs.Prelude.{◌≡◌, [], None, IfErr, IfOk, IfSome, OnOk, Some, Contains};
ghost use Rattle.std.specs.Io.KnownBytes.{Appends};
ghost use Rattle.op_outside.specs.Causes.{FailsOnlyOnFault};
ghost use Rattle.op_outside.specs.Streams.{AppendsPrefix};
ghost use Rattle.op_types.specs.Ranges.{MembersInRange};
ghost use Rattle.op_runs.specs.Possible.{kind_in};
ghost use Rattle.op_setup.specs.Settings.{IsAmong};
ghost use Rattle.op_node.specs.Nodes.{node_of};
ghost use Rattle.op_node.specs.Openings.{OpensAs, RefusesNode, disks_with, fresh_as};
ghost use Rattle.op_core.specs.Disks.{Stores};
ghost use Rattle.op_core.specs.NodeCores.{IsServable};
ghost use Rattle.op_serving.specs.Reopenings.{all_stored};
ghost use Rattle.op_serve.specs.Nodes.{EndsMarked, Goes, IsHeard, IsNodeOf, around, ready_line, status_of, status_of_refusal};
ghost use Rattle.op_serve.specs.Folders.{IsMarking};

use crate::duty::Duty;
use crate::ended::Ended;
use crate::folder::mark;
use itoa::Buffer;
use op_core::{NodeCore, opened_nodes_can_be_served};
use op_node::Node;
use op_outside::{Addr, Clock, Disk, DiskFail, Net, Sink, WriteFail, write_parts};
use op_pump::{ServeEnd, Served, serve};
use op_setup::Settings;
use op_status::Status;
use op_store::{Returned, StoreFail};
use op_types::{Pid, Sends, is_among};
use std::alloc::Global;

/// Opens the node on the disks of its two areas, tells its folder that it has begun if that is to be told,
/// listens, tells that it is ready, and serves.
pub(crate) fn serve_on<D: Disk, G: Disk, N: Net, C: Clock, K: Sink>(
    alloc: Global,
    duty: Duty<'_>,
    first: D,
    second: D,
    identity: &mut G,
    net: &mut N,
    clock: &mut C,
    out: &mut K,
) -> Ended<D>
    requires { IsNodeOf duty.id duty.settings.now }
    ensures { EndsMarked D.state (IsMarking G.state duty.entry.begins_at identity.old identity.new)
        duty.entry.id duty.entry.settings.now
        (around first second (N.told net.old, N.fault_count net.old) (C.answers clock.old)
        (K.held out.old, K.fault_count out.old))
        (around result.first result.second (N.told net.new, N.fault_count net.new) (C.answers clock.new)
        (K.held out.new, K.fault_count out.new))
        result.status result.lost.items }
{
    opened_nodes_can_be_served::<D>();
    match open_node(alloc, duty.id, duty.settings, first, second) {
        Ok((node, _)) => {
            let core = NodeCore::new(node);
            match mark(duty.begins_at, identity) {
                Ok(()) => serve_opened(alloc, duty, core, net, clock, out),
                Err(DiskFail) => handed_back(alloc, Status::DiskFault, core.node),
            }
        }
        Err(refused) => {
            let status = status_of_refusal(refused.cause);
            Ended::early(alloc, status, refused.first, refused.second)
        }
    }
}

/// Opens the node of this id, which observes where the settings name it. Gives the node, and what it sends. A
/// refusal hands back the disks with its cause.
fn open_node<D: Disk>(
    alloc: Global,
    id: Pid,
    settings: &Settings,
    first: D,
    second: D,
) -> Result<(Node<D>, Sends), Returned<D>>
    requires { MembersInRange settings.now.members }
    ensures opened { IfOk result (λ r. OpensAs (kind_in settings.now.observers id) D.state id
        settings.now.members (disks_with D.state first second) r.0 r.1) }
    ensures refused { IfErr result (RefusesNode D.state
        (fresh_as (kind_in settings.now.observers id) id settings.now.members) first second) }
{
    if is_among(settings.observers.as_slice(), id) {
        return Node::open_observer(alloc, id, &settings.members, first, second);
    }
    Node::open(alloc, id, &settings.members, first, second)
}

/// A node that is open listens, tells that it is ready, and serves. Its disks are handed back.
fn serve_opened<D: Disk, N: Net, C: Clock, K: Sink>(
    alloc: Global,
    duty: Duty<'_>,
    core: NodeCore<D>,
    net: &mut N,
    clock: &mut C,
    out: &mut K,
) -> Ended<D>
    requires settings { IsNodeOf duty.id duty.settings.now }
    requires ready { IsServable core.node }
    requires up { (node_of core.node).failed ≡ None }
    ensures { Goes D.state duty.entry.id duty.entry.settings.now (node_of core.node)
        (Stores D.state (all_stored (node_of core.node).state) core)
        (around core.node.store.first core.node.store.second (N.told net.old, N.fault_count net.old)
        (C.answers clock.old) (K.held out.old, K.fault_count out.old))
        (around result.first result.second (N.told net.new, N.fault_count net.new) (C.answers clock.new)
        (K.held out.new, K.fault_count out.new))
        result.status result.lost.items }
{
    let settings = duty.settings;
    if let Err(status) = listen(duty.id, settings, net, out) {
        return handed_back(alloc, status, core.node);
    }
    let Served { core, end } = serve(alloc, core, net, clock, settings);
    match end {
        Ok((end, lost)) => {
            let (_, first, second) = core.node.park();
            Ended {
                status: status_of(end),
                first,
                second,
                lost,
            }
        }
        Err(_) => handed_back(alloc, Status::NoMemory, core.node),
    }
}

/// A node ended before it served: its disks.
fn handed_back<D: Disk>(alloc: Global, status: Status, node: Node<D>) -> Ended<D>
    ensures status { result.status ≡ status }
    ensures first { result.first ≡ node.store.first }
    ensures second { result.second ≡ node.store.second }
    ensures lost { result.lost.items ≡ [] }
{
    let (_, first, second) = node.park();
    Ended::early(alloc, status, first, second)
}

/// Listens at the node's own address, and tells that it is ready. The status tells which of the two failed.
fn listen<N: Net, K: Sink>(
    id: Pid,
    settings: &Settings,
    net: &mut N,
    out: &mut K,
) -> Result<(), Status>
    requires { IsNodeOf id settings.now }
    ensures { IsHeard id settings.now result (N.told net.old, N.fault_count net.old)
        (N.told net.new, N.fault_count net.new) (K.held out.old, K.fault_count out.old)
        (K.held out.new, K.fault_count out.new) }
{
    let Some(addr) = own_addr(id, settings) else {
        unreachable!()
    };
    if net.listen(&addr).is_err() {
        return Err(Status::NetFault);
    }
    if tell_ready(id, out).is_err() {
        return Err(Status::WriteFault);
    }
    Ok(())
}

/// Writes the line that tells that the node listens.
fn tell_ready<K: Sink>(id: Pid, out: &mut K) -> Result<(), WriteFail>
    ensures all { OnOk result (Appends (K.held out.old) (K.held out.new) (ready_line id)) }
    ensures prefix { AppendsPrefix (K.held out.old) (K.held out.new) (ready_line id) }
    ensures cause { FailsOnlyOnFault (K.fault_count out.old) (K.fault_count out.new) result }
{
    let mut buffer = Buffer::new();
    let digits = buffer.format(id).as_bytes();
    write_parts(out, &[b"ready ", digits, b"\n"])
}

/// The address of the node of this id, if it is among the peers.
fn own_addr(id: Pid, settings: &Settings) -> Option<Addr>
    ensures there { IfSome result (λ addr. Contains settings.now.peers (id, addr)) }
    ensures absent { result ≡ None → IsAmong settings.now.peers (Some id) → ⊥ }
{
    for peer in settings.peers.as_slice() {
        if peer.0 == id {
            return Some(peer.1);
        }
    }
    None
}

/// The status that tells why a node was not opened.
fn status_of_refusal(cause: StoreFail) -> Status
    ensures { result ≡ status_of_refusal cause }
{
    match cause {
        StoreFail::DiskFault { .. } => Status::DiskFault,
        StoreFail::Damaged { area, at } => Status::Damaged { area, at },
        StoreFail::NewerVersion { area, version } => Status::NewerVersion { area, version },
        StoreFail::NoMemory => Status::NoMemory,
    }
}

/// The status by which serving ended.
fn status_of(end: ServeEnd) -> Status
    ensures { result ≡ status_of end }
{
    match end {
        ServeEnd::Ended => Status::Ended,
        ServeEnd::TurnsOver => Status::TurnsOver,
        ServeEnd::NetFault => Status::NetFault,
        ServeEnd::Starved => Status::NoMemory,
    }
}
