//! The command `cluster`.
ghost use Rattle.std.specs.Prelude.{◌≡◌, IfOk};
ghost use Rattle.std.specs.Map.{keys_of};
ghost use Rattle.op_top.specs.Clusters.{RunsCluster};

use op_cluster::{ClusterFail, cluster};
use op_input::read_settings;
use op_outside::{Sink, Source, Spawner};
use op_setup::Peers;
use op_status::Status;
use op_types::{NoMemory, Pid};
use std::alloc::Global;

/// Starts the node of each peer that the settings name, waits for each, and writes its line.
pub(crate) fn run_cluster<S: Source, K: Sink, P: Spawner>(
    alloc: Global,
    input: &mut S,
    out: &mut K,
    children: &mut P,
) -> Status
    ensures { RunsCluster
        (S.left input.old, S.fault_count input.old) (S.left input.new, S.fault_count input.new)
        (K.held out.old, K.fault_count out.old) (K.held out.new, K.fault_count out.new)
        (P.told children.old, P.fault_count children.old) (P.told children.new, P.fault_count children.new)
        result }
{
    let found = match read_settings(alloc, input, None) {
        Ok(found) => found,
        Err(status) => return status,
    };
    let Ok(ids) = ids_of(alloc, &found.settings.peers) else {
        return Status::NoMemory;
    };
    match cluster(&ids, &found.text, out, children) {
        Ok(()) => Status::Ended,
        Err(ClusterFail::ChildFault) => Status::ChildFault,
        Err(ClusterFail::WriteFault) => Status::WriteFault,
    }
}

/// The ids of peers.
fn ids_of(alloc: Global, peers: &Peers) -> Result<Vec<Pid>, NoMemory>
    ensures { IfOk result (λ ids. ids.items ≡ keys_of peers.now) }
{
    let mut ids = Vec::new(alloc);
    for peer in peers.as_slice() {
        ids.push(peer.0)?;
    }
    Ok(ids)
}
