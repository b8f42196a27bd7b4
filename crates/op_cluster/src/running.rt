ghost use Rattle.std.specs.Prelude.{[], OnOk, OnErr, IsErrOf};
ghost use Rattle.op_outside.specs.Causes.{FailsOnlyOnFault, RisesWith};
ghost use Rattle.op_outside.specs.Telling.{Grows};
ghost use Rattle.op_cluster.specs.Clusters.{
  AllEnd,
  EndFails,
  StartFails,
  StartOrEndFails,
  WriteFails,
  starts_of,
  tells,
};
ghost use Rattle.op_cluster.specs.declared.cluster_fail.ClusterFail.TheVariants.{ChildFault, WriteFault};

use crate::child_line::write_line;
use crate::cluster_fail::ClusterFail;
use op_outside::{ChildFail, Sink, Spawner};
use op_types::Pid;

/// Starts a child under each id, by rising id, with this standard input. Then it waits for each, by rising
/// id, and writes the line `child ID status S` as soon as that child has ended. It stops at the first
/// failure, and takes no memory.
pub fn cluster<K: Sink, P: Spawner>(
    ids: &[Pid],
    input: &[u8],
    out: &mut K,
    children: &mut P,
) -> Result<(), ClusterFail>
    // All were started, all have ended, and their lines are written.
    ensures ended { OnOk result (AllEnd (starts_of input.now ids.now) ids.now
        (tells (P.told children.old) (K.held out.old)) (tells (P.told children.new) (K.held out.new))) }

    // A start failed, and nothing is written, or an end, and the lines of those that had ended are.
    ensures child_fault { IsErrOf result ChildFault → StartOrEndFails input.now ids.now
        (tells (P.told children.old) (K.held out.old)) (tells (P.told children.new) (K.held out.new)) }

    // The line of the last child that had ended was cut.
    ensures write_fault { IsErrOf result WriteFault → WriteFails (starts_of input.now ids.now) ids.now
        (tells (P.told children.old) (K.held out.old)) (tells (P.told children.new) (K.held out.new)) }

    // A fault is answered where that object has failed in this call, and nowhere else.
    ensures child_cause { RisesWith (IsErrOf result ChildFault)
        (P.fault_count children.old) (P.fault_count children.new) }
    ensures write_cause { RisesWith (IsErrOf result WriteFault)
        (K.fault_count out.old) (K.fault_count out.new) }
{
    start_all(ids, input, children)?;
    end_all(ids, out, children)
}

/// Starts a child under each id with this standard input, up to the first failure.
fn start_all<P: Spawner>(ids: &[Pid], input: &[u8], children: &mut P) -> Result<(), ChildFail>
    ensures all { OnOk result
        (Grows (P.told children.old) (starts_of input.now ids.now) (P.told children.new)) }
    ensures failed { OnErr result
        (StartFails input.now ids.now (P.told children.old) (P.told children.new)) }
    ensures cause { FailsOnlyOnFault (P.fault_count children.old) (P.fault_count children.new) result }
{
    for id in ids {
        children.start(*id, input)?;
    }
    Ok(())
}

/// Waits for the child of each id, and writes its line, up to the first failure.
fn end_all<K: Sink, P: Spawner>(
    ids: &[Pid],
    out: &mut K,
    children: &mut P,
) -> Result<(), ClusterFail>
    ensures ended { OnOk result (AllEnd [] ids.now
        (tells (P.told children.old) (K.held out.old)) (tells (P.told children.new) (K.held out.new))) }
    ensures child_fault { IsErrOf result ChildFault → EndFails [] ids.now
        (tells (P.told children.old) (K.held out.old)) (tells (P.told children.new) (K.held out.new)) }
    ensures write_fault { IsErrOf result WriteFault → WriteFails [] ids.now
        (tells (P.told children.old) (K.held out.old)) (tells (P.told children.new) (K.held out.new)) }
    ensures child_cause { RisesWith (IsErrOf result ChildFault)
        (P.fault_count children.old) (P.fault_count children.new) }
    ensures write_cause { RisesWith (IsErrOf result WriteFault)
        (K.fault_count out.old) (K.fault_count out.new) }
{
    for id in ids {
        let status = children.end(*id)?;
        write_line(out, *id, status)?;
    }
    Ok(())
}
