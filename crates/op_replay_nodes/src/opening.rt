//! The opening of a node of either kind.
ghost use Rattle.std.specs.Prelude.{IfErr, IfOk};
ghost use Rattle.op_types.specs.Ranges.{MembersInRange};
ghost use Rattle.op_runs.specs.Possible.{kind_if};
ghost use Rattle.op_store.specs.Stored.{Disks};
ghost use Rattle.op_node.specs.Openings.{OpensAs, RefusesNode, fresh_as};

use op_areas::Area;
use op_node::Node;
use op_store::Returned;
use op_types::{Members, Pid, Sends};
use std::alloc::Global;

/// Opens the node of a server, which observes or not, on its areas. Gives the node, and what it sends. A
/// refusal hands back the areas with its cause.
pub fn open_node<A: Area>(
    alloc: Global,
    pid: Pid,
    members: &Members,
    observes: bool,
    first: A,
    second: A,
) -> Result<(Node<A>, Sends), Returned<A>>
    requires { MembersInRange members.now }
    ensures opened { let old : Disks = record { first = A.state first; second = A.state second } in
        IfOk result (λ r. OpensAs (kind_if observes) A.state pid members.now old r.0 r.1) }
    ensures refused { IfErr result
        (RefusesNode A.state (fresh_as (kind_if observes) pid members.now) first second) }
{
    if observes {
        return Node::open_observer(alloc, pid, members, first, second);
    }
    Node::open(alloc, pid, members, first, second)
}
