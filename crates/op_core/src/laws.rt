ghost use Rattle.std.specs.Prelude.{◌≡◌, ℕ, Bool, List};
ghost use Rattle.op_types.specs.Ranges.{IsPid};
ghost use Rattle.op_types.specs.declared.durable.Durable.{Durable};
ghost use Rattle.op_types.specs.declared.messages.Msg.{Msg};
ghost use Rattle.op_runs.specs.World.{Kind};
ghost use Rattle.op_store.specs.declared.fail.StoreFail.{StoreFail};
ghost use Rattle.op_store.specs.Stored.{KeepBoth};
ghost use Rattle.op_store.specs.Stores.{disks_of};
ghost use Rattle.op_node.specs.Nodes.{node_of, IsRepresented, IsSoundNode};
ghost use Rattle.op_node.specs.Openings.{OpensAs, disks_with};
ghost use Rattle.op_node.specs.Reopenings.{Reopens, Restarts, RefusesAgain};
ghost use Rattle.op_node.specs.declared.node.Node.{Node};
ghost use Rattle.op_serving.specs.Faults.{Walks};
ghost use Rattle.op_serving.specs.Inputs.{Deed};
ghost use Rattle.op_serving.specs.Reopenings.{Unstored, all_stored, FindStored, unstored_behind};
ghost use Rattle.op_core.specs.Disks.{Stores, StepStores};
ghost use Rattle.op_core.specs.NodeCores.{IsServable, standing_of};
ghost use Rattle.op_core.specs.declared.node_core.NodeCore.{NodeCore};

use op_outside::Disk;

/// Every node that is opened for a server can be served.
pub fn opened_nodes_can_be_served<D: Disk>()
    ensures { (kind : Kind) (me : ℕ) (members : List ℕ) (first second : D) (n : Node D)
        (sends : List (ℕ × Msg)) → OpensAs kind D.state me members (disks_with D.state first second) n sends
        → IsPid me → IsServable n }
{}

/// A node that could be served before it failed can be so when it is opened again, and where that is refused.
pub fn reopened_nodes_can_be_served<D: Disk>()
    ensures opened { (d : Durable) (is_new : Bool) (n m : Node D) (sends : List (ℕ × Msg)) →
        Reopens D.state d is_new n m sends → IsSoundNode m → IsServable n → IsServable m }
    ensures restarted { (d : Durable) (is_new : Bool) (n m : Node D) (sends : List (ℕ × Msg)) →
        Restarts D.state d is_new n m sends → IsSoundNode m → IsServable n → IsServable m }
    ensures refused { (n m : Node D) (cause : StoreFail) →
        RefusesAgain D.state n m cause → IsSoundNode m → IsServable n → IsServable m }
{}

/// A node that is opened, and whose disks stand for what it has stored, takes that whole.
pub fn opened_nodes_store<D: Disk>()
    ensures { (kind : Kind) (me : ℕ) (members : List ℕ) (first second : D) (n : NodeCore D)
        (sends : List (ℕ × Msg))
        → OpensAs kind D.state me members (disks_with D.state first second) n.node sends
        → IsRepresented D.state n.node → Stores D.state (all_stored (node_of n.node).state) n }
{}

/// Over each run of a node that is served its disks are themselves. Where they stood for what it had stored,
/// each opening of it found what was stored before or behind the inputs for which they had failed, and at the
/// end they stand for what the node has stored or, where it has failed, for what it had stored before these
/// or was to store behind them.
pub fn runs_find_what_is_stored<D: Disk>()
    ensures kept { (old new : NodeCore D) (ds : List Deed) → Walks (StepStores D.state) old ds new →
        KeepBoth (disks_of D.state old.node.store) (disks_of D.state new.node.store) }
    ensures found { (old new : NodeCore D) (ds : List Deed) (u : Unstored) →
        Walks (StepStores D.state) old ds new → Stores D.state u old →
        FindStored (standing_of D.state old) u ds }
    ensures stored { (old new : NodeCore D) (ds : List Deed) (u : Unstored) →
        Walks (StepStores D.state) old ds new → Stores D.state u old →
        Stores D.state (unstored_behind (standing_of D.state old) u ds) new }
{}
