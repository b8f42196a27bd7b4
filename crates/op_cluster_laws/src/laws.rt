ghost use Rattle.op_cluster_laws.specs.Currency.{ReadsAreCurrent};
ghost use Rattle.op_cluster_laws.specs.Lives.{DeedsAreCaused, RunsServe};
ghost use Rattle.op_cluster_laws.specs.Orders.{AnswersComeFirst, ClientsReadReplies, ClientsTakeReplies};
ghost use Rattle.op_cluster_laws.specs.Worlds.{OfClusters, ClustersAreRuns, DeliveriesWereGiven, NodesAgree};

/// Each deed of a node that serves by the loop's rules comes from those before it: a message that it takes
/// was read whole from a peer's connection, a request from a client's; a frame that it says is that of a
/// message that it gave out, and that is no longer than a peer reads, or of what a client is told, at a
/// client's connection, and a command or a read that is answered there was asked for there; what a connection
/// took is the first part of its greeting and of the frames for it; and a node takes what its disks store
/// only where it had failed. Of such a node are the deeds of each run that `serve` promises.
pub fn deeds_have_causes()
    ensures causes { DeedsAreCaused }
    ensures serving { RunsServe }
{}

/// Nodes that serve together, over all their lives, and over a net that carries what was taken, are a run of
/// the world: each message that a node takes was given out before, by the node that it names and to this
/// node; at each moment the nodes stand together in the world of the happenings so far, each with just what
/// it has stored, and each reply is served by its history; the happenings are in range, and their run meets
/// the list machine. Inputs that are stored together are steps one after the other; where a node fails or
/// ends while they are stored, its next opening tells whether all of them came, or none. So there is one list
/// for each configuration: at each moment each node's decided log is a prefix of it, and its service is that
/// of what it has decided.
pub fn clusters_are_executions()
    ensures given { OfClusters DeliveriesWereGiven }
    ensures runs { ClustersAreRuns }
    ensures agree { OfClusters NodesAgree }
{}

/// What clients of a cluster are answered is of one order: what a client's connection took is the first part
/// of frames of which each answer is one that the node had given out, to a command or a read that was asked
/// for at that connection, and what is read whole of it is one of them; each answer to a command is the
/// service's to a command of the run's history, after all that stands before it; and that command stands
/// before each other one for which no node had read a request by then.
pub fn answers_are_of_one_order()
    ensures taken { OfClusters ClientsTakeReplies }
    ensures read { OfClusters ClientsReadReplies }
    ensures order { OfClusters AnswersComeFirst }
{}

/// A read that a node of a cluster answers sees all that was answered before it was asked for: its answer is
/// the value of its key, or that there is none, in the service after a first part of the run's history. That
/// has the whole history of each moment by which no node had read a request for the read, and so serves each
/// reply that any node had given out by then.
pub fn reads_are_current()
    ensures current { OfClusters ReadsAreCurrent }
{}
