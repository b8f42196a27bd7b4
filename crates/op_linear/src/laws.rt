ghost use Rattle.op_cluster_laws.specs.Worlds.{OfClusters};
ghost use Rattle.op_linear.specs.Apart.{ClustersLetAgain};
ghost use Rattle.op_linear.specs.Calls.{ClustersAreLinearizable};
ghost use Rattle.op_linear.specs.Inhabited.{SomeClusterAnswers, SomeClusterGoesOn, SomeClusterReads};
ghost use Rattle.op_linear.specs.Linear.{IsLinear};
ghost use Rattle.op_linear.specs.Once.{EffectsComeOnce};
ghost use Rattle.op_linear.specs.Seen.{ClientsSeeResults, StaleIsPast};
ghost use Rattle.op_linear.specs.Tracks.{TracesAreRuns};

/// Each history of a cluster's clients is linearizable, over all lives of its nodes, disk faults, changes of
/// members, clients' retries and reads: there is one order of the operations in which each stands between its
/// call and its return, and a plain map gives each the answer with which it returned. Where a client forgets
/// another one, a command of this may take effect once more behind that; but not if it came in other
/// configurations, all below or all above. Whatever result a client reads may return so, to a call that a
/// node read at that connection; and only who has gone on is told `stale`.
pub fn clusters_are_linearizable()
    ensures linearizable { ClustersAreLinearizable }
    ensures again { ClustersLetAgain }
    ensures seen { OfClusters ClientsSeeResults }
    ensures stale { OfClusters StaleIsPast }
{}

/// A cluster is one run with one history, of commands and reads alike. At each moment a first part of it has
/// only commands that were asked for, and that a node took in: what was refused, or lost for want of memory,
/// each time that it was read stands in no history. It serves each reply that was given out, and has what
/// each answer to a read tells: the value of its key after a first part of it, which has the whole history of
/// each moment by which no node had read a request for that read.
pub fn clusters_are_linear()
    ensures linear { OfClusters IsLinear }
{}

/// A command takes its effect once at most, however often it stands in a history, until another client's
/// command forgets its client.
pub fn effects_come_once()
    ensures once { EffectsComeOnce }
{}

/// The trace of a cluster is a run, event by event: a step, an opening and what comes of an input is what
/// happens in the run, each message that a node gave out is sent in it, and each answer is told. So what the
/// laws of runs say holds of clusters: of what is trimmed, of messages and reads, that a ballot is led once,
/// and that an exchange decides.
pub fn traces_are_runs()
    ensures track { OfClusters TracesAreRuns }
{}

/// There is a cluster: a member alone, which a client asks for its status, and is told. In another one a
/// member alone is killed while it stores a put, is opened again, and answers a get with the value that was
/// put; then it ends, is opened again, and goes on to a configuration of other members. In a third one two
/// members exchange messages: one of them is elected, both store a put, and the leader has answered it, and
/// a read that no log holds with the value that was put.
pub fn clusters_exist()
    ensures answers { SomeClusterAnswers }
    ensures goes_on { SomeClusterGoesOn }
    ensures reads { SomeClusterReads }
{}
