ghost use Rattle.op_watch_laws.specs.Laws.{EveryObserverStands, EveryShownIsTrue, NoObserverFalls, EveryObserverIsApart, NoBallotOfOthers};
ghost use Rattle.op_watch_laws.specs.Learning.{EveryObserverLearns};

/// Over every list of happenings in range, in which observers may begin at any time, each observer stands:
/// what it stores is a decided prefix of one configuration's list, after the service's state of all before
/// it, and its service is that of all of it. It has promised and accepted nothing. Each message to an
/// observer that was ever sent is true of the lists. And whatever happens, no observer goes back, over stops,
/// faults and openings too. Each has an id that no node has, and of such an id no node has promised a ballot.
/// Where the list machine says, too, what observers have decided, each happening is still finitely many
/// steps of it.
pub fn observers_stand()
    ensures stands { EveryObserverStands }
    ensures shown { EveryShownIsTrue }
    ensures falls { NoObserverFalls }
    ensures apart { EveryObserverIsApart }
    ensures unowned { NoBallotOfOthers }
    ensures learns { EveryObserverLearns }
{}
