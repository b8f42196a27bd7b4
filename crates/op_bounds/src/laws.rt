ghost use Rattle.std.specs.Prelude.{ℕ, Bool};
ghost use Rattle.op_bounds.specs.Messages.{Passes};
ghost use Rattle.op_bounds.specs.Laws.{StepsStayInRange, ObserverStepsStayInRange, OpeningsStayInRange, ObserverOpeningsStayInRange};
ghost use Rattle.op_bounds.specs.Laws.{StartsAreInRange, HappeningsStayInRange, RunsStayInRange, RunsOfNodesStayInRange, AllRunsStayInRange};
ghost use Rattle.op_bounds.specs.Laws.{StepsFitFrames, ObserverStepsFitFrames, OpeningsFitFrames, RunsFitFrames};
ghost use Rattle.op_bounds.specs.Owners.{ObserversOwnNoBallot};

/// Whichever servers' ids may be named, as those of the members or all: a step of a node in range, from an
/// input in range, stores a batch that applies and is in range, sends messages in range to such ids alone,
/// answers in range, and leaves the node in range. So does a step of an observer.
pub fn steps_stay_in_range()
    ensures stay { (known : ℕ → Bool) → StepsStayInRange (Passes known) }
    ensures observers { (known : ℕ → Bool) → ObserverStepsStayInRange (Passes known) }
{}

/// Whichever servers' ids may be named: a node that is opened, and finds a durable state in range, is in
/// range, and so is what it sends. So is an observer.
pub fn openings_stay_in_range()
    ensures stay { (known : ℕ → Bool) → OpeningsStayInRange (Passes known) }
    ensures observers { (known : ℕ → Bool) → ObserverOpeningsStayInRange (Passes known) }
{}

/// Whichever servers' ids may be named: members and spares start in range, each happening in range whose
/// stop-sign names such ids, and which starts no server but of such an id, keeps them so, and so does each
/// run: every node and every observer is in range, with what one that is down or has failed may find when it
/// is opened, each node is a member of the configuration whose part it has and of the one that it joins, and
/// so is every message that was ever sent in range. So it is where stop-signs name nodes of the world, and no
/// observer begins, from members and spares in range on, and then each message goes from a node to a node;
/// and so is every run, whomever its stop-signs name and whatever observers begin.
pub fn runs_stay_in_range()
    ensures start { (known : ℕ → Bool) → StartsAreInRange (Passes known) }
    ensures happening { (known : ℕ → Bool) → HappeningsStayInRange (Passes known) }
    ensures run { (known : ℕ → Bool) → RunsStayInRange (Passes known) }
    ensures nodes { RunsOfNodesStayInRange }
    ensures all { AllRunsStayInRange }
{}

/// Whichever servers' ids may be named: the body of the frame that brings a message is no longer than the
/// body of a frame between servers may be, for each message that a node in range sends in a step from an
/// input in range, or when it is opened, or that an observer sends. So it is for each message that is ever
/// sent in a run.
pub fn messages_fit_frames()
    ensures step { (known : ℕ → Bool) → StepsFitFrames (Passes known) }
    ensures observers { (known : ℕ → Bool) → ObserverStepsFitFrames (Passes known) }
    ensures opening { (known : ℕ → Bool) → OpeningsFitFrames (Passes known) }
    ensures run { RunsFitFrames }
{}

/// Where stop-signs name nodes alone: after every run of a world, whichever observers begin in it, no node
/// has promised or accepted a ballot of an observer's id, and no message that was ever sent tells of one.
pub fn observers_own_no_ballot()
    ensures owns { ObserversOwnNoBallot }
{}
