ghost use Rattle.op_executions.specs.PlainRuns.{PlainEventsCanBeDone, PlainRefusalsAreOne, PlainRunsAreDone, PlainRunsAreNotRefused};

/// A schedule that tells of no stop and no failure in a call of a disk, and kills none, has one run, in which
/// each event is done, or is refused at one event: whatever its events become comes to the same, whichever
/// state an opening is said to find, since each node that is down stopped between two steps; so it does
/// whether the disks are mirrored or not.
pub fn plain_runs_are_done()
    ensures done { PlainRunsAreDone }
    ensures runs { PlainEventsCanBeDone }
    ensures whole { PlainRunsAreNotRefused }
    ensures refusal { PlainRefusalsAreOne }
{}
