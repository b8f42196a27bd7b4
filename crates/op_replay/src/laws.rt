//! What a replay promises of schedules that tell of no stop and no failure in a call of a disk, and kill
//! none.
ghost use Rattle.std.specs.Prelude.{ℕ, Bool, List};
ghost use Rattle.op_runs.specs.declared.events.Event.{Event};
ghost use Rattle.op_executions.specs.PlainRuns.{ArePlain};
ghost use Rattle.op_replay.specs.Replay.{EndInOneWay};

/// Such a schedule is run, whatever is told of its events, or it is refused, at one line: in each of its runs
/// an event can come or can't as in any other.
pub fn plain_schedules_end_in_one_way()
    ensures { (members spares observers : List ℕ) (mirrored : Bool) (events : List Event) → ArePlain events
        → EndInOneWay members spares observers mirrored events }
{}
