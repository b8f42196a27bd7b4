ghost use Rattle.op_paxos.specs.InParts.{PromiseInParts, SyncInParts, WholesFit};

/// In every run, parts of one message that were sent and come one after the other do what the whole message
/// does: those of a promise leave its receiver what that promise would, but for what is staged, and those of
/// an AcceptSync leave theirs the same round and at least the same log. A promise or an AcceptSync that was
/// sent whole had no need of parts.
pub fn parts_do_as_the_whole()
    ensures promise { PromiseInParts }
    ensures sync { SyncInParts }
    ensures whole { WholesFit }
{}
