//! What holds of the reads of every run of a world.
#![tactic(auto)]

ghost use Rattle.op_read_laws.specs.Fresh.{EveryReadIsFresh};
ghost use Rattle.op_read_laws.specs.Once.{EveryReadComesOnce};
ghost use Rattle.op_read_laws.specs.Told.{EveryLineIsFresh};

/// Whatever is lost, repeated, late, stopped or failed: each read that a leader answers came at that leader
/// before, and its answer is the value of its key after all lists of the configurations before its own and a
/// prefix of its configuration's list that had, when the read came, all that was decided of it at any server.
/// Nobody had a later configuration open then. A read's number is its own, so that it comes once. Each line
/// of a run that tells what a read gave is such an answer.
pub fn reads_are_fresh()
    ensures fresh { EveryReadIsFresh }
    ensures once { EveryReadComesOnce }
    ensures told { EveryLineIsFresh }
{}
