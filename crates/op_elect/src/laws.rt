ghost use Rattle.std.specs.Prelude.{◌≡◌, List};
ghost use Rattle.op_types.specs.declared.ballot.Ballot.{Ballot};
ghost use Rattle.op_types.specs.declared.messages.Heard.{Heard};
ghost use Rattle.op_types.specs.declared.verdict.Verdict.{Verdict};
ghost use Rattle.op_protocol.specs.Election.{Candidate, Elected, round_end};
ghost use Rattle.op_elect.specs.Elections.{Call, Elections, RiseAbove};

/// Over any list of rounds that end and of floors that are raised, the ballots that a server elects strictly
/// rise.
pub fn elected_ballots_rise()
    ensures { (c d : Candidate) (calls : List Call) (ballots : List Ballot) →
        Elections c calls ballots d → RiseAbove c.leader ballots }
{}

/// A round ends in one way: the cases are those of a function.
pub fn rounds_end_in_one_way()
    ensures some { (c : Candidate) (heard : List Heard) →
        Elected c heard (round_end c heard).verdict (round_end c heard).after }
    ensures one { (c d : Candidate) (heard : List Heard) (v : Verdict) → Elected c heard v d →
        (v ≡ (round_end c heard).verdict) × (d ≡ (round_end c heard).after) }
{}
