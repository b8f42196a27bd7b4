ghost use Rattle.std.specs.Prelude.{◌≡◌, ◌+◌, nat_lt, Some, None, if◌then◌else◌};
ghost use Rattle.op_types.specs.Limits.{greatest_number};
ghost use Rattle.op_protocol.specs.Election.{candidate, greatest, with_floor, Elected};
ghost use Rattle.op_elect.specs.States.{state_of, with_state};

use op_quorum::is_majority;
use op_types::{Ballot, ElectionState, GREATEST_NUMBER, Heard, Pid, Verdict};
use std::marker::Model;

/// A server that takes part in elections: the ballot that it stands for, the leader's as far as it knows,
/// where elections begin, and whether it heard a majority in its last round.
#[derive(Clone, Copy)]
pub struct Election {
    me: Pid,
    members: usize,
    own: Ballot,
    leader: Ballot,
    floor: Ballot,
    flag: bool,
}

impl Model for Election {
    ghost use Rattle.op_protocol.specs.Election.{Candidate};

    ghost Value = { Candidate };

    ghost view = { λ e. record { me = e.me; members = e.members; own = e.own; leader = e.leader; floor = e.floor; flag = e.flag } };

    ghost inverse = { λ c. record { me = c.me; members = c.members; own = c.own; leader = c.leader; floor = c.floor; flag = c.flag } };
}

impl Election {
    /// A server before its first round, of so many members with itself.
    pub fn new(me: Pid, members: usize, own: Ballot, leader: Ballot) -> Election
        ensures { result ≡ candidate me members own leader }
    {
        Election {
            me,
            members,
            own,
            leader,
            floor: Ballot::NONE,
            flag: false,
        }
    }

    /// Ends a round with the replies that came in it, one of each other member that replied: itself and these
    /// are counted.
    pub fn end(&mut self, replies: &[Heard]) -> Verdict
        ensures { Elected self.old replies.now result self.new }
    {
        self.flag = is_majority(1 + replies.len(), self.members);
        if !self.flag {
            return Verdict::Nobody;
        }
        let winner = greatest(self.own, replies);
        let least = self.leader.greater(self.floor);
        if winner.is_below(least) {
            let Some(raised) = ballot_above(least, self.me) else {
                return Verdict::Nobody;
            };
            self.own = raised;
            return Verdict::Raised(raised);
        }
        if !self.leader.is_below(winner) {
            return Verdict::Nobody;
        }
        self.leader = winner;
        Verdict::Elected(winner)
    }

    /// Lets elections begin at this ballot, unless they begin above it already.
    pub fn raise_floor(&mut self, ballot: Ballot)
        ensures { self.new ≡ with_floor self.old ballot }
    {
        self.floor = self.floor.greater(ballot);
    }

    /// What it keeps for elections.
    pub fn state(&self) -> ElectionState
        ensures { result ≡ state_of self.now }
    {
        ElectionState {
            own: self.own,
            leader: self.leader,
            floor: self.floor,
            flag: self.flag,
        }
    }

    /// Keeps this for elections from now on.
    pub fn set_state(&mut self, state: ElectionState)
        ensures { self.new ≡ with_state self.old state }
    {
        self.own = state.own;
        self.leader = state.leader;
        self.floor = state.floor;
        self.flag = state.flag;
    }

    /// The ballot that the server stands for.
    pub fn own(&self) -> Ballot
        ensures { result ≡ self.now.own }
    {
        self.own
    }

    /// The leader's ballot, as far as the server knows.
    pub fn leader(&self) -> Ballot
        ensures { result ≡ self.now.leader }
    {
        self.leader
    }

    /// The ballot at which elections begin.
    pub fn floor(&self) -> Ballot
        ensures { result ≡ self.now.floor }
    {
        self.floor
    }

    /// Whether a majority was heard in the last round.
    pub fn flag(&self) -> bool
        ensures { result ≡ self.now.flag }
    {
        self.flag
    }
}

/// The greatest of this ballot and of those of servers that heard a majority.
pub fn greatest(own: Ballot, replies: &[Heard]) -> Ballot
    ensures { result ≡ greatest own replies.now }
{
    let mut ballot = own;
    for reply in replies {
        if reply.flag {
            ballot = ballot.greater(reply.ballot);
        }
    }
    ballot
}

/// The ballot of this server that is next above another one, unless numbers end there.
fn ballot_above(least: Ballot, me: Pid) -> Option<Ballot>
    ensures { result ≡ (if nat_lt least.number greatest_number
        then Some (record { number = least.number + 1; pid = me }) else None) }
{
    if least.number < GREATEST_NUMBER {
        Some(Ballot {
            number: least.number + 1,
            pid: me,
        })
    } else {
        None
    }
}
