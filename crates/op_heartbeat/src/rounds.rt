ghost use Rattle.std.specs.Prelude.{◌≡◌, ◌+◌, true, ◌∷◌, length, IfOk, vec_capacity};
ghost use Rattle.op_types.specs.declared.messages.Body.TheVariants.{HeartbeatReply};
ghost use Rattle.op_quorum.specs.Quorums.{is_majority, AreVoters, IsQuorum};
ghost use Rattle.op_protocol.specs.Heartbeats.{next_round, is_other, without};
ghost use Rattle.op_types.specs.Ranges.{IsMember};
ghost use Rattle.op_heartbeat.specs.HeardReplies.{senders, heard_replies_of, round_begun, reply_taken};

use op_types::{Ballot, Body, GREATEST_NUMBER, Heard, Members, NoMemory, Pid};
use std::alloc::Global;
use std::marker::Model;

/// The round after this one: after the greatest number comes 1.
pub fn round_after(round: u64) -> u64
    ensures { result ≡ next_round round }
{
    if round < GREATEST_NUMBER {
        round + 1
    } else {
        1
    }
}

/// The heartbeat rounds of a member: the current one, and who replied in it. It and those that replied are
/// voters, each once.
#[derive(Drop)]
pub struct Rounds {
    me: Pid,
    members: Vec<Pid>,
    round: u64,
    /// The last reply of each other member; there is room for all of them.
    heard: Vec<Heard>,
}

impl Model for Rounds {
    ghost use Rattle.std.specs.Prelude.{◌≤◌, ◌∷◌, length, vec_capacity};
    ghost use Rattle.op_quorum.specs.Quorums.{AreVoters};
    ghost use Rattle.op_heartbeat.specs.HeardReplies.{HeardReplies, senders};

    ghost Value = { HeardReplies };

    ghost view = { λ r. record { me = r.me; members = r.members.items; round = r.round; heard = r.heard.items } };

    ghost invariant = { λ r. AreVoters r.members.items (r.me ∷ senders r.heard.items) × (length r.members.items ≤ vec_capacity r.heard) };
}

impl Rounds {
    /// Before the first round, at one of these members. Nothing after it takes memory.
    pub fn new(alloc: Global, me: Pid, members: &Members) -> Result<Rounds, NoMemory>
        requires { IsMember members.now me }
        ensures { IfOk result (λ r. r ≡ heard_replies_of me members.now) }
    {
        let members = Vec::from_slice(alloc, members.as_slice())?;
        let heard = Vec::with_capacity(alloc, members.len())?;
        Ok(Rounds {
            me,
            members,
            round: 0,
            heard,
        })
    }

    /// Begins the next round, in which nobody has replied yet, and gives its number.
    pub fn begin_round(&mut self) -> u64
        ensures begun { self.new ≡ round_begun self.old }
        ensures round { result ≡ next_round self.old.round }
    {
        self.round = round_after(self.round);
        self.heard.clear();
        self.round
    }

    /// The reply to a request for this round, of a server that stands for its own ballot. The flag says
    /// whether it heard a majority in its last round.
    pub fn answer(round: u64, own: Ballot, flag: bool) -> Body
        ensures { result ≡ HeartbeatReply round own flag }
    {
        Body::HeartbeatReply(round, own, flag)
    }

    /// Keeps another member's reply, if it is for the current round. It takes the place of an earlier one of
    /// this member.
    pub fn take_reply(&mut self, from: Pid, round: u64, ballot: Ballot, flag: bool)
        ensures { self.new ≡ reply_taken self.old round
            (record { from = from; ballot = ballot; flag = flag }) }
    {
        if round != self.round || !self.is_other(from) {
            return;
        }
        remove_reply(&mut self.heard, from);
        self.heard.push_reserved(Heard { from, ballot, flag });
    }

    /// The replies of the current round, one of each other member that replied.
    pub fn end_round(&self) -> &[Heard]
        ensures heard { result.now ≡ self.now.heard }
        ensures voters { AreVoters self.now.members (self.now.me ∷ senders result.now) }
        ensures quorum { is_majority (1 + length result.now) (length self.now.members) ≡ true
            → IsQuorum self.now.members (self.now.me ∷ senders result.now) }
    {
        self.heard.as_slice()
    }

    /// Whether a server is another member.
    pub fn is_other(&self, pid: Pid) -> bool
        ensures { result ≡ is_other self.now.me self.now.members pid }
    {
        pid != self.me && self.members.contains(&pid)
    }

    /// The current round's number, 0 before the first one.
    pub fn round(&self) -> u64
        ensures { result ≡ self.now.round }
    {
        self.round
    }
}

/// Removes a member's reply, if there is one.
fn remove_reply(heard: &mut Vec<Heard>, from: Pid)
    ensures items { heard.new.items ≡ without heard.old.items from }
    ensures capacity { vec_capacity heard.new ≡ vec_capacity heard.old }
{
    heard.retain(|reply| reply.from != from);
}
