//! What an input does to the reads that wait.
ghost use Rattle.std.specs.Prelude.{◌≡◌, [], nat_eq, Option, Some, None, MatchOption, IfOk, OnSome, IfSome};
ghost use Rattle.std.specs.Set.{is_member};
ghost use Rattle.op_types.specs.Ranges.{IsMember};
ghost use Rattle.op_protocol.specs.Parts.{others};
ghost use Rattle.op_reads.specs.Reads.{Reads};
ghost use Rattle.op_protocol.specs.Reading.{leading_at, reads_at, asks_if_numbered, read_asked, read_confirmed, asking_by};
ghost use Rattle.op_server.specs.Asking.{Leads, confirmed_by, is_read};
ghost use Rattle.op_server.specs.Plans.{asking_of};
ghost use Rattle.op_server.specs.Servers.{state_of, IsSoundServer};

use crate::server::Server;
use op_chain::Lead;
use op_plans::Member;
use op_reads::{AskFail, Reads};
use op_types::{
    Ballot, Body, Input, Msg, NoMemory, Outcome, Part, Pid, Read, Refusal, Sends, is_among,
};

/// What an input does to the reads that wait, what is asked for it, and what a read is answered at once.
#[derive(Drop)]
pub(crate) struct Asking {
    pub(crate) reads: Option<Reads>,
    pub(crate) sends: Sends,
    pub(crate) outcome: Option<Outcome>,
}

impl Server {
    /// What an input does to the reads that wait, of which nothing changes yet.
    pub(crate) fn asking(&self, input: &Input) -> Result<Asking, NoMemory>
        requires { IsSoundServer self.now }
        ensures { IfOk result (λ a.
            asking_of a ≡ asking_by self.now.chain.me (state_of self.now) input.now) }
    {
        match input {
            Input::Read(read) => self.ask(read),
            Input::Deliver(from, message) => Ok(self.unasked(self.confirmed(*from, message)?)),
            _ => Ok(self.unasked(self.copy_reads()?)),
        }
    }

    /// Nothing is asked.
    fn unasked(&self, reads: Option<Reads>) -> Asking
        ensures { asking_of result ≡ record { reads = reads; sends = []; outcome = None } }
    {
        Asking {
            reads,
            sends: Sends::new(self.alloc),
            outcome: None,
        }
    }

    /// A read is answered so at once, and asks nothing.
    fn refused(&self, outcome: Outcome) -> Result<Asking, NoMemory>
        ensures { IfOk result (λ a. asking_of a
            ≡ record { reads = self.now.reads; sends = []; outcome = Some outcome }) }
    {
        let mut asking = self.unasked(self.copy_reads()?);
        asking.outcome = Some(outcome);
        Ok(asking)
    }

    /// The reads that wait.
    fn copy_reads(&self) -> Result<Option<Reads>, NoMemory>
        ensures { IfOk result (λ reads. reads ≡ self.now.reads) }
    {
        match &self.reads {
            Some(reads) => Ok(Some(reads.copy(self.alloc)?)),
            None => Ok(None),
        }
    }

    /// The part and the ballot that the node leads. One that joins another configuration answers no reads.
    fn leading(&self) -> Option<(&Part, Lead)>
        ensures { MatchOption result (leading_at (state_of self.now) ≡ None)
            (λ x. Leads x.0.now x.1 (leading_at (state_of self.now))) }
    {
        let durable = self.chain.durable();
        if durable.joining.is_some() {
            return None;
        }
        let part = durable.part.as_ref()?;
        let lead = self.chain.lead()?;
        Some((part, lead))
    }

    /// A read comes, which only a leader takes.
    fn ask(&self, read: &Read) -> Result<Asking, NoMemory>
        ensures { IfOk result (λ a. asking_of a ≡ read_asked self.now.chain.me
            (leading_at (state_of self.now)) self.now.reads read.now) }
    {
        match self.leading() {
            Some((part, lead)) => self.ask_members(part, lead.ballot, read),
            None => self.refused(Outcome::NotLeading),
        }
    }

    /// A read gets the next number, unless numbers end, and each other member is asked to confirm the ballot
    /// for it.
    fn ask_members(&self, part: &Part, ballot: Ballot, read: &Read) -> Result<Asking, NoMemory>
        ensures { IfOk result (λ a. asking_of a
            ≡ asks_if_numbered self.now.chain.me part.now ballot
            (reads_at self.now.chain.me part.now self.now.reads) read.now self.now.reads) }
    {
        let mut reads = self.reads_of(part)?;
        match reads.ask(self.alloc, read.copy()?) {
            Ok(number) => Ok(Asking {
                reads: Some(reads),
                sends: self.member(part).to_others(&Body::Confirm(ballot, number))?,
                outcome: Some(Outcome::Asked),
            }),
            Err(AskFail::PositionsEnd) => self.refused(Outcome::Refused(Refusal::PositionsEnd)),
            Err(AskFail::NoMemory) => Err(NoMemory),
        }
    }

    /// The reads that wait at the leader of this part, none at first.
    fn reads_of(&self, part: &Part) -> Result<Reads, NoMemory>
        ensures { IfOk result (λ reads.
            reads ≡ reads_at self.now.chain.me part.now self.now.reads) }
    {
        match &self.reads {
            Some(reads) => reads.copy(self.alloc),
            None => Ok(Reads::new(self.alloc, self.chain.me(), &part.members)),
        }
    }

    /// The node at this part.
    fn member<'a>(&self, part: &'a Part) -> Member<'a>
        ensures me { result.me ≡ self.now.chain.me }
        ensures part { result.part.now ≡ part.now }
    {
        Member {
            alloc: self.alloc,
            me: self.chain.me(),
            part,
        }
    }

    /// The reads that wait, after a message came.
    fn confirmed(&self, from: Pid, message: &Msg) -> Result<Option<Reads>, NoMemory>
        requires { IsSoundServer self.now }
        ensures { IfOk result (λ reads. reads ≡ read_confirmed self.now.chain.me
            (leading_at (state_of self.now)) self.now.reads from message.now.conf message.now.body) }
    {
        let mut reads = self.copy_reads()?;
        if let Some(number) = self.confirmed_number(from, message) {
            if let Some(reads) = &mut reads {
                reads.confirmed(number, from);
            }
        }
        Ok(reads)
    }

    /// The number for which a message confirms the ballot that the node leads, if it does.
    fn confirmed_number(&self, from: Pid, message: &Msg) -> Option<u64>
        ensures number { (reads : Option Reads) → read_confirmed self.now.chain.me
            (leading_at (state_of self.now)) reads from message.now.conf message.now.body
            ≡ confirmed_by result from reads }
        ensures member { OnSome result
            (IfSome (state_of self.now).durable.part (λ p. IsMember p.members from)) }
    {
        let Body::Confirmed(ballot, number) = &message.body else {
            return None;
        };
        let (part, lead) = self.leading()?;
        let is_other = is_other(part.members.as_slice(), self.chain.me(), from);
        if message.conf == part.conf && is_other && ballot.is_same(lead.ballot) {
            Some(*number)
        } else {
            None
        }
    }
}

/// Whether a read comes.
pub(crate) fn is_read(input: &Input) -> bool
    ensures { result ≡ is_read input.now }
{
    match input {
        Input::Read(_) => true,
        Input::Tick
        | Input::Deliver(_, _)
        | Input::Commands(_)
        | Input::Stop(_)
        | Input::TrimNow
        | Input::Up(_)
        | Input::Down(_) => false,
    }
}

/// Whether a server is another one of these members.
#[tactic(auto, using(op_quorum::proofs::Meeting::member_passing))]
fn is_other(members: &[Pid], me: Pid, pid: Pid) -> bool
    ensures { result ≡ is_member nat_eq (others me members.now) pid }
{
    is_among(members, pid) && pid != me
}
