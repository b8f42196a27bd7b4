//! The greatest log of the own one and those that were promised.
ghost use Rattle.std.specs.Prelude.{◌≡◌, option_copied};
ghost use Rattle.op_types.specs.RoleStates.{promise_of};
ghost use Rattle.op_protocol.specs.Promises.{is_above, is_usable, own_choice, choice_of, better, best, has_quorum};
ghost use Rattle.op_plans.specs.Positions.{FitsPositions};
ghost use Rattle.op_choosing.specs.Choosing.{offered, choice_shown, AreAdmitted, ChoiceFits};

use op_plans::Member;
use op_quorum::is_majority;
use op_types::{Ballot, Entry, Pid, Promised};

/// A log that may be adopted: the own one up to a position, and then these entries.
#[derive(Clone, Copy)]
pub struct Candidate<'a> {
    pub accepted: Ballot,
    pub len: u64,
    pub start: u64,
    pub entries: &'a [Entry],
}

/// The promises that are kept, and one that came in this step.
#[derive(Clone, Copy)]
pub struct Offers<'a> {
    pub kept: &'a [Promised],
    pub new: &'a Option<Promised>,
}

/// A sender's promise among those that are kept.
fn kept_promise(promises: &[Promised], pid: Pid) -> Option<&Promised>
    ensures { option_copied result ≡ promise_of promises.now pid }
{
    match promises {
        [] => None,
        [first, rest @ ..] => {
            if first.from == pid {
                Some(first)
            } else {
                kept_promise(rest, pid)
            }
        }
    }
}

impl<'a> Offers<'a> {
    #[tactic(auto, using(crate::proofs::Promises::promise_of_with))]
    /// A sender's promise.
    pub fn by(&self, pid: Pid) -> Option<&'a Promised>
        ensures { option_copied result ≡ promise_of (offered self.now) pid }
    {
        match self.new {
            None => kept_promise(self.kept, pid),
            Some(promised) => {
                if promised.from == pid {
                    Some(promised)
                } else {
                    kept_promise(self.kept, pid)
                }
            }
        }
    }

    /// Whether the node and those that promised are a majority.
    pub fn have_quorum(&self, member: &Member) -> bool
        ensures { result ≡ has_quorum member.now.me member.now.part.now.members (offered self.now) }
    {
        let members = member.part.members.as_slice();
        let mut votes = 0;
        for pid in members {
            if *pid == member.me || self.by(*pid).is_some() {
                votes += 1;
            }
        }
        is_majority(votes, members.len())
    }
}

/// Whether one log is above another, by the round in which it was accepted, and then by length.
pub fn is_above(accepted: Ballot, len: u64, other: Ballot, other_len: u64) -> bool
    ensures { result ≡ is_above accepted len other other_len }
{
    other.is_below(accepted) || accepted.is_same(other) && other_len < len
}

/// Whether a promise can be adopted.
pub fn is_usable(member: &Member, promised: &Promised) -> bool
    requires { FitsPositions member.now.part.now }
    ensures { result ≡ is_usable member.now.part.now promised.now }
{
    let part = member.part;
    let len = member.log_len();
    !is_above(promised.accepted, promised.len, part.accepted, len)
        || part.decided <= promised.start
            && promised.start <= len
            && promised.start as u128 + promised.entries.len() as u128 == promised.len as u128
}

/// The own log.
fn own_candidate<'a>(member: &Member) -> Candidate<'a>
    requires { FitsPositions member.now.part.now }
    ensures { choice_shown result ≡ own_choice member.now.part.now }
{
    let len = member.log_len();
    Candidate {
        accepted: member.part.accepted,
        len,
        start: len,
        entries: &[],
    }
}

/// The log of a promise.
fn candidate_of(promised: &Promised) -> Candidate<'_>
    ensures { choice_shown result ≡ choice_of promised.now }
{
    Candidate {
        accepted: promised.accepted,
        len: promised.len,
        start: promised.start,
        entries: promised.entries.as_slice(),
    }
}

/// A promise is taken where it is above what was found so far.
fn better<'a>(
    member: &Member,
    promise: Option<&'a Promised>,
    chosen: Candidate<'a>,
) -> Candidate<'a>
    requires { FitsPositions member.now.part.now }
    ensures { choice_shown result ≡ better member.now.part.now (option_copied promise.entry)
        (choice_shown chosen.entry) }
{
    let Some(promised) = promise else {
        return chosen;
    };
    if is_usable(member, promised)
        && is_above(promised.accepted, promised.len, chosen.accepted, chosen.len)
    {
        candidate_of(promised)
    } else {
        chosen
    }
}

/// The greatest of a candidate and the promises of these members. Ties go to the first.
fn best<'a>(
    member: &Member,
    offers: &Offers<'a>,
    members: &[Pid],
    chosen: Candidate<'a>,
) -> Candidate<'a>
    requires { FitsPositions member.now.part.now }
    ensures { choice_shown result ≡ best member.now.part.now (offered offers.now) members.now
        (choice_shown chosen.entry) }
{
    match members {
        [] => chosen,
        [pid, rest @ ..] => {
            let found = better(member, offers.by(*pid), chosen);
            best(member, offers, rest, found)
        }
    }
}

/// The greatest of the own log and those that were promised.
pub fn choose<'a>(member: &Member, offers: &Offers<'a>) -> Candidate<'a>
    requires positions { FitsPositions member.now.part.now }
    requires promises { AreAdmitted (offered offers.now) }
    ensures choice { choice_shown result ≡ best member.now.part.now (offered offers.now)
        member.now.part.now.members (own_choice member.now.part.now) }
    ensures fits { ChoiceFits member.now.part.now (choice_shown result) }
{
    let members = member.part.members.as_slice();
    best(member, offers, members, own_candidate(member))
}
