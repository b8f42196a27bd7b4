//! Where a change applies, and what it does.
ghost use Rattle.std.specs.Prelude.{◌≡◌, ◌+◌, ◌≤◌, ◌<◌, ◌^◌, ◌↔◌, List, ℕ, All, true, IsTrue, is_some, None, Some, length};
ghost use Rattle.std.specs.Option.{option_copied};
ghost use Rattle.op_types.specs.Stops.{stop_of, stop_at_end, named_by};
ghost use Rattle.op_types.specs.Joinings.{Base, donor_at, DonorApplies, IsWhole, cover_of, first_joining};
ghost use Rattle.op_types.specs.Changes.{IsCommand, EndsNowhere, IsEnded, PartApplies, PartOptionApplies, JoiningApplies, JoiningOptionApplies, ChangeApplies, len_of, decided_tail, part_with, part_trimmed, new_part, part_based, closed_by, closed_joined, durable_closing, durable_joining};
ghost use Rattle.op_types.specs.Rooms.{needed_by, part_room, joining_room};
ghost use Rattle.op_types.specs.Adopting.{part_taking, joining_taking, durable_taking};

use crate::filling::covers;
use crate::{
    Ballot, Blob, Change, Closed, ConfNo, Durable, Entry, Held, Joining, ListLen, MOST_DONORS,
    Members, Part, Pid, Reserved, StopSign,
};
use std::alloc::Global;

impl Entry {
    fn is_command(&self) -> bool
        ensures { IsTrue result ↔ IsCommand self.now }
    {
        match self {
            Entry::Command(_) => true,
            Entry::Stop(_) => false,
        }
    }

    /// The stop-sign that it is.
    pub fn stop(&self) -> Option<&StopSign>
        ensures { option_copied result ≡ stop_of self.now }
    {
        match self {
            Entry::Command(_) => None,
            Entry::Stop(stop) => Some(stop.get()),
        }
    }
}

/// The stop-sign that ends these entries. Only the last one is looked at.
pub fn last_stop(entries: &[Entry]) -> Option<&StopSign>
    ensures { option_copied result ≡ stop_at_end entries.now }
{
    match entries.last() {
        Some(entry) => entry.stop(),
        None => None,
    }
}

/// Whether an id is among these donors.
fn is_donor_among(donors: &[(Pid, u64)], pid: Pid) -> bool
    ensures { result ≡ is_some (donor_at donors.now pid) }
{
    match donors {
        [] => false,
        [first, rest @ ..] => first.0 == pid || is_donor_among(rest, pid),
    }
}

fn are_commands(entries: &[Entry]) -> bool
    ensures { IsTrue result ↔ All IsCommand entries.now }
{
    entries.iter().all(|entry| entry.is_command())
}

/// The end of positions.
const POSITIONS_END: u128 = 1 << 62;

impl Part {
    /// A part where a configuration begins.
    fn first(alloc: Global, conf: ConfNo, members: Members, base: Blob) -> Part
        ensures { result ≡ new_part conf members base }
    {
        Part::based(alloc, conf, members, 0, base)
    }

    /// A part that begins at a position of its configuration's list.
    fn based(alloc: Global, conf: ConfNo, members: Members, at: u64, base: Blob) -> Part
        ensures { result ≡ part_based conf members at base }
    {
        Part {
            conf,
            members,
            promised: Ballot::NONE,
            accepted: Ballot::NONE,
            base,
            trimmed: at,
            tail: Reserved::new(alloc),
            decided: at,
        }
    }

    /// The length of its log.
    fn log_len(&self) -> u128
        ensures len { result ≡ len_of self.now }
        ensures small { result < 2 ^ 65 }
    {
        self.trimmed as u128 + self.tail.len() as u128
    }

    /// Whether a length lies between what is decided and the log's end.
    fn is_open(&self, len: u64) -> bool
        ensures { IsTrue result ↔ ((self.now.decided ≤ len) × (len ≤ len_of self.now)) }
    {
        self.decided <= len && len as u128 <= self.log_len()
    }

    /// Whether a position lies between what is trimmed and what is decided.
    fn is_trimmable(&self, at: u64) -> bool
        ensures { IsTrue result ↔ ((self.now.trimmed ≤ at) × (at ≤ self.now.decided)) }
    {
        self.trimmed <= at && at <= self.decided
    }

    /// Whether the configuration can have these entries, as far as stop-signs go.
    fn may_end(&self, entries: &[Entry]) -> bool
        ensures { IsTrue result ↔ EndsNowhere self.now.conf entries.now }
    {
        self.conf != u32::MAX || are_commands(entries)
    }

    /// Whether a stop-sign was decided last, and a number is left for the next configuration.
    fn is_ended(&self) -> bool
        ensures { IsTrue result ↔ IsEnded self.now }
    {
        self.conf < u32::MAX && last_stop(self.decided_tail()).is_some()
    }

    /// The decided entries that aren't trimmed.
    fn decided_tail(&self) -> &[Entry]
        ensures { result.now ≡ decided_tail self.now }
    {
        let tail = self.tail.as_slice();
        let count = self.decided.saturating_sub(self.trimmed) as usize;
        &tail[..count.min(tail.len())]
    }

    /// Whom the stop-sign names that was decided last.
    fn named(&self) -> Members
        ensures { result ≡ named_by (stop_at_end (decided_tail self.now)) }
    {
        match last_stop(self.decided_tail()) {
            Some(stop) => stop.members.copy(),
            None => Members::new(),
        }
    }

    /// Whether a change of a part applies.
    fn admits(&self, change: &Change) -> bool
        ensures { IsTrue result ↔ PartApplies self.now change.now }
    {
        match change {
            Change::Promise(_) | Change::Accept(_) => true,
            Change::CutTo(len) | Change::Decided(len) => self.is_open(*len),
            Change::Append(entries) => {
                self.log_len() + entries.len() as u128 <= POSITIONS_END
                    && self.may_end(entries.as_slice())
            }
            Change::Trim(at, _) => self.is_trimmable(*at),
            Change::Close(_, _) => self.is_ended(),
            Change::JoinBegin(_, _, _, _)
            | Change::JoinDonor(_, _)
            | Change::JoinBase(_, _)
            | Change::JoinPart(_, _)
            | Change::JoinDone(_)
            | Change::Rebase(_, _, _, _) => false,
        }
    }

    /// The log is cut to a length.
    fn cut(&mut self, len: u64)
        ensures { self.new ≡ part_with self.old (Change.CutTo len) }
    {
        self.tail.cut_to(len.saturating_sub(self.trimmed) as usize);
    }

    /// The entries before a position go, and a base stands in their place. It costs what goes.
    fn trim(&mut self, at: u64, base: Blob)
        ensures { self.new ≡ part_trimmed self.old at base }
    {
        self.tail
            .drop_front(at.saturating_sub(self.trimmed) as usize);
        self.base = base;
        self.trimmed = at;
    }

    /// A change of the part takes place, in the room that was made for it. One that leaves or makes a part
    /// does nothing here.
    fn take(&mut self, change: Change)
        requires { (needed_by change).entries ≤ self.old.tail.room }
        ensures { self.new ≡ part_taking self.old change }
    {
        match change {
            Change::Promise(ballot) => self.promised = ballot,
            Change::Accept(ballot) => self.accepted = ballot,
            Change::CutTo(len) => self.cut(len),
            Change::Append(entries) => self.tail.add_all(entries),
            Change::Decided(len) => self.decided = len,
            Change::Trim(at, base) => self.trim(at, base),
            Change::Close(_, _)
            | Change::JoinBegin(_, _, _, _)
            | Change::JoinDonor(_, _)
            | Change::JoinBase(_, _)
            | Change::JoinPart(_, _)
            | Change::JoinDone(_)
            | Change::Rebase(_, _, _, _) => {}
        }
    }

    /// The closed list that the part leaves. No entry is copied.
    fn into_closed(mut self) -> Closed
        ensures { result ≡ closed_by self }
    {
        let next = self.named();
        self.tail
            .cut_to(self.decided.saturating_sub(self.trimmed) as usize);
        Closed {
            conf: self.conf,
            olds: self.members,
            next,
            base: self.base,
            trimmed: self.trimmed,
            tail: self.tail.into_seq(),
        }
    }
}

impl Joining {
    /// What is held where a node was told of a configuration.
    fn first(alloc: Global, conf: ConfNo, members: Members, olds: Members, len: ListLen) -> Joining
        ensures { result ≡ first_joining conf members olds len }
    {
        let (len, donors) = len.into_parts();
        Joining {
            conf,
            members,
            olds,
            len,
            donors,
            base: None,
            held: Held::new(alloc),
        }
    }

    /// Whether the node asks this one for the closed list.
    pub fn is_donor(&self, pid: Pid) -> bool
        ensures { result ≡ is_some (donor_at self.now.donors pid) }
    {
        is_donor_among(self.donors.as_slice(), pid)
    }

    /// Whether base and entries cover the closed list.
    fn is_whole(&self) -> bool
        ensures { IsTrue result ↔ IsWhole self.now }
    {
        match &self.base {
            Some((at, _)) => covers(self.held.as_slice(), *at, self.len),
            None => false,
        }
    }

    /// Whether a change of what is held applies.
    fn admits(&self, change: &Change) -> bool
        ensures { IsTrue result ↔ JoiningApplies self.now change.now }
    {
        match change {
            Change::JoinDonor(pid, trimmed) => self.admits_donor(*pid, *trimmed),
            Change::JoinBase(at, _) => self.base.is_none() && *at <= self.len,
            Change::JoinPart(at, entries) => {
                *at as u128 + entries.len() as u128 <= self.len as u128
            }
            Change::JoinDone(_) => self.is_whole(),
            Change::Promise(_)
            | Change::Accept(_)
            | Change::CutTo(_)
            | Change::Append(_)
            | Change::Decided(_)
            | Change::Trim(_, _)
            | Change::Close(_, _)
            | Change::JoinBegin(_, _, _, _)
            | Change::Rebase(_, _, _, _) => false,
        }
    }

    /// A change of what is held takes place, in the room that was made for it. Any other does nothing here.
    fn take(&mut self, change: Change)
        requires applies { JoiningApplies self.old change }
        requires room { (needed_by change).held ≤ self.old.held.room }
        ensures { self.new ≡ joining_taking self.old change }
    {
        match change {
            Change::JoinDonor(pid, trimmed) => self.donors.add(pid, trimmed),
            Change::JoinBase(at, base) => self.base = Some((at, base)),
            Change::JoinPart(at, entries) => {
                // Read, so that the proof knows how great it can be.
                let _len = self.len;
                self.held.fill(at, entries);
            }
            Change::Promise(_)
            | Change::Accept(_)
            | Change::CutTo(_)
            | Change::Append(_)
            | Change::Decided(_)
            | Change::Trim(_, _)
            | Change::Close(_, _)
            | Change::JoinBegin(_, _, _, _)
            | Change::JoinDone(_)
            | Change::Rebase(_, _, _, _) => {}
        }
    }

    fn admits_donor(&self, pid: Pid, trimmed: u64) -> bool
        ensures { IsTrue result ↔ DonorApplies self.now pid trimmed }
    {
        trimmed <= self.len && self.donors.len() < MOST_DONORS && !self.is_donor(pid)
    }

    /// The closed list that base and entries cover. No entry is copied.
    fn into_closed(self) -> Closed
        requires { IsWhole self }
        ensures { (b : Base) (entries : List Entry) → self.base ≡ Some b → cover_of self ≡ Some entries
            → result ≡ closed_joined self b entries }
    {
        let Joining {
            conf,
            members,
            olds,
            len,
            base,
            held,
            ..
        } = self;
        let Some((at, base)) = base else {
            unreachable!()
        };
        Closed {
            conf: conf.saturating_sub(1),
            olds,
            next: members,
            base,
            trimmed: at,
            tail: held.into_entries(at, len),
        }
    }
}

impl Durable {
    /// Whether a change applies.
    pub(crate) fn admits(&self, change: &Change) -> bool
        ensures { IsTrue result ↔ ChangeApplies self.now change.now }
    {
        match change {
            Change::JoinBegin(_, _, _, _) => true,
            Change::Rebase(_, _, at, _) => *at as u128 <= POSITIONS_END,
            Change::JoinDonor(_, _)
            | Change::JoinBase(_, _)
            | Change::JoinPart(_, _)
            | Change::JoinDone(_) => match &self.joining {
                Some(joining) => joining.admits(change),
                None => false,
            },
            Change::Promise(_)
            | Change::Accept(_)
            | Change::CutTo(_)
            | Change::Append(_)
            | Change::Decided(_)
            | Change::Trim(_, _)
            | Change::Close(_, _) => match &self.part {
                Some(part) => part.admits(change),
                None => false,
            },
        }
    }

    /// A change that applies takes place, in the room that was made for it. This takes no memory.
    pub(crate) fn take(&mut self, alloc: Global, change: Change)
        requires applies { ChangeApplies self.old change }
        requires entries { (needed_by change).entries ≤ part_room self.old.part }
        requires held { (needed_by change).held ≤ joining_room self.old.joining }
        ensures { self.new ≡ durable_taking self.old change }
    {
        match change {
            Change::Close(named, base) => self.close(alloc, named, base),
            Change::JoinBegin(conf, members, olds, len) => {
                let (members, olds) = (members.get().copy(), olds.get().copy());
                self.joining = Some(Joining::first(alloc, conf, members, olds, len));
            }
            Change::JoinDone(base) => self.join(alloc, base),
            Change::Rebase(conf, members, at, base) => {
                self.part = Some(Part::based(alloc, conf, members.get().copy(), at, base));
            }
            Change::JoinDonor(_, _) | Change::JoinBase(_, _) | Change::JoinPart(_, _) => {
                match &mut self.joining {
                    Some(joining) => joining.take(change),
                    None => unreachable!(),
                }
            }
            Change::Promise(_)
            | Change::Accept(_)
            | Change::CutTo(_)
            | Change::Append(_)
            | Change::Decided(_)
            | Change::Trim(_, _) => match &mut self.part {
                Some(part) => part.take(change),
                None => unreachable!(),
            },
        }
    }

    /// The part is left, with its closed list and perhaps a new part in its place.
    fn close(&mut self, alloc: Global, named: bool, base: Blob)
        requires { PartOptionApplies self.old.part (Change.Close named base) }
        ensures { self.new ≡ durable_closing self.old.part self.old named base }
    {
        let Some(part) = self.part.take() else {
            unreachable!()
        };
        let closed = part.into_closed();
        if named {
            self.part = Some(Part::first(alloc, closed.conf + 1, closed.next.copy(), base));
        }
        self.closed = Some(closed);
    }

    /// The closed list is whole, and the node has its part in the next configuration.
    fn join(&mut self, alloc: Global, base: Blob)
        requires { JoiningOptionApplies self.old.joining (Change.JoinDone base) }
        ensures { self.new ≡ durable_joining self.old.joining self.old base }
    {
        let Some(joining) = self.joining.take() else {
            unreachable!()
        };
        self.part = Some(Part::first(alloc, joining.conf, joining.members.copy(), base));
        self.closed = Some(joining.into_closed());
    }
}
