//! Copies of durable states, of batches and of messages. A copied list has no room, as at rest.
ghost use Rattle.std.specs.Prelude.{◌≡◌, IfOk};
ghost use Rattle.op_types.specs.Rooms.{no_needs, part_with_room, part_option_with_room, joining_with_room, joining_option_with_room, with_room};

use crate::{
    Batch, Blob, Change, Closed, Durable, Entry, Held, Joining, Msg, Part, Reserved, copy_entries,
};
use std::alloc::{AllocError as NoMemory, Global};

impl Part {
    /// An equal value, with no room.
    pub fn copy(&self, alloc: Global) -> Result<Part, NoMemory>
        ensures { IfOk result (λ part. part ≡ part_with_room 0 self.now) }
    {
        Ok(Part {
            conf: self.conf,
            members: self.members.copy(),
            promised: self.promised,
            accepted: self.accepted,
            base: self.base.copy()?,
            trimmed: self.trimmed,
            tail: Reserved::from_seq(copy_entries(alloc, self.tail.as_slice())?),
            decided: self.decided,
        })
    }
}

impl Closed {
    /// An equal value.
    pub fn copy(&self, alloc: Global) -> Result<Closed, NoMemory>
        ensures { IfOk result (λ closed. closed ≡ self.now) }
    {
        Ok(Closed {
            conf: self.conf,
            olds: self.olds.copy(),
            next: self.next.copy(),
            base: self.base.copy()?,
            trimmed: self.trimmed,
            tail: copy_entries(alloc, self.tail.as_slice())?,
        })
    }
}

impl Held {
    /// Equal entries at equal positions, with no room.
    pub fn copy(&self, alloc: Global) -> Result<Held, NoMemory>
        ensures { IfOk result (λ held. held ≡ record self.now { room = 0 }) }
    {
        let items = copy_placed(alloc, self.as_slice())?;
        Held::from_vec(alloc, items)
    }
}

impl Joining {
    /// An equal value, with no room.
    pub fn copy(&self, alloc: Global) -> Result<Joining, NoMemory>
        ensures { IfOk result (λ joining. joining ≡ joining_with_room 0 self.now) }
    {
        Ok(Joining {
            conf: self.conf,
            members: self.members.copy(),
            olds: self.olds.copy(),
            len: self.len,
            donors: self.donors.copy(alloc)?,
            base: copy_base(&self.base)?,
            held: self.held.copy(alloc)?,
        })
    }
}

impl Durable {
    /// An equal value, with no room.
    pub fn copy(&self, alloc: Global) -> Result<Durable, NoMemory>
        ensures { IfOk result (λ durable. durable ≡ with_room no_needs self.now) }
    {
        Ok(Durable {
            part: copy_part(alloc, &self.part)?,
            closed: copy_closed(alloc, &self.closed)?,
            joining: copy_joining(alloc, &self.joining)?,
        })
    }
}

impl Change {
    /// An equal value.
    pub fn copy(&self, alloc: Global) -> Result<Change, NoMemory>
        ensures { IfOk result (λ change. change ≡ self.now) }
    {
        Ok(match self {
            Change::Promise(ballot) => Change::Promise(*ballot),
            Change::Accept(ballot) => Change::Accept(*ballot),
            Change::CutTo(len) => Change::CutTo(*len),
            Change::Append(entries) => Change::Append(copy_entries(alloc, entries.as_slice())?),
            Change::Decided(len) => Change::Decided(*len),
            Change::Trim(at, base) => Change::Trim(*at, base.copy()?),
            Change::Close(named, base) => Change::Close(*named, base.copy()?),
            Change::JoinBegin(conf, members, olds, len) => {
                Change::JoinBegin(*conf, members.copy()?, olds.copy()?, len.copy(alloc)?)
            }
            Change::JoinDonor(pid, trimmed) => Change::JoinDonor(*pid, *trimmed),
            Change::JoinBase(at, base) => Change::JoinBase(*at, base.copy()?),
            Change::JoinPart(at, entries) => {
                Change::JoinPart(*at, copy_entries(alloc, entries.as_slice())?)
            }
            Change::JoinDone(base) => Change::JoinDone(base.copy()?),
            Change::Rebase(conf, members, at, base) => {
                Change::Rebase(*conf, members.copy()?, *at, base.copy()?)
            }
        })
    }
}

impl Msg {
    /// An equal value.
    pub fn copy(&self, alloc: Global) -> Result<Msg, NoMemory>
        ensures { IfOk result (λ msg. msg ≡ self.now) }
    {
        Ok(Msg {
            conf: self.conf,
            body: self.body.copy(alloc)?,
        })
    }
}

/// Copies of these changes, in order.
pub fn copy_batch(alloc: Global, changes: &[Change]) -> Result<Batch, NoMemory>
    ensures { IfOk result (λ copies. copies ≡ changes.now) }
{
    let mut copies = Batch::new(alloc);
    for change in changes {
        copies.push(change.copy(alloc)?)?;
    }
    Ok(copies)
}

fn copy_placed(alloc: Global, placed: &[(u64, Entry)]) -> Result<Vec<(u64, Entry)>, NoMemory>
    ensures { IfOk result (λ copies. copies.items ≡ placed.now) }
{
    let mut copies = Vec::new(alloc);
    for (place, entry) in placed {
        copies.push((*place, entry.copy()?))?;
    }
    Ok(copies)
}

fn copy_base(base: &Option<(u64, Blob)>) -> Result<Option<(u64, Blob)>, NoMemory>
    ensures { IfOk result (λ copy. copy ≡ base.now) }
{
    match base {
        Some((at, bytes)) => Ok(Some((*at, bytes.copy()?))),
        None => Ok(None),
    }
}

fn copy_part(alloc: Global, part: &Option<Part>) -> Result<Option<Part>, NoMemory>
    ensures { IfOk result (λ copy. copy ≡ part_option_with_room 0 part.now) }
{
    match part {
        Some(part) => Ok(Some(part.copy(alloc)?)),
        None => Ok(None),
    }
}

fn copy_closed(alloc: Global, closed: &Option<Closed>) -> Result<Option<Closed>, NoMemory>
    ensures { IfOk result (λ copy. copy ≡ closed.now) }
{
    match closed {
        Some(closed) => Ok(Some(closed.copy(alloc)?)),
        None => Ok(None),
    }
}

fn copy_joining(alloc: Global, joining: &Option<Joining>) -> Result<Option<Joining>, NoMemory>
    ensures { IfOk result (λ copy. copy ≡ joining_option_with_room 0 joining.now) }
{
    match joining {
        Some(joining) => Ok(Some(joining.copy(alloc)?)),
        None => Ok(None),
    }
}
