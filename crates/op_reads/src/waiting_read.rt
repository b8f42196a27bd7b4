//! A read that waits, and reads that do.
ghost use Rattle.std.specs.Prelude.{◌≡◌, ◌==◌, not, filter, length, map, IfOk};
ghost use Rattle.op_reads.specs.Reads.{new_read, confirming, is_confirmed};

use crate::asked_read::{Asked, AskedRead};
use op_quorum::is_majority;
use op_types::{NoMemory, Pid, Read};
use std::alloc::Global;
use std::marker::Model;

/// A read that waits.
#[derive(Drop)]
pub struct WaitingRead {
    asked: AskedRead,
    missing: Vec<Pid>,
}

impl Model for WaitingRead {
    ghost use Rattle.op_reads.specs.Reads.{WaitingRead};

    ghost Value = { WaitingRead };

    ghost view = { λ w. record { asked = w.asked; missing = w.missing.items } };
}

impl WaitingRead {
    /// A new read, which the leader itself confirms.
    pub fn new(
        alloc: Global,
        me: Pid,
        members: &[Pid],
        number: u64,
        read: Read,
    ) -> Result<WaitingRead, NoMemory>
        ensures { IfOk result (λ waiting. waiting ≡ new_read me members.now number read) }
    {
        let mut missing = Vec::from_slice(alloc, members)?;
        remove_pid(&mut missing, me);
        Ok(WaitingRead {
            asked: AskedRead { number, read },
            missing,
        })
    }

    /// An equal value.
    pub fn copy(&self, alloc: Global) -> Result<WaitingRead, NoMemory>
        ensures { IfOk result (λ waiting. waiting ≡ self.now) }
    {
        Ok(WaitingRead {
            asked: self.asked.copy(alloc)?,
            missing: Vec::from_slice(alloc, self.missing.as_slice())?,
        })
    }

    /// The read, with its number.
    pub fn asked(&self) -> &AskedRead
        ensures { result.now ≡ self.now.asked }
    {
        &self.asked
    }

    /// A member has confirmed the ballot for a number.
    pub fn confirm(&mut self, number: u64, from: Pid)
        ensures { self.new ≡ confirming number from self.old }
    {
        if self.asked.number == number {
            remove_pid(&mut self.missing, from);
        }
    }

    /// Whether a majority of so many members has confirmed the ballot for it.
    pub fn is_confirmed(&self, members: usize) -> bool
        ensures { result ≡ is_confirmed members self.now }
    {
        is_majority(members.saturating_sub(self.missing.len()), members)
    }
}

/// Removes an id, if it is there.
fn remove_pid(pids: &mut Vec<Pid>, pid: Pid)
    ensures { pids.new.items ≡ filter (λ q. not (q == pid)) pids.old.items }
{
    pids.retain(|other| *other != pid);
}

/// Equal reads that wait.
pub fn copy_waiting(alloc: Global, waiting: &[WaitingRead]) -> Result<Vec<WaitingRead>, NoMemory>
    ensures { IfOk result (λ copies. copies.items ≡ waiting.now) }
{
    let mut copies = Vec::new(alloc);
    for read in waiting {
        copies.push(read.copy(alloc)?)?;
    }
    Ok(copies)
}

/// A member has confirmed the ballot for a number.
pub fn confirm_each(waiting: &mut [WaitingRead], number: u64, from: Pid)
    ensures { waiting.new ≡ map (confirming number from) waiting.old }
{
    for read in waiting.iter_mut() {
        read.confirm(number, from);
    }
}

/// The reads for which a majority has confirmed the ballot.
pub fn confirmed_reads(
    alloc: Global,
    waiting: &[WaitingRead],
    members: usize,
) -> Result<Asked, NoMemory>
    ensures { IfOk result (λ reads.
        reads ≡ map (λ w. w.asked) (filter (is_confirmed members) waiting.now)) }
{
    let mut reads = Asked::new(alloc);
    for read in waiting {
        if read.is_confirmed(members) {
            reads.push(read.asked().copy(alloc)?)?;
        }
    }
    Ok(reads)
}

/// Removes the reads for which a majority has confirmed the ballot.
pub fn remove_confirmed(waiting: &mut Vec<WaitingRead>, members: usize)
    ensures { waiting.new.items ≡ filter (λ w. not (is_confirmed members w)) waiting.old.items }
{
    waiting.retain(|read| !read.is_confirmed(members));
}

/// The reads that wait.
pub fn asked_reads(alloc: Global, waiting: &[WaitingRead]) -> Result<Asked, NoMemory>
    ensures { IfOk result (λ reads. reads ≡ map (λ w. w.asked) waiting.now) }
{
    let mut reads = Asked::new(alloc);
    for read in waiting {
        reads.push(read.asked().copy(alloc)?)?;
    }
    Ok(reads)
}
