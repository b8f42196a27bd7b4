ghost use Rattle.std.specs.Prelude.{◌≡◌, ◌<◌, suc, Err, IfOk, IfErr, OnOk, OnErr};
ghost use Rattle.op_types.specs.Limits.{positions_end};
ghost use Rattle.op_types.specs.Ranges.{IsMember};
ghost use Rattle.op_reads.specs.declared.reads.AskFail.TheVariants.{PositionsEnd};
ghost use Rattle.op_reads.specs.Reads.{no_reads, with_read, with_confirmed, answered, without_answered, all_asked, without_waiting};

use crate::asked_read::Asked;
use crate::waiting_read::{
    WaitingRead, asked_reads, confirm_each, confirmed_reads, copy_waiting, remove_confirmed,
};
use op_types::{Members, NoMemory, POSITIONS_END, Pid, Read};
use std::alloc::Global;
use std::marker::Model;

/// Why a read gets no number.
#[derive(Clone, Copy, Debug, PartialEq, Eq)]
pub enum AskFail {
    /// Its number would be the end of positions.
    PositionsEnd,
    /// There is no memory.
    NoMemory,
}

/// The reads of one ballot, at its leader.
#[derive(Drop)]
pub struct Reads {
    me: Pid,
    members: Members,
    count: u64,
    waiting: Vec<WaitingRead>,
}

impl Model for Reads {
    ghost use Rattle.op_reads.specs.Reads.{Reads};
    ghost use Rattle.std.specs.Prelude.{◌<◌};
    ghost use Rattle.op_types.specs.Limits.{positions_end};

    ghost Value = { Reads };

    ghost view = { λ r. record { me = r.me; members = r.members; count = r.count; waiting = r.waiting.items } };

    ghost invariant = { λ r. r.count < positions_end };
}

impl Reads {
    /// Before the first read of a ballot that this member leads.
    pub fn new(alloc: Global, me: Pid, members: &Members) -> Reads
        ensures { result ≡ no_reads me members.now }
    {
        Reads {
            me,
            members: members.copy(),
            count: 0,
            waiting: Vec::new(alloc),
        }
    }

    /// A read gets the next number, and waits.
    pub fn ask(&mut self, alloc: Global, read: Read) -> Result<u64, AskFail>
        ensures number { IfOk result (λ number. number ≡ suc self.old.count) }
        ensures waits { OnOk result (self.new ≡ with_read self.old read) }
        ensures err { OnErr result (self.new ≡ self.old) }
        ensures end { IfErr result (λ e. e ≡ PositionsEnd → suc self.old.count ≡ positions_end) }
        ensures at_end { suc self.old.count ≡ positions_end → result ≡ Err PositionsEnd }
    {
        let number = self.count + 1;
        if number == POSITIONS_END {
            return Err(AskFail::PositionsEnd);
        }
        match self.wait(alloc, number, read) {
            Ok(()) => Ok(number),
            Err(_) => Err(AskFail::NoMemory),
        }
    }

    /// The read of this number waits.
    fn wait(&mut self, alloc: Global, number: u64, read: Read) -> Result<(), NoMemory>
        requires { (number ≡ suc self.old.count) × (number < positions_end) }
        ensures ok { OnOk result (self.new ≡ with_read self.old read) }
        ensures err { OnErr result (self.new ≡ self.old) }
    {
        let waiting = WaitingRead::new(alloc, self.me, self.members.as_slice(), number, read)?;
        self.waiting.push(waiting)?;
        self.count = number;
        Ok(())
    }

    /// A member has confirmed the ballot for a number. It takes no memory. For a number that doesn't wait
    /// nothing changes.
    pub fn confirmed(&mut self, number: u64, from: Pid)
        requires { IsMember self.old.members from }
        ensures { self.new ≡ with_confirmed self.old number from }
    {
        confirm_each(&mut self.waiting, number, from);
    }

    /// Takes out the reads that may be answered, by rising number: those for which a majority has confirmed
    /// the ballot, once the leader has decided all that it adopted.
    pub fn ready(&mut self, alloc: Global, decided: u64, adopted: u64) -> Result<Asked, NoMemory>
        ensures others { OnOk result (self.new ≡ without_answered self.old decided adopted) }
        ensures answered { IfOk result (λ reads. reads ≡ answered self.old decided adopted) }
        ensures err { OnErr result (self.new ≡ self.old) }
    {
        if decided < adopted {
            return Ok(Asked::new(alloc));
        }
        let members = self.members.len();
        let asked = confirmed_reads(alloc, self.waiting.as_slice(), members)?;
        remove_confirmed(&mut self.waiting, members);
        Ok(asked)
    }

    /// Gives up all that wait, by rising number.
    pub fn give_up(&mut self, alloc: Global) -> Result<Asked, NoMemory>
        ensures given { OnOk result (self.new ≡ without_waiting self.old) }
        ensures all { IfOk result (λ reads. reads ≡ all_asked self.old) }
        ensures err { OnErr result (self.new ≡ self.old) }
    {
        let asked = asked_reads(alloc, self.waiting.as_slice())?;
        self.waiting.clear();
        Ok(asked)
    }

    /// An equal value.
    pub fn copy(&self, alloc: Global) -> Result<Reads, NoMemory>
        ensures { IfOk result (λ reads. reads ≡ self.now) }
    {
        Ok(Reads {
            me: self.me,
            members: self.members.copy(),
            count: self.count,
            waiting: copy_waiting(alloc, self.waiting.as_slice())?,
        })
    }
}
