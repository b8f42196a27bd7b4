//! Messages whose entries may be too long for one.
ghost use Rattle.std.specs.Prelude.{◌≡◌, ◌++◌, ◌+◌, ◌≤◌, ◌<◌, ◌^◌, length, OnOk};
ghost use Rattle.op_types.specs.Limits.{positions_end};
ghost use Rattle.op_types.specs.Cutting.{cut, parts_from};
ghost use Rattle.op_protocol.specs.Parts.{messages, sync_bodies, promise_bodies};
ghost use Rattle.op_plans.specs.Heads.{part_of};
ghost use Rattle.op_plans.specs.Positions.{FitsPositions};

use crate::head::Head;
use crate::log::suffix;
use crate::member::Member;
use op_types::{Ballot, Body, Entry, Pid, Sends, copy_entries, first_run, fits_part};
use std::alloc::AllocError as NoMemory;

impl Member<'_> {
    /// Adds what brings an accept sync to a node: itself, or its parts where its entries are long.
    pub fn send_sync(
        &self,
        sends: &mut Sends,
        to: Pid,
        ballot: Ballot,
        start: u64,
        entries: &[Entry],
    ) -> Result<(), NoMemory>
        requires { start + length entries.now ≤ positions_end }
        ensures { OnOk result (sends.new
            ≡ sends.old ++ messages self.now.part.now.conf to (sync_bodies ballot start entries.now)) }
    {
        if fits_part(entries) {
            let entries = copy_entries(self.alloc, entries)?;
            return self.send(sends, to, Body::AcceptSync(ballot, start, entries));
        }
        let end = start + entries.len() as u64;
        let head = Head::AcceptSync(ballot, start, end);
        self.send_runs(sends, to, head, start, entries)
    }

    /// Adds what brings a promise to a node, which tells the log from a position on: itself, or its parts
    /// where that is long.
    pub fn send_promise(
        &self,
        sends: &mut Sends,
        to: Pid,
        ballot: Ballot,
        start: u64,
    ) -> Result<(), NoMemory>
        requires { FitsPositions self.now.part.now }
        ensures { OnOk result (sends.new
            ≡ sends.old ++ messages self.now.part.now.conf to (promise_bodies self.now.part.now ballot start)) }
    {
        let part = self.part;
        let entries = suffix(part.tail.as_slice(), start.saturating_sub(part.trimmed));
        let len = self.log_len();
        if fits_part(entries) {
            let entries = copy_entries(self.alloc, entries)?;
            let body = Body::Promise(ballot, part.accepted, len, part.decided, start, entries);
            return self.send(sends, to, body);
        }
        let head = Head::Promise(ballot, part.accepted, len, part.decided, start);
        self.send_runs(sends, to, head, start, entries)
    }

    /// Adds a part for each run of these entries, which begin at a position.
    fn send_runs(
        &self,
        sends: &mut Sends,
        to: Pid,
        head: Head,
        start: u64,
        entries: &[Entry],
    ) -> Result<(), NoMemory>
        requires { start + length entries.now < 2 ^ 64 }
        ensures { OnOk result (sends.new ≡ sends.old
            ++ messages self.now.part.now.conf to (parts_from (part_of head) start (cut entries.now))) }
    {
        let mut at = start;
        let mut rest = entries;
        while let Some((run, others)) = first_run(rest) {
            let part = head.part(at, copy_entries(self.alloc, run)?);
            self.send(sends, to, part)?;
            at += run.len() as u64;
            rest = others;
        }
        Ok(())
    }
}
