ghost use Rattle.std.specs.Prelude.{◌≡◌, ◌+◌, ◌<◌, ◌≤◌, [], map, true, false, length, All, IfOk, IfNone, IfSome, OnOk};
ghost use Rattle.op_types.specs.Ranges.{MembersInRange};
ghost use Rattle.op_runs.specs.Possible.{is_possible, most_proposals, proposals_of, ObserversInRange, SparesInRange, WhatInRange};
ghost use Rattle.op_runs.specs.Schedules.{observers_begun};
ghost use Rattle.op_runs.specs.World as runs;
ghost use Rattle.op_executions.specs.Failing.{IfBadEvent};
ghost use Rattle.op_executions.specs.Worlds.{place_of, named_of, GoesOn, HappenedAt, HasRun, IsRun, Shows, AreFirst};

use crate::deed::{Deed, deed_of};
use crate::fail::RunFail;
use crate::ids::node_ids;
use crate::possible::{is_possible, proposals_of};
use crate::sent::{Sent, send_all};
use crate::server::Server;
use op_runs::{Event, Lines};
use op_types::{Members, NoMemory, Pid, is_among};
use std::alloc::Global;
use std::mem::replace;

/// How many lines most events give: a proposal gives what it is answered at once, and what its client is
/// answered then.
const LINES_OF_EVENT: usize = 2;

/// So many entries are not proposed: of fewer, each of which puts sixteen keys at most, eight bytes count the
/// keys of every service.
const MOST_PROPOSALS: u64 = 1 << 60;

/// Members, spares and observers, all messages that were sent, and what the events gave to be reported.
#[derive(Drop)]
pub struct ServerWorld<S> {
    /// The allocator.
    pub alloc: Global,
    /// The members of the first configuration.
    pub members: Members,
    /// The ids of all servers, rising.
    pub ids: Vec<Pid>,
    /// Those of members and spares, which stop-signs may name, rising.
    pub voters: Vec<Pid>,
    /// The server of each id.
    pub servers: Vec<S>,
    /// Every message that was sent, by number.
    pub messages: Vec<Sent>,
    /// What is reported.
    pub lines: Lines,
    /// How many entries were proposed.
    pub proposed: u64,
}

impl<S: Server> ServerWorld<S> {
    /// These members, spares and observers at their start.
    pub fn new(
        alloc: Global,
        members: Members,
        spares: &Members,
        observers: &Members,
    ) -> Result<ServerWorld<S>, NoMemory>
        requires members { MembersInRange members }
        requires spares { SparesInRange members spares.now }
        requires observers { ObserversInRange members spares.now observers.now }
        ensures run { IfOk result
            (λ w. HasRun S.kind w spares.now observers.now (observers_begun observers.now)) }
        ensures members { IfOk result (λ w. w.members ≡ members) }
        ensures first { IfOk result (λ w. All S.kind.is_first w.servers.items) }
    {
        let voters = node_ids(alloc, members.as_slice(), spares.as_slice())?;
        let ids = node_ids(alloc, &voters, observers.as_slice())?;
        let servers = first_servers(alloc, &members, &ids, observers.as_slice())?;
        Ok(ServerWorld {
            alloc,
            members,
            ids,
            voters,
            servers,
            messages: Vec::new(alloc),
            lines: Lines::new(alloc),
            proposed: 0,
        })
    }

    /// Makes room for the lines of so many events more, if memory is found.
    pub fn make_room(&mut self, events: usize)
        ensures { self.new ≡ self.old }
    {
        let mut lines = replace(&mut self.lines, Lines::new(self.alloc)).into_vec();
        let _is_made = lines.reserve(events.saturating_mul(LINES_OF_EVENT));
        self.lines = Lines::from_vec(lines);
    }

    /// One event, with what is said of it beforehand. It is refused, as the event of number 0, exactly where
    /// it names a server that is absent, in a stop-sign an observer, or a message that wasn't sent. Gives the
    /// place of the server where something was done; a stop or a failure in a call of a disk does nothing by
    /// itself. There is no memory for 2^60 proposals or more.
    pub fn event(&mut self, event: Event, fate: S::Fate) -> Result<Option<usize>, RunFail>
        requires range { WhatInRange event.what }
        requires run { IsRun S.kind self.old }
        ensures happened { IfOk result (λ at. (x : runs.World) → Shows S.kind self.old x →
            HappenedAt S.kind x event fate at self.old self.new) }
        ensures place { IfOk result (λ at. IfSome at (λ place. place < length self.new.servers.items)) }
        ensures goes_on { OnOk result (GoesOn S.kind self.old self.new) }
        ensures proposed { OnOk result ((self.new.proposed ≡ self.old.proposed + proposals_of event.what)
            × (self.new.proposed < most_proposals)) }
        ensures possible { OnOk result
            (is_possible (named_of self.old) (length self.old.messages.items) event.what ≡ true) }
        ensures bad { IfBadEvent result (λ index. (index ≡ 0)
            × (is_possible (named_of self.old) (length self.old.messages.items) event.what ≡ false)) }
    {
        let sent = self.messages.len() as u64;
        if !is_possible(&self.ids, &self.voters, sent, &event.what) {
            return Err(RunFail::BadEvent { index: 0 });
        }
        let Some(proposed) = proposed_after(self.proposed, proposals_of(&event.what)) else {
            return Err(RunFail::NoMemory);
        };
        let Event { line, what } = event;
        let Some(Deed { pid, doing }) = deed_of(self.alloc, &self.messages, what)? else {
            return Ok(None);
        };
        let place = place_of(&self.ids, pid);
        let server = &mut self.servers[place];
        let sends = server.happens(
            self.alloc,
            &self.members,
            doing,
            fate,
            line,
            &mut self.lines,
        )?;
        send_all(&mut self.messages, pid, sends)?;
        self.proposed = proposed;
        Ok(Some(place))
    }
}

/// How many entries are proposed with so many more, if that are few enough.
fn proposed_after(proposed: u64, more: u64) -> Option<u64>
    ensures sum { IfSome result (λ sum. (sum ≡ proposed + more) × (sum < most_proposals)) }
    ensures full { IfNone result (most_proposals ≤ proposed + more) }
{
    match proposed.checked_add(more) {
        Some(sum) if sum < MOST_PROPOSALS => Some(sum),
        _ => None,
    }
}

/// The place of an id: how many stand before it, or how many there are where it is none of them.
pub fn place_of(ids: &[Pid], pid: Pid) -> usize
    ensures place { result ≡ place_of ids.now pid }
    ensures most { result ≤ length ids.now }
{
    match ids {
        [] => 0,
        [first, rest @ ..] => {
            if *first == pid {
                0
            } else {
                1 + place_of(rest, pid)
            }
        }
    }
}

/// All servers at their start, of which these observe.
fn first_servers<S: Server>(
    alloc: Global,
    members: &Members,
    ids: &[Pid],
    observers: &[Pid],
) -> Result<Vec<S>, NoMemory>
    requires { MembersInRange members.now }
    ensures { IfOk result (λ servers. AreFirst S.kind members.now ids.now observers.now servers.items) }
{
    let mut servers = Vec::new(alloc);
    'ids: for pid in ids {
        let observes = is_among(observers, *pid);
        servers.push(S::first(alloc, *pid, members, observes)?)?;
    }
    Ok(servers)
}
