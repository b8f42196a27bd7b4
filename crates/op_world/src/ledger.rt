//! The list of each configuration, as far as some node has decided it.
ghost use Rattle.std.specs.Prelude.{◌≡◌, ◌==◌, ◌≤◌, ◌<◌, ◌-◌, ◌++◌, ℕ, List, [], Some, length, drop, if◌then◌else◌, option_map, IfSome, IfOk, OnOk};
ghost use Rattle.op_types.specs.Changes.{decided_tail};
ghost use Rattle.op_types.specs.Stops.{stop_at_end};
ghost use Rattle.op_types.specs.declared.log.Entry.{Entry};
ghost use Rattle.op_spec.specs.Ledger.{part_entries, closed_entries};
ghost use Rattle.op_runs.specs.Summary.{listed_from};
ghost use Rattle.op_world.specs.Ledgers.{list_at, ShowsMore, NodeShowsMore, ServerShowsMore};

use op_outside::Disk;
use op_replay_nodes::{NodeState, WorldNode};
use op_runs::{Listed, Lists};
use op_types::{Closed, ConfNo, Durable, Entries, Entry, Members, NoMemory, Part, last_stop};
use std::alloc::Global;
use std::marker::Model;
use std::mem::replace;

/// The list of each configuration, as far as some node has decided it: that of configuration c stands at c.
#[derive(Drop)]
pub struct Ledger {
    alloc: Global,
    lists: Vec<Entries>,
}

impl Model for Ledger {
    ghost use Rattle.std.specs.Prelude.{List};
    ghost use Rattle.op_types.specs.declared.log.Entry.{Entry};

    ghost Value = { List (List Entry) };

    ghost view = { λ l. l.lists.items };
}

impl Ledger {
    /// No list yet.
    pub fn new(alloc: Global) -> Ledger
        ensures { result ≡ [] }
    {
        Ledger {
            alloc,
            lists: Vec::new(alloc),
        }
    }

    /// A server shows what it has stored, if it votes and is up.
    pub fn show_server<D: Disk, C>(&mut self, server: &WorldNode<D, C>) -> Result<(), NoMemory>
        ensures { OnOk result (ServerShowsMore self.old server.now self.new) }
    {
        if server.observes {
            return Ok(());
        }
        self.show_node(&server.state)
    }

    /// A node shows what it has stored, if it is up: each list that it has decided more of gets these
    /// entries. One that isn't up showed it before.
    fn show_node<D: Disk, C>(&mut self, node: &NodeState<D, C>) -> Result<(), NoMemory>
        ensures { OnOk result (NodeShowsMore self.old node.now self.new) }
    {
        match node {
            NodeState::Up(node) => show(self.alloc, &mut self.lists, node.shown()),
            NodeState::Failed(_) | NodeState::Down(_) => Ok(()),
        }
    }

    /// The lists from configuration 1 on, so many at most, whose first one has these members, as far as a
    /// stop-sign ends the one before.
    pub fn into_listed(self, members: Members, count: ConfNo) -> Result<Lists, NoMemory>
        ensures { IfOk result (λ listed. listed ≡ listed_from (list_at self) count 1 (Some members)) }
    {
        let Ledger { alloc, lists } = self;
        listed_of(alloc, lists, members, count)
    }
}

/// A durable state is shown: what its part has decided, and its closed list.
fn show(alloc: Global, lists: &mut Vec<Entries>, durable: &Durable) -> Result<(), NoMemory>
    ensures { OnOk result (ShowsMore lists.old.items durable.now lists.new.items) }
{
    let part_len = part_len(lists, &durable.part);
    let closed_len = closed_len(lists, &durable.closed);
    show_part(alloc, lists, &durable.part, part_len)?;
    show_closed(alloc, lists, &durable.closed, closed_len)
}

/// How long the list of a configuration is.
fn len_of(lists: &[Entries], conf: ConfNo) -> usize
    ensures { result ≡ length (list_at lists.now conf) }
{
    match lists.get(conf as usize) {
        Some(list) => list.len(),
        None => 0,
    }
}

/// How long the list of a part's configuration is.
fn part_len(lists: &[Entries], part: &Option<Part>) -> usize
    ensures { IfSome part.now (λ p. result ≡ length (list_at lists.now p.conf)) }
{
    match part {
        Some(part) => len_of(lists, part.conf),
        None => 0,
    }
}

/// How long the list of a closed configuration is.
fn closed_len(lists: &[Entries], closed: &Option<Closed>) -> usize
    ensures { IfSome closed.now (λ l. result ≡ length (list_at lists.now l.conf)) }
{
    match closed {
        Some(closed) => len_of(lists, closed.conf),
        None => 0,
    }
}

/// Adds what a part has decided from a position on.
fn show_part(
    alloc: Global,
    lists: &mut Vec<Entries>,
    part: &Option<Part>,
    from: usize,
) -> Result<(), NoMemory>
    ensures { OnOk result ((conf : ℕ) → list_at lists.new.items conf
        ≡ list_at lists.old.items conf ++ part_entries part.now conf from) }
{
    match part {
        Some(part) => add(
            alloc,
            lists,
            part.conf,
            beyond(decided(part), part.trimmed, from),
        ),
        None => Ok(()),
    }
}

/// Adds a closed list from a position on.
fn show_closed(
    alloc: Global,
    lists: &mut Vec<Entries>,
    closed: &Option<Closed>,
    from: usize,
) -> Result<(), NoMemory>
    ensures { OnOk result ((conf : ℕ) → list_at lists.new.items conf
        ≡ list_at lists.old.items conf ++ closed_entries closed.now conf from) }
{
    match closed {
        Some(closed) => add(
            alloc,
            lists,
            closed.conf,
            beyond(closed.tail.as_slice(), closed.trimmed, from),
        ),
        None => Ok(()),
    }
}

/// The entries that a part has decided, and that aren't trimmed.
fn decided(part: &Part) -> &[Entry]
    ensures { result.now ≡ decided_tail part.now }
{
    let log = part.tail.as_slice();
    let end = (part.decided.saturating_sub(part.trimmed) as usize).min(log.len());
    &log[..end]
}

/// Of entries that stand from `start` on, those from a position on.
fn beyond(entries: &[Entry], start: u64, from: usize) -> &[Entry]
    ensures { result.now ≡ drop (from - start) entries.now }
{
    let skip = ((from as u64).saturating_sub(start) as usize).min(entries.len());
    &entries[skip..]
}

/// Adds entries to the list of a configuration.
fn add(
    alloc: Global,
    lists: &mut Vec<Entries>,
    conf: ConfNo,
    entries: &[Entry],
) -> Result<(), NoMemory>
    ensures { OnOk result ((other : ℕ) → list_at lists.new.items other
        ≡ list_at lists.old.items other ++ (if other == conf then entries.now else [])) }
{
    make_place(alloc, lists, conf)?;
    push_copies(alloc, &mut lists[conf as usize], entries)
}

/// Makes the place of a configuration's list.
fn make_place(alloc: Global, lists: &mut Vec<Entries>, conf: ConfNo) -> Result<(), NoMemory>
    ensures same { (other : ℕ) → list_at lists.new.items other ≡ list_at lists.old.items other }
    ensures there { OnOk result (conf < length lists.new.items) }
{
    let end = conf as usize + 1;
    for _count in lists.len()..end {
        lists.push(Entries::new(alloc))?;
    }
    Ok(())
}

/// Adds copies of entries to a list.
fn push_copies(alloc: Global, list: &mut Entries, entries: &[Entry]) -> Result<(), NoMemory>
    ensures { OnOk result (list.new ≡ list.old ++ entries.now) }
{
    for entry in entries {
        list.push(entry.copy()?)?;
    }
    Ok(())
}

/// The lists from configuration 1 on, so many at most.
fn listed_of(
    alloc: Global,
    lists: Vec<Entries>,
    members: Members,
    count: ConfNo,
) -> Result<Lists, NoMemory>
    ensures { IfOk result (λ listed.
        listed ≡ listed_from (list_at lists.items) count 1 (Some members)) }
{
    let mut lists = lists;
    let mut listed = Lists::new(alloc);
    let mut next = Some(members);
    for before in 0..count {
        let Some(members) = next else {
            return Ok(listed);
        };
        let conf = before + 1;
        let entries = take_out(alloc, &mut lists, conf);
        next = next_members(entries.as_slice());
        listed.push(Listed {
            conf,
            members,
            entries,
        })?;
    }
    Ok(listed)
}

/// Takes the list of a configuration out.
fn take_out(alloc: Global, lists: &mut Vec<Entries>, conf: ConfNo) -> Entries
    ensures list { result ≡ list_at lists.old.items conf }
    ensures others { (other : ℕ) → conf < other
        → list_at lists.new.items other ≡ list_at lists.old.items other }
{
    let place = conf as usize;
    if place < lists.len() {
        return replace(&mut lists[place], Entries::new(alloc));
    }
    Entries::new(alloc)
}

/// The members of the configuration after a list that a stop-sign ends.
fn next_members(entries: &[Entry]) -> Option<Members>
    ensures { result ≡ option_map (λ s. s.members) (stop_at_end entries.now) }
{
    match last_stop(entries) {
        Some(stop) => Some(stop.members.copy()),
        None => None,
    }
}
