//! Lockstep rounds of a world over fixed links.
ghost use Rattle.std.specs.Prelude.{◌≡◌, false, All, IfOk};
ghost use Rattle.op_types.specs.Ranges.{MembersInRange};
ghost use Rattle.op_runs.specs.Possible.{ArePossibleFrom};
ghost use Rattle.op_areas.specs.Media.{medium};
ghost use Rattle.op_runs.specs.Run.{Execution};
ghost use Rattle.op_lockstep.specs.Lockstep as rounds;
ghost use Rattle.op_lockstep.specs.Lockstep.{ballots, deliveries, lockstep, ticks};
ghost use Rattle.op_world.specs.Drills.{IsCalm, IsQuiet, IsReportOfDrill, followed, is_delivered};
ghost use Rattle.op_executions.specs.Failing.{IfBadEvent};
ghost use Rattle.op_world.specs.Worlds.{Shows};

use super::World;
use op_areas::Area;
use op_executions::{RunFail, Sent};
use op_gen::{Links, all_links};
use op_runs::{Event, Events, Summary, What};
use op_types::{Body, Members, NoMemory};
use std::alloc::Global;

/// How many rounds over all links a drill begins with.
const FIRST_ROUNDS: u64 = 3;

/// Which messages of a round are delivered.
#[derive(Clone, Copy)]
enum Delivered<'a> {
    /// Heartbeat requests between two that are linked.
    Requests(&'a Links<'a>),
    /// Heartbeat replies.
    Replies,
}

impl Delivered<'_> {
    /// Whether this message is.
    fn has(&self, sent: &Sent) -> bool
        ensures { result ≡ is_delivered self.now sent.now }
    {
        match self {
            Delivered::Requests(links) => {
                matches!(sent.message.body, Body::HeartbeatRequest(_))
                    && links.join(sent.from, sent.to)
            }
            Delivered::Replies => matches!(sent.message.body, Body::HeartbeatReply(..)),
        }
    }
}

/// The event that this happens, which stands in no line of a schedule.
fn event_of(what: What) -> Event
    ensures { result ≡ record { line = 0; what = what } }
{
    Event { line: 0, what }
}

/// Each of these servers ticks.
fn ticks(alloc: Global, members: &Members) -> Result<Events, NoMemory>
    requires { MembersInRange members.now }
    ensures are { IfOk result (λ events. events ≡ ticks members.now) }
    ensures range { IfOk result (λ events. All IsQuiet events) }
{
    let mut events = Events::new(alloc);
    for pid in members.as_slice() {
        events.push(event_of(What::Tick(*pid)))?;
    }
    Ok(events)
}

/// Each of these servers tells its ballots.
fn ballots(alloc: Global, members: &Members) -> Result<Events, NoMemory>
    requires { MembersInRange members.now }
    ensures are { IfOk result (λ events. events ≡ ballots members.now) }
    ensures range { IfOk result (λ events. All IsQuiet events) }
{
    let mut events = Events::new(alloc);
    for pid in members.as_slice() {
        events.push(event_of(What::Ballots(*pid)))?;
    }
    Ok(events)
}

impl<A: Area> World<A> {
    /// Runs a drill of links at these members, from their start on, and reports it: three lockstep rounds
    /// over all links, so many over these, and a tick of each member, which then tells its ballots. No event
    /// of it is refused. Its areas are not mirrored.
    pub(crate) fn lockstep_over(
        alloc: Global,
        members: Members,
        links: &Links<'_>,
        rounds: u64,
    ) -> Result<Summary, RunFail>
        requires members { MembersInRange members }
        requires plain { A.IS_MIRRORED ≡ false }
        ensures report { IfOk result (IsReportOfDrill members links.now.pairs.now rounds) }
        ensures never_bad { IfBadEvent result (λ _. ⊥) }
    {
        let pairs = all_links(alloc, members.as_slice())?;
        let all = Links { pairs: &pairs };
        let none = Members::new();
        let start = World::<A>::new(alloc, members, &none, &none)?;
        let linked = start.rounds(&all, FIRST_ROUNDS)?;
        let drilled = linked.rounds(links, rounds)?;
        Ok(drilled.tell_ballots()?.summary()?)
    }

    /// So many lockstep rounds over these links.
    fn rounds(self, links: &Links<'_>, count: u64) -> Result<World<A>, RunFail>
        requires { IsCalm self }
        ensures after { IfOk result (λ w. (t : Execution)
            → Shows (medium A.state A.holds A.IS_MIRRORED) self t
            → Shows (medium A.state A.holds A.IS_MIRRORED) w
            (followed t (lockstep self.members links.now.pairs.now count t.world))) }
        ensures range { IfOk result (λ _. (t : Execution)
            → Shows (medium A.state A.holds A.IS_MIRRORED) self t → All IsQuiet
            (lockstep self.members links.now.pairs.now count t.world)) }
        ensures calm { IfOk result (λ w. IsCalm w) }
        ensures members { IfOk result (λ w. w.members ≡ self.members) }
        ensures bad { IfBadEvent result (λ _. (t : Execution)
            → Shows (medium A.state A.holds A.IS_MIRRORED) self t → ⊥) }
    {
        let mut world = self;
        for _number in 0..count {
            world = world.round(links)?;
        }
        Ok(world)
    }

    /// A lockstep round over these links.
    fn round(self, links: &Links<'_>) -> Result<World<A>, RunFail>
        requires { IsCalm self }
        ensures after { IfOk result (λ w. (t : Execution)
            → Shows (medium A.state A.holds A.IS_MIRRORED) self t
            → Shows (medium A.state A.holds A.IS_MIRRORED) w
            (followed t (rounds.round self.members links.now.pairs.now t.world))) }
        ensures range { IfOk result (λ _. (t : Execution)
            → Shows (medium A.state A.holds A.IS_MIRRORED) self t → All IsQuiet
            (rounds.round self.members links.now.pairs.now t.world)) }
        ensures calm { IfOk result (λ w. IsCalm w) }
        ensures members { IfOk result (λ w. w.members ≡ self.members) }
        ensures bad { IfBadEvent result (λ _. (t : Execution)
            → Shows (medium A.state A.holds A.IS_MIRRORED) self t → ⊥) }
    {
        let asked_since = self.world.messages.len();
        let ticks = ticks(self.world.alloc, &self.world.members)?;
        let ticked = self.follow(ticks)?;
        let answered_since = ticked.world.messages.len();
        let requests = ticked.deliveries(asked_since, Delivered::Requests(links))?;
        let asked = ticked.follow(requests)?;
        let replies = asked.deliveries(answered_since, Delivered::Replies)?;
        asked.follow(replies)
    }

    /// Each member ticks, and then each tells its ballots.
    fn tell_ballots(self) -> Result<World<A>, RunFail>
        requires { IsCalm self }
        ensures after { IfOk result (λ w. (t : Execution)
            → Shows (medium A.state A.holds A.IS_MIRRORED) self t
            → Shows (medium A.state A.holds A.IS_MIRRORED) w
            (followed (followed t (ticks self.members)) (ballots self.members))) }
        ensures members { IfOk result (λ w. w.members ≡ self.members) }
        ensures bad { IfBadEvent result (λ _. (t : Execution)
            → Shows (medium A.state A.holds A.IS_MIRRORED) self t → ⊥) }
    {
        let ticks = ticks(self.world.alloc, &self.world.members)?;
        let ballots = ballots(self.world.alloc, &self.world.members)?;
        self.follow(ticks)?.follow(ballots)
    }

    /// The messages from this number on that are delivered, in order of sending.
    fn deliveries(&self, since: usize, delivered: Delivered<'_>) -> Result<Events, NoMemory>
        ensures are { IfOk result (λ events.
            events ≡ deliveries (is_delivered delivered.entry) since self.now.messages) }
        ensures range { IfOk result (λ events. All IsQuiet events) }
    {
        let mut events = Events::new(self.world.alloc);
        for number in since..self.world.messages.len() {
            if delivered.has(&self.world.messages[number]) {
                events.push(event_of(What::Deliver(number as u64)))?;
            }
        }
        Ok(events)
    }

    /// These events, in order, each of which can come.
    fn follow(self, events: Events) -> Result<World<A>, RunFail>
        requires calm { IsCalm self }
        requires quiet { All IsQuiet events }
        requires possible { (t : Execution) → Shows (medium A.state A.holds A.IS_MIRRORED) self t
            → ArePossibleFrom self.ids t.world events }
        ensures after { IfOk result (λ w. (t : Execution)
            → Shows (medium A.state A.holds A.IS_MIRRORED) self t
            → Shows (medium A.state A.holds A.IS_MIRRORED) w (followed t events)) }
        ensures calm { IfOk result (λ w. IsCalm w) }
        ensures members { IfOk result (λ w. w.members ≡ self.members) }
        ensures ids { IfOk result (λ w. w.ids ≡ self.ids) }
        ensures bad { IfBadEvent result (λ _. (t : Execution)
            → Shows (medium A.state A.holds A.IS_MIRRORED) self t → ⊥) }
    {
        let _kept = &self.world;
        let mut world = self;
        for event in events.into_vec() {
            world = world.event(event)?;
        }
        Ok(world)
    }
}
