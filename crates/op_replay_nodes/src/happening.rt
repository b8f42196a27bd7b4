//! What is done at a node.
ghost use Rattle.std.specs.Prelude.{◌≡◌, ℕ, true, false, IfOk, OnOk};
ghost use Rattle.op_types.specs.Ranges.{MembersInRange};
ghost use Rattle.op_areas.specs.Media.{medium};
ghost use Rattle.op_node.specs.Nodes.{node_of};
ghost use Rattle.op_runs.specs.World as runs;
ghost use Rattle.op_executions.specs.Deeds.{told_of};
ghost use Rattle.op_executions.specs.Servers.{CanDo, IsDoneAt, IsToldAt};
ghost use Rattle.op_replay_nodes.specs.Became.{GoesOnKilled, GoesOnPlanned, HasAdopted, IsLeftDown, IsNotUp, TellsIn};
ghost use Rattle.op_replay_nodes.specs.Disks.{IsClosedAs};
ghost use Rattle.op_replay_nodes.specs.Plans.{is_quiet};
ghost use Rattle.op_replay_nodes.specs.Nodes.{area_nodes, kind_of, GoesOn, IsKept};

use crate::awaited::{Awaited, Planned};
use crate::became::{Became, opened_any, step_told};
use crate::disks::{Areas, armed_state, closed_node, left_of, open_areas};
use crate::given::{done_by, tell_given};
use crate::node_state::{DownNode, NodeState, WorldNode};
use crate::opening::open_node;
use crate::plan::Plan;
use crate::told::{Faults, Which, killing};
use op_areas::{Area, Arming};
use op_chain::empty_durable;
use op_executions::{Doing, Done, Server, Told, ballot_lines, pair_lines};
use op_node::Node;
use op_plans::{let_go, put, starved};
use op_runs::Lines;
use op_types::{Input, Members, NoMemory, Pid, Sends};
use std::alloc::Global;
use std::mem::replace;

/// How many steps the disks of a node that is up keep the calls of: they forget them all at once, so that
/// most steps move no disk.
const MOST_KEPT_STEPS: u8 = 250;

impl<A: Area> Server for WorldNode<A, A::Copies> {
    /// What becomes of a step or an opening is said by what awaits the node.
    type Fate = ();

    ghost kind = { area_nodes (medium A.state A.holds A.IS_MIRRORED) };

    fn first(
        alloc: Global,
        pid: Pid,
        members: &Members,
        observes: bool,
    ) -> Result<WorldNode<A, A::Copies>, NoMemory> {
        let first = A::empty(alloc)?;
        let second = A::empty(alloc)?;
        let Areas::Opened(first, second) = open_areas::<A>(alloc, first, second)? else {
            return Err(NoMemory);
        };
        let Ok((node, _)) = open_node(alloc, pid, members, observes, first, second) else {
            return Err(NoMemory);
        };
        Ok(WorldNode {
            pid,
            observes,
            state: NodeState::Up(node),
            plan: Plan::NONE,
            is_due: false,
            kept_steps: 0,
        })
    }

    fn happens(
        &mut self,
        alloc: Global,
        members: &Members,
        doing: Doing,
        _fate: (),
        line: u64,
        lines: &mut Lines,
    ) -> Result<Sends, NoMemory> {
        self.is_due = false;
        match doing {
            Doing::Steps(input) => self.step(alloc, input, line, lines),
            Doing::Stops => self.stop(alloc)?.tell(lines),
            Doing::Opens => self.open(alloc, members)?.tell(lines),
            Doing::Tells(told) => self.tell(alloc, told)?.tell(lines),
        }
    }
}

impl<A: Area> WorldNode<A, A::Copies> {
    /// A step, if it is up.
    #[inline(always)]
    fn step(
        &mut self,
        alloc: Global,
        input: Input,
        line: u64,
        lines: &mut Lines,
    ) -> Result<Sends, NoMemory>
        requires can { CanDo (area_nodes (medium A.state A.holds A.IS_MIRRORED)) self.old (runs.Steps input) }
        requires due { self.old.is_due ≡ false }
        ensures { IfOk result (λ sends.
            IsToldAt (area_nodes (medium A.state A.holds A.IS_MIRRORED)) tt self.old (runs.Steps input) line
            self.new sends lines.old lines.new) }
    {
        if self.plan.is_quiet(A::IS_MIRRORED) {
            return self.step_plainly(alloc, input, line, lines);
        }
        self.step_awaited(alloc, input, line)?.tell(lines)
    }

    /// A step that nothing awaits, of a node none of whose areas is lost. One that fails found no memory.
    #[inline(always)]
    fn step_plainly(
        &mut self,
        alloc: Global,
        input: Input,
        line: u64,
        lines: &mut Lines,
    ) -> Result<Sends, NoMemory>
        requires can { CanDo (area_nodes (medium A.state A.holds A.IS_MIRRORED)) self.old (runs.Steps input) }
        requires due { self.old.is_due ≡ false }
        requires plain { is_quiet A.IS_MIRRORED self.old.plan ≡ true }
        ensures { IfOk result (λ sends.
            IsToldAt (area_nodes (medium A.state A.holds A.IS_MIRRORED)) tt self.old (runs.Steps input) line
            self.new sends lines.old lines.new) }
    {
        let NodeState::Up(node) = &mut self.state else {
            return self.refuse(alloc, input, line)?.tell(lines);
        };
        let Ok(given) = node.step(input) else {
            return Err(NoMemory);
        };
        let sends = tell_given(self.pid, line, given, lines)?;
        self.forget_in_time(alloc)?;
        Ok(sends)
    }

    /// A step in which the node may stop, or a call may fail, if it is up.
    #[inline(never)]
    fn step_awaited(&mut self, alloc: Global, input: Input, line: u64) -> Result<Done, NoMemory>
        requires can { CanDo (area_nodes (medium A.state A.holds A.IS_MIRRORED)) self.old (runs.Steps input) }
        requires due { self.old.is_due ≡ false }
        ensures { IfOk result (λ r.
            IsDoneAt (area_nodes (medium A.state A.holds A.IS_MIRRORED)) tt self.old (runs.Steps input) line
            self.new r.sends r.told) }
    {
        let Ok(empty) = nothing::<A>(alloc) else {
            return Err(starved(input));
        };
        match replace(&mut self.state, empty) {
            NodeState::Up(node) => {
                let became = step_told(alloc, self.pid, node, input, self.plan, line)?;
                self.adopt(alloc, became)
            }
            state => {
                put(&mut self.state, state);
                self.refuse(alloc, input, line)
            }
        }
    }

    /// A step of one that isn't up: it refuses what is proposed, if it failed.
    #[inline(never)]
    fn refuse(&mut self, alloc: Global, input: Input, line: u64) -> Result<Done, NoMemory>
        requires can { CanDo (area_nodes (medium A.state A.holds A.IS_MIRRORED)) self.old (runs.Steps input) }
        requires due { self.old.is_due ≡ false }
        requires down { IsNotUp self.old.state }
        ensures { IfOk result (λ r.
            IsDoneAt (area_nodes (medium A.state A.holds A.IS_MIRRORED)) tt self.old (runs.Steps input) line
            self.new r.sends r.told) }
    {
        let NodeState::Failed(node) = &mut self.state else {
            let_go(input);
            return Ok(Done::nothing(alloc));
        };
        let Ok(given) = node.step(input) else {
            return Err(NoMemory);
        };
        done_by(alloc, self.pid, line, given)
    }

    /// Goes on as it became by a step or an opening that was awaited.
    #[inline(never)]
    fn adopt(&mut self, alloc: Global, became: Became<A, A::Copies>) -> Result<Done, NoMemory>
        ensures { IfOk result (HasAdopted (medium A.state A.holds A.IS_MIRRORED) became self.old self.new) }
    {
        let Became {
            state,
            sends,
            told,
            is_due,
        } = became;
        put(&mut self.state, state);
        self.plan.awaited = Awaited::Nothing;
        self.is_due = is_due;
        self.forget_in_time(alloc)?;
        Ok(Done { sends, told })
    }

    /// Counts a step, and lets the disks of a node that is up forget their calls once they keep those of so
    /// many.
    #[inline(always)]
    fn forget_in_time(&mut self, alloc: Global) -> Result<(), NoMemory>
        ensures { OnOk result (GoesOn (medium A.state A.holds A.IS_MIRRORED) self.old self.new) }
    {
        if self.kept_steps < MOST_KEPT_STEPS {
            self.kept_steps += 1;
            return Ok(());
        }
        self.kept_steps = 0;
        if let NodeState::Down(_) = &self.state {
            return Ok(());
        }
        self.arm(alloc, Arming::Forget, Arming::Forget)
    }

    /// Stops between two steps: what a crash leaves of its disks is left, and nothing awaits it any more.
    #[inline(never)]
    fn stop(&mut self, alloc: Global) -> Result<Done, NoMemory>
        requires kept { IsKept (medium A.state A.holds A.IS_MIRRORED) (kind_of self.old) self.old.pid
            self.old.state }
        requires due { self.old.is_due ≡ false }
        ensures { IfOk result (λ r. (line : ℕ)
            → IsDoneAt (area_nodes (medium A.state A.holds A.IS_MIRRORED)) tt self.old runs.Stops line
            self.new r.sends r.told) }
    {
        let state = replace(&mut self.state, nothing::<A>(alloc)?);
        let left = left_of_state::<A>(alloc, state)?;
        put(&mut self.state, NodeState::Down(left));
        self.plan.awaited = Awaited::Nothing;
        Ok(Done::nothing(alloc))
    }

    /// Is opened, if it isn't up.
    #[inline(never)]
    fn open(&mut self, alloc: Global, members: &Members) -> Result<Done, NoMemory>
        requires members { MembersInRange members.now }
        requires can { CanDo (area_nodes (medium A.state A.holds A.IS_MIRRORED)) self.old runs.Opens }
        requires due { self.old.is_due ≡ false }
        ensures { IfOk result (λ r. (line : ℕ)
            → IsDoneAt (area_nodes (medium A.state A.holds A.IS_MIRRORED)) tt self.old runs.Opens line
            self.new r.sends r.told) }
    {
        if let NodeState::Up(_) = &self.state {
            return Ok(Done::nothing(alloc));
        }
        let state = replace(&mut self.state, nothing::<A>(alloc)?);
        let became = opened_any(alloc, self.pid, members, self.observes, state, self.plan)?;
        self.adopt(alloc, became)
    }

    /// From now on this is planned for its disks.
    #[inline(never)]
    pub fn plan_on(&mut self, alloc: Global, planned: Planned) -> Result<(), NoMemory>
        ensures { OnOk result
            (GoesOnPlanned (medium A.state A.holds A.IS_MIRRORED) planned self.old self.new) }
    {
        match planned {
            Planned::Awaits(awaited) => {
                self.plan.awaited = awaited;
                Ok(())
            }
            Planned::Kills(disk) => self.kill(alloc, disk),
        }
    }

    /// This disk of it is killed.
    fn kill(&mut self, alloc: Global, disk: u8) -> Result<(), NoMemory>
        ensures { OnOk result (GoesOnKilled (medium A.state A.holds A.IS_MIRRORED) disk self.old self.new) }
    {
        let first = killing(Which::First, disk);
        let second = killing(Which::Second, disk);
        self.arm(alloc, first, second)?;
        self.plan.killed = self.plan.killed.with(disk);
        Ok(())
    }

    /// Arms its areas so, or their copies.
    #[inline(never)]
    fn arm(&mut self, alloc: Global, first: Arming, second: Arming) -> Result<(), NoMemory>
        ensures { OnOk result (GoesOn (medium A.state A.holds A.IS_MIRRORED) self.old self.new) }
    {
        let state = replace(&mut self.state, nothing::<A>(alloc)?);
        let armed = armed_state(state, first, second)?;
        put(&mut self.state, armed);
        Ok(())
    }

    /// Tells this, if it isn't down.
    #[inline(never)]
    fn tell(&self, alloc: Global, told: Told) -> Result<Done, NoMemory>
        requires kept { IsKept (medium A.state A.holds A.IS_MIRRORED) (kind_of self.now) self.now.pid
            self.now.state }
        requires due { self.now.is_due ≡ false }
        ensures { IfOk result (λ r. (line : ℕ)
            → IsDoneAt (area_nodes (medium A.state A.holds A.IS_MIRRORED)) tt self.now
            (runs.Tells (told_of told)) line self.now r.sends r.told) }
    {
        let told = told_in::<A>(alloc, self.pid, &self.state, told)?;
        Ok(Done {
            sends: Sends::new(alloc),
            told,
        })
    }
}

/// What stands in the place of a node while that is taken out: one that is down.
fn nothing<A: Area>(alloc: Global) -> Result<NodeState<A, A::Copies>, NoMemory>
    ensures { IfOk result IsNotUp }
{
    let first = A::empty(alloc)?;
    let second = A::empty(alloc)?;
    Ok(NodeState::Down(DownNode {
        shown: empty_durable(),
        first,
        second,
    }))
}

/// What a stop between two steps leaves.
fn left_of_state<A: Area>(
    alloc: Global,
    state: NodeState<A, A::Copies>,
) -> Result<DownNode<A::Copies>, NoMemory>
    ensures { IfOk result (IsLeftDown (medium A.state A.holds A.IS_MIRRORED) state) }
{
    match state {
        NodeState::Up(node) => left_of_node(alloc, node),
        NodeState::Failed(node) => left_of_node(alloc, node),
        NodeState::Down(down) => {
            let faults = Faults {
                first: A::faults_of(&down.first),
                second: A::faults_of(&down.second),
            };
            left_of::<A>(alloc, down, faults.stops_between())
        }
    }
}

/// What a stop between two steps leaves of a node.
fn left_of_node<A: Area>(alloc: Global, node: Node<A>) -> Result<DownNode<A::Copies>, NoMemory>
    ensures { IfOk result (IsClosedAs A.state A.holds
        (node_of node).state.durable node.store.first node.store.second) }
{
    let (closed, faults) = closed_node(node)?;
    left_of::<A>(alloc, closed, faults.stops_between())
}

/// The lines of what a node in this state tells.
fn told_in<A: Area>(
    alloc: Global,
    me: Pid,
    state: &NodeState<A, A::Copies>,
    told: Told,
) -> Result<Lines, NoMemory>
    ensures { IfOk result (TellsIn me (told_of told) state.now) }
{
    match state {
        NodeState::Up(node) => told_lines(alloc, me, node, told),
        NodeState::Failed(node) => told_lines(alloc, me, node, told),
        NodeState::Down(_) => Ok(Lines::new(alloc)),
    }
}

/// The lines of what a node tells that isn't down.
fn told_lines<A: Area>(
    alloc: Global,
    me: Pid,
    node: &Node<A>,
    told: Told,
) -> Result<Lines, NoMemory>
    ensures { IfOk result (λ lines. let s = (node_of node.now).state in
        lines ≡ runs.told_lines (told_of told) me s s.durable.part) }
{
    match told {
        Told::Pairs => pair_lines(alloc, me, node.pairs()),
        Told::Ballots => ballot_lines(alloc, me, node.ballots()),
    }
}
