ghost use Rattle.std.specs.Prelude.{◌≡◌, ◌++◌, ◌∷◌, [], List, map, All, IfSome, IfOk, OnOk};
ghost use Rattle.op_areas.specs.Media.{medium};
ghost use Rattle.op_record.specs.Ranges.{ClosedInRange};
ghost use Rattle.op_protocol.specs.Configurations.{latest_of};
ghost use Rattle.op_runs.specs.World.{Votes};
ghost use Rattle.op_runs.specs.Possible.{kind_if};
ghost use Rattle.op_runs.specs.Schedules.{Seated};
ghost use Rattle.op_runs.specs.Summary.{greatest_conf, stands_at, joining_conf, node_line};
ghost use Rattle.op_executions.specs.Worlds.{seated_as};
ghost use Rattle.op_world.specs.Worlds.{ShowsSeated, ShowSeated, greatest_with, line_of};

use op_areas::Area;
use op_replay_nodes::{NodeState, WorldNode};
use op_runs::{NodeLine, NodeLines, Running};
use op_types::{ConfNo, Durable, NoMemory, Pid};
use std::alloc::Global;

/// What servers leave to be reported of themselves.
#[derive(Drop)]
pub struct Standing {
    /// The greatest configuration that one of them that votes knows.
    pub latest: ConfNo,
    /// Where each of them stands.
    pub lines: NodeLines,
}

impl Standing {
    /// Where these servers stand.
    pub fn of_nodes<A: Area>(
        alloc: Global,
        nodes: &[WorldNode<A, A::Copies>],
    ) -> Result<Standing, NoMemory>
        requires { (xs : List Seated) × ShowSeated (medium A.state A.holds A.IS_MIRRORED) nodes.now xs
            × All (λ x. IfSome x.node.state.durable.closed ClosedInRange) xs }
        ensures { IfOk result (λ s. (xs : List Seated)
            → ShowSeated (medium A.state A.holds A.IS_MIRRORED) nodes.now xs
            → (s.latest ≡ greatest_conf (seated_as Votes xs)) × (s.lines ≡ map (λ x. node_line x.node) xs)) }
    {
        let mut standing = Standing {
            latest: 0,
            lines: NodeLines::new(alloc),
        };
        'nodes: for node in nodes {
            standing.add_node::<A>(node)?;
        }
        Ok(standing)
    }

    /// Adds a server: one that isn't up is told with what it had stored before the step in which it stopped
    /// or failed.
    fn add_node<A: Area>(&mut self, node: &WorldNode<A, A::Copies>) -> Result<(), NoMemory>
        requires { (x : Seated) × ShowsSeated (medium A.state A.holds A.IS_MIRRORED) node.now x
            × IfSome x.node.state.durable.closed ClosedInRange }
        ensures latest { OnOk result ((x : Seated)
            → ShowsSeated (medium A.state A.holds A.IS_MIRRORED) node.now x
            → self.new.latest ≡ greatest_with x.kind self.old.latest x.node.state.durable) }
        ensures lines { OnOk result ((x : Seated)
            → ShowsSeated (medium A.state A.holds A.IS_MIRRORED) node.now x
            → self.new.lines ≡ self.old.lines ++ node_line x.node ∷ []) }
    {
        let WorldNode { pid, observes, .. } = node;
        match &node.state {
            NodeState::Up(node) => self.add(*pid, *observes, Running::Up, node.shown()),
            NodeState::Failed(node) => self.add(*pid, *observes, Running::Failed, node.shown()),
            NodeState::Down(down) => self.add(*pid, *observes, Running::Down, &down.shown),
        }
    }

    /// Adds a server that observes or votes, runs so and has stored this.
    fn add(
        &mut self,
        pid: Pid,
        observes: bool,
        running: Running,
        durable: &Durable,
    ) -> Result<(), NoMemory>
        requires { IfSome durable.now.closed ClosedInRange }
        ensures latest { OnOk result
            (self.new.latest ≡ greatest_with (kind_if observes) self.old.latest durable.now) }
        ensures lines { OnOk result
            (self.new.lines ≡ self.old.lines ++ line_of pid running durable.now ∷ []) }
    {
        if !observes {
            self.latest = self.latest.max(latest(durable));
        }
        self.lines.push(NodeLine {
            pid,
            at: place(durable),
            joining: joining_conf(durable),
            running,
        })?;
        Ok(())
    }
}

/// The latest configuration that a node knows that has stored this; 0 at a spare.
fn latest(durable: &Durable) -> ConfNo
    requires { IfSome durable.now.closed ClosedInRange }
    ensures { result ≡ latest_of durable.now }
{
    match (&durable.part, &durable.closed) {
        (Some(part), _) => part.conf,
        (None, Some(closed)) => closed.conf + 1,
        (None, None) => 0,
    }
}

/// The configuration of its part, or else of its closed list, with what is decided and trimmed there.
fn place(durable: &Durable) -> Option<(ConfNo, u64, u64)>
    requires { IfSome durable.now.closed ClosedInRange }
    ensures { result ≡ stands_at durable.now.part durable.now.closed }
{
    match (&durable.part, &durable.closed) {
        (Some(part), _) => Some((part.conf, part.decided, part.trimmed)),
        (None, Some(closed)) => {
            let len = closed.trimmed + closed.tail.len() as u64;
            Some((closed.conf, len, closed.trimmed))
        }
        (None, None) => None,
    }
}

/// The configuration that it joins.
fn joining_conf(durable: &Durable) -> Option<ConfNo>
    ensures { result ≡ joining_conf durable.now.joining }
{
    match &durable.joining {
        Some(joining) => Some(joining.conf),
        None => None,
    }
}
