//! A node takes one input, or is opened again.
ghost use Rattle.std.specs.Prelude.{◌≡◌, ◌≢◌, ◌≤◌, ◌<◌, ◌+◌, true, false, List, ◌∷◌, ◌++◌, length, vec_len, vec_capacity, All, IfOk, IfSome};
ghost use Rattle.op_types.specs.declared.events.Input as events;
ghost use Rattle.op_types.specs.declared.events.Input.TheVariants.{Tick};
ghost use Rattle.op_serving.specs.Cores as cores;
ghost use Rattle.op_serving.specs.Fates.{Steps};
ghost use Rattle.op_serving.specs.Ranges.{InputInRange, GivenInRange};
ghost use Rattle.op_serving.specs.declared.node.StepFail.TheVariants as fails;
ghost use Rattle.op_core.specs.Disks.{StepStores};
ghost use Rattle.op_core.specs.Groups as groups;
ghost use Rattle.op_core.specs.Groups.{EndsAs, GoesOn, IsAlone, ToldInRange};
ghost use Rattle.op_node.specs.Nodes.{node_of};
ghost use Rattle.op_command.specs.Ranges.{OutcomeInRange};
ghost use Rattle.op_bounds.specs.Messages.{OutcomeInRange as IsOutcomeOf};
ghost use Rattle.op_types.specs.Ranges.{IsPid};
ghost use Rattle.op_core.specs.NodeCores.{IsServable, standing_of};

use crate::end::End;
use crate::handing::{count_fits, hand_on, hand_on_again};
use crate::node_core::NodeCore;
use op_node::StepFail as NodeFail;
use op_outside::Disk;
use op_serving::{Given, StepFail};
use op_types::Input;

/// Whether a node is opened again at this input.
fn reopens<D: Disk>(core: &NodeCore<D>, input: &Input) -> bool
    ensures { result ≡ cores.reopens (standing_of D.state core.now) input.now }
{
    match input {
        Input::Tick => core.node.failed().is_some(),
        Input::Deliver(_, _)
        | Input::Commands(_)
        | Input::Stop(_)
        | Input::TrimNow
        | Input::Read(_)
        | Input::Up(_)
        | Input::Down(_) => false,
    }
}

/// One input: a step, or an opening of a node that failed.
pub fn step_one<D: Disk>(core: &mut NodeCore<D>, input: Input) -> Result<Given, StepFail>
    requires ready { IsServable core.old.node }
    requires range { InputInRange input }
    ensures steps { Steps (standing_of D.state) (StepStores D.state) core.old input result core.new }
    ensures given { IfOk result GivenInRange }
    ensures ready { IsServable core.new.node }
{
    if reopens(core, &input) {
        open_again(core)
    } else {
        step(core, input)
    }
}

/// A node that failed is opened again in place of a tick.
fn open_again<D: Disk>(core: &mut NodeCore<D>) -> Result<Given, StepFail>
    requires ready { IsServable core.old.node }
    requires failed { cores.reopens (standing_of D.state core.old) Tick ≡ true }
    ensures steps { Steps (standing_of D.state) (StepStores D.state) core.old Tick result core.new }
    ensures given { IfOk result GivenInRange }
    ensures ready { IsServable core.new.node }
{
    hand_on_again(core.node.restart())
}

/// A step of a node that isn't opened again at it.
fn step<D: Disk>(core: &mut NodeCore<D>, input: Input) -> Result<Given, StepFail>
    requires ready { IsServable core.old.node }
    requires range { InputInRange input }
    requires stays { cores.reopens (standing_of D.state core.old) input ≡ false }
    ensures steps { Steps (standing_of D.state) (StepStores D.state) core.old input result core.new }
    ensures given { IfOk result GivenInRange }
    ensures ready { IsServable core.new.node }
{
    core.note_place();
    let done = core.node.step(input);
    done_fits(&done);
    hand_on(done)
}

/// The count of faults in what a step gives out fits its type.
fn done_fits(done: &Result<Given, NodeFail>)
    ensures { IfOk done.now (λ g. IfSome g.outcome (IsOutcomeOf IsPid) → IfSome g.outcome OutcomeInRange) }
{
    if let Ok(given) = done {
        count_fits(&given.outcome);
    }
}

/// One input among several, which is stored by itself.
pub fn step_alone<D: Disk>(
    core: &mut NodeCore<D>,
    input: Input,
    results: &mut Vec<Result<Given, StepFail>>,
) -> End
    requires alone { IsAlone (node_of core.old.node) input }
    requires ready { IsServable core.old.node }
    requires range { InputInRange input }
    requires room { vec_len results.old < vec_capacity results.old }
    ensures goes { (rest : List events.Input) → GoesOn D.state (EndsAs result) core.old (input ∷ rest) rest
        results.old.items results.new.items core.new }
    ensures given { All ToldInRange results.old.items → All ToldInRange results.new.items }
    ensures room { (vec_len results.new ≡ vec_len results.old + 1)
        × (vec_capacity results.new ≡ vec_capacity results.old) }
    ensures ready { IsServable core.new.node }
{
    let result = step_one(core, input);
    let end = end_of(&result);
    results.push_reserved(result);
    end
}

/// How one input ended.
fn end_of(told: &Result<Given, StepFail>) -> End
    ensures { result ≡ groups.end_of told.now }
{
    match told {
        Ok(_) | Err(StepFail::Damaged) => End::Settled,
        Err(StepFail::DiskFail { .. }) => End::Broke,
        Err(StepFail::NoMemory) => End::Lost,
    }
}
