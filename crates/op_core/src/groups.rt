//! Inputs that are taken one after the other and stored together.
ghost use Rattle.std.specs.Prelude.{◌≡◌, ◌≤◌, ◌<◌, ◌+◌, ◌-◌, ◌++◌, ◌∷◌, [], false, true, None, List, length, take, replicate, vec_len, vec_capacity, All, IsNone, MatchOption};
ghost use Rattle.op_types.specs.declared.changes.Change.{Change};
ghost use Rattle.op_types.specs.declared.durable.Durable.{Durable};
ghost use Rattle.op_node.specs.Nodes.{node_of};
ghost use Rattle.op_node.specs.Taking.{LaysOut, LeadsFrom};
ghost use Rattle.op_serving.specs.Ranges.{InputInRange};
ghost use Rattle.op_core.specs.Groups.{
  EndsAs,
  EndsSo,
  GoesOn,
  IsAlone,
  IsCalm,
  IsFull,
  LosesNext,
  StoredAs,
  TakesAll,
  ToldInRange,
  failed_with,
};
ghost use Rattle.op_core.specs.NodeCores.{IsServable};

use crate::end::End;
use crate::handing::count_fits;
use crate::node_core::NodeCore;
use crate::stepping::step_alone;
use op_node::{Node, Record};
use op_outside::Disk;
use op_serving::{Given, StepFail};
use op_types::Input;
use std::collections::VecDeque;

/// The first input is taken, and those that can be stored together with it. Tells whether the others may be
/// taken then: where a disk failed the next one is lost, as where the last one found no memory.
pub fn go_on<D: Disk>(
    core: &mut NodeCore<D>,
    first: Input,
    inputs: &mut VecDeque<Input>,
    results: &mut Vec<Result<Given, StepFail>>,
) -> bool
    requires ready { IsServable core.old.node }
    requires first { InputInRange first }
    requires range { All InputInRange inputs.old.items }
    requires room { vec_len results.old + length inputs.old.items < vec_capacity results.old }
    ensures goes { GoesOn D.state (EndsSo result inputs.new.items) core.old (first ∷ inputs.old.items)
        inputs.new.items results.old.items results.new.items core.new }
    ensures shrinks { length inputs.new.items ≤ length inputs.old.items }
    ensures given { All ToldInRange results.old.items → All ToldInRange results.new.items }
    ensures room { vec_len results.new + length inputs.new.items ≤ vec_capacity results.new }
    ensures range { All InputInRange inputs.new.items }
    ensures capacity { vec_capacity results.new ≡ vec_capacity results.old }
    ensures ready { IsServable core.new.node }
{
    match step_some(core, first, inputs, results) {
        End::Settled => true,
        End::Broke => {
            lose_next(inputs, results);
            false
        }
        End::Lost => false,
    }
}

/// The first input is taken, alone or with others.
fn step_some<D: Disk>(
    core: &mut NodeCore<D>,
    first: Input,
    inputs: &mut VecDeque<Input>,
    results: &mut Vec<Result<Given, StepFail>>,
) -> End
    requires ready { IsServable core.old.node }
    requires first { InputInRange first }
    requires range { All InputInRange inputs.old.items }
    requires room { vec_len results.old + length inputs.old.items < vec_capacity results.old }
    ensures goes { GoesOn D.state (EndsAs result) core.old (first ∷ inputs.old.items) inputs.new.items
        results.old.items results.new.items core.new }
    ensures shrinks { length inputs.new.items ≤ length inputs.old.items }
    ensures given { All ToldInRange results.old.items → All ToldInRange results.new.items }
    ensures room { vec_len results.new + length inputs.new.items ≤ vec_capacity results.new }
    ensures range { All InputInRange inputs.new.items }
    ensures capacity { vec_capacity results.new ≡ vec_capacity results.old }
    ensures ready { IsServable core.new.node }
{
    if is_alone(core, &first) {
        step_alone(core, first, results)
    } else {
        step_group(core, first, inputs, results)
    }
}

/// Whether an input is stored by itself: so is each of a node that failed, and each tick.
fn is_alone<D: Disk>(core: &NodeCore<D>, input: &Input) -> bool
    ensures alone { result ≡ true → IsAlone (node_of core.now.node) input.now }
    ensures others { result ≡ false → ((node_of core.now.node).failed ≡ None) × IsCalm input.now }
{
    core.node.failed().is_some() || matches!(input, Input::Tick)
}

/// Behind a fault the next input finds no memory, since it can't be stored with those before it.
fn lose_next(inputs: &mut VecDeque<Input>, results: &mut Vec<Result<Given, StepFail>>)
    requires room { vec_len results.old + length inputs.old.items ≤ vec_capacity results.old }
    ensures lost { LosesNext inputs.old.items inputs.new.items results.old.items results.new.items }
    ensures shrinks { length inputs.new.items ≤ length inputs.old.items }
    ensures room { vec_len results.new + length inputs.new.items ≤ vec_capacity results.new }
    ensures capacity { vec_capacity results.new ≡ vec_capacity results.old }
    ensures given { All ToldInRange results.old.items → All ToldInRange results.new.items }
    ensures range { All InputInRange inputs.old.items → All InputInRange inputs.new.items }
{
    if let Some(_lost) = inputs.pop_front() {
        results.push_reserved(Err(StepFail::NoMemory));
    }
}

/// Takes inputs of a node that is up, and stores them.
fn step_group<D: Disk>(
    core: &mut NodeCore<D>,
    first: Input,
    inputs: &mut VecDeque<Input>,
    results: &mut Vec<Result<Given, StepFail>>,
) -> End
    requires ready { IsServable core.old.node }
    requires up { (node_of core.old.node).failed ≡ None }
    requires first { InputInRange first × IsCalm first }
    requires range { All InputInRange inputs.old.items }
    requires room { vec_len results.old + length inputs.old.items < vec_capacity results.old }
    ensures goes { GoesOn D.state (EndsAs result) core.old (first ∷ inputs.old.items) inputs.new.items
        results.old.items results.new.items core.new }
    ensures shrinks { length inputs.new.items ≤ length inputs.old.items }
    ensures given { All ToldInRange results.old.items → All ToldInRange results.new.items }
    ensures room { vec_len results.new + length inputs.new.items ≤ vec_capacity results.new }
    ensures range { All InputInRange inputs.new.items }
    ensures capacity { vec_capacity results.new ≡ vec_capacity results.old }
    ensures ready { IsServable core.new.node }
{
    core.note_place();
    let Ok(mut gathered) = core.node.record() else {
        results.push_reserved(Err(StepFail::NoMemory));
        return End::Lost;
    };
    let from = results.len();
    let is_whole = take_all(&mut core.node, first, inputs, results, &mut gathered);
    let end = store(&mut core.node, gathered, from, results);
    if is_whole {
        return end;
    }
    results.push_reserved(Err(StepFail::NoMemory));
    End::Lost
}

/// Takes inputs one after the other, as many as can be stored together, up to the first that finds no memory.
/// Tells whether none did.
fn take_all<D: Disk>(
    node: &mut Node<D>,
    first: Input,
    inputs: &mut VecDeque<Input>,
    results: &mut Vec<Result<Given, StepFail>>,
    gathered: &mut Record,
) -> bool
    requires ready { IsServable node.old }
    requires up { (node_of node.old).failed ≡ None }
    requires first { InputInRange first × IsCalm first }
    requires range { All InputInRange inputs.old.items }
    requires room { vec_len results.old + length inputs.old.items < vec_capacity results.old }
    requires none { LaysOut [] gathered.old }
    ensures takes { TakesAll result node.old (first ∷ inputs.old.items) inputs.new.items results.old.items
        results.new.items gathered.new node.new }
    ensures shrinks { length inputs.new.items ≤ length inputs.old.items }
    ensures room { vec_len results.new + length inputs.new.items ≤ vec_capacity results.new }
    ensures capacity { vec_capacity results.new ≡ vec_capacity results.old }
    ensures range { All InputInRange inputs.new.items }
    ensures more { result ≡ false → vec_len results.new + length inputs.new.items < vec_capacity results.new }
{
    let mut next = first;
    'inputs: loop {
        let Ok(given) = node.take(next, gathered) else {
            return false;
        };
        count_fits(&given.outcome);
        results.push_reserved(Ok(given));
        match next_in_group(inputs, gathered) {
            Some(input) => next = input,
            None => return true,
        }
    }
}

/// The next input that is stored together with those before it. A tick never is, and none where the record
/// may be full.
fn next_in_group(inputs: &mut VecDeque<Input>, gathered: &Record) -> Option<Input>
    ensures next { MatchOption result (inputs.new.items ≡ inputs.old.items)
        (λ x. (inputs.old.items ≡ x ∷ inputs.new.items) × IsCalm x) }
    ensures full { IsNone result → (changes : List Change) → LaysOut changes gathered.now →
        IsFull changes inputs.old.items }
{
    match inputs.front() {
        None | Some(Input::Tick) => None,
        Some(_) => {
            if gathered.is_roomy() {
                inputs.pop_front()
            } else {
                None
            }
        }
    }
}

/// Stores what was taken. Where a disk fails each of the results from this place on tells it.
fn store<D: Disk>(
    node: &mut Node<D>,
    gathered: Record,
    from: usize,
    results: &mut Vec<Result<Given, StepFail>>,
) -> End
    requires ready { IsServable node.old }
    requires up { (node_of node.old).failed ≡ None }
    requires leads { (d : Durable) × (changes : List Change)
        × LeadsFrom d changes gathered (node_of node.old) }
    requires from { from ≤ vec_len results.old }
    ensures stored { (d : Durable) (changes : List Change) → LeadsFrom d changes gathered (node_of node.old) →
        StoredAs D.state result d changes from node.old node.new results.old.items results.new.items }
    ensures len { vec_len results.new ≡ vec_len results.old }
    ensures capacity { vec_capacity results.new ≡ vec_capacity results.old }
    ensures ready { IsServable node.new }
{
    match node.store(gathered) {
        Ok(_) => End::Settled,
        Err(fault) => {
            refuse(results, from, fault.count);
            End::Broke
        }
    }
}

/// Each of the results from this place on tells that a disk failed.
fn refuse(results: &mut Vec<Result<Given, StepFail>>, from: usize, count: u64)
    requires { from ≤ vec_len results.old }
    ensures items { results.new.items ≡ take from results.old.items
        ++ replicate (length results.old.items - from) (failed_with count) }
    ensures len { vec_len results.new ≡ vec_len results.old }
    ensures capacity { vec_capacity results.new ≡ vec_capacity results.old }
{
    let len = results.len();
    results.truncate(from);
    'results: while results.len() < len {
        results.push_reserved(Err(StepFail::DiskFail { count }));
    }
}
