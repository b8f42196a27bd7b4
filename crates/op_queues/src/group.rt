ghost use Rattle.std.specs.Prelude.{◌≡◌, ◌≤◌, ◌+◌, ◌++◌, [], length, map, vec_capacity, All, IfSome};
ghost use Rattle.std.specs.VecDeque.{deque_capacity};
ghost use Rattle.op_serving.specs.Ranges.{InputInRange, WantedInRange};
ghost use Rattle.op_serving.specs.Inputs.{as_delivery, as_one};
ghost use Rattle.op_queues.specs.Gathering.{AskWithLast, RunInRange, as_inputs};

use crate::asked::asked_by;
use crate::gathered::{Gathered, Results};
use crate::run::Run;
use op_outside::Conn;
use op_serving::Wanted;
use op_types::{Input, Msg, Pid};
use std::collections::VecDeque;
use std::marker::Model;

/// What was gathered and is given together, as inputs, each with the connections whose frames it was: first
/// the messages, and then the commands as one input.
#[derive(Drop)]
pub struct Group {
    gathered: Gathered,
}

impl Model for Group {
    ghost use Rattle.std.specs.Prelude.{List};
    ghost use Rattle.op_serving.specs.Inputs.{Brought};
    ghost use Rattle.op_queues.specs.Gathering.{as_inputs};

    ghost Value = { List Brought };

    ghost view = { λ g. as_inputs g.gathered };
}

impl Group {
    /// All that was gathered.
    pub fn new(gathered: Gathered) -> Group
        ensures { result ≡ as_inputs gathered }
    {
        Group { gathered }
    }

    /// The inputs in order, no results with room for one of each, and what clients asked for with the last
    /// input. This takes no memory.
    pub fn into_parts(self) -> (VecDeque<Input>, Results, Option<Wanted>)
        ensures inputs { result.0.items ≡ map (λ b. b.1) self }
        ensures none { result.1.items ≡ [] }
        ensures room { length self ≤ vec_capacity result.1 }
        ensures asked { AskWithLast self result.2 }
        ensures range { All InputInRange result.0.items }
        ensures wanted { IfSome result.2 WantedInRange }
    {
        let (messages, commands, mut inputs, results) = self.gathered.into_parts();
        deliver(&mut inputs, messages);
        let wanted = propose(&mut inputs, commands);
        (inputs, results, wanted)
    }
}

/// Messages are inputs, in their order.
fn deliver(inputs: &mut VecDeque<Input>, messages: Vec<(Conn, (Pid, Msg))>)
    requires { length inputs.old.items + length messages.items ≤ deque_capacity inputs.old }
    ensures items { inputs.new.items ≡ inputs.old.items ++ map (λ b. b.1) (map as_delivery messages.items) }
    ensures room { deque_capacity inputs.new ≡ deque_capacity inputs.old }
{
    for (_conn, (from, message)) in messages {
        inputs.push_back_reserved(Input::Deliver(from, message));
    }
}

/// Commands are one input, if there are any. Gives what clients asked for with it.
fn propose(inputs: &mut VecDeque<Input>, commands: Run) -> Option<Wanted>
    requires range { RunInRange commands }
    requires room { length inputs.old.items + length (as_one commands) ≤ deque_capacity inputs.old }
    ensures items { inputs.new.items ≡ inputs.old.items ++ map (λ b. b.1) (as_one commands) }
    ensures asked { AskWithLast (as_one commands) result }
    ensures range { IfSome result WantedInRange }
{
    if commands.len() == 0 {
        return None;
    }
    let (conns, commands) = commands.into_parts();
    let input = Input::Commands(commands);
    let wanted = asked_by(conns.as_slice(), &input);
    inputs.push_back_reserved(input);
    wanted
}
