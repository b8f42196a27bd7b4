//! What a step gave, as what is sent and reported.
ghost use Rattle.std.specs.Prelude.{◌≡◌, ◌++◌, IfOk, OnOk};
ghost use Rattle.op_replay_nodes.specs.Became.{given_lines};

use op_executions::{Done, push_step_lines};
use op_node::Given;
use op_runs::Lines;
use op_types::{NoMemory, Pid, Sends};
use std::alloc::Global;

/// Adds the lines of a step at a node, said in this line of the schedule, that gave this, and gives the
/// messages.
#[inline(always)]
pub fn tell_given(pid: Pid, line: u64, given: Given, lines: &mut Lines) -> Result<Sends, NoMemory>
    ensures sends { IfOk result (λ sends. sends ≡ given.sends) }
    ensures lines { OnOk result (lines.new ≡ lines.old ++ given_lines pid line given) }
{
    push_step_lines(
        lines,
        line,
        pid,
        given.outcome,
        given.replies,
        given.read_replies,
    )?;
    Ok(given.sends)
}

/// The same messages and lines, as what was done.
pub fn done_by(alloc: Global, pid: Pid, line: u64, given: Given) -> Result<Done, NoMemory>
    ensures { IfOk result (λ done. done ≡ record { sends = given.sends; told = given_lines pid line given }) }
{
    let mut told = Lines::new(alloc);
    let sends = tell_given(pid, line, given, &mut told)?;
    Ok(Done { sends, told })
}
