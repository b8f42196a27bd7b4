//! The lines that are reported of what is done at a node.
ghost use Rattle.std.specs.Prelude.{◌≡◌, ◌∷◌, ◌++◌, [], map, IfOk, OnOk, option_map};
ghost use Rattle.op_chain.specs.Chains.{ballots_in, pairs_in};
ghost use Rattle.op_protocol.specs.State.{State};
ghost use Rattle.op_runs.specs.declared.summary.Line.TheVariants as said;
ghost use Rattle.op_runs.specs.World.{ThePairs, TheBallots, answer_line, outcome_lines, pair_lines, told_lines};

use op_chain::{Map, Pairs};
use op_runs::{Line, Lines};
use op_types::{Answer, Ballot, NoMemory, Outcome, Pid, Replies, Reply};
use std::alloc::Global;
use std::mem::replace;

/// Adds the lines of a step at a node, said in this line of the schedule: what a proposal is answered at
/// once, then what clients are answered, and then what reads are.
pub fn push_step_lines(
    lines: &mut Lines,
    line: u64,
    pid: Pid,
    outcome: Option<Outcome>,
    replies: Replies,
    read_replies: Replies,
) -> Result<(), NoMemory>
    ensures { OnOk result (lines.new ≡ lines.old ++ outcome_lines line outcome
        ++ map (λ r. answer_line pid r.client r.seq r.answer) replies
        ++ map (λ r. said.Read pid r.client r.seq r.answer) read_replies) }
{
    if let Some(outcome) = outcome {
        lines.push(Line::Answer(line, outcome))?;
    }
    push_answers(lines, pid, replies)?;
    push_read_answers(lines, pid, read_replies)
}

/// Adds the lines of what clients are answered.
fn push_answers(lines: &mut Lines, pid: Pid, replies: Replies) -> Result<(), NoMemory>
    ensures { OnOk result (lines.new ≡ lines.old
        ++ map (λ r. answer_line pid r.client r.seq r.answer) replies) }
{
    'replies: for reply in replies.into_vec() {
        push_answer(lines, pid, reply)?;
    }
    Ok(())
}

/// Adds the line of what a client is answered at a node.
#[inline(always)]
fn push_answer(lines: &mut Lines, pid: Pid, reply: Reply) -> Result<(), NoMemory>
    ensures { OnOk result
        (lines.new ≡ lines.old ++ answer_line pid reply.client reply.seq reply.answer ∷ []) }
{
    if let Answer::Dropped(cause) = &reply.answer {
        lines.push(Line::Dropped(pid, reply.client, reply.seq, *cause))?;
        return Ok(());
    }
    lines.push(Line::Reply(pid, reply.client, reply.seq, reply.answer))?;
    Ok(())
}

/// Adds the lines of what reads are answered.
fn push_read_answers(lines: &mut Lines, pid: Pid, replies: Replies) -> Result<(), NoMemory>
    ensures { OnOk result (lines.new ≡ lines.old
        ++ map (λ r. said.Read pid r.client r.seq r.answer) replies) }
{
    'replies: for reply in replies.into_vec() {
        let Reply {
            client,
            seq,
            answer,
        } = reply;
        lines.push(Line::Read(pid, client, seq, answer))?;
    }
    Ok(())
}

/// The lines of the pairs of a node's service, if it has a part.
pub fn pair_lines(alloc: Global, pid: Pid, service: Option<&Map>) -> Result<Lines, NoMemory>
    ensures { IfOk result (λ lines. (s : State) →
        option_map (λ m. m.now.service.pairs) service.entry ≡ pairs_in s.service s.durable.part →
        lines ≡ told_lines ThePairs pid s s.durable.part) }
{
    let mut lines = Lines::new(alloc);
    if let Some(service) = service {
        push_pairs(&mut lines, pid, service.pairs(alloc)?)?;
    }
    Ok(lines)
}

/// Adds the lines of these pairs.
fn push_pairs(lines: &mut Lines, pid: Pid, pairs: Pairs) -> Result<(), NoMemory>
    ensures { OnOk result (lines.new ≡ lines.old ++ pair_lines pid pairs) }
{
    'pairs: for (key, value) in pairs.into_vec() {
        lines.push(Line::Pair(pid, key, value))?;
    }
    Ok(())
}

/// The line of a node's ballots, if it has a part: its own, the leader's, and the promised one.
pub fn ballot_lines(
    alloc: Global,
    pid: Pid,
    ballots: Option<(Ballot, Ballot, Ballot)>,
) -> Result<Lines, NoMemory>
    ensures { IfOk result (λ lines. (s : State) → ballots ≡ ballots_in s.volatile s.durable.part →
        lines ≡ told_lines TheBallots pid s s.durable.part) }
{
    let mut lines = Lines::new(alloc);
    if let Some((own, leader, promised)) = ballots {
        lines.push(Line::Ballots(pid, own, leader, promised))?;
    }
    Ok(lines)
}

/// Adds lines.
pub fn tell_all(lines: &mut Lines, told: Lines) -> Result<(), NoMemory>
    ensures { OnOk result (lines.new ≡ lines.old ++ told) }
{
    let mut told = told.into_vec();
    let mut all = replace(lines, Lines::new(*told.allocator())).into_vec();
    all.append(&mut told)?;
    *lines = Lines::from_vec(all);
    Ok(())
}
