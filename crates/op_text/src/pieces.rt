//! Answers and nodes, each as a text of its own.
ghost use Rattle.std.specs.Prelude.{◌≡◌, IfOk};
ghost use Rattle.op_text.specs.Answers.{answer_text, outcome_text};
ghost use Rattle.op_text.specs.Nodes.{node_text};

use crate::answers::{put_answer, put_outcome};
use crate::nodes::NodeText;
use op_runs::NodeLine;
use op_types::{Answer, NoMemory, Outcome};
use std::alloc::Global;

/// A node's line of the report, with its end. `NoMemory` comes only where the allocator has none.
pub fn node_line(alloc: Global, line: &NodeLine) -> Result<Vec<u8>, NoMemory>
    ensures { IfOk result (λ text. text.items ≡ node_text line.now) }
{
    Ok(format!(in alloc; "{}", NodeText(*line))?.into_bytes())
}

/// What the service answers a command, as the report's `reply` lines have it. `NoMemory` comes only where the
/// allocator has none.
pub fn answer_text(alloc: Global, answer: &Answer) -> Result<Vec<u8>, NoMemory>
    ensures { IfOk result (λ text. text.items ≡ answer_text answer.now) }
{
    let mut text = Vec::new(alloc);
    put_answer(&mut text, answer)?;
    Ok(text)
}

/// What a proposal is answered at once, as the report's `answer` lines have it. `NoMemory` comes only where
/// the allocator has none.
pub fn outcome_text(alloc: Global, outcome: &Outcome) -> Result<Vec<u8>, NoMemory>
    ensures { IfOk result (λ text. text.items ≡ outcome_text outcome.now) }
{
    let mut text = Vec::new(alloc);
    put_outcome(&mut text, outcome)?;
    Ok(text)
}
