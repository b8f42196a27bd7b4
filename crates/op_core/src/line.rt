ghost use Rattle.std.specs.Prelude.{◌≡◌, ◌≤◌, length, IfOk, IfSome};
ghost use Rattle.op_types.specs.Changes.{closed_len};
ghost use Rattle.op_types.specs.Limits.{positions_end};
ghost use Rattle.op_command.specs.Ranges.{most_line_bytes};
ghost use Rattle.op_runs.specs.Summary.{closed_at, joining_conf, stands_at};
ghost use Rattle.op_serving.specs.Cores.{untrimmed_in};
ghost use Rattle.op_core.specs.NodeCores.{line_text};

use op_runs::NodeLine;
use op_text::node_line;
use op_types::{Blob, Closed, ConfNo, Durable, NoMemory};
use std::alloc::Global;

/// The longest line of a node that a reply has room for.
const MOST_LINE_BYTES: usize = 65_535;

/// The line of a report as a reply has room for it, without its end. A longer one finds no memory.
#[tactic(auto, unfolding(crate::specs::NodeCores::line_text))]
pub fn short_line(alloc: Global, line: &NodeLine) -> Result<Blob, NoMemory>
    ensures is { IfOk result (λ text. text ≡ line_text line.now) }
    ensures fits { IfOk result (λ text. length text ≤ most_line_bytes) }
{
    let mut text = node_line(alloc, line)?;
    text.truncate(text.len().saturating_sub(1));
    if text.len() > MOST_LINE_BYTES {
        return Err(NoMemory);
    }
    Blob::from_vec(text)
}

/// The part's configuration, or else that of the closed list, how much of it is decided, and how much is
/// trimmed.
pub fn place(durable: &Durable) -> Option<(ConfNo, u64, u64)>
    requires { IfSome durable.now.closed (λ l. closed_len l ≤ positions_end) }
    ensures { result ≡ stands_at durable.now.part durable.now.closed }
{
    match &durable.part {
        Some(part) => Some((part.conf, part.decided, part.trimmed)),
        None => closed_place(&durable.closed),
    }
}

/// All of a closed list is decided.
fn closed_place(closed: &Option<Closed>) -> Option<(ConfNo, u64, u64)>
    requires { IfSome closed.now (λ l. closed_len l ≤ positions_end) }
    ensures { result ≡ closed_at closed.now }
{
    let closed = closed.as_ref()?;
    let len = closed.trimmed + closed.tail.len() as u64;
    Some((closed.conf, len, closed.trimmed))
}

/// How many of the entries that are decided in the node's part are not trimmed.
pub fn untrimmed(durable: &Durable) -> u64
    ensures { result ≡ untrimmed_in durable.now.part }
{
    match &durable.part {
        Some(part) => part.decided.saturating_sub(part.trimmed),
        None => 0,
    }
}

/// The configuration that the node joins.
pub fn joins(durable: &Durable) -> Option<ConfNo>
    ensures { result ≡ joining_conf durable.now.joining }
{
    let joining = durable.joining.as_ref()?;
    Some(joining.conf)
}
