//! The summary of a random drill, as text.
ghost use Rattle.std.specs.Prelude.{◌≡◌, ◌++◌, IfOk, OnOk};
ghost use Rattle.std.specs.List.{flat_map};
ghost use Rattle.op_sched.specs.Summaries.{drill_line, length_line, sent_line, summary_text};

use super::put_nodes;
use op_runs::{Listed, Summary};
use op_text::put_named;
use op_types::NoMemory;
use std::alloc::Global;

/// The summary of a drill of so many events that a seed draws. `NoMemory` comes only where the allocator has
/// none.
pub fn summary_text(
    alloc: Global,
    seed: u64,
    events: u64,
    summary: &Summary,
) -> Result<Vec<u8>, NoMemory>
    ensures { IfOk result (λ text. text.items ≡ summary_text seed events summary.now) }
{
    let mut text = Vec::new(alloc);
    put_drill(&mut text, seed, events)?;
    put_lengths(&mut text, summary.lists.as_slice())?;
    put_nodes(alloc, &mut text, summary.nodes.as_slice())?;
    put_sent(&mut text, summary.sent)?;
    Ok(text)
}

/// Appends the line that names the drill.
fn put_drill(text: &mut Vec<u8>, seed: u64, events: u64) -> Result<(), NoMemory>
    ensures { OnOk result (text.new.items ≡ text.old.items ++ drill_line seed events) }
{
    put_named(text, b"drill ", seed)?;
    put_named(text, b" ", events)?;
    text.push(b'\n')?;
    Ok(())
}

/// Appends how long the list of each configuration is.
fn put_lengths(text: &mut Vec<u8>, lists: &[Listed]) -> Result<(), NoMemory>
    ensures { OnOk result (text.new.items ≡ text.old.items ++ flat_map length_line lists.now) }
{
    for listed in lists {
        put_length(text, listed)?;
    }
    Ok(())
}

/// Appends how long the list of a configuration is.
fn put_length(text: &mut Vec<u8>, listed: &Listed) -> Result<(), NoMemory>
    ensures { OnOk result (text.new.items ≡ text.old.items ++ length_line listed.now) }
{
    put_named(text, b"config ", u64::from(listed.conf))?;
    put_named(text, b" length ", listed.entries.as_slice().len() as u64)?;
    text.push(b'\n')?;
    Ok(())
}

/// Appends how many messages were sent.
fn put_sent(text: &mut Vec<u8>, sent: u64) -> Result<(), NoMemory>
    ensures { OnOk result (text.new.items ≡ text.old.items ++ sent_line sent) }
{
    put_named(text, b"sent ", sent)?;
    text.push(b'\n')?;
    Ok(())
}
