//! The report of a run, as text.
ghost use Rattle.std.specs.Prelude.{◌≡◌, ◌++◌, IfOk, OnOk};
ghost use Rattle.std.specs.List.{flat_map};
ghost use Rattle.op_text.specs.Nodes.{node_text};
ghost use Rattle.op_sched.specs.Text.{config_line, line_text, entries_text, listed_text, report_of};

mod entries;
mod lines;
mod summary;

use entries::{put_entry, put_pids};
use lines::put_line;
use op_runs::{Line, Listed, NodeLine, Summary};
use op_text::{node_line, put_named};
use op_types::{ConfNo, Entry, NoMemory, Pid};
use std::alloc::Global;
pub use summary::summary_text;

/// How many bytes a line that an event gave usually has.
const USUAL_LINE_BYTES: usize = 24;

/// How many bytes the line of an entry usually has.
const USUAL_ENTRY_BYTES: usize = 48;

/// The report of a run. `NoMemory` comes only where the allocator has none.
pub fn report(alloc: Global, summary: &Summary) -> Result<Vec<u8>, NoMemory>
    ensures { IfOk result (λ text. text.items ≡ report_of summary.now) }
{
    let mut text = Vec::with_capacity(alloc, usual_len(summary))?;
    put_lines(&mut text, summary.lines.as_slice())?;
    put_lists(&mut text, summary.lists.as_slice())?;
    put_nodes(alloc, &mut text, summary.nodes.as_slice())?;
    Ok(text)
}

/// How long the report of a run usually is: room for so much at once saves copies of a text that grows.
fn usual_len(summary: &Summary) -> usize {
    let mut len = summary.lines.len().saturating_mul(USUAL_LINE_BYTES);
    for listed in summary.lists.as_slice() {
        let entries = listed.entries.len().saturating_mul(USUAL_ENTRY_BYTES);
        len = len.saturating_add(entries);
    }
    len
}

/// Appends the lines that events gave.
fn put_lines(text: &mut Vec<u8>, lines: &[Line]) -> Result<(), NoMemory>
    ensures { OnOk result (text.new.items ≡ text.old.items ++ flat_map line_text lines.now) }
{
    for line in lines {
        put_line(text, line)?;
    }
    Ok(())
}

/// Appends the list of each configuration.
fn put_lists(text: &mut Vec<u8>, lists: &[Listed]) -> Result<(), NoMemory>
    ensures { OnOk result (text.new.items ≡ text.old.items ++ flat_map listed_text lists.now) }
{
    for listed in lists {
        put_listed(text, listed)?;
    }
    Ok(())
}

/// Appends a configuration's list.
fn put_listed(text: &mut Vec<u8>, listed: &Listed) -> Result<(), NoMemory>
    ensures { OnOk result (text.new.items ≡ text.old.items ++ listed_text listed.now) }
{
    put_config(text, listed.conf, listed.members.as_slice())?;
    put_entries(text, listed.conf, listed.entries.as_slice())
}

/// Appends the line that begins a configuration's list.
fn put_config(text: &mut Vec<u8>, conf: ConfNo, members: &[Pid]) -> Result<(), NoMemory>
    ensures { OnOk result (text.new.items ≡ text.old.items ++ config_line conf members.now) }
{
    put_named(text, b"config ", u64::from(conf))?;
    text.extend_from_slice(b" members")?;
    put_pids(text, members)?;
    text.push(b'\n')?;
    Ok(())
}

/// Appends the entries of a configuration, from position 0 on.
fn put_entries(text: &mut Vec<u8>, conf: ConfNo, entries: &[Entry]) -> Result<(), NoMemory>
    ensures { OnOk result (text.new.items ≡ text.old.items ++ entries_text conf 0 entries.now) }
{
    for (pos, entry) in entries.iter().enumerate() {
        put_entry(text, conf, pos as u64, entry)?;
    }
    Ok(())
}

/// Appends the line of each node.
fn put_nodes(alloc: Global, text: &mut Vec<u8>, nodes: &[NodeLine]) -> Result<(), NoMemory>
    ensures { OnOk result (text.new.items ≡ text.old.items ++ flat_map node_text nodes.now) }
{
    for node in nodes {
        text.extend_from_slice(&node_line(alloc, node)?)?;
    }
    Ok(())
}
